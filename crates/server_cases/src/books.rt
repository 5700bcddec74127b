//! A book that obeys commands.

use crate::command::Command;
use crate::letters::{print_letters, read_letters};
use crate::opening::{device_of, start_of};
use anyhow::{Context, Result, bail};
use certificate::{Certificate, write_certificate};
use client_calls::plain_call;
use nfs_history::History;
use nfs3_msgs::read_result;
use recorder::{Book, JournalDevice, SimDevice, Token, rebuild_from};
use replay_law::Replayable;
use std::alloc::Global;
use std::io::Write;
use witness_check::{Verdict, check};

/// A book, and what names the calls that began in it or in the books before it.
#[derive(Drop)]
pub struct Driver {
    alloc: Global,
    book: Book<SimDevice>,
    tokens: Vec<Token>,
}

// A book that begins so.
fn new_book(alloc: Global, command: Command<'_>) -> Result<Book<SimDevice>> {
    let (profile, start) = start_of(alloc, command)?;
    Ok(Book::new_from(alloc, device_of(alloc, command), profile, start)?)
}

// The message of a call.
fn message_of(alloc: Global, xid: u64, procedure: u64, text: &str) -> Result<Vec<u8>> {
    let arguments = read_letters(alloc, text)?;
    let mut message = plain_call(alloc, u32::try_from(xid)?, u32::try_from(procedure)?)?;
    message.extend_from_slice(arguments.as_slice())?;
    Ok(message)
}

/// Prints the text of a certificate, with a semicolon in place of each line feed.
pub fn print_certificate<W: Write>(
    output: &mut W,
    alloc: Global,
    certificate: &Certificate,
) -> Result<()> {
    let mut text = write_certificate(alloc, certificate)?;
    for byte in text.iter_mut() {
        if *byte == b'\n' {
            *byte = b';';
        }
    }
    Ok(output.write_all(text.as_slice())?)
}

/// Prints whether a certificate is a witness of a history.
pub fn print_verdict<W: Write>(
    output: &mut W,
    alloc: Global,
    history: &History,
    certificate: &Certificate,
) -> Result<()> {
    match check(alloc, history, certificate)? {
        Verdict::Yes => writeln!(output, " yes")?,
        Verdict::No(fault) => writeln!(output, " no: {fault}")?,
    }
    Ok(())
}

impl Driver {
    /// With a book whose device never fails, of a server that holds nothing.
    pub fn new(alloc: Global) -> Result<Driver> {
        Ok(Driver {
            alloc,
            book: Book::new(alloc, SimDevice::new(alloc, None, None, None))?,
            tokens: Vec::new(alloc),
        })
    }

    // What names a call that began in this book, or in one before it.
    fn token(&self, number: u64) -> Result<Token> {
        let token = self.tokens.get((number as usize).wrapping_sub(1));
        Ok(*token.context("no such call ever began")?)
    }

    // Begins a call with this message, and prints its number.
    fn begin<W: Write>(&mut self, output: &mut W, lane: u64, message: &[u8]) -> Result<()> {
        let token = self.book.begin(u32::try_from(lane)?, message)?;
        let number = token.number();
        if number > self.tokens.len() as u64 {
            self.tokens.push(token)?;
        }
        Ok(writeln!(output, "ok {number}")?)
    }

    // Places a call, with this result of a procedure.
    fn place(&mut self, number: u64, procedure: u64, text: &str) -> Result<()> {
        let token = self.token(number)?;
        let bytes = read_letters(self.alloc, text)?;
        let reply = read_result(self.alloc, u32::try_from(procedure)?, bytes.as_slice())?;
        Ok(self.book.place(token, reply)?)
    }

    // Answers a call, and prints the message of the reply.
    fn answer<W: Write>(&mut self, output: &mut W, number: u64) -> Result<()> {
        let token = self.token(number)?;
        let message = self.book.answer(token)?;
        write!(output, "ok ")?;
        print_letters(output, message.as_slice())
    }

    // The bytes of the tree.
    fn tree(&self) -> Result<Vec<u8>> {
        let mut text = Vec::new(self.alloc);
        self.book.print_tree(&mut text)?;
        Ok(text)
    }

    // Whether the journal gives the tree after what was there at first.
    fn is_rebuilt(&self) -> Result<bool> {
        let wanted = self.tree()?;
        let history = self.book.history();
        let records = self.book.device().records();
        let tree = rebuild_from(self.alloc, history.profile(), history.start(), records)?;
        let mut text = Vec::new(self.alloc);
        tree.print_state(&mut text)?;
        Ok(text.as_slice() == wanted.as_slice())
    }

    // Prints something of the book as it is.
    fn show<W: Write>(&self, output: &mut W, word: &str) -> Result<()> {
        match word {
            "check" => {
                write!(output, "check")?;
                let certificate = self.book.certificate()?;
                print_verdict(output, self.alloc, self.book.history(), &certificate)?;
            }
            "rebuild" => match self.is_rebuilt() {
                Ok(true) => writeln!(output, "rebuild yes")?,
                Ok(false) => writeln!(output, "rebuild no")?,
                Err(fault) => writeln!(output, "rebuild no: {fault}")?,
            },
            "journal" => {
                let device = self.book.device();
                let (records, safe, faults) = (device.len(), device.mark(), device.faults());
                let events = self.book.history().events().len();
                writeln!(output, "{records} {safe} {faults} {events}")?;
            }
            "tree" => print_letters(output, self.tree()?.as_slice())?,
            "certificate" => {
                print_certificate(output, self.alloc, &self.book.certificate()?)?;
                writeln!(output)?;
            }
            _ => bail!("no command of a book"),
        }
        Ok(())
    }

    // Does what a command asks for, and prints the answer.
    fn obey<W: Write>(&mut self, output: &mut W, command: Command<'_>) -> Result<()> {
        let [first, second, third, _] = command.numbers;
        let text = command.text;
        match command.word {
            "new" => self.book = new_book(self.alloc, command)?,
            "begin" => {
                let message = message_of(self.alloc, second, third, text)?;
                return self.begin(output, first, message.as_slice());
            }
            "raw" => {
                let message = read_letters(self.alloc, text)?;
                return self.begin(output, first, message.as_slice());
            }
            "place" => self.place(first, second, text)?,
            "flush" => self.book.flush()?,
            "answer" => return self.answer(output, first),
            "close" => self.book.close_lane(text.parse()?)?,
            "crash" => self.book.crash(first)?,
            word => return self.show(output, word),
        }
        Ok(writeln!(output, "ok")?)
    }

    /// Does what each line asks for, and prints the answer, or why there is none.
    pub fn obey_all<W: Write>(&mut self, output: &mut W, lines: &str) -> Result<()> {
        for line in lines.lines() {
            let command = Command::parse(line)?;
            if let Err(fault) = self.obey(output, command) {
                writeln!(output, "{fault}")?;
            }
        }
        Ok(())
    }
}
