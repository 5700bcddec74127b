//! A server that obeys commands.

use crate::books::{print_certificate, print_verdict};
use crate::command::Command;
use crate::letters::{print_letters, read_letters};
use crate::opening::{device_of, start_of};
use anyhow::{Context, Result, bail};
use journal_server::{Closed, Gate, OpenGate, Pass, Profile, Server, SimDevice};
use nfs_history::{History, WriteFault, write_history, write_history_from};
use sha2::{Digest, Sha256};
use std::alloc::Global;
use std::io::Write;
use std::sync::Wait;

/// The longest reply that is printed whole.
const LONGEST_PRINTED: usize = 256;

/// A server that nothing holds.
pub type SimServer = Server<OpenGate, SimDevice>;

/// The passes that servers gave, in the order of joining, numbered from 1 over all servers, but for those that closed one.
pub type Passes = Vec<Option<Pass>>;

// The place of the pass with this number.
fn place_of(passes: &mut Passes, number: u64) -> Result<&mut Option<Pass>> {
    let place = passes.get_mut((number as usize).wrapping_sub(1));
    place.context("no such pass")
}

// The pass with this number.
fn pass_of(passes: &mut Passes, number: u64) -> Result<&mut Pass> {
    place_of(passes, number)?
        .as_mut()
        .context("the pass is gone")
}

// Takes the passes out that a text names.
fn take_all(alloc: Global, passes: &mut Passes, numbers: &str) -> Result<Vec<Pass>> {
    let mut taken = Vec::new(alloc);
    if !numbers.is_empty() {
        for number in numbers.split(' ') {
            let number = number.parse().context("no number")?;
            let pass = place_of(passes, number)?.take();
            taken.push(pass.context("the pass is gone")?)?;
        }
    }
    Ok(taken)
}

// Prints how many bytes there are, and their digest.
fn print_digest<W: Write>(output: &mut W, alloc: Global, bytes: &[u8]) -> Result<()> {
    let length = bytes.len();
    let digest = Sha256::digest(bytes);
    let digits = hex::encode(alloc, digest.as_slice())?;
    let digits = digits.as_str();
    Ok(write!(output, "{length} bytes {digits}")?)
}

// Prints the message of a reply; of a long one how long it is, and its digest.
fn print_answer<W: Write>(output: &mut W, alloc: Global, message: &[u8]) -> Result<()> {
    write!(output, "ok ")?;
    if message.len() <= LONGEST_PRINTED {
        return print_letters(output, message);
    }
    print_digest(output, alloc, message)?;
    Ok(writeln!(output)?)
}

// Does what a command asks for, and prints the answer.
fn obey<R: Wait, W: Write>(
    rt: &R,
    alloc: Global,
    output: &mut W,
    server: &SimServer,
    passes: &mut Passes,
    command: Command<'_>,
) -> Result<()> {
    let number = command.numbers[0];
    match command.word {
        "join" => {
            for _ in 0..number {
                passes.push(Some(server.join_lane(rt)?))?;
            }
        }
        "call" => {
            let message = read_letters(alloc, command.text)?;
            let answer = server.call(rt, pass_of(passes, number)?, message.as_slice())?;
            return print_answer(output, alloc, answer.as_slice());
        }
        "leave" => server.leave(rt, pass_of(passes, number)?)?,
        "crash" => server.crash(rt, number)?,
        _ => bail!("no command of a server"),
    }
    Ok(writeln!(output, "ok")?)
}

// Obeys the commands before the one that closes the server, prints each answer, or why there is none, and gives the passes that close it.
fn obey_all<R: Wait, W: Write>(
    rt: &R,
    alloc: Global,
    output: &mut W,
    server: &SimServer,
    passes: &mut Passes,
    lines: &str,
) -> Result<Vec<Pass>> {
    for line in lines.lines() {
        let command = Command::parse(line)?;
        if command.word == "close" {
            return take_all(alloc, passes, command.text);
        }
        if let Err(fault) = obey(rt, alloc, output, server, passes, command) {
            writeln!(output, "{fault}")?;
        }
    }
    bail!("never closed")
}

/// Closes a server by the passes that came of its run; by none, if that failed, and then gives its fault.
pub fn close_after<G: Gate>(
    alloc: Global,
    server: Server<G, SimDevice>,
    ran: Result<Vec<Pass>>,
) -> Result<Closed> {
    match ran {
        Ok(passes) => Ok(server.close(passes)?),
        Err(fault) => {
            drop(server.close(Vec::new(alloc)));
            Err(fault)
        }
    }
}

// The file of a history: of version 1 if nothing was there at first and attributes aren't judged, else of version 2.
fn file_of(alloc: Global, history: &History) -> Result<Vec<u8>, WriteFault> {
    let root = history.root().as_slice();
    let profile = history.profile();
    let start = history.start();
    if profile == Profile::Plain && start.objects().is_empty() {
        return write_history(alloc, root, history.events());
    }
    write_history_from(alloc, root, profile, start, history.events())
}

/// Makes a server as the first command says, obeys the others, closes the server, and prints what came of each: at the end the
/// certificate, what the history's file is, and the verdict.
pub fn run_server<R: Wait, W: Write>(
    rt: &R,
    alloc: Global,
    output: &mut W,
    passes: &mut Passes,
    first: Command<'_>,
    lines: &str,
) -> Result<()> {
    let (profile, start) = start_of(alloc, first)?;
    let server = Server::new_from(alloc, OpenGate, device_of(alloc, first), profile, start)?;
    let closing = obey_all(rt, alloc, output, &server, passes, lines);
    let closed = close_after(alloc, server, closing)?;
    print_certificate(output, alloc, &closed.certificate)?;
    let file = file_of(alloc, &closed.history)?;
    write!(output, " ")?;
    print_digest(output, alloc, file.as_slice())?;
    print_verdict(output, alloc, &closed.history, &closed.certificate)
}
