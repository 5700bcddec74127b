//! What a line asks for.

use anyhow::{Context, Result, bail};

/// The words that begin lines, and how many numbers follow each. Then comes a text, or nothing.
const WORDS: [(&str, usize); 20] = [
    ("new", 3), // A new book, which begins so.
    ("begin", 3), // A call that comes on a lane: the lane, the transaction number, the procedure's (RFC 1813, section 3.3), and the arguments.
    ("raw", 1), // A call that comes on a lane as this message, whatever it is.
    ("place", 2), // A reply to a call of a book: the call's number, the procedure's, and the result.
    ("flush", 0), // That all records are put on stable storage.
    ("answer", 1), // That the reply to the call with this number goes out.
    ("close", 0), // The end of this lane of a book; of a server, by the passes with these numbers.
    ("crash", 1), // A crash that so many records outlive; of a server, at most so many beside those on stable storage.
    ("check", 0), // Whether the book's certificate is a witness of its history.
    ("rebuild", 0), // Whether the journal alone gives the book's tree.
    ("journal", 0), // How many records the journal has, how many are safe, how often it failed, and how many events the history has.
    ("tree", 0), // The bytes of the tree.
    ("certificate", 0), // The text of the certificate.
    ("server", 3), // A new server, which begins so.
    ("join", 1), // So many passes of a server.
    ("call", 1), // A server's answer to this message, to the pass with this number.
    ("leave", 1), // That the pass with this number leaves.
    ("soak", 4), // A server, which begins so, and which threads call at random; the fourth number is what chance begins with.
    ("figures", 0), // What all servers did that threads called at random.
    ("bench", 2), // How fast a server answers: so many threads, so many calls, and their kind.
];

/// What a line asks for.
#[derive(Clone, Copy)]
pub struct Command<'a> {
    /// Its first word.
    pub word: &'a str,
    /// The numbers that follow; 0 for those that the word doesn't have.
    pub numbers: [u64; 4],
    /// What follows these.
    pub text: &'a str,
}

/// What comes before the first such mark, and what follows it; all and nothing, if there is none.
pub fn split_off(text: &str, mark: char) -> (&str, &str) {
    text.split_once(mark).unwrap_or((text, ""))
}

// How many numbers follow a word.
fn count_of(word: &str) -> Result<usize> {
    for (known, count) in WORDS {
        if known == word {
            return Ok(count);
        }
    }
    bail!("no command")
}

// A number at the front of a text, if one is wanted there, and what follows it.
fn split_number(is_wanted: bool, text: &str) -> Result<(u64, &str)> {
    if !is_wanted {
        return Ok((0, text));
    }
    let (digits, rest) = split_off(text, ' ');
    let number = digits.parse().context("no number")?;
    Ok((number, rest))
}

impl<'a> Command<'a> {
    /// What a line asks for.
    pub fn parse(line: &'a str) -> Result<Command<'a>> {
        let (word, text) = split_off(line, ' ');
        let count = count_of(word)?;
        let (first, text) = split_number(count > 0, text)?;
        let (second, text) = split_number(count > 1, text)?;
        let (third, text) = split_number(count > 2, text)?;
        let (fourth, text) = split_number(count > 3, text)?;
        Ok(Command {
            word,
            numbers: [first, second, third, fourth],
            text,
        })
    }
}
