//! What a case asks for.

use anyhow::{Context, Result, bail};

/// What a text is that is read and written again.
#[derive(Clone, Copy)]
pub enum Format {
    /// The arguments of a procedure of NFS version 3.
    Call,
    /// The result of one.
    Result,
    /// An RPC call (RFC 5531, section 9).
    RpcCall,
    /// An RPC reply (RFC 5531, section 9).
    RpcReply,
    /// A history file.
    History,
    /// A certificate's text.
    Certificate,
    /// The records of a stream.
    Records,
}

/// What is to be done with a text.
#[derive(Clone, Copy)]
pub enum Kind {
    /// The text is a history file in hex and a certificate, which are judged.
    Plan,
    /// What is read is written again. The number is the procedure's.
    Again(Format),
    /// The events of a history file are made a history, in each way that there is.
    Built,
    /// Events of a history file are shown. The numbers are the first, the last, and the call's, or 0 for all calls.
    Lines,
    /// A certificate of a history file is searched. The numbers are how many workers search, from 1 to 64, and how many branches each
    /// may take.
    Search,
}

/// A text, and what is to be done with it.
#[derive(Clone, Copy)]
pub struct Case<'a> {
    pub name: &'a str,
    pub kind: Kind,
    /// The numbers that the kind asks for; 0 for those that aren't there.
    pub numbers: [u64; 3],
    /// The text, in hex but for a plan.
    pub text: &'a str,
}

// The kind that a word names.
fn kind_of(word: &str) -> Result<Kind> {
    Ok(match word {
        "call" => Kind::Again(Format::Call),
        "result" => Kind::Again(Format::Result),
        "rpc-call" => Kind::Again(Format::RpcCall),
        "rpc-reply" => Kind::Again(Format::RpcReply),
        "history" => Kind::Again(Format::History),
        "certificate" => Kind::Again(Format::Certificate),
        "records" => Kind::Again(Format::Records),
        "built" => Kind::Built,
        "lines" => Kind::Lines,
        "search" => Kind::Search,
        _ => bail!("no kind"),
    })
}

// The numbers that words spell, at most three.
fn numbers_of(words: &[&str]) -> Result<[u64; 3]> {
    let mut numbers = [0; 3];
    for (number, word) in numbers.iter_mut().zip(words) {
        *number = word.parse().context("no number")?;
    }
    Ok(numbers)
}

impl<'a> Case<'a> {
    /// The case of a history and a plan.
    pub fn of_plan(name: &'a str, bundle: &'a str) -> Case<'a> {
        Case {
            name,
            kind: Kind::Plan,
            numbers: [0; 3],
            text: bundle,
        }
    }

    /// The case that a line's words ask for.
    pub fn parse(words: &[&'a str]) -> Result<Case<'a>> {
        match words {
            [name, kind, numbers @ .., text] => Ok(Case {
                name: *name,
                kind: kind_of(*kind)?,
                numbers: numbers_of(numbers)?,
                text: *text,
            }),
            _ => bail!("a word is missing"),
        }
    }
}
