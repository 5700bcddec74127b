//! An explanation as an object of JSON (RFC 8259).

use crate::behind::{Behind, Told};
use program_streams::Report;
use serde::{Described, Serialize, Serializer};
use std::alloc::{AllocError, Global};

/// The object.
#[derive(Clone, Copy)]
struct Object<'a> {
    line: &'a str,
    status: u8,
    told: Option<Told>,
    /// In hexadecimal.
    right: Option<&'a str>,
    words: &'a str,
}

impl Described for Object<'_> {}

/// Puts a name and a number.
fn put_number<S: Serializer>(out: &mut S, name: &str, number: u64) -> Result<(), S::Error> {
    out.key(name)?;
    out.u64(number)
}

/// Puts the name of a reason, and its call.
fn put_kind<S: Serializer>(out: &mut S, kind: &str, call: u64) -> Result<(), S::Error> {
    out.key("kind")?;
    out.str(kind)?;
    put_number(out, "call", call)
}

/// Puts the members of a reason.
fn put_told<S: Serializer>(out: &mut S, told: Told) -> Result<(), S::Error> {
    match told {
        Told::Illegal {
            call,
            era,
            position,
        } => {
            put_kind(out, "Illegal", call)?;
            put_number(out, "era", era)?;
            put_number(out, "position", position)
        }
        Told::Early { call, other } => {
            put_kind(out, "Early", call)?;
            put_number(out, "ended", other)
        }
        Told::ShortCut {
            call,
            era,
            position,
            cut,
        } => {
            put_kind(out, "ShortCut", call)?;
            put_number(out, "era", era)?;
            put_number(out, "position", position)?;
            put_number(out, "cut", cut)
        }
        Told::NoWitness { event, call } => {
            put_kind(out, "NoWitness", call)?;
            put_number(out, "event", event)
        }
    }
}

/// Puts the result that would be right.
fn put_right<S: Serializer>(out: &mut S, right: Option<&str>) -> Result<(), S::Error> {
    let Some(right) = right else {
        return Ok(());
    };
    out.key("right")?;
    out.str(right)
}

/// Puts a reason as an object; `null` where there is none to tell.
fn put_reason<S: Serializer>(
    out: &mut S,
    told: Option<Told>,
    right: Option<&str>,
) -> Result<(), S::Error> {
    let Some(told) = told else {
        return out.unit();
    };
    out.begin_map(None)?;
    put_told(out, told)?;
    put_right(out, right)?;
    out.end_map()
}

/// Puts lines as texts.
fn put_lines<S: Serializer>(out: &mut S, lines: &str) -> Result<(), S::Error> {
    out.begin_seq(None)?;
    for line in lines.split_terminator('\n') {
        out.str(line)?;
    }
    out.end_seq()
}

impl Serialize for Object<'_> {
    fn serialize<S: Serializer>(&self, out: &mut S) -> Result<(), S::Error> {
        out.begin_map(None)?;
        out.key("line")?;
        out.str(self.line)?;
        put_number(out, "status", u64::from(self.status))?;
        out.key("reason")?;
        put_reason(out, self.told, self.right)?;
        out.key("words")?;
        put_lines(out, self.words)?;
        out.end_map()
    }
}

/// The object of what is said, with the result that would be right in hexadecimal, on one line.
fn line_of<'a>(
    alloc: Global,
    said: &'a Report,
    behind: &'a Behind,
    right: Option<&'a str>,
) -> Result<String, AllocError> {
    let object = Object {
        line: said.line().trim_end(),
        status: said.status(),
        told: behind.told,
        right,
        // All bytes are printable.
        words: str::from_utf8(behind.lines.as_slice()).unwrap_or(""),
    };
    let Ok(text) = serde_json::to_string(alloc, &object) else {
        // Each value here can be written, so that this is for memory.
        return Err(AllocError);
    };
    let mut line = text;
    line.push_str("\n")?;
    Ok(line)
}

/// The object of what is said, and of what is known behind it, on one line.
pub(crate) fn object_line(
    alloc: Global,
    said: &Report,
    behind: &Behind,
) -> Result<String, AllocError> {
    match &behind.right {
        Some(result) => {
            let right = hex::encode(alloc, result.as_slice())?;
            line_of(alloc, said, behind, Some(right.as_str()))
        }
        None => line_of(alloc, said, behind, None),
    }
}
