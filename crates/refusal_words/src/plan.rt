//! Why the text of a certificate is refused.

use crate::history::push_line;
use certificate::TextFault;
use history_lines::Text;
use std::alloc::{AllocError, Global};

/// How many bytes of a line are shown.
const SHOWN: usize = 100;

/// The line of this number, from 1, without its line feed, and whether it has one; none where the text ends before it.
fn line_at(text: &[u8], number: u64) -> Option<(&[u8], bool)> {
    let mut begin: usize = 0;
    let mut left = number;
    for line in text.split(|byte| *byte == b'\n') {
        let end = begin.saturating_add(line.len());
        if left <= 1 && begin < text.len() {
            return Some((line, end < text.len()));
        }
        left = left.saturating_sub(1);
        begin = end.saturating_add(1);
    }
    None
}

/// What may follow a line.
fn wanted_behind(line: Option<&[u8]>) -> &'static str {
    match line {
        None => "witness 1",
        Some(line) if line.starts_with(b"witness ") || line.starts_with(b"bind ") => {
            "bind HANDLE OBJECT with a greater handle than the one before, place N, take N, take N COUNT, cut K, or end"
        }
        Some(line) if line.starts_with(b"end") => "nothing",
        Some(_) => "place N, take N, take N COUNT, cut K, or end",
    }
}

/// A line of the line at fault.
fn push_found(
    lines: &mut Vec<u8>,
    alloc: Global,
    number: u64,
    found: Option<(&[u8], bool)>,
) -> Result<(), AllocError> {
    let mut text = Text::new(alloc);
    text.push_number("line ", number)?;
    match found {
        Some((line, has_end)) => {
            let front = line.get(..SHOWN).unwrap_or(line);
            text.push_quoted(" is ", front)?;
            if front.len() < line.len() {
                text.push_words("..")?;
            }
            if !has_end {
                text.push_words(", without a line feed")?;
            }
        }
        None => text.push_words(" is missing")?,
    }
    push_line(lines, text)
}

/// Why a text with this fault is no certificate, as lines of printable bytes: the line at fault, and what may be there. An `Err` means that
/// memory ran out.
pub fn refused_certificate(
    alloc: Global,
    text: &[u8],
    fault: TextFault,
) -> Result<Vec<u8>, AllocError> {
    let mut lines = Vec::new(alloc);
    let TextFault::BadLine(number) = fault else {
        return Err(AllocError);
    };
    push_found(&mut lines, alloc, number, line_at(text, number))?;
    let ahead = match number.checked_sub(1) {
        Some(ahead) if ahead > 0 => line_at(text, ahead),
        _ => None,
    };
    let mut wanted = Text::new(alloc);
    wanted.push_words("wanted: ")?;
    wanted.push_words(wanted_behind(ahead.map(|(line, _)| line)))?;
    push_line(&mut lines, wanted)?;
    Ok(lines)
}
