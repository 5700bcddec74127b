//! How bytes are spelled: parts joined by points. A part is a number, for its four bytes, `x` and bytes in lower
//! case hex, or a byte and a count joined by a star.

use anyhow::{Context, Result};
use std::alloc::Global;
use std::io::Write;

// Appends so many times a byte.
fn put_run(bytes: &mut Vec<u8>, byte: &str, count: &str) -> Result<()> {
    let byte: u8 = byte.parse().context("no byte")?;
    let count: usize = count.parse().context("no count")?;
    let length = bytes.len().checked_add(count).context("too many bytes")?;
    bytes.resize(length, byte)?;
    Ok(())
}

// Appends the bytes that a part spells.
fn put_part(alloc: Global, bytes: &mut Vec<u8>, part: &str) -> Result<()> {
    if let Some((byte, count)) = part.split_once('*') {
        return put_run(bytes, byte, count);
    }
    if let Some(digits) = part.strip_prefix('x') {
        let more = hex::decode(alloc, digits)?;
        bytes.extend_from_slice(more.as_slice())?;
        return Ok(());
    }
    let word: u32 = part.parse().context("no word")?;
    bytes.extend_from_slice(word.to_be_bytes().as_slice())?;
    Ok(())
}

/// The bytes that are spelled so; none if nothing is.
pub fn read_letters(alloc: Global, text: &str) -> Result<Vec<u8>> {
    let mut bytes = Vec::new(alloc);
    if !text.is_empty() {
        for part in text.split('.') {
            put_part(alloc, &mut bytes, part)?;
        }
    }
    Ok(bytes)
}

// Prints four bytes as a number, fewer one by one.
fn print_word<W: Write>(output: &mut W, bytes: &[u8]) -> Result<()> {
    if let [a, b, c, d] = bytes {
        let word = u32::from_be_bytes([*a, *b, *c, *d]);
        return Ok(write!(output, "{word}")?);
    }
    for byte in bytes {
        let byte = *byte;
        write!(output, "{byte}*1")?;
    }
    Ok(())
}

/// Prints bytes as numbers joined by points, and ends the line.
pub fn print_letters<W: Write>(output: &mut W, bytes: &[u8]) -> Result<()> {
    for (index, word) in bytes.chunks(4).enumerate() {
        if index > 0 {
            write!(output, ".")?;
        }
        print_word(output, word)?;
    }
    Ok(writeln!(output)?)
}
