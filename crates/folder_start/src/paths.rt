//! Paths, as the system takes them and as they are printed.

use crate::refusal::{FolderFault, Refusal, Stop};
use std::alloc::{AllocError, Global};

const DIGITS: &[u8; 16] = b"0123456789abcdef";

/// The path of a directory, with a slash at its end.
pub(crate) fn with_slash(alloc: Global, directory: &str) -> Result<String, AllocError> {
    let mut path = String::from_str(alloc, directory)?;
    if !directory.ends_with('/') {
        path.push('/')?;
    }
    Ok(path)
}

/// The path of what has this name in a directory.
pub(crate) fn path_in(alloc: Global, directory: &str, name: &str) -> Result<String, AllocError> {
    let mut path = with_slash(alloc, directory)?;
    path.push_str(name)?;
    Ok(path)
}

/// Writes a byte as two hexadecimal digits behind `\x`.
fn push_digits(text: &mut String, byte: u8) -> Result<(), AllocError> {
    text.push_str("\\x")?;
    text.push(char::from(DIGITS[(byte / 16) as usize]))?;
    text.push(char::from(DIGITS[(byte % 16) as usize]))
}

/// Writes text as it is, but for what isn't printed.
fn push_text(text: &mut String, shown: &str) -> Result<(), AllocError> {
    for character in shown.chars() {
        let code = u32::from(character);
        if code < 32 || code == 127 || character == '\\' {
            push_digits(text, code as u8)?;
        } else {
            text.push(character)?;
        }
    }
    Ok(())
}

/// Writes bytes that aren't UTF-8.
fn push_bytes(text: &mut String, shown: &[u8]) -> Result<(), AllocError> {
    for byte in shown {
        if *byte < 32 || *byte > 126 || *byte == b'\\' {
            push_digits(text, *byte)?;
        } else {
            text.push(char::from(*byte))?;
        }
    }
    Ok(())
}

/// A path, as it is printed.
fn shown_path(alloc: Global, path: &str) -> Result<String, AllocError> {
    let mut text = String::new(alloc);
    push_text(&mut text, path)?;
    Ok(text)
}

/// The path of a name that isn't UTF-8, as it is printed.
fn shown_name(alloc: Global, directory: &str, name: &[u8]) -> Result<String, AllocError> {
    let mut text = String::new(alloc);
    push_text(&mut text, directory)?;
    if !directory.ends_with('/') {
        text.push('/')?;
    }
    push_bytes(&mut text, name)?;
    Ok(text)
}

/// What the user is told of a path.
pub(crate) fn fault_at(alloc: Global, stop: Stop, path: &str) -> FolderFault {
    let Stop::Refused(cause) = stop else {
        return FolderFault::NoMemory;
    };
    match shown_path(alloc, path) {
        Ok(path) => FolderFault::Refused(Refusal { cause, path }),
        Err(_) => FolderFault::NoMemory,
    }
}

/// What the user is told of a name that isn't UTF-8.
pub(crate) fn fault_of_name(
    alloc: Global,
    stop: Stop,
    directory: &str,
    name: &[u8],
) -> FolderFault {
    let Stop::Refused(cause) = stop else {
        return FolderFault::NoMemory;
    };
    match shown_name(alloc, directory, name) {
        Ok(path) => FolderFault::Refused(Refusal { cause, path }),
        Err(_) => FolderFault::NoMemory,
    }
}
