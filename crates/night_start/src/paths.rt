//! Paths, as they are printed.

use std::alloc::{AllocError, Global};
use walk_accounts::Account;

const DIGITS: &[u8; 16] = b"0123456789abcdef";

/// Whether a byte of a name is printed as it is.
fn is_plain_byte(byte: u8) -> bool {
    byte > b' ' && byte < 127 && byte != b'/' && byte != b'\\'
}

/// Writes a name behind what is there: bytes that aren't printed are two hexadecimal digits behind `\x`.
pub(crate) fn push_name(text: &mut String, name: &[u8]) -> Result<(), AllocError> {
    for byte in name {
        if is_plain_byte(*byte) {
            text.push(char::from(*byte))?;
        } else {
            text.push_str("\\x")?;
            text.push(char::from(DIGITS[(*byte / 16) as usize]))?;
            text.push(char::from(DIGITS[(*byte % 16) as usize]))?;
        }
    }
    Ok(())
}

/// The accounts from this one up to below the root.
fn accounts_above(
    alloc: Global,
    accounts: &[Account],
    number: usize,
) -> Result<Vec<usize>, AllocError> {
    let mut above = Vec::new(alloc);
    let mut place = number;
    for _ in 0..accounts.len() {
        if place == 0 {
            break;
        }
        above.push(place)?;
        place = match accounts.get(place) {
            Some(account) => account.parent as usize,
            None => 0,
        };
    }
    Ok(above)
}

/// The path of an object, from the root on, and of a name in it.
pub(crate) fn path_of(
    alloc: Global,
    accounts: &[Account],
    number: usize,
    name: Option<&[u8]>,
) -> Result<String, AllocError> {
    let above = accounts_above(alloc, accounts, number)?;
    let mut text = String::new(alloc);
    for place in above.iter().rev() {
        if let Some(account) = accounts.get(*place) {
            text.push_str("/")?;
            push_name(&mut text, account.name.as_slice())?;
        }
    }
    if let Some(name) = name {
        text.push_str("/")?;
        push_name(&mut text, name)?;
    }
    if text.is_empty() {
        text.push_str("/")?;
    }
    Ok(text)
}
