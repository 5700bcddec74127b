//! What the words of `show` look for.

ghost use Rattle.std.specs.Prelude.{◌<◌, IfSome};

use crate::words::ShowRequest;
use hex::FromHexError;
use history_lines::{Look, ShortHandle, Sought, SoughtHandle, procedure_name};
use nfs3_types::Procedure;
use std::alloc::{AllocError, Global};

/// Why it isn't known what is looked for.
#[derive(Clone, Copy)]
pub enum LookFault {
    /// The handle is neither hexadecimal nor a short form.
    BadHandle,
    NoMemory,
}

impl From<AllocError> for LookFault {
    fn from(_error: AllocError) -> LookFault {
        LookFault::NoMemory
    }
}

/// The procedure of NFS version 3 of this name (RFC 1813, section 3.3), in capitals or not.
pub(crate) fn procedure_named(name: &str) -> Option<Procedure> {
    for number in 0..22 {
        let procedure = Procedure::from_number(number)?;
        if procedure_name(procedure).eq_ignore_ascii_case(name) {
            return Some(procedure);
        }
    }
    None
}

/// The handle that a text is: hexadecimal digits, or `#` and the twelve of its short form.
fn sought_handle(alloc: Global, text: &str) -> Result<SoughtHandle, LookFault> {
    match text.strip_prefix('#') {
        Some(digits) => {
            let mut bytes = [0; 6];
            match hex::decode_to_slice(digits, bytes.as_mut_slice()) {
                Ok(()) => Ok(SoughtHandle::Short(ShortHandle::of_bytes(bytes))),
                Err(_) => Err(LookFault::BadHandle),
            }
        }
        None => match hex::decode(alloc, text) {
            Ok(bytes) => Ok(SoughtHandle::Whole(bytes)),
            Err(FromHexError::OutOfMemory) => Err(LookFault::NoMemory),
            Err(_) => Err(LookFault::BadHandle),
        },
    }
}

/// The number that a hexadecimal digit is.
fn digit_of(byte: u8) -> Option<u8>
    ensures { IfSome result (λ digit. digit < 16) }
{
    match byte {
        b'0'..=b'9' => Some(byte - b'0'),
        b'a'..=b'f' => Some(byte - b'a' + 10),
        b'A'..=b'F' => Some(byte - b'A' + 10),
        _ => None,
    }
}

/// The byte that two hexadecimal digits are.
fn byte_of(high: u8, low: u8) -> Option<u8> {
    Some(digit_of(high)? * 16 + digit_of(low)?)
}

/// The first byte of a name as lines of events write it, and how many bytes of the text it takes.
fn first_byte(text: &[u8]) -> Option<(u8, usize)> {
    let byte = *text.first()?;
    if byte != b'\\' || text.len() < 2 {
        return Some((byte, 1));
    }
    match text[1] {
        b'\\' | b'"' => Some((text[1], 2)),
        b'x' if text.len() >= 4 => match byte_of(text[2], text[3]) {
            Some(written) => Some((written, 4)),
            None => Some((byte, 1)),
        },
        _ => Some((byte, 1)),
    }
}

/// The name that a text is, as lines of events write it: a byte as itself, or as `\x` and two digits; a quote and a backslash may stand
/// after a backslash.
fn sought_name(alloc: Global, text: &[u8]) -> Result<Vec<u8>, AllocError> {
    let mut name = Vec::new(alloc);
    let mut at = 0;
    for _ in 0..text.len() {
        let Some(rest) = text.get(at..) else {
            break;
        };
        let Some((byte, taken)) = first_byte(rest) else {
            break;
        };
        name.push(byte)?;
        at = at.saturating_add(taken);
    }
    Ok(name)
}

/// What is looked for, and how it is shown.
pub fn look_of(alloc: Global, request: &ShowRequest<'_>) -> Result<Look, LookFault> {
    let handle = match request.handle {
        Some(text) => Some(sought_handle(alloc, text)?),
        None => None,
    };
    let name = match request.name {
        Some(text) => Some(sought_name(alloc, text.as_bytes())?),
        None => None,
    };
    let mut look = Look::at(request.selection);
    look.sought = Sought { handle, name };
    look.has_short_handles = request.has_short_handles;
    Ok(look)
}
