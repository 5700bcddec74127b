//! Bytes that clients and servers sent, as text of a page.

ghost use Rattle.std.specs.Prelude.{◌≡◌, ◌<◌, ◌≤◌, ◌++◌, length, encode_utf8, option_map, IfOk, IfSome, OnOk};
ghost use Rattle.std.specs.Int.{is_in_range};
ghost use Rattle.history_picture.specs.Escaping.{is_control, is_noncharacter, is_turning, is_filler, is_selector, is_marking, is_unseen, is_hidden, hex_digit, four_digits, byte_escape, char_escape, shown_char, first_char, shown_first, taken_first, escaped, IsText};

use bstr::decode_utf8;
use std::alloc::{AllocError, Global};

/// Whether a number lies between two others, or is one of them.
fn is_between(low: u32, high: u32, code: u32) -> bool
    ensures { result ≡ is_in_range low high code }
{
    low <= code && code <= high
}

/// Whether it is a control.
fn is_control(code: u32) -> bool
    ensures { result ≡ is_control code }
{
    code < 0x20 || is_between(0x7f, 0x9f, code)
}

/// Whether it is a noncharacter.
fn is_noncharacter(code: u32) -> bool
    ensures { result ≡ is_noncharacter code }
{
    is_between(0xfdd0, 0xfdef, code) || code % 0x10000 > 0xfffd
}

/// Whether it turns the direction of a text, joins or parts what stands beside it, or begins a line.
fn is_turning(code: u32) -> bool
    ensures { result ≡ is_turning code }
{
    code == 0x61c
        || is_between(0x200b, 0x200f, code)
        || is_between(0x2028, 0x202e, code)
        || is_between(0x2060, 0x206f, code)
        || code == 0xfeff
}

/// Whether it is a letter without a shape.
fn is_filler(code: u32) -> bool
    ensures { result ≡ is_filler code }
{
    is_between(0x115f, 0x1160, code)
        || is_between(0x17b4, 0x17b5, code)
        || code == 0x3164
        || code == 0xffa0
}

/// Whether it chooses the shape of what stands before it, or is a tag.
fn is_selector(code: u32) -> bool
    ensures { result ≡ is_selector code }
{
    is_between(0x180b, 0x180f, code)
        || is_between(0xfe00, 0xfe0f, code)
        || is_between(0xe0000, 0xe0fff, code)
}

/// Whether it marks a break, an annotation, shorthand or music, without a shape of its own.
fn is_marking(code: u32) -> bool
    ensures { result ≡ is_marking code }
{
    code == 0xad
        || code == 0x34f
        || is_between(0xfff0, 0xfffb, code)
        || is_between(0x1bca0, 0x1bca3, code)
        || is_between(0x1d173, 0x1d17a, code)
}

/// Whether it has no shape of its own, or begins a line.
fn is_unseen(code: u32) -> bool
    ensures { result ≡ is_unseen code }
{
    is_turning(code) || is_filler(code) || is_selector(code) || is_marking(code)
}

/// Whether a character can't be seen in a page, or may not stand there.
fn is_hidden(code: u32) -> bool
    ensures { result ≡ is_hidden code }
{
    is_control(code) || is_noncharacter(code) || is_unseen(code)
}

/// A hexadecimal digit.
fn hex_digit(value: u32) -> u8
    requires { value < 16 }
    ensures { result ≡ hex_digit value }
{
    if value < 10 {
        b'0' + value as u8
    } else {
        b'a' + (value - 10) as u8
    }
}

/// A number as four hexadecimal digits.
fn four_digits(number: u32) -> [u8; 4]
    ensures { result ≡ four_digits number }
{
    [
        hex_digit(number / 0x1000 % 16),
        hex_digit(number / 0x100 % 16),
        hex_digit(number / 16 % 16),
        hex_digit(number % 16),
    ]
}

/// Appends a byte as `\xff`.
fn push_byte_escape(out: &mut Vec<u8>, byte: u32) -> Result<(), AllocError>
    ensures { OnOk result (out.new.items ≡ out.old.items ++ byte_escape byte) }
{
    let digits = [b'\\', b'x', hex_digit(byte / 16 % 16), hex_digit(byte % 16)];
    out.extend_from_slice(digits.as_slice())
}

/// Appends a character as `\x1b`, `\u202e` or `\U0001fffe`.
fn push_char_escape(out: &mut Vec<u8>, code: u32) -> Result<(), AllocError>
    ensures { OnOk result (out.new.items ≡ out.old.items ++ char_escape code) }
{
    if code < 0x80 {
        return push_byte_escape(out, code);
    }
    if code < 0x10000 {
        out.extend_from_slice(b"\\u")?;
        return out.extend_from_slice(four_digits(code).as_slice());
    }
    out.extend_from_slice(b"\\U")?;
    out.extend_from_slice(four_digits(code / 0x10000).as_slice())?;
    out.extend_from_slice(four_digits(code % 0x10000).as_slice())
}

/// Appends what stands for a character, which has these bytes.
fn push_char(out: &mut Vec<u8>, character: char, bytes: &[u8]) -> Result<(), AllocError>
    requires { bytes.now ≡ encode_utf8 character }
    ensures { OnOk result (out.new.items ≡ out.old.items ++ shown_char character) }
{
    match character {
        '&' => out.extend_from_slice(b"&amp;"),
        '<' => out.extend_from_slice(b"&lt;"),
        '>' => out.extend_from_slice(b"&gt;"),
        '"' => out.extend_from_slice(b"&quot;"),
        '\'' => out.extend_from_slice(b"&#39;"),
        _ if is_hidden(u32::from(character)) => push_char_escape(out, u32::from(character)),
        _ => out.extend_from_slice(bytes),
    }
}

/// The first character of some bytes with the bytes that it takes, if they begin with one.
fn first_char(bytes: &[u8]) -> Option<(char, &[u8])>
    requires { 0 < length bytes.now }
    ensures value { option_map (λ found. (found.0, length found.1.now)) result ≡ first_char bytes.now }
    ensures spelled { IfSome result (λ found. found.1.now ≡ encode_utf8 found.0) }
    ensures within { IfSome result (λ found. (0 < length found.1.now) × (length found.1.now ≤ length bytes.now)) }
{
    let (found, size) = decode_utf8(bytes);
    let Some(character) = found else {
        return None;
    };
    Some((character, &bytes[..size]))
}

/// Appends what stands for the first character of some bytes, or else for the first byte, and tells for how many bytes it stands.
fn push_first(out: &mut Vec<u8>, bytes: &[u8]) -> Result<usize, AllocError>
    requires { 0 < length bytes.now }
    ensures shown { OnOk result (out.new.items ≡ out.old.items ++ shown_first bytes.now (first_char bytes.now)) }
    ensures taken { IfOk result (λ taken. taken ≡ taken_first (first_char bytes.now)) }
    ensures within { IfOk result (λ taken. (0 < taken) × (taken ≤ length bytes.now)) }
{
    match first_char(bytes) {
        Some((character, spelling)) => {
            push_char(out, character, spelling)?;
            Ok(spelling.len())
        }
        None => {
            push_byte_escape(out, u32::from(bytes[0]))?;
            Ok(1)
        }
    }
}

/// What stands in a page for some bytes, as text or as a value in quotes.
pub fn escape(alloc: Global, bytes: &[u8]) -> Result<Vec<u8>, AllocError>
    ensures exact { IfOk result (λ text. text.items ≡ escaped bytes.now) }
    ensures text { IfOk result (λ text. IsText text.items) }
{
    let mut out = Vec::with_capacity(alloc, bytes.len())?;
    let mut rest = bytes;
    while !rest.is_empty() {
        let taken = push_first(&mut out, rest)?;
        let (_, behind) = rest.split_at(taken);
        rest = behind;
    }
    Ok(out)
}
