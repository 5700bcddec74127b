//! Bytes in lower case hex (RFC 4648, section 8).

ghost use Rattle.std.specs.Prelude.{◌≡◌, ◌≢◌, ℕ, List, [], ◌∷◌, ◌+◌, ◌*◌, ◌%◌, ◌/◌, IfOk, IsTrue, true, ◌↔◌, length};
ghost use Rattle.std.specs.List.{AllPass};
ghost use Rattle.hex.specs.Hex.{IsBytes, encode_lower};
ghost use Rattle.program_streams.specs.Digits.{is_lower_digit};

use std::alloc::{AllocError, Global};

/// Why digits spell no bytes.
#[derive(Clone, Copy)]
pub enum DigitsFault {
    /// A byte is no digit, or there is an odd number of them.
    Malformed,
    /// Memory ran out.
    NoMemory,
}

impl From<AllocError> for DigitsFault {
    ghost use Rattle.program_streams.specs.declared.digits.DigitsFault.TheVariants.{NoMemory};

    ghost from_gives = { λ _ fault. fault ≡ NoMemory };

    fn from(_: AllocError) -> DigitsFault {
        DigitsFault::NoMemory
    }
}

fn is_lower_digit(byte: u8) -> bool
    ensures { result ≡ is_lower_digit byte }
{
    matches!(byte, b'0'..=b'9' | b'a'..=b'f')
}

/// Whether each byte is a digit, with no branch a byte: a text may have half a gigabyte.
fn are_lower_digits(text: &[u8]) -> bool
    ensures { IsTrue result ↔ AllPass is_lower_digit text.now }
{
    let mut all = true;
    for byte in text {
        all &= is_lower_digit(*byte);
    }
    all
}

/// The value of a digit: the low four bits of `0` to `9` are 0 to 9, those of `a` to `f` are 1 to 6, beside bit 64.
fn digit_value(digit: u8) -> u8
    ensures value { result ≡ (digit % 16 + 9 * (digit / 64)) % 16 }
{
    (digit % 16 + 9 * (digit / 64)) % 16
}

/// The byte that two digits spell.
fn byte_of(high: u8, low: u8) -> u8
    ensures spelled { is_lower_digit high ≡ true → is_lower_digit low ≡ true
        → encode_lower (result ∷ []) ≡ high ∷ low ∷ [] }
{
    digit_value(high) * 16 + digit_value(low)
}

/// The bytes that pairs of digits spell. `hex::decode` looks a digit up by branches, which took a third of the time of a
/// bundle's verdict.
fn decode_pairs(alloc: Global, digits: &[u8]) -> Result<Vec<u8>, AllocError>
    ensures bytes { IfOk result (λ bytes. IsBytes bytes.items) }
    ensures spelled { AllPass is_lower_digit digits.now → length digits.now % 2 ≡ 0
        → IfOk result (λ bytes. encode_lower bytes.items ≡ digits.now) }
{
    let count = digits.len() / 2;
    let mut bytes = Vec::with_capacity(alloc, count)?;
    for index in 0..count {
        bytes.push(byte_of(digits[2 * index], digits[2 * index + 1]))?;
    }
    Ok(bytes)
}

/// The bytes that the digits spell.
pub fn decode_digits(alloc: Global, digits: &[u8]) -> Result<Vec<u8>, DigitsFault>
    ensures bytes { IfOk result (λ bytes. IsBytes bytes.items) }
    ensures spelled { IfOk result (λ bytes. digits.now ≡ encode_lower bytes.items) }
    ensures malformed { result ≡ Err DigitsFault.Malformed
        → (bytes : List ℕ) → IsBytes bytes → digits.now ≢ encode_lower bytes }
{
    if digits.len() % 2 != 0 || !are_lower_digits(digits) {
        return Err(DigitsFault::Malformed);
    }
    Ok(decode_pairs(alloc, digits)?)
}
