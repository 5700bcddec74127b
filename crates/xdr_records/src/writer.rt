//! Items appended to a message. Each has one written spelling: its padding is zero.

ghost use Rattle.std.specs.Prelude.{◌≡◌, ◌<◌, ◌^◌, ◌++◌, length, OnOk, OnErr};
ghost use Rattle.xdr_records.specs.Texts.{word_text, long_text, padding_text, flag_text, fixed_text, opaque_text};

use byteorder::{BigEndian, ByteOrder};
use std::alloc::AllocError;

static ZEROS: [u8; 3] = [0; 3];

// The number as a word.
#[tactic(auto, unfolding(crate::specs::Texts::word_text))]
fn word(n: u32) -> [u8; 4]
    ensures { result ≡ word_text n }
{
    let mut bytes = [0; 4];
    BigEndian::write_u32(&mut bytes, n);
    bytes
}

/// Appends a number as a word.
pub fn put_u32(out: &mut Vec<u8>, n: u32) -> Result<(), AllocError>
    ensures ok { OnOk result (out.new.items ≡ out.old.items ++ word_text n) }
    ensures err { OnErr result (out.new.items ≡ out.old.items) }
{
    out.extend_from_slice(&word(n))
}

/// Appends a number as two words.
#[tactic(auto, unfolding(crate::specs::Texts::long_text))]
pub fn put_u64(out: &mut Vec<u8>, n: u64) -> Result<(), AllocError>
    ensures ok { OnOk result (out.new.items ≡ out.old.items ++ long_text n) }
    ensures err { OnErr result (out.new.items ≡ out.old.items) }
{
    let mut bytes = [0; 8];
    BigEndian::write_u64(&mut bytes, n);
    out.extend_from_slice(&bytes)
}

/// Appends a flag.
#[tactic(auto, unfolding(crate::specs::Texts::flag_text))]
pub fn put_flag(out: &mut Vec<u8>, flag: bool) -> Result<(), AllocError>
    ensures ok { OnOk result (out.new.items ≡ out.old.items ++ flag_text flag) }
    ensures err { OnErr result (out.new.items ≡ out.old.items) }
{
    put_u32(out, flag as u32)
}

// Zeros that fill `len` bytes up to a multiple of 4.
fn padding(len: usize) -> &'static [u8]
    ensures { result.now ≡ padding_text len }
{
    &ZEROS[..(4 - len % 4) % 4]
}

/// Appends bytes without their length.
#[tactic(auto, unfolding(crate::specs::Texts::fixed_text))]
pub fn put_fixed(out: &mut Vec<u8>, bytes: &[u8]) -> Result<(), AllocError>
    ensures ok { OnOk result (out.new.items ≡ out.old.items ++ fixed_text bytes.now) }
    ensures err { OnErr result (out.new.items ≡ out.old.items) }
{
    let padding = padding(bytes.len());
    out.reserve(bytes.len() + padding.len())?;
    out.extend_from_slice(bytes)?;
    out.extend_from_slice(padding)
}

/// Appends bytes behind their length.
#[tactic(auto, unfolding(crate::specs::Texts::fixed_text, crate::specs::Texts::opaque_text))]
pub fn put_opaque(out: &mut Vec<u8>, bytes: &[u8]) -> Result<(), AllocError>
    requires { length bytes.now < 2 ^ 32 }
    ensures ok { OnOk result (out.new.items ≡ out.old.items ++ opaque_text bytes.now) }
    ensures err { OnErr result (out.new.items ≡ out.old.items) }
{
    let length = word(bytes.len() as u32);
    let padding = padding(bytes.len());
    out.reserve(4 + bytes.len() + padding.len())?;
    out.extend_from_slice(&length)?;
    out.extend_from_slice(bytes)?;
    out.extend_from_slice(padding)
}
