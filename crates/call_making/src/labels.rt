//! The names that a client asks by.

ghost use Rattle.std.specs.Prelude.{◌≡◌, IfOk, IsTrue};
ghost use Rattle.std.specs.List.{list_all};
ghost use Rattle.call_making.specs.Asked.{is_name, is_name_byte};

use crate::bases::{Base, digits};
use nfs3_types::Name;
use std::alloc::{AllocError, Global};

/// The most bytes of a name: the longest that common file systems take.
const NAME_LIMIT: usize = 255;

/// How many names a directory has at most to pick from.
pub const LABELS: u8 = 8;

/// A name to ask by.
#[derive(Clone, Copy)]
pub enum Label {
    /// That of a directory in the root.
    Base(Base),
    /// One of the few in each other directory: which, and of which client where each has its own.
    Few(u8, Option<u32>),
    /// `.`
    Here,
    /// `..`
    Parent,
}

/// The bytes of one of the few names: short ones, one with spaces, one with bytes above 127, and one that is made longer.
fn few_bytes(pick: u8) -> &'static [u8] {
    match pick {
        0 => b"a".as_slice(),
        1 => b"b".as_slice(),
        2 => b"c".as_slice(),
        3 => b"d".as_slice(),
        4 => b"e".as_slice(),
        5 => b" f f ".as_slice(),
        6 => b"g\xc3\xa9\xff".as_slice(),
        _ => b"h".as_slice(),
    }
}

/// Whether a client's own name begins so.
pub fn is_own(name: &[u8], client: u32) -> bool {
    name.starts_with(digits(client).as_slice())
}

/// Whether a name may have this byte.
fn is_name_byte(byte: u8) -> bool
    ensures { result ≡ is_name_byte byte }
{
    byte != 0 && byte != b'/'
}

/// Whether a name may have each of these bytes.
fn are_name_bytes(bytes: &[u8]) -> bool
    ensures { result ≡ list_all is_name_byte bytes.now }
{
    bytes.iter().all(|byte| is_name_byte(*byte))
}

/// Whether a directory may have an entry of this name: 1 to 255 bytes, neither NUL nor a slash.
pub fn is_name(bytes: &[u8]) -> bool
    ensures { result ≡ is_name bytes.now }
{
    1 <= bytes.len() && bytes.len() <= NAME_LIMIT && are_name_bytes(bytes)
}

/// The name of these bytes, or `a` where they are none.
pub(crate) fn name_of(alloc: Global, bytes: &[u8]) -> Result<Name, AllocError>
    ensures { IfOk result (λ name. IsTrue (is_name name)) }
{
    if is_name(bytes) {
        Name::from_slice(alloc, bytes)
    } else {
        Name::from_slice(alloc, b"a".as_slice())
    }
}

impl Label {
    /// Its name, in the calls of a client.
    pub(crate) fn name(self, alloc: Global, client: u32) -> Result<Name, AllocError>
        ensures { IfOk result (λ name. IsTrue (is_name name)) }
    {
        match self {
            Label::Base(base) => name_of(alloc, base.text(client).as_slice()),
            Label::Few(pick, owner) => few_name(alloc, pick, owner),
            Label::Here => name_of(alloc, b".".as_slice()),
            Label::Parent => name_of(alloc, b"..".as_slice()),
        }
    }
}

/// One of the few names. The last of them has as many bytes as a name may have.
fn few_name(alloc: Global, pick: u8, owner: Option<u32>) -> Result<Name, AllocError>
    ensures { IfOk result (λ name. IsTrue (is_name name)) }
{
    let mut text = Vec::new(alloc);
    if let Some(owner) = owner {
        text.extend_from_slice(digits(owner).as_slice())?;
    }
    text.extend_from_slice(few_bytes(pick))?;
    if pick == LABELS - 1 {
        text.resize(NAME_LIMIT, b'h')?;
    }
    name_of(alloc, text.as_slice())
}
