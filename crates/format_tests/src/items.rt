//! A put that is refused memory, and calls and outcomes that are copied if there is some. What items are in bytes is a case of `command_cases`.

use crate::requests::{Request, call, outcome};
use nfs3_types::Procedure;
use std::alloc::{AllocError, Global};
use std::test::Fail;
use xdr_records::{put_fixed, put_flag, put_opaque, put_u32, put_u64};

/// An item of each kind.
#[derive(Clone, Copy)]
enum Item {
    Word(u32),
    LongWord(u64),
    Flag(bool),
    Fixed([u8; 3]),
    Opaque([u8; 3]),
}

fn put(out: &mut Vec<u8>, item: Item) -> Result<(), AllocError> {
    match item {
        Item::Word(word) => put_u32(out, word),
        Item::LongWord(word) => put_u64(out, word),
        Item::Flag(flag) => put_flag(out, flag),
        Item::Fixed(bytes) => put_fixed(out, &bytes),
        Item::Opaque(bytes) => put_opaque(out, &bytes),
    }
}

/// A 7, which is made once more where memory was refused.
fn seven(alloc: Global) -> Result<Vec<u8>, AllocError> {
    match Vec::from_slice(alloc, &[7]) {
        Err(_) => Vec::from_slice(alloc, &[7]),
        bytes => bytes,
    }
}

/// Whether an item that is put after a 7 gives these bytes. Where it is refused memory the 7 has to be alone, and it is put once more.
fn is_put(alloc: Global, item: Item, want: &[u8]) -> Result<bool, AllocError> {
    let mut out = seven(alloc)?;
    let mut kept = true;
    if put(&mut out, item).is_err() {
        kept = out.as_slice() == [7].as_slice();
        put(&mut out, item)?;
    }
    Ok(kept && out.as_slice() == want)
}

/// An item of each kind, and its bytes after a 7 (RFC 4506, section 4).
const ITEMS: [(Item, &[u8]); 5] = [
    (Item::Word(9), b"\x07\0\0\0\x09"),
    (Item::LongWord(9), b"\x07\0\0\0\0\0\0\0\x09"),
    (Item::Flag(true), b"\x07\0\0\0\x01"),
    (Item::Fixed(*b"abc"), b"\x07abc\0"),
    (Item::Opaque(*b"abc"), b"\x07\0\0\0\x03abc\0"),
];

// It passes as well where any one allocation is refused, as by `rt try --test --fail-alloc N`.
#[test]
fn a_refused_put_leaves_what_is_there(rt: HostRuntime) -> Result<(), Fail> {
    for (item, want) in ITEMS {
        assert!(rt; is_put(rt.alloc(), item, want)?, "{want:?}");
    }
    Ok(())
}

/// Whether a REMOVE is copied as one.
fn is_copied(alloc: Global) -> Result<bool, AllocError> {
    let call = call(alloc, Request::Remove(b'a'))?;
    let copy = call.copy()?;
    Ok(copy.procedure() == Procedure::Remove)
}

/// Copies the outcome of a READDIRPLUS.
fn copy_a_list(alloc: Global) -> Result<(), AllocError> {
    let outcome = outcome(alloc, Request::List(0xaa, 0xbb))?;
    drop(outcome.copy()?);
    Ok(())
}

#[test]
fn a_call_and_an_outcome_are_copied(rt: HostRuntime) -> Result<(), Fail> {
    assert!(rt; is_copied(rt.alloc())? && copy_a_list(rt.alloc()).is_ok());
    Ok(())
}
