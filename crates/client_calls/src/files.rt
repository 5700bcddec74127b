//! Calls on objects, and those that make files.

ghost use Rattle.std.specs.Prelude.{◌<◌, ◌^◌, length};

use crate::arguments::{call_in, call_on, put_attributes, put_head};
use nfs3_types::{Procedure, StableHow};
use std::alloc::{AllocError, Global};
use xdr_records::{put_opaque, put_u32, put_u64};

/// How a CREATE treats a name that is present; with a size, or a verifier.
#[derive(Clone, Copy)]
pub enum Creation {
    /// UNCHECKED: the name may be present; with a size in bytes, where one is asked for.
    Unchecked(Option<u64>),
    /// GUARDED: fails where the name is present; with a size in bytes, where one is asked for.
    Guarded(Option<u64>),
    /// EXCLUSIVE: with a verifier, by which a server knows the call when it is sent again.
    Exclusive(u64),
}

/// A call of this procedure without arguments.
pub fn plain_call(alloc: Global, xid: u32, procedure: u32) -> Result<Vec<u8>, AllocError> {
    let mut out = Vec::new(alloc);
    put_head(&mut out, xid, procedure)?;
    Ok(out)
}

/// GETATTR.
pub fn get_attributes(alloc: Global, xid: u32, object: u64) -> Result<Vec<u8>, AllocError> {
    call_on(alloc, xid, Procedure::GetAttr, object)
}

/// SETATTR of a size, or of nothing, without a guard.
pub fn set_size(
    alloc: Global,
    xid: u32,
    object: u64,
    size: Option<u64>,
) -> Result<Vec<u8>, AllocError> {
    let mut out = call_on(alloc, xid, Procedure::SetAttr, object)?;
    put_attributes(&mut out, size)?;
    put_u32(&mut out, 0)?;
    Ok(out)
}

/// READLINK.
pub fn read_link(alloc: Global, xid: u32, object: u64) -> Result<Vec<u8>, AllocError> {
    call_on(alloc, xid, Procedure::ReadLink, object)
}

/// READ.
pub fn read(
    alloc: Global,
    xid: u32,
    object: u64,
    offset: u64,
    count: u32,
) -> Result<Vec<u8>, AllocError> {
    let mut out = call_on(alloc, xid, Procedure::Read, object)?;
    put_u64(&mut out, offset)?;
    put_u32(&mut out, count)?;
    Ok(out)
}

/// The word of a level.
fn level_word(level: StableHow) -> u32 {
    match level {
        StableHow::Unstable => 0,
        StableHow::DataSync => 1,
        StableHow::FileSync => 2,
    }
}

/// WRITE of all these bytes.
pub fn write(
    alloc: Global,
    xid: u32,
    object: u64,
    offset: u64,
    level: StableHow,
    bytes: &[u8],
) -> Result<Vec<u8>, AllocError>
    requires { length bytes.now < 2 ^ 32 }
{
    let mut out = call_on(alloc, xid, Procedure::Write, object)?;
    put_u64(&mut out, offset)?;
    put_u32(&mut out, bytes.len() as u32)?;
    put_u32(&mut out, level_word(level))?;
    put_opaque(&mut out, bytes)?;
    Ok(out)
}

/// How a CREATE treats a name that is present.
fn put_creation(out: &mut Vec<u8>, creation: Creation) -> Result<(), AllocError> {
    match creation {
        Creation::Unchecked(size) => {
            put_u32(out, 0)?;
            put_attributes(out, size)
        }
        Creation::Guarded(size) => {
            put_u32(out, 1)?;
            put_attributes(out, size)
        }
        Creation::Exclusive(verifier) => {
            put_u32(out, 2)?;
            put_u64(out, verifier)
        }
    }
}

/// CREATE.
pub fn create(
    alloc: Global,
    xid: u32,
    directory: u64,
    name: &[u8],
    creation: Creation,
) -> Result<Vec<u8>, AllocError>
    requires { length name.now < 2 ^ 32 }
{
    let mut out = call_in(alloc, xid, Procedure::Create, directory, name)?;
    put_creation(&mut out, creation)?;
    Ok(out)
}

/// COMMIT.
pub fn commit(
    alloc: Global,
    xid: u32,
    object: u64,
    offset: u64,
    count: u32,
) -> Result<Vec<u8>, AllocError> {
    let mut out = call_on(alloc, xid, Procedure::Commit, object)?;
    put_u64(&mut out, offset)?;
    put_u32(&mut out, count)?;
    Ok(out)
}
