//! Calls on directories.

ghost use Rattle.std.specs.Prelude.{◌<◌, ◌^◌, length};

use crate::arguments::{call_in, call_on, put_attributes, put_entry};
use nfs3_types::Procedure;
use std::alloc::{AllocError, Global};
use xdr_records::{put_opaque, put_u32, put_u64};

/// LOOKUP.
pub fn look_up(alloc: Global, xid: u32, directory: u64, name: &[u8]) -> Result<Vec<u8>, AllocError>
    requires { length name.now < 2 ^ 32 }
{
    call_in(alloc, xid, Procedure::Lookup, directory, name)
}

/// MKDIR.
pub fn make_directory(
    alloc: Global,
    xid: u32,
    directory: u64,
    name: &[u8],
) -> Result<Vec<u8>, AllocError>
    requires { length name.now < 2 ^ 32 }
{
    let mut out = call_in(alloc, xid, Procedure::MkDir, directory, name)?;
    put_attributes(&mut out, None)?;
    Ok(out)
}

/// SYMLINK.
pub fn make_link(
    alloc: Global,
    xid: u32,
    directory: u64,
    name: &[u8],
    text: &[u8],
) -> Result<Vec<u8>, AllocError>
    requires name { length name.now < 2 ^ 32 }
    requires text { length text.now < 2 ^ 32 }
{
    let mut out = call_in(alloc, xid, Procedure::SymLink, directory, name)?;
    put_attributes(&mut out, None)?;
    put_opaque(&mut out, text)?;
    Ok(out)
}

/// REMOVE.
pub fn remove(alloc: Global, xid: u32, directory: u64, name: &[u8]) -> Result<Vec<u8>, AllocError>
    requires { length name.now < 2 ^ 32 }
{
    call_in(alloc, xid, Procedure::Remove, directory, name)
}

/// RMDIR.
pub fn remove_directory(
    alloc: Global,
    xid: u32,
    directory: u64,
    name: &[u8],
) -> Result<Vec<u8>, AllocError>
    requires { length name.now < 2 ^ 32 }
{
    call_in(alloc, xid, Procedure::RmDir, directory, name)
}

/// RENAME.
pub fn rename(
    alloc: Global,
    xid: u32,
    from: (u64, &[u8]),
    to: (u64, &[u8]),
) -> Result<Vec<u8>, AllocError>
    requires from { length from.1.now < 2 ^ 32 }
    requires to { length to.1.now < 2 ^ 32 }
{
    let mut out = call_in(alloc, xid, Procedure::Rename, from.0, from.1)?;
    put_entry(&mut out, to.0, to.1)?;
    Ok(out)
}

/// READDIR.
pub fn read_directory(
    alloc: Global,
    xid: u32,
    directory: u64,
    cookie: u64,
    count: u32,
) -> Result<Vec<u8>, AllocError> {
    let mut out = call_on(alloc, xid, Procedure::ReadDir, directory)?;
    put_u64(&mut out, cookie)?;
    put_u64(&mut out, 0)?;
    put_u32(&mut out, count)?;
    Ok(out)
}

/// READDIRPLUS.
pub fn read_directory_plus(
    alloc: Global,
    xid: u32,
    directory: u64,
    cookie: u64,
    count: u32,
) -> Result<Vec<u8>, AllocError> {
    let mut out = call_on(alloc, xid, Procedure::ReadDirPlus, directory)?;
    put_u64(&mut out, cookie)?;
    put_u64(&mut out, 0)?;
    put_u32(&mut out, count)?;
    put_u32(&mut out, count)?;
    Ok(out)
}
