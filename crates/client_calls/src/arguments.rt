//! The items that arguments are made of.

ghost use Rattle.std.specs.Prelude.{◌<◌, ◌^◌, length};

use nfs3_types::{NFS_PROGRAM, NFS_VERSION, Procedure};
use rpc_reader::put_call;
use std::alloc::{AllocError, Global};
use xdr_records::{put_opaque, put_u32, put_u64};

/// The head of a call of this procedure.
pub(crate) fn put_head(out: &mut Vec<u8>, xid: u32, procedure: u32) -> Result<(), AllocError> {
    put_call(out, xid, NFS_PROGRAM, NFS_VERSION, procedure, &[])
}

/// The handle of an object.
pub(crate) fn put_object(out: &mut Vec<u8>, object: u64) -> Result<(), AllocError> {
    put_u32(out, 8)?;
    put_u64(out, object)
}

/// A name in a directory.
pub(crate) fn put_entry(out: &mut Vec<u8>, directory: u64, name: &[u8]) -> Result<(), AllocError>
    requires { length name.now < 2 ^ 32 }
{
    put_object(out, directory)?;
    put_opaque(out, name)
}

/// Attributes to be set: a size, or none.
pub(crate) fn put_attributes(out: &mut Vec<u8>, size: Option<u64>) -> Result<(), AllocError> {
    put_u32(out, 0)?;
    put_u64(out, 0)?;
    match size {
        Some(size) => {
            put_u32(out, 1)?;
            put_u64(out, size)?;
        }
        None => put_u32(out, 0)?,
    }
    put_u64(out, 0)
}

/// A call of this procedure whose arguments begin with a handle.
pub(crate) fn call_on(
    alloc: Global,
    xid: u32,
    procedure: Procedure,
    object: u64,
) -> Result<Vec<u8>, AllocError> {
    let mut out = Vec::new(alloc);
    put_head(&mut out, xid, procedure.number())?;
    put_object(&mut out, object)?;
    Ok(out)
}

/// A call of this procedure whose arguments begin with a name in a directory.
pub(crate) fn call_in(
    alloc: Global,
    xid: u32,
    procedure: Procedure,
    directory: u64,
    name: &[u8],
) -> Result<Vec<u8>, AllocError>
    requires { length name.now < 2 ^ 32 }
{
    let mut out = Vec::new(alloc);
    put_head(&mut out, xid, procedure.number())?;
    put_entry(&mut out, directory, name)?;
    Ok(out)
}
