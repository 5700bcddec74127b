//! How the record that is begun goes on.

ghost use Rattle.std.specs.Prelude.{IfOk, take};
ghost use Rattle.xdr_records.specs.Record.{IsRecord};
ghost use Rattle.xdr_records.specs.Scan.{Passed, EndsAt, Tells};

use crate::seam::Seam;
use std::alloc::{AllocError, Global};

/// The most bytes of a record, 2 MiB.
pub const RECORD_LIMIT: usize = 2_097_152;

/// How a record goes on.
#[derive(Clone, Copy)]
pub enum Scan {
    /// It is not whole: behind so many bytes a fragment begins, and those ahead bring so many bytes.
    Open(usize, usize),
    /// It ends behind so many bytes, and has so many bytes.
    Whole(usize, usize),
    /// A header takes it past the limit.
    TooLong,
}

/// Reads on from the fragment that begins behind `passed` bytes, where those ahead bring `size` bytes.
pub fn look_ahead(bytes: &Seam<'_>, passed: usize, size: usize) -> Scan
    requires { Passed passed size bytes.now }
    ensures { Tells result bytes.now }
{
    let all = bytes.len();
    let mut at = passed;
    let mut sum = size;
    while all - at >= 4 {
        let (last, len) = bytes.header(at);
        if len > RECORD_LIMIT - sum {
            return Scan::TooLong;
        }
        if all - at - 4 < len {
            return Scan::Open(at, sum);
        }
        at += 4 + len;
        sum += len;
        if last {
            return Scan::Whole(at, sum);
        }
    }
    Scan::Open(at, sum)
}

/// The content of the whole record that ends behind `end` bytes, where it has `size` bytes.
pub fn content(
    alloc: Global,
    bytes: &Seam<'_>,
    end: usize,
    size: usize,
) -> Result<Vec<u8>, AllocError>
    requires { EndsAt end size bytes.now }
    ensures { IfOk result (λ out. IsRecord (take end bytes.now) out.items) }
{
    let mut out = Vec::with_capacity(alloc, size)?;
    let mut at = 0;
    loop {
        let (last, len) = bytes.header(at);
        bytes.copy(&mut out, at + 4, at + 4 + len)?;
        if last {
            return Ok(out);
        }
        at += 4 + len;
    }
}
