//! A record as it is sent.

ghost use Rattle.std.specs.Prelude.{◌≡◌, ◌≤◌, IfOk, length};
ghost use Rattle.xdr_records.specs.Record.{IsRecord, record_text};

use crate::seam::LAST;
use crate::writer::put_u32;
use std::alloc::{AllocError, Global};

/// The record as one fragment, which is its last (RFC 5531, section 11).
#[tactic(auto, using(crate::proofs::Splitting::framed))]
pub fn frame(alloc: Global, record: &[u8]) -> Result<Vec<u8>, AllocError>
    requires { length «record».now ≤ 2097152 }
    ensures spelled { IfOk result (λ text. IsRecord text.items «record».now) }
    ensures text { IfOk result (λ text. text.items ≡ record_text «record».now) }
{
    let mut out = Vec::with_capacity(alloc, 4 + record.len())?;
    put_u32(&mut out, LAST + record.len() as u32)?;
    out.extend_from_slice(record)?;
    Ok(out)
}
