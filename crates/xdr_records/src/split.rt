//! The whole records that stand in some bytes.

ghost use Rattle.std.specs.Prelude.{◌≡◌, IfOk, drop};
ghost use Rattle.xdr_records.specs.Splits.{Follows, Leaves};

use crate::scan::{Scan, content, look_ahead};
use crate::seam::Seam;
use std::alloc::{AllocError, Global};
use std::collections::VecDeque;
use std::marker::Model;

/// A whole record.
#[derive(Drop)]
pub struct WholeRecord {
    bytes: Vec<u8>,
}

impl Model for WholeRecord {
    ghost use Rattle.std.specs.Prelude.{List, ℕ};

    ghost Value = { List ℕ };

    ghost view = { λ whole. whole.bytes.items };
}

impl WholeRecord {
    /// The record of these bytes.
    pub fn new(bytes: Vec<u8>) -> WholeRecord
        ensures { result ≡ bytes.items }
    {
        WholeRecord { bytes }
    }

    /// Its bytes.
    pub fn into_vec(self) -> Vec<u8>
        ensures { result.items ≡ self }
    {
        self.bytes
    }
}

/// Whole records, and what stands behind them.
#[derive(Drop)]
pub struct Split {
    /// In the order of the stream.
    pub records: VecDeque<WholeRecord>,
    /// How many of the bytes are records.
    pub used: usize,
    /// Which fragments of the next record are passed, or that it is too long.
    pub begun: Option<(usize, usize)>,
}

/// The records that stand in the bytes, behind a first one.
pub fn split_on(alloc: Global, first: WholeRecord, bytes: &[u8]) -> Result<Split, AllocError>
    ensures whole { IfOk result (λ split. Follows first bytes.now split.used split.records.items) }
    ensures begun { IfOk result (λ split. Leaves split.begun (drop split.used bytes.now)) }
{
    let mut records = VecDeque::new(alloc);
    records.push_back(first)?;
    let mut used = 0;
    loop {
        let rest = Seam::new(&[], &bytes[used..]);
        let begun = match look_ahead(&rest, 0, 0) {
            Scan::Open(passed, size) => Some((passed, size)),
            Scan::TooLong => None,
            Scan::Whole(end, size) => {
                let bytes = content(alloc, &rest, end, size)?;
                records.push_back(WholeRecord::new(bytes))?;
                used += end;
                continue;
            }
        };
        return Ok(Split {
            records,
            used,
            begun,
        });
    }
}
