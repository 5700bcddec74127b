//! The records of a stream of bytes, which comes in pieces.

ghost use Rattle.std.specs.Prelude.{◌≡◌, ◌≤◌, ◌+◌, ◌++◌, ℕ, List, [], true, false, length, IsErr, IsErrOf, IsSome, IsNone, OnOk, IfSome, IfNone};
ghost use Rattle.xdr_records.specs.Record.{IsSplit, IsUnfinished, IsTooLong};
ghost use Rattle.xdr_records.specs.Feed.{fresh, fed_on, stopped, Grows, Breaks, TakesFirst};
ghost use Rattle.xdr_records.specs.Splits.{Leaves};

use crate::fault::FeedFault;
use crate::scan::{Scan, content, look_ahead};
use crate::seam::Seam;
use crate::split::{Split, WholeRecord, split_on};
use bytes::BytesMut;
use std::alloc::{AllocError, Global};
use std::collections::VecDeque;
use std::marker::Model;

/// Takes the bytes of a stream in any pieces, and gives its records (RFC 5531, section 11). The bytes
/// behind the last whole record are kept with their headers. Memory grows with the bytes that came,
/// and not with what a header announces.
#[derive(Drop)]
pub struct RecordFeed {
    alloc: Global,
    waiting: VecDeque<WholeRecord>,
    rest: BytesMut,
    passed: usize,
    size: usize,
    broken: bool,
}

impl Model for RecordFeed {
    ghost use Rattle.xdr_records.specs.Feed.{Feed};
    ghost use Rattle.xdr_records.specs.Record.{Begun, IsPart};

    ghost Value = { Feed };

    ghost view = { λ f. record { waiting = f.waiting.items; rest = f.rest.items; broken = f.broken } };

    ghost invariant = { λ f. Begun IsPart f.passed f.size f.rest.items };
}

// Room for so many bytes in place of those that are there.
fn make_room(rest: &mut BytesMut, count: usize) -> Result<(), AllocError>
    ensures items { rest.new.items ≡ rest.old.items }
    ensures ok { OnOk result (count ≤ length rest.new.items + rest.new.spare) }
{
    rest.reserve(count.saturating_sub(rest.len()))
}

// Puts other bytes in place of those that are there.
fn renew(rest: &mut BytesMut, bytes: &[u8])
    requires { length bytes.now ≤ length rest.old.items + rest.old.spare }
    ensures { rest.new.items ≡ bytes.now }
{
    rest.clear();
    rest.extend_reserved(bytes);
}

impl RecordFeed {
    /// A feed at the beginning of a stream.
    pub fn new(alloc: Global) -> RecordFeed
        ensures { result ≡ fresh }
    {
        RecordFeed {
            alloc,
            waiting: VecDeque::new(alloc),
            rest: BytesMut::new(alloc),
            passed: 0,
            size: 0,
            broken: false,
        }
    }

    // No byte is taken from now on.
    fn stop(&mut self)
        ensures { self.new
            ≡ record { waiting = self.old.waiting; rest = []; broken = true } }
    {
        self.rest.clear();
        self.passed = 0;
        self.size = 0;
        self.broken = true;
    }

    // Keeps the records, and in place of the rest the bytes that stand behind them.
    fn keep(&mut self, split: Split, behind: &[u8]) -> Result<(), FeedFault>
        requires { Leaves split.begun behind.now }
        ensures ok { OnOk result (IsSome split.begun
            × (self.new ≡ fed_on self.old split.records.items behind.now)) }
        ensures too_long { IsErrOf result FeedFault.RecordTooLong → IsNone split.begun
            × (self.new ≡ stopped self.old split.records.items) }
        ensures no_memory { IsErrOf result FeedFault.NoMemory → self.new ≡ self.old }
    {
        let Split {
            mut records,
            used: _,
            begun,
        } = split;
        match begun {
            None => {
                self.waiting.append(&mut records)?;
                self.stop();
                Err(FeedFault::RecordTooLong)
            }
            Some((passed, size)) => {
                make_room(&mut self.rest, behind.len())?;
                self.waiting.append(&mut records)?;
                renew(&mut self.rest, behind);
                self.passed = passed;
                self.size = size;
                Ok(())
            }
        }
    }

    /// Takes the next piece of the stream. Where a growth is refused the same piece may be fed again;
    /// behind a header past the limit no byte is taken any more.
    pub fn feed(&mut self, piece: &[u8]) -> Result<(), FeedFault>
        ensures ok { OnOk result (Grows self.old piece.now self.new) }
        ensures too_long { IsErrOf result FeedFault.RecordTooLong → self.old.broken ≡ false
            → Breaks self.old piece.now self.new }
        ensures found { (records : List (List ℕ)) (stop : List ℕ)
            → IsSplit IsTooLong (self.old.rest ++ piece.now) records stop → IsErr result }
        ensures only { (records : List (List ℕ)) (rest : List ℕ) → self.old.broken ≡ false
            → IsSplit IsUnfinished (self.old.rest ++ piece.now) records rest
            → IsErrOf result FeedFault.RecordTooLong → ⊥ }
        ensures no_memory { IsErrOf result FeedFault.NoMemory
            → (self.old.broken ≡ false) × (self.new ≡ self.old) }
        ensures broken { self.old.broken ≡ true
            → IsErrOf result FeedFault.RecordTooLong × (self.new ≡ self.old) }
    {
        if self.broken {
            return Err(FeedFault::RecordTooLong);
        }
        let bytes = Seam::new(self.rest.as_slice(), piece);
        match look_ahead(&bytes, self.passed, self.size) {
            Scan::Open(passed, size) => {
                self.rest.extend_from_slice(piece)?;
                self.passed = passed;
                self.size = size;
                Ok(())
            }
            Scan::TooLong => {
                self.stop();
                Err(FeedFault::RecordTooLong)
            }
            Scan::Whole(end, size) => {
                let first = content(self.alloc, &bytes, end, size)?;
                let behind = &piece[end - self.rest.len()..];
                let split = split_on(self.alloc, WholeRecord::new(first), behind)?;
                let used = split.used;
                self.keep(split, &behind[used..])
            }
        }
    }

    /// The next record, if one is whole.
    pub fn take(&mut self) -> Option<Vec<u8>>
        ensures some { IfSome result (λ content. TakesFirst self.old content.items self.new) }
        ensures none { IfNone result ((self.old.waiting ≡ []) × (self.new ≡ self.old)) }
    {
        let first = self.waiting.pop_front()?;
        Some(first.into_vec())
    }
}
