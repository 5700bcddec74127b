//! A stream put together from the segments that were seen.

ghost use Rattle.std.specs.Prelude.{◌≡◌, ◌+◌, ◌^◌, ◌<◌, ◌≤◌, ◌++◌, ◌∷◌, [], ℕ, take, length, IfOk, OnOk, MatchBool};
ghost use Rattle.tcp_streams.specs.Orders.{IsPut, Puts};
ghost use Rattle.tcp_streams.specs.Numbers.{start_of};
ghost use Rattle.tcp_streams.specs.Streams.{IsAssemblyOf, IsFull};

use crate::filling::{chained, fill, part_from};
use crate::numbers::nearest;
use crate::span::{Segment, Span};
use std::alloc::{AllocError, Global};

/// No segment more is taken where more runs than so many wait behind a gap.
pub const WAITING_LIMIT: usize = 16_384;

/// No segment more is taken behind this full number.
const NEXT_LIMIT: u64 = 4_611_686_018_427_387_904;

/// A stream, as far as it was put together.
#[derive(Drop)]
pub struct Assembly {
    /// The full number of its first byte.
    pub first: u64,
    /// The full number of the first byte that is missing.
    pub next: u64,
    /// What stands from the first byte up to that one, in order and without a gap.
    pub front: Vec<Span>,
    /// What stands behind the gap, in order.
    pub waiting: Vec<Span>,
    /// How many segments were taken: all of them, or as many as there were when one of the limits was met.
    pub taken: usize,
}

impl Assembly {
    /// A stream of which no segment was seen.
    fn new(alloc: Global, sequence: u32) -> Assembly
        ensures { IsPut (start_of sequence) [] result × (result.taken ≡ 0) }
    {
        let first = u64::from(sequence) + 4_294_967_296;
        Assembly {
            first,
            next: first,
            front: Vec::new(alloc),
            waiting: Vec::new(alloc),
            taken: 0,
        }
    }

    /// Whether no segment more is taken.
    fn is_full(&self) -> bool
        ensures { MatchBool result (IsFull self.now) (self.now.next < 2 ^ 62) }
    {
        self.waiting.len() > WAITING_LIMIT || self.next >= NEXT_LIMIT
    }

    /// Takes one segment more.
    fn put(&mut self, alloc: Global, segment: Segment) -> Result<(), AllocError>
        requires low { 2 ^ 32 ≤ self.old.next }
        requires high { self.old.next < 2 ^ 62 }
        requires count { self.old.taken + 1 < 2 ^ 64 }
        ensures { OnOk result (Puts self.old segment self.new) }
    {
        let begin = nearest(self.next, segment.sequence);
        let span = Span {
            at: begin,
            end: begin + u64::from(segment.count),
            source: segment.source,
            begin,
        };
        let runs = fill(alloc, self.waiting.as_slice(), part_from(span, self.next))?;
        let (count, next) = chained(runs.as_slice(), self.next);
        let (front, behind) = runs.as_slice().split_at(count);
        self.front.extend_from_slice(front)?;
        self.waiting.clear();
        self.waiting.extend_from_slice(behind)?;
        self.next = next;
        self.taken += 1;
        Ok(())
    }
}

/// The stream of the segments, in the order in which they were seen, whose first byte has this sequence number. What was seen first
/// counts.
pub fn assemble(alloc: Global, sequence: u32, segments: &[Segment]) -> Result<Assembly, AllocError>
    ensures { IfOk result (IsAssemblyOf sequence segments.now) }
{
    let mut stream = Assembly::new(alloc, sequence);
    for index in 0..segments.len() {
        if stream.is_full() {
            return Ok(stream);
        }
        stream.put(alloc, segments[index])?;
    }
    Ok(stream)
}
