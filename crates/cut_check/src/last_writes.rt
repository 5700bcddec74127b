//! Of each byte of an object, the last WRITE that covers it.

ghost use Rattle.std.specs.Prelude.{◌≡◌, ◌+◌, ◌^◌, ◌<◌, ◌≤◌, ℕ, OnOk, IsSome};
ghost use Rattle.std.specs.Ordering.{nat_cmp};
ghost use Rattle.std.specs.BTreeMap.{get};
ghost use Rattle.cut_check.specs.Boundaries.{shown, Shows, IsNextBoundary, IsCleared};

use std::alloc::{AllocError, Global};
use std::collections::BTreeMap;
use std::ops::Bound;

/// Of each byte the position of the last WRITE that covers it, from 1 on, or 0.
#[derive(Drop)]
pub struct LastWrites {
    /// The positions from a boundary on, up to the next one.
    boundaries: BTreeMap<u64, u64>,
}

/// The position at a byte.
fn shown_at(boundaries: &BTreeMap<u64, u64>, byte: u64) -> u64
    ensures { result ≡ shown (get nat_cmp boundaries.now) byte }
{
    match boundaries.range(..=byte).next_back() {
        Some((_, position)) => *position,
        None => 0,
    }
}

/// Makes a byte a boundary, and changes no position.
fn split(boundaries: &mut BTreeMap<u64, u64>, byte: u64) -> Result<(), AllocError>
    ensures same { Shows (get nat_cmp boundaries.new) (shown (get nat_cmp boundaries.old)) }
    ensures there { OnOk result (IsSome (get nat_cmp boundaries.new byte)) }
    ensures kept { (other : ℕ) → IsSome (get nat_cmp boundaries.old other) → IsSome (get nat_cmp boundaries.new other) }
{
    let position = shown_at(boundaries, byte);
    boundaries.insert(byte, position)?;
    Ok(())
}

/// The same of the byte behind this one, where there is one.
fn split_behind(boundaries: &mut BTreeMap<u64, u64>, byte: u64) -> Result<(), AllocError>
    ensures same { Shows (get nat_cmp boundaries.new) (shown (get nat_cmp boundaries.old)) }
    ensures there { OnOk result (byte + 1 < 2 ^ 64 → IsSome (get nat_cmp boundaries.new (byte + 1))) }
{
    if byte < u64::MAX {
        split(boundaries, byte + 1)?;
    }
    Ok(())
}

/// The first boundary behind a byte and not behind another, with its position.
fn next_boundary(boundaries: &BTreeMap<u64, u64>, first: u64, last: u64) -> Option<(u64, u64)>
    requires { first ≤ last }
    ensures { IsNextBoundary (get nat_cmp boundaries.now) first last result }
{
    let (byte, position) = boundaries
        .range((Bound::Excluded(first), Bound::Included(last)))
        .next()?;
    Some((*byte, *position))
}

/// Takes away the boundaries behind a byte and not behind another, and answers the greatest of their positions.
fn clear(boundaries: &mut BTreeMap<u64, u64>, first: u64, last: u64) -> u64
    requires { first ≤ last }
    ensures { IsCleared (get nat_cmp boundaries.old) (get nat_cmp boundaries.new) first last result }
{
    let mut greatest = 0;
    while let Some((byte, position)) = next_boundary(boundaries, first, last) {
        boundaries.remove(&byte);
        greatest = position.max(greatest);
    }
    greatest
}

impl LastWrites {
    ghost use Rattle.std.specs.Prelude.{◌≡◌, ◌≤◌, ℕ, IfOk, OnErr};
    ghost use Rattle.cut_check.specs.LastWrites.{position_at, IsPainted};

    /// No WRITE covers a byte.
    pub fn new(alloc: Global) -> LastWrites
        ensures { (byte : ℕ) → position_at result byte ≡ 0 }
    {
        LastWrites {
            boundaries: BTreeMap::new(alloc),
        }
    }

    /// Gives bytes this position, and answers the greatest that one of them had.
    pub fn paint(&mut self, first: u64, last: u64, position: u64) -> Result<u64, AllocError>
        requires { first ≤ last }
        ensures ok { IfOk result (λ greatest. IsPainted self.old self.new first last position greatest) }
        ensures err { OnErr result ((byte : ℕ) → position_at self.new byte ≡ position_at self.old byte) }
    {
        split_behind(&mut self.boundaries, last)?;
        split(&mut self.boundaries, first)?;
        let behind = clear(&mut self.boundaries, first, last);
        let here = self.boundaries.insert(first, position)?.unwrap_or(0);
        Ok(here.max(behind))
    }
}
