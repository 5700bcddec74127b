//! WRITEs without a reply, of which it is open how many bytes they wrote.

ghost use Rattle.std.specs.Prelude.{◌≡◌, ◌==◌, ◌≤◌, ℕ, true, false, IsTrue, IfOk, find, filter, map, not};
ghost use Rattle.decision_walk.specs.Opening.{IsInserted, IsWithin, is_open, narrowed_write};

use std::alloc::{AllocError, Global};

/// A WRITE that was taken without a reply. How many bytes it wrote is open, so the tree is that without them.
#[derive(Clone, Copy)]
pub struct OpenWrite {
    /// The WRITE.
    pub(crate) call: u64,
    /// The object of its file.
    pub(crate) object: u64,
    /// The fewest bytes that it may have written.
    pub(crate) least: u32,
    /// The most.
    pub(crate) most: u32,
}

/// The open WRITE of an object's file.
pub(crate) fn open_at(writes: &[OpenWrite], object: u64) -> Option<OpenWrite>
    ensures { result ≡ find (λ (one : OpenWrite). one.object == object) writes.now }
{
    for one in writes {
        if one.object == object {
            return Some(*one);
        }
    }
    None
}

/// Whether a call is one of the open WRITEs.
pub(crate) fn is_open(writes: &[OpenWrite], call: u64) -> bool
    ensures { result ≡ is_open writes.now call }
{
    writes.iter().any(|one| one.call == call)
}

/// Whether two open WRITEs are the same.
pub(crate) fn is_same_write(one: OpenWrite, other: OpenWrite) -> bool
    ensures { IsTrue result → one ≡ other }
{
    one.call == other.call
        && one.object == other.object
        && one.least == other.least
        && one.most == other.most
}

/// How many WRITEs there are before the first with a greater number.
fn place_of(writes: &[OpenWrite], call: u64) -> usize {
    for (at, one) in writes.iter().enumerate() {
        if call < one.call {
            return at;
        }
    }
    writes.len()
}

/// The WRITEs with one more, by their numbers.
pub(crate) fn with_write(
    alloc: Global,
    writes: &[OpenWrite],
    one: OpenWrite,
) -> Result<Vec<OpenWrite>, AllocError>
    ensures { IfOk result (λ more. IsInserted one writes.now more.items) }
{
    let at = place_of(writes, one.call).min(writes.len());
    let mut more = Vec::from_slice(alloc, writes)?;
    more.reserve(1)?;
    more.insert(at, one).unwrap();
    Ok(more)
}

/// The WRITEs but for those of this object.
pub(crate) fn without_writes(
    alloc: Global,
    writes: &[OpenWrite],
    object: u64,
) -> Result<Vec<OpenWrite>, AllocError>
    ensures { IfOk result (λ rest. rest.items ≡ filter (λ (one : OpenWrite). not (one.object == object)) writes.now) }
{
    let mut rest = Vec::from_slice(alloc, writes)?;
    rest.retain(|one| one.object != object);
    Ok(rest)
}

/// The WRITE, and if it is this call, with no fewer and no more bytes than these.
fn narrowed_write(one: OpenWrite, call: u64, least: u32, most: u32) -> OpenWrite
    ensures { result ≡ narrowed_write call least most one }
{
    if one.call == call {
        OpenWrite {
            call: one.call,
            object: one.object,
            least,
            most,
        }
    } else {
        one
    }
}

/// The WRITEs, of which this call wrote no fewer and no more bytes than these.
pub(crate) fn narrowed_writes(
    alloc: Global,
    writes: &[OpenWrite],
    call: u64,
    least: u32,
    most: u32,
) -> Result<Vec<OpenWrite>, AllocError>
    ensures { IfOk result (λ rest. rest.items ≡ map (narrowed_write call least most) writes.now) }
{
    let mut rest = Vec::with_capacity(alloc, writes.len())?;
    for one in writes {
        rest.push(narrowed_write(*one, call, least, most))?;
    }
    Ok(rest)
}

/// Counts of bytes from the least to the most; none, if the least is greater.
#[derive(Clone, Copy)]
pub(crate) struct Counts {
    pub(crate) least: u32,
    pub(crate) most: u32,
}

impl Counts {
    /// None.
    pub(crate) fn none() -> Counts
        ensures { (count : ℕ) → ¬ IsWithin result count }
    {
        Counts { least: 1, most: 0 }
    }

    /// These, and this one besides, where it fits.
    pub(crate) fn with_fitting(self, count: u32, fits: bool) -> Counts
        ensures kept { (other : ℕ) → IsWithin self other → IsWithin result other }
        ensures fits { IsTrue fits → IsWithin result count }
    {
        if !fits {
            return self;
        }
        if self.most < self.least {
            return Counts {
                least: count,
                most: count,
            };
        }
        Counts {
            least: self.least.min(count),
            most: self.most.max(count),
        }
    }
}
