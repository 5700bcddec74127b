//! One page of a file, without the zeros at its end.

ghost use Rattle.std.specs.Prelude.{◌≡◌, ◌+◌, ◌++◌, ◌≤◌, ℕ, [], length, take, drop, nat_eq, slice_index, IsTrue, ◌↔◌, EachIndex, IfOk, OnOk};
ghost use Rattle.std.specs.Cmp.Lexicographic.{pointwise};
ghost use Rattle.tree_stores.specs.Files.{resized, written};

use crate::shared::Shared;
use std::alloc::{AllocError, Global};
use std::marker::Model;

/// The most bytes of a page.
pub(crate) const PAGE: u64 = 512;

/// A page takes memory in steps of so many bytes: what one leaves is mostly as large as what the next one needs.
const ROOM: usize = 128;

/// What the first eight bytes of a page count with.
const FACTOR: u64 = 0x81da_def4_bc2d_d44d;

/// By how much the factor of the next eight is more.
const STEP: u64 = 0x7fb5_d329_728e_a186;

/// The bytes of a page up to some place; those behind it are zeros. Copies share them.
#[derive(Drop)]
pub(crate) struct Page {
    /// Absent where there are none.
    bytes: Option<Shared<Vec<u8>>>,
    /// A number of the bytes, the same whether zeros at the end are stored or not.
    sum: u64,
}

impl Model for Page {
    ghost use Rattle.std.specs.Prelude.{◌≤◌, List, ℕ, length};
    ghost use Rattle.tree_stores.specs.declared.file_bytes.page.TheConstants.{PAGE};
    ghost use Rattle.tree_stores.specs.Stored.{stored_in};

    ghost Value = { List ℕ };

    ghost view = { λ p. stored_in (λ b. b.items) p.bytes };

    ghost invariant = { λ p. length (stored_in (λ b. b.items) p.bytes) ≤ PAGE };
}

impl Page {
    /// A page of zeros.
    pub(crate) fn new() -> Page
        ensures { result ≡ [] }
    {
        Page {
            bytes: None,
            sum: 0,
        }
    }

    /// A page of these bytes.
    fn of(alloc: Global, bytes: Vec<u8>) -> Result<Page, AllocError>
        requires { length bytes.items ≤ PAGE }
        ensures { IfOk result (λ page. page ≡ bytes.items) }
    {
        if bytes.is_empty() {
            return Ok(Page::new());
        }
        let sum = sum_of(bytes.as_slice());
        Ok(Page {
            bytes: Some(Shared::new(alloc, bytes)?),
            sum,
        })
    }

    /// The front of a page, as far as a length.
    pub(crate) fn front(alloc: Global, stored: &[u8], len: u64) -> Result<Page, AllocError>
        requires { length stored.now ≤ PAGE }
        ensures { IfOk result (λ page. page ≡ take len stored.now) }
    {
        let len = len.min(stored.len() as u64) as usize;
        Page::of(alloc, Vec::from_slice(alloc, &stored[..len])?)
    }

    /// A page with other bytes at a place.
    pub(crate) fn written(
        alloc: Global,
        stored: &[u8],
        at: usize,
        added: &[u8],
    ) -> Result<Page, AllocError>
        requires stored { length stored.now ≤ PAGE }
        requires fits { at + length added.now ≤ PAGE }
        ensures { IfOk result (λ page. page ≡ written stored.now at added.now) }
    {
        let end = at + added.len();
        let room = end.max(stored.len()).div_ceil(ROOM) * ROOM;
        let mut bytes = Vec::with_capacity(alloc, room)?;
        bytes.extend_from_slice(&stored[..at.min(stored.len())])?;
        bytes.resize(at, 0)?;
        bytes.extend_from_slice(added)?;
        bytes.extend_from_slice(&stored[end.min(stored.len())..])?;
        Page::of(alloc, bytes)
    }

    /// The bytes.
    pub(crate) fn as_slice(&self) -> &[u8]
        ensures value { result.now ≡ self.now }
        ensures bound { length self.now ≤ PAGE }
    {
        match &self.bytes {
            Some(bytes) => bytes.get().as_slice(),
            None => &[],
        }
    }

    /// A number of the bytes, the same for pages that show the same.
    pub(crate) fn sum(&self) -> u64 {
        self.sum
    }
}

impl Clone for Page {
    ghost is_clone = { λ page copy. copy ≡ page };

    fn clone(&self) -> Result<Page, AllocError> {
        let bytes = match &self.bytes {
            Some(bytes) => Some(bytes.copy()?),
            None => None,
        };
        Ok(Page {
            bytes,
            sum: self.sum,
        })
    }
}

/// A number of bytes: each eight of them, as one number, count with a factor of their own, so that zeros add nothing.
fn sum_of(bytes: &[u8]) -> u64 {
    let words = bytes.chunks_exact(8);
    let mut last: u64 = 0;
    for byte in words.remainder().iter().rev() {
        last = (last << 8) | u64::from(*byte);
    }
    let mut factor = FACTOR;
    let mut sum: u64 = 0;
    for word in words {
        let word = match word.try_into() {
            Ok(word) => u64::from_le_bytes(word),
            Err(_) => 0,
        };
        sum = sum.wrapping_add(mixed(word).wrapping_mul(factor));
        factor = factor.wrapping_add(STEP);
    }
    sum.wrapping_add(mixed(last).wrapping_mul(factor))
}

/// A number whose high bits count for low ones too; zero stays.
fn mixed(word: u64) -> u64 {
    word ^ (word >> 29)
}

/// Whether two pages show the same bytes.
pub(crate) fn are_same(one: &[u8], other: &[u8]) -> bool
    ensures { IsTrue result → (k : ℕ) → slice_index one.now k ≡ slice_index other.now k }
{
    let count = one.len().min(other.len());
    if one[..count] == other[..count] {
        return both_are_zeros(&one[count..], &other[count..]);
    }
    false
}

/// Whether all bytes of both are zeros.
fn both_are_zeros(one: &[u8], other: &[u8]) -> bool
    ensures { IsTrue result → EachIndex one.now (λ k. slice_index one.now k ≡ 0) × EachIndex other.now (λ k. slice_index other.now k ≡ 0) }
{
    are_zeros(one) && are_zeros(other)
}

/// Whether bytes stand at a place of a page.
pub(crate) fn has_at(stored: &[u8], at: usize, bytes: &[u8]) -> bool
    requires { at + length bytes.now ≤ PAGE }
    ensures { result ≡ pointwise nat_eq bytes.now (resized (drop at stored.now) (length bytes.now)) }
{
    let stored = &stored[at.min(stored.len())..];
    let count = bytes.len().min(stored.len());
    bytes[..count] == stored[..count] && are_zeros(&bytes[count..])
}

/// Whether all bytes are zeros.
fn are_zeros(bytes: &[u8]) -> bool
    ensures { IsTrue result ↔ EachIndex bytes.now (λ k. slice_index bytes.now k ≡ 0) }
{
    bytes.iter().all(|byte| *byte == 0)
}

/// Appends as many bytes of a page.
pub(crate) fn put(out: &mut Vec<u8>, stored: &[u8], count: usize) -> Result<(), AllocError>
    requires { count ≤ PAGE }
    ensures { OnOk result (out.new.items ≡ out.old.items ++ resized stored.now count) }
{
    let front = &stored[..count.min(stored.len())];
    out.extend_from_slice(front)?;
    out.resize(out.len() + (count - front.len()), 0)
}
