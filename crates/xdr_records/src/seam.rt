//! Two slices read as one, so that a header may stand across them.

ghost use Rattle.std.specs.Prelude.{◌≡◌, ◌<◌, ◌≤◌, ◌+◌, ◌-◌, ◌++◌, length, slice_index, take, drop, OnOk};
ghost use Rattle.xdr_records.specs.Record.{IsHeader, mark};

use byteorder::{BigEndian, ByteOrder};
use std::alloc::AllocError;
use std::marker::Model;

/// The top bit of a header, set at a record's last fragment.
pub const LAST: u32 = 1 << 31;

/// The bytes of one slice, and behind them those of another.
#[derive(Drop)]
pub struct Seam<'a> {
    front: &'a [u8],
    back: &'a [u8],
}

impl<'a> Model for Seam<'a> {
    ghost use Rattle.std.specs.Prelude.{◌+◌, ◌<◌, ◌^◌, ◌++◌, List, ℕ, length};

    ghost Value = { List ℕ };

    ghost view = { λ s. s.front.now ++ s.back.now };

    ghost invariant = { λ s. length s.front.now + length s.back.now < 2 ^ 64 };
}

// What a header says: whether its fragment is the last, and how long that is.
fn parts_of(word: u32) -> (bool, usize)
    ensures sum { mark result.0 + result.1 ≡ word }
    ensures small { result.1 < 2147483648 }
{
    if word >= LAST {
        (true, (word - LAST) as usize)
    } else {
        (false, word as usize)
    }
}

impl<'a> Seam<'a> {
    /// Puts the slices together.
    pub fn new(front: &'a [u8], back: &'a [u8]) -> Seam<'a>
        ensures { result ≡ front.now ++ back.now }
    {
        Seam { front, back }
    }

    /// How many bytes there are.
    pub fn len(&self) -> usize
        ensures { result ≡ length self.now }
    {
        self.front.len() + self.back.len()
    }

    // The byte at a place.
    fn byte(&self, at: usize) -> u8
        requires { at < length self.now }
        ensures { result ≡ slice_index self.now at }
    {
        if at < self.front.len() {
            self.front[at]
        } else {
            self.back[at - self.front.len()]
        }
    }

    /// What the header at a place says.
    pub fn header(&self, at: usize) -> (bool, usize)
        requires { at + 4 ≤ length self.now }
        ensures { IsHeader result.0 result.1 (take 4 (drop at self.now)) }
    {
        // Behind this the bound on both lengths is known.
        let _front = &self.front;
        let word = [
            self.byte(at),
            self.byte(at + 1),
            self.byte(at + 2),
            self.byte(at + 3),
        ];
        parts_of(BigEndian::read_u32(&word))
    }

    /// Appends the bytes from one place to another.
    pub fn copy(&self, out: &mut Vec<u8>, from: usize, to: usize) -> Result<(), AllocError>
        requires ordered { from ≤ to }
        requires within { to ≤ length self.now }
        ensures { OnOk result
            (out.new.items ≡ out.old.items ++ take (to - from) (drop from self.now)) }
    {
        let seam = self.front.len();
        out.extend_from_slice(&self.front[from.min(seam)..to.min(seam)])?;
        out.extend_from_slice(&self.back[from.saturating_sub(seam)..to.saturating_sub(seam)])
    }
}
