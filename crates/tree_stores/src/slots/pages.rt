//! Values by their numbers, as steps that change several of them see them.

ghost use Rattle.std.specs.Prelude.{◌≡◌, ℕ, IfOk, OnOk, option_copied};
ghost use Rattle.std.specs.FinMap as map;
ghost use Rattle.tree_stores.specs.Books.{IsOwn};

use crate::shared::Copied;
use crate::slots::block::Block;
use crate::slots::iter::Iter;
use crate::slots::slot::Slot;
use crate::slots::steps::{copy_blocks, own_at, share_at, swap_at, value_at};
use std::alloc::{AllocError, Global};
use std::marker::Model;

/// Values by their numbers. What a change needs is asked for first (`own`), and all that can fail with it; the steps of the
/// change (`take`, `put`) can't fail then, so that none is made where the next would fail. After it the pages are shared again
/// (`share`). A contract sees the map from numbers to values, and for which numbers such steps may be made.
#[derive(Drop)]
pub struct Pages<V> {
    alloc: Global,
    blocks: Vec<Block<V>>,
    /// How many slots have a value.
    filled: usize,
}

impl<V> Model for Pages<V> {
    ghost use Rattle.tree_stores.specs.Books.{Book, book_code, book_of, AreCounted};

    ghost Value = { Book V };

    ghost coded = { book_code V.code };

    ghost view = { λ s. book_of s.blocks.items };

    ghost invariant = { λ s. AreCounted s.blocks.items s.filled };
}

impl<V> Pages<V> {
    /// No values. It takes no memory.
    pub(crate) fn new(alloc: Global) -> Pages<V>
        ensures { result.map ≡ map.empty }
    {
        Pages {
            alloc,
            blocks: Vec::new(alloc),
            filled: 0,
        }
    }

    /// How many numbers have a value.
    pub(crate) fn len(&self) -> usize
        ensures { result ≡ map.len self.now.map }
    {
        self.filled
    }

    /// The values with their numbers, by rising number.
    pub(crate) fn iter(&self) -> Iter<'_, V>
        ensures { result ≡ map.entries self.now.map }
    {
        Iter::new(self.blocks.as_slice())
    }

    /// The value of a number.
    pub fn get(&self, number: u64) -> Option<&V>
        ensures value { option_copied result ≡ map.get self.now.map number }
    {
        value_at(self.blocks.as_slice(), number)
    }

    /// Takes the value of a number out.
    pub fn take(&mut self, number: u64) -> Option<V>
        requires { IsOwn self.old number }
        ensures value { result ≡ map.get self.old.map number }
        ensures updates { self.new.map ≡ map.remove self.old.map number }
        ensures kept { (other : ℕ) → IsOwn self.old other → IsOwn self.new other }
    {
        let value = swap_at(&mut self.blocks, number, Slot::Empty).into_value();
        if value.is_some() {
            self.filled -= 1;
        }
        value
    }

    /// Gives a number a value, and returns the one that it had.
    pub fn put(&mut self, number: u64, value: V) -> Option<V>
        requires { IsOwn self.old number }
        ensures value { result ≡ map.get self.old.map number }
        ensures updates { self.new.map ≡ map.insert self.old.map number value }
        ensures kept { (other : ℕ) → IsOwn self.old other → IsOwn self.new other }
    {
        let old = swap_at(&mut self.blocks, number, Slot::Filled(value)).into_value();
        if old.is_none() {
            self.filled += 1;
        }
        old
    }
}

impl<V: Copied> Pages<V> {
    /// Sees that the value of a number can be taken out and put with no failure.
    pub fn own(&mut self, number: u64) -> Result<(), AllocError>
        ensures same { self.new.map ≡ self.old.map }
        ensures kept { (other : ℕ) → IsOwn self.old other → IsOwn self.new other }
        ensures own { OnOk result (IsOwn self.new number) }
    {
        own_at(&mut self.blocks, self.alloc, number)
    }

    /// Ends that: what stands around a number can be shared with copies again.
    pub fn share(&mut self, number: u64)
        ensures { self.new.map ≡ self.old.map }
    {
        share_at(&mut self.blocks, self.alloc, number);
    }

    /// The same values.
    pub(crate) fn copy(&self) -> Result<Pages<V>, AllocError>
        ensures { IfOk result (λ copy. copy.map ≡ self.now.map) }
    {
        let blocks = copy_blocks(self.blocks.as_slice(), self.alloc)?;
        Ok(Pages {
            alloc: self.alloc,
            blocks,
            filled: self.filled,
        })
    }
}
