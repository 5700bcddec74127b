//! Values by their numbers.

ghost use Rattle.std.specs.Prelude.{◌≡◌, IfOk, OnOk, OnErr, option_copied};
ghost use Rattle.std.specs.Borrow.{Lends, sem};
ghost use Rattle.std.specs.FinMap as map;

mod block;
mod held;
mod iter;
mod pages;
mod row;
pub(crate) mod slot;
mod steps;

use crate::shared::Copied;
pub use iter::Iter;
pub use pages::Pages;
use std::alloc::{AllocError, Global};
use std::marker::Model;

/// Values by their numbers, 64 to a page and 4,096 to a block: a look-up costs the same however many there are. Copies share blocks.
/// A change of one copies the page that it touches and the list of that block's pages, unless nothing else has them. A page has room
/// for 64 values, so a large value belongs behind a pointer; a page or a block with no values takes no memory but its place. A
/// contract sees the map from numbers to values.
#[derive(Drop)]
pub struct Slots<V> {
    pages: Pages<V>,
}

impl<V> Model for Slots<V> {
    ghost use Rattle.std.specs.Coded.{coded_ℕ};
    ghost use Rattle.std.specs.Ordering.{nat_cmp};
    ghost use Rattle.std.specs.FinMap as finite;

    ghost Value = { finite.FinMap nat_cmp V };

    ghost coded = { finite.code coded_ℕ V.code };

    ghost view = { λ s. s.pages.map };
}

impl<V> Slots<V> {
    ghost use Rattle.tree_stores.specs.Lends.{lends_pages};

    /// No values. It takes no memory.
    pub fn new(alloc: Global) -> Slots<V>
        ensures { result ≡ map.empty }
    {
        Slots {
            pages: Pages::new(alloc),
        }
    }

    /// How many numbers have a value.
    pub fn len(&self) -> usize
        ensures { result ≡ map.len self.now }
    {
        self.pages.len()
    }

    /// The values with their numbers, by rising number. A page or a block with no values is passed in one step.
    pub fn iter(&self) -> Iter<'_, V>
        ensures { result ≡ map.entries self.now }
    {
        self.pages.iter()
    }

    /// The value of a number.
    pub fn get(&self, number: u64) -> Option<&V>
        ensures value { option_copied result ≡ map.get self.now number }
    {
        self.pages.get(number)
    }

    /// The pages, for a change of several steps.
    pub fn pages_mut(&mut self) -> &mut Pages<V>
        ensures* writes_back { sem 𝓛 (lends_pages V.row self.entry result) }
        ensures value { result.now.map ≡ self.old }
    {
        &mut self.pages
    }
}

impl<V: Copied> Slots<V> {
    /// Gives a number a value, and returns the one that it had.
    pub fn insert(&mut self, number: u64, value: V) -> Result<Option<V>, AllocError>
        ensures old { IfOk result (λ old. old ≡ map.get self.old number) }
        ensures updates { OnOk result (self.new ≡ map.insert self.old number value) }
        ensures err { OnErr result (self.new ≡ self.old) }
    {
        self.pages.own(number)?;
        let old = self.pages.put(number, value);
        self.pages.share(number);
        Ok(old)
    }

    /// Takes the value of a number out.
    pub fn remove(&mut self, number: u64) -> Result<Option<V>, AllocError>
        ensures value { IfOk result (λ value. value ≡ map.get self.old number) }
        ensures updates { OnOk result (self.new ≡ map.remove self.old number) }
        ensures err { OnErr result (self.new ≡ self.old) }
    {
        self.pages.own(number)?;
        let value = self.pages.take(number);
        self.pages.share(number);
        Ok(value)
    }

    /// The same values. It costs a step for each block, of which there is one for each 4,096 numbers up to the greatest.
    pub fn copy(&self) -> Result<Slots<V>, AllocError>
        ensures { IfOk result (λ copy. copy ≡ self.now) }
    {
        Ok(Slots {
            pages: self.pages.copy()?,
        })
    }
}
