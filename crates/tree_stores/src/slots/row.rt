//! Up to 64 values side by side.

ghost use Rattle.std.specs.Prelude.{◌≡◌, ◌<◌, ◌≤◌, ℕ, length, IsTrue, OnOk, slice_set, slice_index_or};
ghost use Rattle.std.specs.Borrow.{Lends, sem};

use crate::shared::Copied;
use std::alloc::{AllocError, Global};
use std::marker::Model;

/// How many values a row has room for.
pub(crate) const WIDTH: usize = 64;

/// Values of which one, the blank one, stands where nothing was put.
pub(crate) trait Blank: Drop {
    ghost blank: { Self };

    /// The blank value.
    fn blank() -> Self
        ensures { result ≡ blank };

    /// Whether the value is blank. It may say no of a blank one.
    fn is_blank(&self) -> bool
        ensures { IsTrue result → self.now ≡ blank };
}

/// Up to 64 values side by side. A contract sees the list of them.
#[derive(Drop)]
pub(crate) struct Row<X> {
    items: Vec<X>,
}

impl<X> Model for Row<X> {
    ghost use Rattle.std.specs.Prelude.{◌≤◌, List, length};

    ghost Value = { List X };

    ghost view = { λ r. r.items.items };

    ghost invariant = { λ r. length r.items.items ≤ 64 };
}

impl<X> Row<X> {
    ghost use Rattle.std.specs.Prelude.{[]};
    ghost use Rattle.tree_stores.specs.contracts.slots.row.Row.{the_row};

    /// No values. It takes no memory.
    pub(crate) fn none(alloc: Global) -> Row<X>
        ensures { result ≡ [] }
    {
        Row {
            items: Vec::new(alloc),
        }
    }

    /// The values.
    pub(crate) fn as_slice(&self) -> &[X]
        ensures is { result.now ≡ self.now }
        ensures short { length result.now ≤ 64 }
    {
        self.items.as_slice()
    }

    /// The value at an index, to be changed.
    pub(crate) fn at(&mut self, index: usize) -> &mut X
        requires { index < length self.old }
        ensures* writes_back { sem 𝓛 (Lends (the_row X.row) X.row self.entry result (λ value. slice_set self.entry.now index value)) }
        ensures value { result.now ≡ slice_index_or self.old index result.now }
    {
        &mut self.items[index]
    }
}

impl<X: Blank> Row<X> {
    /// Sees that there are at least so many values. Those that come are blank.
    pub(crate) fn fill(&mut self, count: usize) -> Result<(), AllocError>
        requires { count ≤ 64 }
        ensures ok { OnOk result (count ≤ length self.new) }
        ensures grows { length self.old ≤ length self.new }
        ensures same { (index : ℕ) → slice_index_or self.new index X.blank ≡ slice_index_or self.old index X.blank }
    {
        let len = self.items.len();
        if len < count {
            self.items.reserve(count - len)?;
        }
        while self.items.len() < count {
            self.items.push(X::blank())?;
        }
        Ok(())
    }

    /// Whether all values are blank. The one at an index is looked at first, since that is mostly the answer.
    pub(crate) fn all_blank(&self, index: usize) -> bool
        ensures { IsTrue result → (place : ℕ) → slice_index_or self.now place X.blank ≡ X.blank }
    {
        if let Some(item) = self.items.get(index) {
            if !item.is_blank() {
                return false;
            }
        }
        for item in &self.items {
            if !item.is_blank() {
                return false;
            }
        }
        true
    }
}

impl<X: Copied> Copied for Row<X> {
    fn copied(&self) -> Result<Row<X>, AllocError> {
        let mut items = Vec::with_capacity(*self.items.allocator(), self.items.len())?;
        for item in &self.items {
            items.push(item.copied()?)?;
        }
        Ok(Row { items })
    }
}
