//! A walk over the values.

ghost use Rattle.std.specs.Prelude.{◌≡◌, ◌+◌, ◌*◌, ◌<◌, ◌^◌, ◌∷◌, [], length, MatchOption};
ghost use Rattle.std.specs.Iterator.{YieldsFirstBy, item_count};
ghost use Rattle.tree_stores.specs.Slots.{entries_from};
ghost use Rattle.tree_stores.specs.Pages.{row_in, padded, slots_in, all_slots};

use crate::slots::block::{Block, Page, SPAN};
use crate::slots::row::WIDTH;
use crate::slots::slot::Slot;
use std::marker::Model;

/// The values of a page that are left.
#[derive(Drop)]
struct InPage<'a, V> {
    slots: &'a [Slot<V>],
    /// The number of the first slot that is left.
    number: u64,
}

impl<'a, V> Model for InPage<'a, V> {
    ghost use Rattle.std.specs.Prelude.{ℕ, List, length, ◌+◌, ◌<◌, ◌^◌};

    ghost Value = { List (ℕ × V) };

    ghost use Rattle.tree_stores.specs.Slots.{entries_from};

    ghost view = { λ it. entries_from it.number it.slots.now };

    ghost invariant = { λ it. it.number + length it.slots.now < 2 ^ 64 };
}

impl<'a, V> InPage<'a, V> {
    /// No values.
    fn none() -> InPage<'a, V>
        ensures { result ≡ [] }
    {
        InPage {
            slots: &[],
            number: 0,
        }
    }

    /// The values of a page whose first slot has this number.
    fn new(page: &'a Page<V>, number: u64) -> InPage<'a, V>
        requires { number + 64 < 2 ^ 64 }
        ensures { result ≡ entries_from number (padded 64 (row_in page.now)) }
    {
        InPage {
            slots: page.row(),
            number,
        }
    }

    /// The next value with its number.
    fn step(&mut self) -> Option<(u64, &'a V)>
        ensures { MatchOption result ((self.old ≡ []) × (self.new ≡ [])) (λ item. self.old ≡ (item.0, item.1.now) ∷ self.new) }
    {
        while let Some((slot, rest)) = self.slots.split_first() {
            let number = self.number;
            self.slots = rest;
            self.number += 1;
            if let Some(value) = slot.value() {
                return Some((number, value));
            }
        }
        None
    }
}

/// The values of a block that are left.
#[derive(Drop)]
struct InBlock<'a, V> {
    page: InPage<'a, V>,
    pages: &'a [Page<V>],
    /// The number of the first slot of the first page that is left.
    number: u64,
}

impl<'a, V> Model for InBlock<'a, V> {
    ghost use Rattle.std.specs.Prelude.{ℕ, List, length, ◌++◌, ◌+◌, ◌*◌, ◌<◌, ◌^◌};

    ghost Value = { List (ℕ × V) };

    ghost use Rattle.tree_stores.specs.Pages.{page_entries};

    ghost view = { λ it. it.page ++ page_entries it.number it.pages.now };

    ghost invariant = { λ it. it.number + 64 * length it.pages.now < 2 ^ 64 };
}

impl<'a, V> InBlock<'a, V> {
    /// No values.
    fn none() -> InBlock<'a, V>
        ensures { result ≡ [] }
    {
        InBlock {
            page: InPage::none(),
            pages: &[],
            number: 0,
        }
    }

    /// The values of a block whose first slot has this number.
    fn new(block: &'a Block<V>, number: u64) -> InBlock<'a, V>
        requires { number + 4096 < 2 ^ 64 }
        ensures { result ≡ entries_from number (padded 4096 (slots_in block.now)) }
    {
        InBlock {
            page: InPage::none(),
            pages: block.row(),
            number,
        }
    }

    /// The next value with its number. A page with no values is passed in one step.
    fn step(&mut self) -> Option<(u64, &'a V)>
        ensures { MatchOption result ((self.old ≡ []) × (self.new ≡ [])) (λ item. self.old ≡ (item.0, item.1.now) ∷ self.new) }
    {
        loop {
            if let Some(item) = self.page.step() {
                return Some(item);
            }
            let (page, rest) = self.pages.split_first()?;
            self.page = InPage::new(page, self.number);
            self.pages = rest;
            self.number += WIDTH as u64;
        }
    }
}

/// The values with their numbers, by rising number, seen as the list of those that are left.
#[derive(Drop)]
pub struct Iter<'a, V> {
    block: InBlock<'a, V>,
    blocks: &'a [Block<V>],
    /// The number of the first slot of the first block that is left.
    number: u64,
}

impl<'a, V> Model for Iter<'a, V> {
    ghost use Rattle.std.specs.Prelude.{ℕ, List, length, ◌++◌, ◌+◌, ◌*◌, ◌<◌, ◌^◌};

    ghost Value = { List (ℕ × V) };

    ghost use Rattle.tree_stores.specs.Pages.{block_entries};

    ghost view = { λ it. it.block ++ block_entries it.number it.blocks.now };

    ghost invariant = { λ it. it.number + 4096 * length it.blocks.now < 2 ^ 64 };
}

impl<'a, V> Iter<'a, V> {
    /// A walk over the values of blocks.
    pub(crate) fn new(blocks: &'a [Block<V>]) -> Iter<'a, V>
        requires { 4096 * length blocks.now < 2 ^ 64 }
        ensures { result ≡ entries_from 0 (all_slots blocks.now) }
    {
        Iter {
            block: InBlock::none(),
            blocks,
            number: 0,
        }
    }
}

impl<'a, V> Iterator for Iter<'a, V> {
    type Item = (u64, &'a V);

    ghost next_gives = { YieldsFirstBy (λ item. (item.0, item.1.now)) (λ rest. rest) };

    ghost remaining = { item_count (λ rest. rest) };

    fn next(&mut self) -> Option<(u64, &'a V)> {
        loop {
            if let Some(item) = self.block.step() {
                return Some(item);
            }
            let (block, rest) = self.blocks.split_first()?;
            self.block = InBlock::new(block, self.number);
            self.blocks = rest;
            self.number += SPAN as u64;
        }
    }
}
