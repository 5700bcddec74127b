//! Pages, of up to 64 slots, and blocks, of up to 64 pages. Behind those that there are all slots are empty.

ghost use Rattle.std.specs.Prelude.{◌≡◌, ◌<◌, ◌/◌, ℕ, true, false, length, map, OnOk, slice_set, slice_index_or, option_copied};
ghost use Rattle.tree_stores.specs.declared.slots.slot.Slot.TheVariants.{Empty};
ghost use Rattle.tree_stores.specs.Slots.{value_of};
ghost use Rattle.tree_stores.specs.Pages.{row_in, slots_of, slots_in, is_own, owns_in, Alike};

use crate::shared::Copied;
use crate::slots::held::Held;
use crate::slots::row::{Row, WIDTH};
use crate::slots::slot::Slot;
use std::alloc::{AllocError, Global};
use std::mem::replace;

/// The slots of a page.
pub(crate) type Page<V> = Held<Slot<V>>;

/// How many slots a block has room for.
pub(crate) const SPAN: usize = WIDTH * WIDTH;

/// The pages of a block. A place in it is a number, counted from the first one that the block has a slot for.
pub(crate) type Block<V> = Held<Page<V>>;

/// The value at a place.
pub(crate) fn value_in<V>(block: &Block<V>, place: usize) -> Option<&V>
    ensures { option_copied result ≡ value_of (slice_index_or (slots_in block.now) place Empty) }
{
    let Some(page) = block.row().get(place / WIDTH) else {
        return None;
    };
    let Some(slot) = page.row().get(place % WIDTH) else {
        return None;
    };
    slot.value()
}

/// Puts another slot at an index of a page that has its slots to itself, and gives the one that stood there.
fn swap_slot<V>(page: &mut Page<V>, index: usize, slot: Slot<V>) -> Slot<V>
    requires index { index < 64 }
    requires own { is_own page.old ≡ true }
    ensures within { index < length (row_in page.old) }
    ensures stood { result ≡ slice_index_or (row_in page.old) index result }
    ensures puts { row_in page.new ≡ slice_set (row_in page.old) index slot }
    ensures own { is_own page.new ≡ true }
{
    match &mut page.own {
        Some(row) => replace(row.at(index), slot),
        None => unreachable!(),
    }
}

/// Sees that a page has 64 slots to itself.
fn own_slots<V: Copied>(page: &mut Page<V>, alloc: Global) -> Result<(), AllocError>
    ensures same { Alike (row_in page.new) (row_in page.old) }
    ensures kept { is_own page.old ≡ true → is_own page.new ≡ true }
    ensures own { OnOk result (is_own page.new ≡ true) }
{
    page.own(alloc)?;
    match &mut page.own {
        Some(row) => row.fill(WIDTH),
        None => unreachable!(),
    }
}

/// Puts another slot at a place whose page has its slots to itself, and gives the one that stood there.
pub(crate) fn swap_in<V>(block: &mut Block<V>, place: usize, slot: Slot<V>) -> Slot<V>
    requires { slice_index_or (owns_in block.old) (place / 64) false ≡ true }
    ensures within { place < length (slots_in block.old) }
    ensures stood { result ≡ slice_index_or (slots_in block.old) place result }
    ensures puts { slots_in block.new ≡ slice_set (slots_in block.old) place slot }
    ensures kept { owns_in block.new ≡ owns_in block.old }
{
    match &mut block.own {
        Some(row) => swap_slot(row.at(place / WIDTH), place % WIDTH, slot),
        None => unreachable!(),
    }
}

/// Sees that there is a page at an index, and that it has its slots to itself.
fn own_among<V: Copied>(
    row: &mut Row<Page<V>>,
    alloc: Global,
    index: usize,
) -> Result<(), AllocError>
    requires { index < 64 }
    ensures same { Alike (slots_of row.new) (slots_of row.old) }
    ensures kept { (other : ℕ) → slice_index_or (map is_own row.old) other false ≡ true → slice_index_or (map is_own row.new) other false ≡ true }
    ensures own { OnOk result (slice_index_or (map is_own row.new) index false ≡ true) }
{
    row.fill(index + 1)?;
    own_slots(row.at(index), alloc)
}

/// Sees that a page of a block has its slots to itself, and the block its pages.
pub(crate) fn own_page<V: Copied>(
    block: &mut Block<V>,
    alloc: Global,
    index: usize,
) -> Result<(), AllocError>
    requires { index < 64 }
    ensures same { Alike (slots_in block.new) (slots_in block.old) }
    ensures kept { (other : ℕ) → slice_index_or (owns_in block.old) other false ≡ true → slice_index_or (owns_in block.new) other false ≡ true }
    ensures own { OnOk result (slice_index_or (owns_in block.new) index false ≡ true) }
{
    block.own(alloc)?;
    match &mut block.own {
        Some(row) => own_among(row, alloc, index),
        None => unreachable!(),
    }
}

/// Has the page of a place, if there is one, share its slots again.
fn share_among<V: Copied>(row: &mut Row<Page<V>>, place: usize)
    ensures { Alike (slots_of row.new) (slots_of row.old) }
{
    let index = place / WIDTH;
    if index < row.as_slice().len() {
        row.at(index).share(place % WIDTH);
    }
}

/// Has the page of a place share its slots again, and the block its pages.
pub(crate) fn share_page<V: Copied>(block: &mut Block<V>, alloc: Global, place: usize)
    ensures { Alike (slots_in block.new) (slots_in block.old) }
{
    let Ok(()) = block.own(alloc) else {
        return;
    };
    match &mut block.own {
        Some(row) => share_among(row, place),
        None => unreachable!(),
    }
    block.share(place / WIDTH);
}
