//! Values by their numbers, in slots that stand by pages, which stand by blocks.

ghost use Rattle.std.specs.Prelude.{◌≡◌, ◌<◌, ◌≤◌, ◌^◌, ℕ, true, length, IfOk, OnOk, slice_set, slice_index_or, option_copied};
ghost use Rattle.std.specs.FinMap as map;
ghost use Rattle.tree_stores.specs.Pages.{all_slots, owns, is_set};
ghost use Rattle.tree_stores.specs.Books.{values_of};

use crate::shared::Copied;
use crate::slots::block::{Block, SPAN, own_page, share_page, swap_in, value_in};
use crate::slots::row::{Blank, WIDTH};
use crate::slots::slot::Slot;
use std::alloc::{AllocError, Global};

/// The most blocks. Numbers beyond them have no value.
const MOST: usize = 1 << 51;

/// The value of a number.
pub(crate) fn value_at<V>(blocks: &[Block<V>], number: u64) -> Option<&V>
    ensures value { option_copied result ≡ map.get (values_of blocks.now) number }
{
    let index = number as usize;
    let Some(block) = blocks.get(index / SPAN) else {
        return None;
    };
    value_in(block, index % SPAN)
}

/// Puts another slot at a number whose page has its slots to itself, and gives the one that stood there.
pub(crate) fn swap_at<V>(blocks: &mut Vec<Block<V>>, number: u64, slot: Slot<V>) -> Slot<V>
    requires { is_set (owns blocks.old.items) number ≡ true }
    ensures within { number < length (all_slots blocks.old.items) }
    ensures stood { result ≡ slice_index_or (all_slots blocks.old.items) number result }
    ensures puts { all_slots blocks.new.items ≡ slice_set (all_slots blocks.old.items) number slot }
    ensures few { length blocks.new.items ≡ length blocks.old.items }
    ensures kept { owns blocks.new.items ≡ owns blocks.old.items }
{
    let index = number as usize;
    swap_in(&mut blocks[index / SPAN], index % SPAN, slot)
}

/// Makes empty blocks up to an index. They take no memory but their places.
fn reach<V: Drop>(blocks: &mut Vec<Block<V>>, index: usize) -> Result<(), AllocError>
    requires { length blocks.old.items ≤ 2 ^ 51 }
    ensures ok { OnOk result (index < length blocks.new.items) }
    ensures same { values_of blocks.new.items ≡ values_of blocks.old.items }
    ensures few { length blocks.new.items ≤ 2 ^ 51 }
    ensures kept { (other : ℕ) → is_set (owns blocks.old.items) other ≡ true → is_set (owns blocks.new.items) other ≡ true }
{
    if index >= MOST {
        return Err(AllocError);
    }
    while blocks.len() <= index {
        blocks.push(Block::blank())?;
    }
    Ok(())
}

/// Sees that a number has a page, and that this has its slots to itself.
pub(crate) fn own_at<V: Copied>(
    blocks: &mut Vec<Block<V>>,
    alloc: Global,
    number: u64,
) -> Result<(), AllocError>
    requires { length blocks.old.items ≤ 2 ^ 51 }
    ensures same { values_of blocks.new.items ≡ values_of blocks.old.items }
    ensures few { length blocks.new.items ≤ 2 ^ 51 }
    ensures kept { (other : ℕ) → is_set (owns blocks.old.items) other ≡ true → is_set (owns blocks.new.items) other ≡ true }
    ensures own { OnOk result (is_set (owns blocks.new.items) number ≡ true) }
{
    let index = number as usize;
    reach(blocks, index / SPAN)?;
    own_page(&mut blocks[index / SPAN], alloc, index % SPAN / WIDTH)
}

/// Has the page of a number, if there is one, share its slots again, and its block the pages.
pub(crate) fn share_at<V: Copied>(blocks: &mut Vec<Block<V>>, alloc: Global, number: u64)
    ensures same { values_of blocks.new.items ≡ values_of blocks.old.items }
    ensures few { length blocks.new.items ≡ length blocks.old.items }
{
    let index = number as usize;
    if index / SPAN < blocks.len() {
        share_page(&mut blocks[index / SPAN], alloc, index % SPAN);
    }
}

/// The same blocks.
pub(crate) fn copy_blocks<V: Copied>(
    blocks: &[Block<V>],
    alloc: Global,
) -> Result<Vec<Block<V>>, AllocError>
    ensures { IfOk result (λ copies. copies.items ≡ blocks.now) }
{
    let mut copies = Vec::with_capacity(alloc, blocks.len())?;
    for block in blocks {
        copies.push(block.copied()?)?;
    }
    Ok(copies)
}
