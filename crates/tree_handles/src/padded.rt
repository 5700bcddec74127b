//! Vectors that are taken to go on with one item.

ghost use Rattle.std.specs.Prelude.{◌≡◌, get_or, OnOk, OnErr};
ghost use Rattle.tree_handles.specs.Places.{Rewrites};

use std::alloc::AllocError;

/// The item at a place.
pub(crate) fn at<X: Copy>(items: &[X], rest: X, place: usize) -> X
    ensures { result ≡ get_or items.now place rest }
{
    if place < items.len() {
        items[place]
    } else {
        rest
    }
}

/// Writes an item.
pub(crate) fn put<X: Copy>(
    items: &mut Vec<X>,
    rest: X,
    place: usize,
    item: X,
) -> Result<(), AllocError>
    ensures ok { OnOk result (Rewrites rest items.old.items items.new.items place item) }
    ensures err { OnErr result (items.new.items ≡ items.old.items) }
{
    let Some(count) = place.checked_add(1) else {
        return Err(AllocError);
    };
    if items.len() < count {
        items.resize(count, rest)?;
    }
    items[place] = item;
    Ok(())
}

/// Writes the item with which it goes on, which takes no memory.
pub(crate) fn clear<X: Copy>(items: &mut Vec<X>, rest: X, place: usize)
    ensures { Rewrites rest items.old.items items.new.items place rest }
{
    if place < items.len() {
        items[place] = rest;
    }
}
