//! Pages in the place of others, all at once or not at all.

ghost use Rattle.std.specs.Prelude.{◌≡◌, ℕ, All, cond, nat_eq, OnOk, IfOk, OnErr};
ghost use Rattle.tree_stores.specs.Paged.{page_of, byte_of, HasRoom, changed};

use crate::file_bytes::page::Page;
use crate::file_bytes::pages::{Pages, set_up, swap_page, take_out_empty};
use std::alloc::{AllocError, Global};

/// What a page is to hold.
#[derive(Drop)]
pub(crate) struct Change {
    pub(crate) number: u64,
    pub(crate) page: Page,
}

/// What turns a file back to what it was ahead of one change: its size, and the pages that changed.
#[derive(Drop)]
pub struct FileUndo {
    pub(crate) size: u64,
    pub(crate) changes: Vec<Change>,
}

/// Puts pages in the place of those that stand there, the last first, and gives those. Nothing changes where memory runs
/// out.
pub(crate) fn replace(
    alloc: Global,
    pages: &mut Pages,
    changes: Vec<Change>,
) -> Result<Vec<Change>, AllocError>
    ensures ok { OnOk result (byte_of pages.new ≡ changed changes.items (byte_of pages.old)) }
    ensures undo { IfOk result (λ before. changed before.items (byte_of pages.new) ≡ byte_of pages.old) }
    ensures err { OnErr result (byte_of pages.new ≡ byte_of pages.old) }
{
    let mut changes = changes;
    make_room(alloc, pages, changes.as_slice())?;
    exchange(pages, &mut changes);
    tidy(pages, changes.as_slice());
    Ok(changes)
}

/// Sees that there is a page, if an empty one, at each number of the changes.
fn make_room(alloc: Global, pages: &mut Pages, changes: &[Change]) -> Result<(), AllocError>
    ensures same { byte_of pages.new ≡ byte_of pages.old }
    ensures room { OnOk result (All (λ change. HasRoom pages.new change.number) changes.now) }
{
    for change in changes {
        set_up(alloc, pages, change.number)?;
    }
    Ok(())
}

/// Puts the pages, the last first, and keeps those that stood there in the order in which they went.
fn exchange(pages: &mut Pages, changes: &mut Vec<Change>)
    requires { All (λ change. HasRoom pages.old change.number) changes.old.items }
    ensures changed { byte_of pages.new ≡ changed changes.old.items (byte_of pages.old) }
    ensures undo { changed changes.new.items (byte_of pages.new) ≡ byte_of pages.old }
{
    let mut left = changes.len();
    while left > 0 {
        left -= 1;
        put_change(pages, &mut changes[left]);
    }
    changes.reverse();
}

/// Puts a page, and keeps in its place the one that stood there.
fn put_change(pages: &mut Pages, change: &mut Change)
    requires { HasRoom pages.old change.old.number }
    ensures number { change.new.number ≡ change.old.number }
    ensures stood { change.new.page ≡ page_of pages.old change.old.number }
    ensures puts { (q : ℕ) → page_of pages.new q ≡ cond (nat_eq change.old.number q) change.old.page (page_of pages.old q) }
    ensures kept { (q : ℕ) → HasRoom pages.old q → HasRoom pages.new q }
{
    swap_page(pages, change.number, &mut change.page);
}

/// Takes out the empty pages that stand at the numbers of the changes.
fn tidy(pages: &mut Pages, changes: &[Change])
    ensures { byte_of pages.new ≡ byte_of pages.old }
{
    for change in changes {
        take_out_empty(pages, change.number);
    }
}
