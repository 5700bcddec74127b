//! The numbers and handles of a server's objects: those that stood at first are 1, 2 and so on, and call n makes the n-th behind them. An
//! object's handle is its number.

ghost use Rattle.std.specs.Prelude.{◌≡◌, ◌≤◌, ◌^◌, [], IfOk, OnOk, MatchOption};
ghost use Rattle.std.specs.List.{range_with_len};
ghost use Rattle.tree_starts.specs.Start.{object_made};
ghost use Rattle.file_tree.specs.StartTree.{start_tree};
ghost use Rattle.journal.specs.Rebuilding.{bindings_made};
ghost use Rattle.journal.specs.Taking.{with_handle};

use file_tree::{Binds, FileTree, Start};
use std::alloc::{AllocError, Global};

/// Lets the handle of an object name it: its number in eight bytes, the highest first.
#[tactic(auto, unfolding(xdr_records::specs::Texts::long_text))]
pub(crate) fn name_object(binds: &mut Binds, object: u64) -> Result<(), AllocError>
    ensures { OnOk result (binds.new ≡ with_handle binds.old object) }
{
    binds.push(object.to_be_bytes().as_slice(), object)
}

/// The number of the object that a call makes, where so many objects stood at first and the sum has 64 bits.
pub fn object_made(first: u64, number: u64) -> Option<u64>
    ensures { MatchOption result (2 ^ 64 ≤ object_made first number) (λ object. object ≡ object_made first number) }
{
    number.checked_add(first)
}

/// Lets the handles of the objects that stood at first name them.
fn name_first(binds: &mut Binds, first: u64) -> Result<(), AllocError>
    requires { binds.old ≡ bindings_made [] }
    ensures { OnOk result (binds.new ≡ bindings_made (range_with_len 1 first)) }
{
    for index in 0..first {
        name_object(binds, index + 1)?;
    }
    Ok(())
}

/// The handles of the root and of so many objects that stood at first.
#[tactic(auto, unfolding(xdr_records::specs::Texts::long_text))]
pub fn binds_at_first(alloc: Global, first: u64) -> Result<Binds, AllocError>
    ensures { IfOk result (λ binds. binds ≡ bindings_made (range_with_len 1 first)) }
{
    let mut binds = Binds::of_root(alloc, 0u64.to_be_bytes().as_slice())?;
    name_first(&mut binds, first)?;
    Ok(binds)
}

/// The tree of what stood at first.
pub fn tree_at_first(alloc: Global, start: &Start) -> Result<FileTree, AllocError>
    ensures { IfOk result (λ tree. tree ≡ start_tree start.now) }
{
    let seen = start.lend(alloc)?;
    FileTree::of_start(alloc, &seen)
}
