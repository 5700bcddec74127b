//! A tree out of a journal's records.

ghost use Rattle.std.specs.Prelude.{◌≡◌, ◌⊎◌, [], length, IfOk, IfErr, OnOk, Ok, Err};
ghost use Rattle.std.specs.List.{range_with_len};
ghost use Rattle.tree_starts.specs.declared.profile.Profile.TheVariants.{Plain};
ghost use Rattle.tree_nodes.specs.Tree.{Tree};
ghost use Rattle.file_tree.specs.StartTree.{start_tree};
ghost use Rattle.journal.specs.Rebuilding.{bindings_made, Rebuilds, FaultHolds};
ghost use Rattle.journal.specs.Taking.{Stands, Leads, StopsIn};
ghost use Rattle.journal.specs.declared.rebuild_fault.RebuildFault.TheVariants.{NoMemory};

use crate::journal_record::Record;
use crate::naming::{binds_at_first, tree_at_first};
use crate::rebuild_fault::RebuildFault;
use crate::taking::take_record;
use file_tree::{Binds, FileTree, Profile, Start};
use std::alloc::Global;

/// Takes the records, one after the other.
fn take_records(
    alloc: Global,
    profile: Profile,
    start: &Start,
    tree: &mut FileTree,
    binds: &mut Binds,
    records: &[Record],
) -> Result<(), RebuildFault>
    requires binds { binds.old ≡ bindings_made (range_with_len 1 (length start.now)) }
    requires tree { tree.old ≡ start_tree start.now }
    ensures ok { OnOk result (Stands profile start.now records.now binds.new tree.new) }
    ensures fault { IfErr result (StopsIn profile start.now records.now) }
{
    let first = start.objects().len() as u64;
    for (index, next) in records.iter().enumerate() {
        let number = index as u64 + 1;
        match take_record(alloc, profile, first, tree, binds, number, next.as_slice()) {
            Ok(()) => {}
            Err(fault) => return Err(fault),
        }
    }
    Ok(())
}

/// The tree behind the records, from what stood at first.
fn tree_of(
    alloc: Global,
    profile: Profile,
    start: &Start,
    records: &[Record],
) -> Result<FileTree, RebuildFault>
    ensures found { IfOk result (Leads profile start.now records.now) }
    ensures fault { IfErr result (StopsIn profile start.now records.now) }
{
    let mut binds = binds_at_first(alloc, start.objects().len() as u64)?;
    let mut tree = tree_at_first(alloc, start)?;
    take_records(alloc, profile, start, &mut tree, &mut binds, records)?;
    Ok(tree)
}

/// The tree that the changes of these records lead to under this profile, from what the server held at first.
pub fn rebuild_from(
    alloc: Global,
    profile: Profile,
    start: &Start,
    records: &[Record],
) -> Result<FileTree, RebuildFault>
    ensures found { IfOk result (Rebuilds profile start.now records.now) }
    // The first record at fault is named, with what is wrong with it.
    ensures bad { IfErr result (FaultHolds profile start.now records.now) }
    // Records that lead to a tree give that tree, memory aside.
    ensures only { (tree : Tree) → Rebuilds profile start.now records.now tree → (result ≡ Ok tree) ⊎ (result ≡ Err NoMemory) }
{
    tree_of(alloc, profile, start, records)
}

/// The tree that the changes of these records lead to, from the root alone. Attributes in replies aren't judged.
pub fn rebuild(alloc: Global, records: &[Record]) -> Result<FileTree, RebuildFault>
    ensures found { IfOk result (Rebuilds Plain [] records.now) }
    ensures bad { IfErr result (FaultHolds Plain [] records.now) }
    ensures only { (tree : Tree) → Rebuilds Plain [] records.now tree → (result ≡ Ok tree) ⊎ (result ≡ Err NoMemory) }
{
    let start = Start::empty(alloc);
    rebuild_from(alloc, Profile::Plain, &start, records)
}
