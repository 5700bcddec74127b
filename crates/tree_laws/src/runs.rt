//! What every tree of a run is.

ghost use Rattle.tree_laws.specs.LiveHandles.{HandlesLast};
ghost use Rattle.tree_laws.specs.Types.{ObjectsLast};
ghost use Rattle.tree_laws.specs.WellFormed.{StepsKeep, RunsKeep, NothingBelow, NoDirectoryIsBare, RemoveAsksOnly, RenameAsksOnly};

/// Whatever a server held at first, whatever calls are made of it, and however they come out under either profile, each tree that they
/// reach is well formed: the root is a directory, each entry lies in a directory, and each object stands at one path.
pub fn every_tree_is_well_formed()
    ensures steps { StepsKeep }
    ensures runs { RunsKeep }
{}

/// In such a tree nothing stands below a path at which no directory stands. So a REMOVE, or a RENAME onto a
/// file, asks nothing of what lies below: its rule is RFC 1813's.
pub fn only_directories_have_entries()
    ensures below { NothingBelow }
    ensures bare { NoDirectoryIsBare }
    ensures remove { RemoveAsksOnly }
    ensures rename { RenameAsksOnly }
{}

/// An object that stands in such a tree before a call and in the tree after it is of the same type, and a
/// link has the same text. The file of the run in [`the_premises_are_met`](crate::the_premises_are_met) is
/// one, through a WRITE and two RENAMEs.
pub fn an_object_keeps_its_type()
    ensures { ObjectsLast }
{}

/// A file handle that is live in such a tree stays live and names the same object, until a REMOVE or an RMDIR
/// takes that object's name away, or a RENAME puts another one there. The handle of the file of that run is
/// one, from the CREATE up to the REMOVE.
pub fn a_live_handle_stays_live()
    ensures { HandlesLast }
{}
