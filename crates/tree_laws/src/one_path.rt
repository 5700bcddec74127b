//! The one path that a call may change.

ghost use Rattle.tree_laws.specs.OnePath.{OthersStay};

/// However it comes out, a call that is no RENAME leaves each path but the one that it is to change as it
/// was: a WRITE each but that of its file, a MKDIR each but that of the new name.
pub fn a_call_changes_one_path()
    ensures { OthersStay }
{}
