//! What RENAME moves.

ghost use Rattle.tree_laws.specs.Renaming.{RenameMoves};

/// A RENAME that succeeds moves what it names with all that lies below it, and nothing else; onto itself it
/// leaves the tree. The run in [`the_premises_are_met`](crate::the_premises_are_met) has one of a file, and one
/// of a directory with a file in it.
pub fn a_rename_moves_what_it_names()
    ensures { RenameMoves }
{}
