//! Calls that the laws speak of.

ghost use Rattle.tree_laws.specs.Example.{IsRun, StartsRight, IsRunBehind};

/// The laws' premises are met: twelve calls are a run from the opening tree, in which each procedure that
/// changes the tree succeeds, a READ gives what a WRITE wrote, and a LOOKUP fails. A directory with a file in it is a start, and from
/// it a READ, a WRITE and a GETATTR with their attributes are a run under the strict profile.
pub fn the_premises_are_met()
    ensures run { IsRun }
    ensures start { StartsRight }
    ensures behind { IsRunBehind }
{}
