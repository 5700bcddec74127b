//! What handles a call depends on.

ghost use Rattle.tree_laws.specs.Agreeing.{OthersDontMatter};
ghost use Rattle.tree_laws.specs.Newcomers.{OnlyItsOwnIsNew};

/// What a call does depends on the handles of the objects that stand, and of the one that it makes. What other handles name makes no
/// difference: an object that was lost, or one that is made later.
pub fn other_handles_make_no_difference()
    ensures { OthersDontMatter }
{}

/// An object that comes into the tree with a call has the call's number. Of the run in
/// [`the_premises_are_met`](crate::the_premises_are_met) the first MKDIR is such a call.
pub fn only_its_own_object_is_new()
    ensures { OnlyItsOwnIsNew }
{}
