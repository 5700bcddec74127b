//! What leaves the tree.

ghost use Rattle.tree_laws.specs.Leaving.{FailureLeaves, LookingLeaves};

/// A call that fails leaves the tree, and so does a call that only looks, whatever is answered. Of the run in
/// [`the_premises_are_met`](crate::the_premises_are_met) the LOOKUP is such a call, and the READ.
pub fn a_failure_leaves_the_tree()
    ensures failed { FailureLeaves }
    ensures looked { LookingLeaves }
{}
