//! Calls that got no reply.

ghost use Rattle.tree_laws.specs.Taking.{TakenAsReceived};

/// A call that succeeded takes the same effect where its reply isn't known. Of the run in
/// [`the_premises_are_met`](crate::the_premises_are_met) the first MKDIR is such a call.
pub fn a_success_may_be_taken()
    ensures { TakenAsReceived }
{}
