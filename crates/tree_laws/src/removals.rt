//! What REMOVE and RMDIR take away.

ghost use Rattle.tree_laws.specs.OneGone.{RemoveTakesOne, RmDirTakesOne};

/// A REMOVE or RMDIR that succeeds takes the node away that it names, and no other. The run in
/// [`the_premises_are_met`](crate::the_premises_are_met) has one of each.
pub fn removals_take_one_node_away()
    ensures remove { RemoveTakesOne }
    ensures rmdir { RmDirTakesOne }
{}
