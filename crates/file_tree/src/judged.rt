//! What a call with its outcome makes of a tree, under a profile.

ghost use Rattle.std.specs.Prelude.{◌≡◌, ℕ, Some};
ghost use Rattle.tree_starts.specs.declared.profile.Profile.TheVariants.{Strict};
ghost use Rattle.file_tree.specs.Change.{Change};
ghost use Rattle.file_tree.specs.Judging.{lets, change_under};
ghost use Rattle.file_tree.specs.Planning.{Does, Plans};
ghost use Rattle.file_tree.specs.Success.{changed, change_of};

use crate::agreeing::agrees_after;
use crate::object_change::ObjectChange;
use crate::success::change_of;
use nfs3_types::{NfsCall, Outcome};
use replay_law::StepFault;
use std::alloc::Global;
use tree_answers::tree_handles::View;
use tree_starts::Profile;

/// Whether a reply, if one came, agrees with the tree as it stands and with the tree after its change.
fn is_let_be(view: &View<'_>, plan: &ObjectChange<'_>, call: &NfsCall, outcome: &Outcome) -> bool
    ensures { (number : ℕ) (change : Change) → change_of view.now.binds.now view.now.nodes.now number call.now outcome.now ≡ Some change
        → Does view.now.nodes.now plan.now change
        → result ≡ lets view.now.binds.now view.now.nodes.now call.now outcome.now (changed view.now.nodes.now change) }
{
    match outcome {
        Outcome::Received(reply) => agrees_after(view, plan, call, reply),
        Outcome::Taken(_) => true,
    }
}

/// What it makes of the tree under the strict profile.
fn change_strictly<'a>(
    alloc: Global,
    view: &View<'_>,
    number: u64,
    call: &'a NfsCall,
    outcome: &Outcome,
) -> Result<ObjectChange<'a>, StepFault>
    ensures { Plans view.now.nodes.now result (change_under Strict view.now.binds.now view.now.nodes.now number call.now outcome.now) }
{
    let plan = change_of(alloc, view, number, call, outcome)?;
    if is_let_be(view, &plan, call, outcome) {
        return Ok(plan);
    }
    drop(plan);
    Err(StepFault::NotAllowed)
}

/// What it makes of the tree, where the profile lets it.
pub(crate) fn change_under<'a>(
    alloc: Global,
    profile: Profile,
    view: &View<'_>,
    number: u64,
    call: &'a NfsCall,
    outcome: &Outcome,
) -> Result<ObjectChange<'a>, StepFault>
    ensures { Plans view.now.nodes.now result (change_under profile view.now.binds.now view.now.nodes.now number call.now outcome.now) }
{
    match profile {
        Profile::Plain => change_of(alloc, view, number, call, outcome),
        Profile::Strict => change_strictly(alloc, view, number, call, outcome),
    }
}
