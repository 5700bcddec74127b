//! The tree at a place of a plan: from what stood at first, by what the eras ahead kept, and by the places ahead in its era.

ghost use Rattle.std.specs.Prelude.{◌≡◌, IfOk, IfSome, OnOk, OnErr, Some, Err, None, map, take, length};
ghost use Rattle.std.specs.Option.{option_to_list};
ghost use Rattle.replay_law.specs.Run.{state_after, kept_steps};
ghost use Rattle.replay_law.specs.declared.replay.StepFault.TheVariants.{NotAllowed};
ghost use Rattle.tree_starts.specs.Start.{object_made};
ghost use Rattle.witness_check.specs.Run.{step_at, steps_of, era_of, next_of, base_of};
ghost use Rattle.certificate.specs.Plan.{cut_of};
ghost use Rattle.cut_check.specs.Places.{bindings_of};
ghost use Rattle.fault_reasons.specs.Reason.{steps_behind};
ghost use Rattle.fault_reasons.specs.Running.{next_by, first_tree};

use crate::placed::{Placed, placed_at};
use certificate::{Certificate, EraPlan, Place};
use cut_check::bindings_of_plan;
use file_tree::FileTree;
use nfs_history::KnownCalls;
use replay_law::StepFault;
use std::alloc::{AllocError, Global};
use tree_handles::Binds;

/// What steps are taken by.
#[derive(Clone, Copy)]
pub(crate) struct Rule<'h, 'a> {
    pub(crate) alloc: Global,
    pub(crate) history: &'h KnownCalls<'a>,
    /// Whose binds these are.
    pub(crate) plan: &'h Certificate,
    pub(crate) binds: &'h Binds,
}

/// What the handles of a history name, as a plan has it.
pub(crate) fn binds_of(
    alloc: Global,
    history: &KnownCalls<'_>,
    certificate: &Certificate,
) -> Result<Binds, AllocError>
    ensures { IfOk result (λ binds. binds ≡ bindings_of history.now.head.root certificate.now.binds) }
{
    bindings_of_plan(alloc, &history.lend(), certificate)
}

/// The number of the object that a call makes. A history has too few calls and starting objects for a sum past 64 bits.
pub(crate) fn object_made(rule: &Rule<'_, '_>, number: u64) -> Option<u64>
    ensures { IfSome result (λ object. object ≡ object_made (length rule.now.history.now.head.start) number) }
{
    number.checked_add(rule.history.start().count() as u64)
}

/// Takes a step.
#[tactic(auto, using(crate::proofs::Taken::step_is))]
pub(crate) fn take_step(
    tree: &mut FileTree,
    rule: &Rule<'_, '_>,
    step: &Placed,
) -> Result<(), StepFault>
    ensures next { OnOk result (next_by rule.now tree.old step.now.number step.now.call step.now.outcome ≡ Some tree.new) }
    ensures not_allowed { result ≡ Err NotAllowed → next_by rule.now tree.old step.now.number step.now.call step.now.outcome ≡ None }
    ensures err { OnErr result (tree.new ≡ tree.old) }
{
    let Some(object) = object_made(rule, step.number) else {
        return Err(StepFault::NoMemory);
    };
    let profile = rule.history.profile();
    match tree.step_under(profile, rule.binds, object, &step.call, &step.outcome) {
        Ok(undo) => {
            drop(undo);
            Ok(())
        }
        Err(fault) => Err(fault),
    }
}

/// Takes the step of a place, where it has one.
#[tactic(auto, using(crate::proofs::Behind::one_step, crate::proofs::Behind::no_step))]
fn run_place(tree: &mut FileTree, rule: &Rule<'_, '_>, place: Place) -> Result<(), StepFault>
    ensures { OnOk result (state_after (next_by rule.now) tree.old (option_to_list (step_at rule.now.history.now.calls place)) ≡ Some tree.new) }
{
    match placed_at(rule.alloc, rule.history, place)? {
        Some(placed) => take_step(tree, rule, &placed),
        None => Ok(()),
    }
}

/// Takes the steps of places.
fn run_places(tree: &mut FileTree, rule: &Rule<'_, '_>, places: &[Place]) -> Result<(), StepFault>
    ensures { OnOk result (state_after (next_by rule.now) tree.old (steps_of rule.now.history.now.calls places.now) ≡ Some tree.new) }
{
    for place in places {
        run_place(tree, rule, *place)?;
    }
    Ok(())
}

/// The places of an era that the crash at its end leaves.
fn kept_places(era: &EraPlan) -> &[Place]
    ensures { result.now ≡ take (cut_of era.now) era.now.places }
{
    let places = era.places.as_slice();
    let (kept, _) = match era.cut {
        Some(cut) if (cut as usize) < places.len() => places.split_at(cut as usize),
        _ => places.split_at(places.len()),
    };
    kept
}

/// Takes the steps that eras keep.
fn run_kept(tree: &mut FileTree, rule: &Rule<'_, '_>, eras: &[EraPlan]) -> Result<(), StepFault>
    ensures { OnOk result (state_after (next_by rule.now) tree.old (kept_steps (map (era_of rule.now.history.now.calls) eras.now)) ≡ Some tree.new) }
{
    for era in eras {
        run_places(tree, rule, kept_places(era))?;
    }
    Ok(())
}

/// The tree behind what these eras kept, and behind these places of the next one.
pub(crate) fn tree_behind(
    rule: &Rule<'_, '_>,
    ahead: &[EraPlan],
    front: &[Place],
) -> Result<FileTree, StepFault>
    ensures { IfOk result (λ tree. state_after (next_by rule.now) (first_tree rule.now) (steps_behind rule.now.history.now.calls ahead.now front.now) ≡ Some tree) }
{
    let mut tree = FileTree::of_start(rule.alloc, rule.history.start())?;
    run_kept(&mut tree, rule, ahead)?;
    run_places(&mut tree, rule, front)?;
    Ok(tree)
}

/// The tree behind what these eras of a plan keep, and behind these places of the next one; nothing where one of the steps can't have come
/// out so. An `Err` means that memory ran out.
#[tactic(auto, using(crate::proofs::Behind::same_run))]
pub fn tree_after(
    alloc: Global,
    history: &KnownCalls<'_>,
    certificate: &Certificate,
    ahead: &[EraPlan],
    front: &[Place],
) -> Result<Option<FileTree>, AllocError>
    // It is the tree of the verdict's own steps.
    ensures { IfOk result (λ found. IfSome found (λ tree.
        state_after (next_of history.now certificate.now) (base_of history.now) (steps_behind history.now.calls ahead.now front.now) ≡ Some tree)) }
{
    let binds = binds_of(alloc, history, certificate)?;
    let rule = Rule {
        alloc,
        history,
        plan: certificate,
        binds: &binds,
    };
    match tree_behind(&rule, ahead, front) {
        Ok(tree) => Ok(Some(tree)),
        Err(StepFault::NotAllowed) => Ok(None),
        Err(StepFault::NoMemory) => Err(AllocError),
    }
}
