//! Explaining a verdict.

ghost use Rattle.std.specs.Prelude.{◌≡◌, ◌==◌, ◌+◌, position, ◌∷◌, ◌++◌, List, length, IfOk, IfSome, IsSome, MatchOption, MatchBool, Some, None, ⊤};
ghost use Rattle.replay_law.specs.Run.{state_after};
ghost use Rattle.certificate.specs.declared.plan.EraPlan.{EraPlan};
ghost use Rattle.certificate.specs.declared.plan.Place.{Place};
ghost use Rattle.witness_check.specs.declared.fault.Fault.TheVariants as faults;
ghost use Rattle.witness_check.specs.Witness.{IsWitness};
ghost use Rattle.witness_check.specs.Verdict.{IsPlanFault};
ghost use Rattle.witness_check.specs.Stop.{IsStop, IsNoStop};
ghost use Rattle.certificate.specs.Plan.{call_of};
ghost use Rattle.fault_reasons.specs.Reason.{IsReasonOf, IsIllegalIn, IsIllegalPlace, IsSpot, steps_behind};
ghost use Rattle.fault_reasons.specs.Running.{next_by, first_tree, StandsBehind, IsStuckAt, illegal_of};

use crate::asking::{Answered, right_reply};
use crate::placed::{Placed, placed_at};
use crate::reason::{IllegalPlace, Reason};
use crate::running::{Rule, binds_of, take_step};
use crate::telling::{early, short_cut};
use certificate::{Certificate, EraPlan, Place};
use file_tree::FileTree;
use nfs_history::KnownCalls;
use replay_law::StepFault;
use std::alloc::{AllocError, Global};
use witness_check::{Fault, Judgement, Stop, judge_calls};

/// Where a call is placed.
#[derive(Clone, Copy)]
struct Spot<'p> {
    /// The eras ahead of its own.
    ahead: &'p [EraPlan],
    /// The places ahead of its own in its era.
    front: &'p [Place],
    /// Its place.
    place: Place,
}

/// The index of the first place of a call.
fn index_of(places: &[Place], number: u64) -> Option<usize>
    ensures { result ≡ position (λ place. call_of place == number) places.now }
{
    places.iter().position(|place| place.number() == number)
}

/// The place of a call in its era, with the places ahead of it.
#[tactic(auto, using(crate::proofs::Told::stands_behind))]
fn spot_in<'p>(ahead: &'p [EraPlan], era: &'p EraPlan, number: u64) -> Option<Spot<'p>>
    ensures ahead { IfSome result (λ spot. spot.ahead.now ≡ ahead.now) }
    ensures stands { IfSome result (λ spot. StandsBehind era.now.places spot.front.now spot.place) }
    ensures named { IfSome result (λ spot. call_of spot.place ≡ number) }
    ensures finds { (front back : List Place) (place : Place) → era.now.places ≡ front ++ place ∷ back → call_of place ≡ number → IsSome result }
{
    let places = era.places.as_slice();
    let index = index_of(places, number)?;
    let (front, rest) = places.split_at_checked(index)?;
    let (place, _) = rest.split_first()?;
    Some(Spot {
        ahead,
        front,
        place: *place,
    })
}

/// The place of a call of this era in a plan.
#[tactic(auto, using(crate::proofs::Told::is_spot))]
fn spot_of(eras: &[EraPlan], era: u64, number: u64) -> Option<Spot<'_>>
    ensures spot { IfSome result (λ spot. IsSpot eras.now spot.ahead.now spot.front.now spot.place) }
    ensures named { IfSome result (λ spot. call_of spot.place ≡ number) }
    ensures finds { (ahead : List EraPlan) (front : List Place) (place : Place) → IsSpot eras.now ahead front place → era ≡ length ahead + 1
        → call_of place ≡ number → IsSome result }
{
    let index = era.checked_sub(1)?;
    let (ahead, rest) = eras.split_at_checked(index as usize)?;
    let (era, _) = rest.split_first()?;
    spot_in(ahead, era, number)
}

/// Whether a tree doesn't take a step. Then it is as it was.
fn stops(tree: &mut FileTree, rule: &Rule<'_, '_>, step: &Placed) -> Result<bool, AllocError>
    ensures refused { IfOk result (λ stops. MatchBool stops (next_by rule.now tree.old step.now.number step.now.call step.now.outcome ≡ None)
        (IsSome (next_by rule.now tree.old step.now.number step.now.call step.now.outcome))) }
    ensures stays { IfOk result (λ stops. MatchBool stops (tree.new ≡ tree.old) ⊤) }
{
    match take_step(tree, rule, step) {
        Ok(()) => Ok(false),
        Err(StepFault::NotAllowed) => Ok(true),
        Err(StepFault::NoMemory) => Err(AllocError),
    }
}

/// What is told of a step that its tree doesn't take.
fn illegal_step(spot: &Spot<'_>, step: Placed, answered: Answered) -> IllegalPlace
    ensures { result ≡ illegal_of spot.now step answered.tree answered.right }
{
    let Placed {
        number,
        call,
        outcome,
    } = step;
    let Answered { tree, right } = answered;
    IllegalPlace {
        era: spot.ahead.len() as u64 + 1,
        position: spot.front.len() as u64 + 1,
        number,
        call,
        outcome,
        tree,
        right,
    }
}

/// What is told of a place with its tree, where that doesn't take its step.
#[tactic(auto, using(crate::proofs::Told::told))]
fn illegal_at(
    rule: &Rule<'_, '_>,
    spot: &Spot<'_>,
    tree: FileTree,
) -> Result<Option<IllegalPlace>, AllocError>
    requires spot { IsSpot rule.now.plan.now.eras spot.now.ahead.now spot.now.front.now spot.now.place }
    requires tree { state_after (next_by rule.now) (first_tree rule.now)
        (steps_behind rule.now.history.now.calls spot.now.ahead.now spot.now.front.now) ≡ Some tree }
    requires stuck { IsStuckAt (next_by rule.now) rule.now.history.now.calls spot.now.place tree }
    ensures told { IfOk result (λ found. IfSome found
        (IsIllegalIn (next_by rule.now) (first_tree rule.now) rule.now.history.now.calls rule.now.plan.now.eras)) }
    ensures some { IfOk result IsSome }
    ensures named { IfOk result (λ found. IfSome found (λ told. told.number ≡ call_of spot.now.place)) }
{
    let Some(step) = placed_at(rule.alloc, rule.history, spot.place)? else {
        return Ok(None);
    };
    let mut tree = tree;
    let is_stuck = stops(&mut tree, rule, &step)?;
    if is_stuck {
        let answered = right_reply(tree, rule, &step)?;
        Ok(Some(illegal_step(spot, step, answered)))
    } else {
        Ok(None)
    }
}

/// What is told of the place where a run stops.
#[tactic(auto, using(crate::proofs::Told::same_binds))]
fn illegal_place(
    alloc: Global,
    history: &KnownCalls<'_>,
    certificate: &Certificate,
    stop: Stop,
) -> Result<Option<IllegalPlace>, AllocError>
    requires { IsStop history.now certificate.now stop.number stop.tree }
    ensures told { IfOk result (λ found. IfSome found (IsIllegalPlace history.now certificate.now)) }
    ensures some { IfOk result IsSome }
    ensures named { IfOk result (λ found. IfSome found (λ told. told.number ≡ stop.number)) }
{
    let Stop { number, tree } = stop;
    let Some(era) = history.era(number) else {
        return Ok(None);
    };
    let Some(spot) = spot_of(certificate.eras.as_slice(), era, number) else {
        return Ok(None);
    };
    let binds = binds_of(alloc, history, certificate)?;
    let rule = Rule {
        alloc,
        history,
        plan: certificate,
        binds: &binds,
    };
    illegal_at(&rule, &spot, tree)
}

/// The reason for a run that stops.
fn reason_of_stop(
    alloc: Global,
    history: &KnownCalls<'_>,
    certificate: &Certificate,
    stop: Stop,
) -> Result<Reason, AllocError>
    requires fault { IsPlanFault history.now certificate.now (faults.Illegal stop.number) }
    requires stop { IsStop history.now certificate.now stop.number stop.tree }
    ensures { IfOk result (IsReasonOf history.now certificate.now) }
{
    let number = stop.number;
    match illegal_place(alloc, history, certificate, stop)? {
        Some(place) => Ok(Reason::Illegal(place)),
        // A run stops at a place of the plan, so there is always one.
        None => Ok(Reason::Other(Fault::Illegal(number))),
    }
}

/// The reason for another fault of a plan.
fn reason_of(history: &KnownCalls<'_>, certificate: &Certificate, fault: Fault) -> Reason
    requires fault { IsPlanFault history.now certificate.now fault }
    requires no_stop { IsNoStop fault }
    ensures { IsReasonOf history.now certificate.now result }
{
    match fault {
        Fault::Early { call, ended } => early(history, call, ended),
        Fault::ShortCut { era, needed } => short_cut(certificate.eras.as_slice(), era, needed),
        _ => Reason::Other(fault),
    }
}

/// Why a certificate is no witness of a history; nothing where it is one. An `Err` means that memory ran out.
///
/// It takes as long as `check_calls`, and the time of a look at the tree where the run stops.
pub fn explain(
    alloc: Global,
    history: &KnownCalls<'_>,
    certificate: &Certificate,
) -> Result<Option<Reason>, AllocError>
    // There is a reason exactly if there is a fault, and what it says is true of the two.
    ensures { IfOk result (λ found. MatchOption found (IsWitness history.now certificate.now) (IsReasonOf history.now certificate.now)) }
{
    match judge_calls(alloc, history, certificate)? {
        Judgement::Yes => Ok(None),
        Judgement::No(fault) => Ok(Some(reason_of(history, certificate, fault))),
        Judgement::Stopped(stop) => {
            let reason = reason_of_stop(alloc, history, certificate, stop)?;
            Ok(Some(reason))
        }
    }
}
