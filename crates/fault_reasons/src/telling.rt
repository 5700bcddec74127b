//! What is told of calls and places by their numbers.

ghost use Rattle.std.specs.Prelude.{◌≡◌, Some, IfSome, IsSome};
ghost use Rattle.std.specs.Option.{option_copied};
ghost use Rattle.nfs_history.specs.declared.knowing.KnownCalls.{KnownCalls};
ghost use Rattle.certificate.specs.Plan.{cut_of};
ghost use Rattle.certificate.specs.declared.plan.Certificate.{Certificate};
ghost use Rattle.certificate.specs.declared.plan.EraPlan.{EraPlan};
ghost use Rattle.cut_check.specs.Places.{era_at};
ghost use Rattle.witness_check.specs.declared.fault.Fault.TheVariants as faults;
ghost use Rattle.witness_check.specs.Verdict.{IsPlanFault};
ghost use Rattle.fault_reasons.specs.Reason.{span_of, place_at, IsLostIn, IsReasonOf};

use crate::reason::{CallSpan, LostPlace, Reason};
use certificate::{EraPlan, Place};
use nfs_history::KnownCalls;
use witness_check::Fault;

/// A call with its events.
fn span_of(history: &KnownCalls<'_>, number: u64) -> CallSpan
    ensures { result ≡ span_of history.now.calls number }
{
    CallSpan {
        number,
        begun: history.begin(number),
        ended: history.end(number),
    }
}

/// An era of a plan, from 1 on.
fn era_at(eras: &[EraPlan], number: u64) -> Option<&EraPlan>
    ensures { option_copied result ≡ era_at eras.now number }
{
    if number == 0 {
        return None;
    }
    eras.get(number as usize - 1)
}

/// A place of an era, from 1 on.
fn place_at(places: &[Place], position: u64) -> Option<&Place>
    ensures { option_copied result ≡ place_at places.now position }
{
    if position == 0 {
        return None;
    }
    places.get(position as usize - 1)
}

/// How many places of an era are kept.
fn cut_of(era: &EraPlan) -> u64
    ensures { result ≡ cut_of era.now }
{
    match era.cut {
        Some(cut) => cut,
        None => era.places.as_slice().len() as u64,
    }
}

/// What is told of the place at a position of an era.
#[tactic(auto, using(crate::proofs::Told::is_lost))]
fn lost_place(eras: &[EraPlan], era: u64, position: u64) -> Option<LostPlace>
    ensures told { IfSome result (IsLostIn eras.now) }
    ensures era { IfSome result (λ lost. lost.era ≡ era) }
    ensures position { IfSome result (λ lost. lost.position ≡ position) }
    ensures finds { (plan : EraPlan) → era_at eras.now era ≡ Some plan → IsSome (place_at plan.places position) → IsSome result }
{
    let plan = era_at(eras, era)?;
    let place = place_at(plan.places.as_slice(), position)?;
    Some(LostPlace {
        era,
        cut: cut_of(plan),
        position,
        number: place.number(),
    })
}

/// The reason where a call is placed ahead of another one that had ended.
#[tactic(auto, using(crate::proofs::Told::early_told))]
pub(crate) fn early(history: &KnownCalls<'_>, call: u64, ended: u64) -> Reason
    ensures { (plan : Certificate) → IsPlanFault history.now plan (faults.Early call ended) → IsReasonOf history.now plan result }
{
    Reason::Early {
        call: span_of(history, call),
        other: span_of(history, ended),
    }
}

/// The reason where a cut is too short.
#[tactic(auto, using(crate::proofs::Told::short_told))]
pub(crate) fn short_cut(eras: &[EraPlan], era: u64, needed: u64) -> Reason
    ensures { (history : KnownCalls) (plan : Certificate) → plan.eras ≡ eras.now → IsPlanFault history plan (faults.ShortCut era needed)
        → IsReasonOf history plan result }
{
    match lost_place(eras, era, needed) {
        Some(lost) => Reason::ShortCut(lost),
        // A cut that is too short is one of a place, so there is always one.
        None => Reason::Other(Fault::ShortCut { era, needed }),
    }
}
