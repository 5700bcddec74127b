//! The places of a certificate as one serial order, and how a call may be placed.

ghost use Rattle.std.specs.Prelude.{◌≡◌, ◌++◌, Some, None, map, IfOk};
ghost use Rattle.nfs_history.specs.Precedence.{call_at};
ghost use Rattle.certificate.specs.declared.plan.Place.{Place};
ghost use Rattle.order_check.specs.Places.{order_from, number_of, may_place, may_take, passes, is_wanted, is_known, is_of_era, is_placeable};
ghost use Rattle.order_check.specs.Taking.{is_taken_whole};

use certificate::{EraPlan, Place};
use nfs_history::{CallKind, LentCalls};
use nfs3_types::Procedure;
use std::alloc::{AllocError, Global};

/// A place, and the era in which it stands.
#[derive(Clone, Copy)]
pub struct OrderedPlace {
    /// The era, counted from 1.
    pub era: u64,
    /// The place: a call with its reply, or one that is taken as done.
    pub place: Place,
}

impl OrderedPlace {
    ghost use Rattle.std.specs.Prelude.{◌≡◌};
    ghost use Rattle.order_check.specs.Places.{number_of};

    /// The number of the call that stands there.
    pub fn number(&self) -> u64
        ensures { result ≡ number_of self.now }
    {
        self.place.number()
    }
}

/// Whether a call of this kind changes the tree and is no WRITE.
fn is_taken_whole(kind: CallKind) -> bool
    ensures { result ≡ is_taken_whole kind }
{
    match kind {
        CallKind::Unjudged => false,
        CallKind::Unanswered(procedure) | CallKind::Answered(procedure, _) => {
            procedure.changes_the_tree() && procedure != Procedure::Write
        }
    }
}

/// Whether a call with this number may be taken as done with no count of bytes, if no reply came to it.
fn may_be_taken_whole(history: &LentCalls<'_, '_>, number: u64) -> bool
    ensures { result ≡ passes (λ call. may_take call.meaning None) (call_at history.now.calls number) }
{
    match history.kind(number) {
        Some(kind) => is_taken_whole(kind),
        None => false,
    }
}

/// Whether a call with this number may be taken as done with so many bytes, if no reply came to it.
fn may_be_taken_in_part(
    alloc: Global,
    history: &LentCalls<'_, '_>,
    number: u64,
    count: u32,
) -> Result<bool, AllocError>
    ensures { IfOk result (λ may. may ≡ passes (λ call. may_take call.meaning (Some count)) (call_at history.now.calls number)) }
{
    match history.brought(alloc, number)? {
        Some(brought) => Ok(count as usize <= brought),
        None => Ok(false),
    }
}

/// Whether a call of this number is judged and answered.
pub fn is_answered_call(history: &LentCalls<'_, '_>, number: u64) -> bool
    ensures { result ≡ passes is_wanted (call_at history.now.calls number) }
{
    matches!(history.kind(number), Some(CallKind::Answered(..)))
}

/// Whether a place names a call.
pub fn names_call(history: &LentCalls<'_, '_>, place: &OrderedPlace) -> bool
    ensures { result ≡ is_known history.now.calls place.now }
{
    history.kind(place.number()).is_some()
}

/// Whether the call of a place is of its era.
pub fn stands_in_era(history: &LentCalls<'_, '_>, place: &OrderedPlace) -> bool
    ensures { result ≡ is_of_era history.now.calls place.now }
{
    match history.era(place.number()) {
        Some(era) => era <= place.era && place.era <= era,
        None => false,
    }
}

/// Whether a call of this number may be taken as done, with this count of bytes.
fn takes_right(
    alloc: Global,
    history: &LentCalls<'_, '_>,
    number: u64,
    count: Option<u32>,
) -> Result<bool, AllocError>
    ensures { IfOk result (λ right. right ≡ passes (may_place (Place.Taken number count)) (call_at history.now.calls number)) }
{
    if history.end(number).is_some() {
        return Ok(false);
    }
    match count {
        Some(count) => may_be_taken_in_part(alloc, history, number, count),
        None => Ok(may_be_taken_whole(history, number)),
    }
}

/// Whether the call of a place may be placed so.
pub fn stands_right(
    alloc: Global,
    history: &LentCalls<'_, '_>,
    place: &OrderedPlace,
) -> Result<bool, AllocError>
    ensures { IfOk result (λ right. right ≡ is_placeable history.now.calls place.now) }
{
    match place.place {
        Place::Answered(number) => Ok(is_answered_call(history, number)),
        Place::Taken(number, count) => takes_right(alloc, history, number, count),
    }
}

/// The places of the eras, one after the other.
pub fn serial_order(alloc: Global, eras: &[EraPlan]) -> Result<Vec<OrderedPlace>, AllocError>
    ensures { IfOk result (λ v. v.items ≡ order_from 1 eras.now) }
{
    let mut order = Vec::new(alloc);
    for (index, era) in eras.iter().enumerate() {
        push_places(&mut order, index as u64 + 1, era.places.as_slice())?;
    }
    Ok(order)
}

/// The places of one era behind those of the eras ahead.
fn push_places(order: &mut Vec<OrderedPlace>, era: u64, places: &[Place]) -> Result<(), AllocError>
    ensures { IfOk result (λ _. order.new.items ≡ order.old.items ++ map (λ place. record { era = era; place = place }) places.now) }
{
    order.reserve(places.len())?;
    for place in places {
        order.push(OrderedPlace { era, place: *place })?;
    }
    Ok(())
}
