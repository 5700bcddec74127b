//! What the crashes of a plan took away.

ghost use Rattle.std.specs.Prelude.{◌≡◌, ◌<◌, ◌^◌};
ghost use Rattle.std.specs.Option.{option_copied};
ghost use Rattle.nfs_history.specs.Reread.{item_at};
ghost use Rattle.order_check.specs.Shape.{HasShape};
ghost use Rattle.history_report.specs.Kinds.{is_modifying_kind, has_succeeded_kind, changes_kind, changes_kind_at, lost_in_by, lost_by};
ghost use Rattle.history_report.specs.Lost.{lost};

use crate::kind::HasKind;
use certificate::{Certificate, EraPlan, Place};
use nfs_history::{CallKind, History, KnownCalls};

/// Whether a call changes the tree or a file when it succeeds.
fn is_modifying(kind: CallKind) -> bool
    ensures { result ≡ is_modifying_kind kind }
{
    match kind {
        CallKind::Unjudged => false,
        CallKind::Unanswered(procedure) | CallKind::Answered(procedure, _) => {
            procedure.changes_the_tree()
        }
    }
}

/// Whether a call was answered, and not by a failure.
fn has_succeeded(kind: CallKind) -> bool
    ensures { result ≡ has_succeeded_kind kind }
{
    matches!(kind, CallKind::Answered(_, None))
}

/// Whether a call that stands so in the serial order changed something.
fn changes(place: Place, kind: CallKind) -> bool
    ensures { result ≡ changes_kind place kind }
{
    match place {
        Place::Answered(_) => is_modifying(kind) && has_succeeded(kind),
        Place::Taken(..) => is_modifying(kind),
    }
}

/// Item `number` of these, from 1 on.
fn item_at<K>(calls: &[K], number: u64) -> Option<&K>
    ensures { option_copied result ≡ item_at calls.now number }
{
    if number == 0 {
        return None;
    }
    calls.get(number as usize - 1)
}

/// Whether the call at a place changed something.
fn changes_at<K: HasKind>(calls: &[K], place: Place) -> bool
    ensures { result ≡ changes_kind_at K.kind calls.now place }
{
    let (Place::Answered(number) | Place::Taken(number, _)) = place;
    match item_at(calls, number) {
        Some(call) => changes(place, call.kind_of()),
        None => false,
    }
}

/// How many places past the cut of an era changed something.
fn lost_in<K: HasKind>(calls: &[K], era: &EraPlan) -> u64
    ensures { result ≡ lost_in_by K.kind calls.now era.now }
{
    let places = era.places.as_slice();
    let cut = era.cut.unwrap_or(places.len() as u64);
    places
        .iter()
        .skip(cut as usize)
        .filter(|place| changes_at(calls, **place))
        .count() as u64
}

/// How many places past the cuts of these eras changed something.
fn lost_over<K: HasKind>(calls: &[K], eras: &[EraPlan]) -> u64
    requires { lost_by K.kind calls.now eras.now < 2 ^ 64 }
    ensures { result ≡ lost_by K.kind calls.now eras.now }
{
    eras.iter().map(|era| lost_in(calls, era)).sum()
}

/// How many places past the cuts of a plan changed something: places of calls that succeeded, and of those that are
/// taken as done.
pub fn lost_of(history: &History, certificate: &Certificate) -> u64
    requires { HasShape history.now.known.eras history.now.known.calls certificate.now.eras }
    ensures { result ≡ lost history.now.known.calls certificate.now.eras }
{
    lost_over(history.recorded_calls(), certificate.eras.as_slice())
}

/// The same of the history that these calls are of. None of them is read.
pub fn lost_of_calls(history: &KnownCalls<'_>, certificate: &Certificate) -> u64
    requires { HasShape history.now.eras history.now.calls certificate.now.eras }
    ensures { result ≡ lost history.now.calls certificate.now.eras }
{
    lost_over(history.kinds(), certificate.eras.as_slice())
}
