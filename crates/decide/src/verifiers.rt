//! Two write verifiers in one era.

ghost use Rattle.std.specs.Prelude.{◌≡◌, IfSome, IsTrue};
ghost use Rattle.decision_walk.specs.decision_law_specs.Laws.{ShowsTwoVerifiers};
ghost use Rattle.decide.specs.Verifiers.{IsShown, IsShownIn};

use cut_check::shown_verifier;
use nfs_history::{History, Meaning, RecordedCall};

/// A call whose reply shows a write verifier.
#[derive(Clone, Copy)]
pub(crate) struct Shown {
    /// The number of the call.
    pub(crate) number: u64,
    /// Its era.
    pub(crate) era: u64,
    /// The event of the reply.
    pub(crate) at: u64,
    /// The verifier.
    pub(crate) verifier: u64,
}

/// What a call shows.
pub(crate) fn shown_by(recorded: &RecordedCall, number: u64) -> Option<Shown>
    ensures { IfSome result (IsShown recorded.now number) }
{
    let Meaning::Judged(call) = &recorded.meaning else {
        return None;
    };
    let Some(outcome) = &recorded.outcome else {
        return None;
    };
    let Some(at) = recorded.end else {
        return None;
    };
    let Some(verifier) = shown_verifier(call, outcome) else {
        return None;
    };
    let era = recorded.era;
    Some(Shown {
        number,
        era,
        at,
        verifier,
    })
}

/// What call `number` shows.
fn shown_at(history: &History, number: u64) -> Option<Shown>
    ensures { IfSome result (IsShownIn history.now.known) }
{
    match history.find_call(number) {
        Some(recorded) => shown_by(recorded, number),
        None => None,
    }
}

/// Whether both are there, in one era, with different verifiers.
fn are_two(_history: &History, last: Option<Shown>, found: Option<Shown>) -> bool
    requires last { IfSome last (IsShownIn _history.now.known) }
    requires found { IfSome found (IsShownIn _history.now.known) }
    ensures { IsTrue result → ShowsTwoVerifiers _history.now.known }
{
    let Some(one) = last else {
        return false;
    };
    let Some(other) = found else {
        return false;
    };
    if one.era != other.era {
        return false;
    }
    one.verifier != other.verifier
}

/// The later one, where it is there.
fn latest(_history: &History, last: Option<Shown>, found: Option<Shown>) -> Option<Shown>
    requires last { IfSome last (IsShownIn _history.now.known) }
    requires found { IfSome found (IsShownIn _history.now.known) }
    ensures { IfSome result (IsShownIn _history.now.known) }
{
    match found {
        Some(shown) => Some(shown),
        None => last,
    }
}

/// A call that shows another verifier than one ahead of it in its era.
pub(crate) fn second_verifier(history: &History) -> Option<Shown>
    ensures { IfSome result (λ shown. ShowsTwoVerifiers history.now.known × IsShownIn history.now.known shown) }
{
    let mut last: Option<Shown> = None;
    for index in 0..history.recorded_calls().len() {
        let found = shown_at(history, index as u64 + 1);
        if are_two(history, last, found) {
            return found;
        }
        last = latest(history, last, found);
    }
    None
}
