//! Two write verifiers in one era.

ghost use Rattle.std.specs.Prelude.{IfOk, IfSome};
ghost use Rattle.first_look.specs.TwoVerifiers.{AreTwo, IsShown, IsShownIn};

use cut_check::shown_verifier;
use nfs_history::{CallKind, KnownCalls, Meaning, RecordedCall};
use nfs3_types::Procedure;
use std::alloc::{AllocError, Global};

/// Two calls of one era whose replies show different write verifiers.
#[derive(Clone, Copy)]
pub struct TwoVerifiers {
    /// The era, from 1 on.
    pub era: u64,
    /// The number of the one call.
    pub one: u64,
    /// The number of the other, which began later.
    pub other: u64,
}

/// A call whose reply shows a write verifier.
#[derive(Clone, Copy)]
pub(crate) struct Shown {
    /// The number of the call.
    pub(crate) number: u64,
    /// Its era.
    pub(crate) era: u64,
    /// The event of the reply.
    pub(crate) at: u64,
    /// The verifier.
    pub(crate) verifier: u64,
}

/// What a call shows.
fn shown_by(recorded: &RecordedCall, number: u64) -> Option<Shown>
    ensures { IfSome result (IsShown recorded.now number) }
{
    let Meaning::Judged(call) = &recorded.meaning else {
        return None;
    };
    let Some(outcome) = &recorded.outcome else {
        return None;
    };
    let Some(at) = recorded.end else {
        return None;
    };
    let Some(verifier) = shown_verifier(call, outcome) else {
        return None;
    };
    let era = recorded.era;
    Some(Shown {
        number,
        era,
        at,
        verifier,
    })
}

/// Whether the reply to a call of this kind may show a verifier.
fn may_show(kind: Option<CallKind>) -> bool {
    match kind {
        Some(CallKind::Answered(procedure, None)) => {
            matches!(procedure, Procedure::Write | Procedure::Commit)
        }
        _ => false,
    }
}

/// What call `number` shows. Only a WRITE or a COMMIT that succeeded is read.
fn shown_at(alloc: Global, known: &KnownCalls<'_>, number: u64) -> Result<Option<Shown>, AllocError>
    ensures { IfOk result (λ found. IfSome found (IsShownIn known.now)) }
{
    if !may_show(known.kind(number)) {
        return Ok(None);
    }
    match known.call(alloc, number)? {
        Some(recorded) => Ok(shown_by(&recorded, number)),
        None => Ok(None),
    }
}

/// The two, where both are there, of one era, and show different verifiers.
fn two_of(
    _known: &KnownCalls<'_>,
    last: Option<Shown>,
    found: Option<Shown>,
) -> Option<TwoVerifiers>
    requires last { IfSome last (IsShownIn _known.now) }
    requires found { IfSome found (IsShownIn _known.now) }
    ensures { IfSome result (AreTwo _known.now) }
{
    let Some(one) = last else {
        return None;
    };
    let Some(other) = found else {
        return None;
    };
    if one.era != other.era || one.verifier == other.verifier {
        return None;
    }
    Some(TwoVerifiers {
        era: one.era,
        one: one.number,
        other: other.number,
    })
}

/// The later one, where it is there.
fn latest(_known: &KnownCalls<'_>, last: Option<Shown>, found: Option<Shown>) -> Option<Shown>
    requires last { IfSome last (IsShownIn _known.now) }
    requires found { IfSome found (IsShownIn _known.now) }
    ensures { IfSome result (IsShownIn _known.now) }
{
    match found {
        Some(shown) => Some(shown),
        None => last,
    }
}

/// The first call that shows another verifier than one ahead of it in its era, and that one. Eras never fall, so a call is compared
/// with the last one ahead of it that shows any.
pub(crate) fn two_verifiers(
    alloc: Global,
    known: &KnownCalls<'_>,
) -> Result<Option<TwoVerifiers>, AllocError>
    ensures { IfOk result (λ found. IfSome found (AreTwo known.now)) }
{
    let mut last: Option<Shown> = None;
    for index in 0..known.count() {
        let found = shown_at(alloc, known, index as u64 + 1)?;
        let two = two_of(known, last, found);
        if two.is_some() {
            return Ok(two);
        }
        last = latest(known, last, found);
    }
    Ok(None)
}
