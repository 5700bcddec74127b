//! The calls that are open where a reply came.

use certificate::{Certificate, Place};
use nfs_history::{CallKind, KnownCalls};
use nfs3_types::{Answer, NfsReply, Outcome};
use std::alloc::{AllocError, Global};
use std::collections::BTreeSet;

/// A call that got no reply so far, and that may be done.
#[derive(Clone, Copy)]
pub(crate) struct OpenCall {
    pub(crate) number: u64,
    /// How many bytes it wrote, if it is a WRITE.
    pub(crate) written: Option<u32>,
}

/// The calls that a plan takes as done.
pub(crate) fn taken_by(alloc: Global, plan: &Certificate) -> Result<BTreeSet<u64>, AllocError> {
    let mut taken = BTreeSet::new(alloc);
    for era in plan.eras.as_slice() {
        for place in era.places.as_slice() {
            if let Place::Taken(number, _) = *place {
                taken.insert(number)?;
            }
        }
    }
    Ok(taken)
}

/// Whether a call of the last era may have changed something, and got no reply.
fn is_open(history: &KnownCalls<'_>, number: u64, kind: CallKind) -> bool {
    match kind {
        CallKind::Unanswered(procedure) => {
            procedure.changes_the_tree() && history.era(number) == Some(history.eras())
        }
        CallKind::Unjudged | CallKind::Answered(_, _) => false,
    }
}

/// Whether the reply to a call says that it changed nothing.
fn fails(whole: &KnownCalls<'_>, number: u64) -> bool {
    matches!(
        whole.kind(number),
        Some(CallKind::Unjudged | CallKind::Answered(_, Some(_)))
    )
}

/// How many bytes a reply says that its WRITE wrote.
fn count_of(reply: &NfsReply) -> Option<u32> {
    match reply {
        NfsReply::Write(Answer::Done(success)) => Some(success.count),
        _ => None,
    }
}

/// How many bytes a WRITE wrote: as its later reply says, else all that it brought. None of another call.
fn written_by(
    alloc: Global,
    whole: &KnownCalls<'_>,
    number: u64,
) -> Result<Option<u32>, AllocError> {
    let Some(brought) = whole.brought(alloc, number)? else {
        return Ok(None);
    };
    let Some(recorded) = whole.call(alloc, number)? else {
        return Ok(None);
    };
    let told = match recorded.into_judged() {
        Some((call, outcome)) => {
            drop(call);
            match &outcome {
                Some(Outcome::Received(reply)) => count_of(reply),
                _ => None,
            }
        }
        None => None,
    };
    Ok(told.or(u32::try_from(brought).ok()))
}

/// The open calls of the last era but for one, which have no place in a plan. One whose later reply is a failure changed nothing.
pub(crate) fn open_calls(
    alloc: Global,
    history: &KnownCalls<'_>,
    whole: &KnownCalls<'_>,
    taken: &BTreeSet<u64>,
    call: u64,
) -> Result<Vec<OpenCall>, AllocError> {
    let mut open = Vec::new(alloc);
    let mut number: u64 = 0;
    for kind in history.kinds() {
        number = number.saturating_add(1);
        let is_told = number == call || taken.contains(&number) || fails(whole, number);
        if !is_told && is_open(history, number, *kind) {
            let written = written_by(alloc, whole, number)?;
            open.push(OpenCall { number, written })?;
        }
    }
    Ok(open)
}
