//! Each reason why a night isn't a yes.

use crate::facts::NightFacts;
use crate::judging::Judgement;
use crate::telling::{cause_words, doubt_text};
use crate::verdict::{Cause, Doubt, NightVerdict, doubt_of, health_of, is_few};
use deciding_command::FileDecision;
use std::alloc::{AllocError, Global};

/// Why a night isn't a yes: one line each, without its line feed.
#[derive(Drop)]
pub struct Reasons {
    /// The server wasn't in health.
    pub health: Option<String>,
    /// Too few calls were answered.
    pub enough: Option<String>,
    /// No order explains the history, or it isn't decided whether one does.
    pub order: Option<String>,
    /// Too little was done, or this side hindered the night.
    pub doubt: Option<String>,
}

/// The words of a cause, if there is one.
fn cause_text(
    alloc: Global,
    facts: &NightFacts<'_>,
    judged: &Judgement,
    cause: Option<Cause>,
) -> Result<Option<String>, AllocError> {
    match cause {
        Some(cause) => Ok(Some(cause_words(alloc, facts, judged, cause)?)),
        None => Ok(None),
    }
}

/// Why the history isn't explained.
fn order_text(
    alloc: Global,
    facts: &NightFacts<'_>,
    judged: &Judgement,
) -> Result<Option<String>, AllocError> {
    match &judged.decision {
        FileDecision::Yes(_) => Ok(None),
        FileDecision::NoWitness { .. } => {
            cause_text(alloc, facts, judged, Some(Cause::NoWitness))
        }
        FileDecision::BadHistory(_) => Ok(Some(doubt_text(
            alloc,
            facts,
            judged,
            Doubt::BadHistory,
        )?)),
        FileDecision::Undecided(_) => {
            Ok(Some(doubt_text(alloc, facts, judged, Doubt::Undecided)?))
        }
    }
}

/// The doubt that a history which some order explains leaves, or what hindered the night on this side.
fn doubt_left(facts: &NightFacts<'_>, judged: &Judgement) -> Option<Doubt> {
    if let NightVerdict::Doubt(doubt) = judged.verdict
        && matches!(
            doubt,
            Doubt::Excused | Doubt::Idle | Doubt::LeftAside | Doubt::Unread | Doubt::Few
        )
    {
        return Some(doubt);
    }
    doubt_of(facts)
}

/// What is in doubt where the server was in health.
fn doubt_reason(
    alloc: Global,
    facts: &NightFacts<'_>,
    judged: &Judgement,
) -> Result<Option<String>, AllocError> {
    match doubt_left(facts, judged) {
        Some(doubt) if health_of(facts).is_none() => {
            Ok(Some(doubt_text(alloc, facts, judged, doubt)?))
        }
        _ => Ok(None),
    }
}

/// Each reason why a night isn't a yes. The last line has the first of them.
pub fn reasons_of(
    alloc: Global,
    facts: &NightFacts<'_>,
    judged: &Judgement,
) -> Result<Reasons, AllocError> {
    let enough = if is_few(facts, judged.answered.all) {
        Some(Cause::TooFew)
    } else {
        None
    };
    Ok(Reasons {
        health: cause_text(alloc, facts, judged, health_of(facts))?,
        enough: cause_text(alloc, facts, judged, enough)?,
        order: order_text(alloc, facts, judged)?,
        doubt: doubt_reason(alloc, facts, judged)?,
    })
}
