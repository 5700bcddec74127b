//! What one pass over the calls of a history gathers.

use nfs_history::{CallKind, KnownCalls, RecordedCall};
use nfs3_types::{Answer, NfsReply, Outcome, Procedure, Verifier};
use std::alloc::{AllocError, Global};
use std::collections::BTreeMap;

/// What a call can do to the tree.
#[derive(Clone, Copy, PartialEq, Eq)]
pub enum Nature {
    /// It isn't judged, or has no reply and would change nothing.
    Unplaced,
    /// It was answered, and leaves the tree as it is.
    Looking,
    /// It was answered with a success, and may change the tree.
    Changing,
    /// It wasn't answered, and may have changed the tree.
    Unanswered,
}

/// The calls and the replies of an era.
#[derive(Clone, Copy)]
pub struct EraSpan {
    /// The number of its first call, and one more than that of its last.
    pub first_call: u64,
    /// One more than the number of its last call; `first_call` where it has none.
    pub end_call: u64,
    /// Where its replies begin and end in the list of all.
    pub first_reply: usize,
    /// One more than the index of its last reply; `first_reply` where it has none.
    pub end_reply: usize,
    /// Whether a later era shows the write verifier that it shows.
    pub is_shown_again: bool,
}

impl EraSpan {
    /// Of an era without a call.
    pub(crate) const NONE: EraSpan = EraSpan {
        first_call: 1,
        end_call: 1,
        first_reply: 0,
        end_reply: 0,
        is_shown_again: false,
    };
}

/// The write verifier that a reply shows.
fn verifier_in(reply: &NfsReply) -> Option<Verifier> {
    match reply {
        NfsReply::Write(Answer::Done(success)) => Some(success.verifier),
        NfsReply::Commit(Answer::Done(success)) => Some(success.verifier),
        _ => None,
    }
}

/// What a call that was read can do.
fn nature_of(recorded: &RecordedCall, procedure: Procedure) -> Nature {
    match &recorded.outcome {
        Some(Outcome::Received(reply))
            if reply.failure().is_none() && procedure.changes_the_tree() => { Nature::Changing }
        Some(_) => Nature::Looking,
        None => Nature::Unplaced,
    }
}

/// The write verifier that a call's reply shows.
fn shown_by(recorded: &RecordedCall) -> Option<u64> {
    match &recorded.outcome {
        Some(Outcome::Received(reply)) => verifier_in(reply).map(|verifier| verifier.value),
        _ => None,
    }
}

/// What one pass over the calls gathers.
#[derive(Drop)]
pub(crate) struct Survey {
    pub(crate) natures: Vec<Nature>,
    pub(crate) spans: Vec<EraSpan>,
    /// The write verifier that each era shows, the last one that was met.
    pub(crate) shown: Vec<Option<u64>>,
    /// The last era that shows a write verifier.
    pub(crate) last_shown: BTreeMap<u64, u64>,
}

impl Survey {
    /// Of so many eras.
    pub(crate) fn new(alloc: Global, eras: usize) -> Result<Survey, AllocError> {
        Ok(Survey {
            natures: Vec::new(alloc),
            spans: vec![in alloc; EraSpan::NONE; eras]?,
            shown: vec![in alloc; None; eras]?,
            last_shown: BTreeMap::new(alloc),
        })
    }

    /// Notes a call's number in its era.
    fn extend_calls(&mut self, era: u64, number: u64) {
        if let Some(span) = self.spans.get_mut(place_of_era(era)) {
            if span.first_call == span.end_call {
                span.first_call = number;
            }
            span.end_call = number.saturating_add(1);
        }
    }

    /// Notes a reply's place in its era.
    pub(crate) fn extend_replies(&mut self, era: u64, place: usize) {
        if let Some(span) = self.spans.get_mut(place_of_era(era)) {
            if span.first_reply == span.end_reply {
                span.first_reply = place;
            }
            span.end_reply = place.saturating_add(1);
        }
    }

    /// Notes that an era shows a write verifier.
    fn show(&mut self, era: u64, verifier: u64) -> Result<(), AllocError> {
        if let Some(shown) = self.shown.get_mut(place_of_era(era)) {
            *shown = Some(verifier);
        }
        self.last_shown.insert(verifier, era)?;
        Ok(())
    }

    /// Notes what a call can do, and what its reply shows.
    pub(crate) fn note(
        &mut self,
        alloc: Global,
        known: &KnownCalls<'_>,
        number: u64,
    ) -> Result<(), AllocError> {
        let era = known.era(number).unwrap_or(0);
        self.extend_calls(era, number);
        let nature = match known.kind(number) {
            Some(CallKind::Answered(procedure, _))
                if procedure.changes_the_tree() || procedure == Procedure::Commit => {
                match known.call(alloc, number)? {
                    Some(recorded) => {
                        if let Some(verifier) = shown_by(&recorded) {
                            self.show(era, verifier)?;
                        }
                        nature_of(&recorded, procedure)
                    }
                    None => Nature::Unplaced,
                }
            }
            Some(CallKind::Answered(..)) => Nature::Looking,
            Some(CallKind::Unanswered(procedure)) if procedure.changes_the_tree() =>
                Nature::Unanswered,
            _ => Nature::Unplaced,
        };
        self.natures.push(nature)?;
        Ok(())
    }

    /// Notes which eras show a write verifier that a later one shows.
    pub(crate) fn look_ahead(&mut self) {
        let mut era = 0u64;
        for (span, shown) in self.spans.iter_mut().zip(self.shown.iter()) {
            era = era.saturating_add(1);
            if let Some(verifier) = shown {
                span.is_shown_again = match self.last_shown.get(verifier) {
                    Some(last) => *last > era,
                    None => false,
                };
            }
        }
    }
}

/// Where an era stands in a list of all.
pub(crate) fn place_of_era(era: u64) -> usize {
    (era as usize).saturating_sub(1)
}
