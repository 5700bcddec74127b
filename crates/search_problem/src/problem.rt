//! What a search knows of a history ahead of its branches.

use crate::survey::{EraSpan, Nature, Survey};
use nfs_history::KnownCalls;
use reply_order::replies_in_order;
use std::alloc::{AllocError, Global};

/// A history, with what is asked again and again of its calls.
pub struct Problem<'s, 'a> {
    known: &'s KnownCalls<'a>,
    /// The answered judged calls by their replies.
    replies: Vec<u64>,
    spans: Vec<EraSpan>,
    natures: Vec<Nature>,
}

impl<'s, 'a> Drop for Problem<'s, 'a> {
    fn drop(self) {
        let Problem {
            known: _,
            replies,
            spans,
            natures,
        } = self;
        drop(replies);
        drop(spans);
        drop(natures);
    }
}

impl<'s, 'a> Problem<'s, 'a> {
    /// What is to be known of a history. Each answered call that may change the tree, and each COMMIT, is read once.
    pub fn new(alloc: Global, known: &'s KnownCalls<'a>) -> Result<Problem<'s, 'a>, AllocError> {
        let replies = replies_in_order(alloc, known)?;
        let mut survey = Survey::new(alloc, known.eras() as usize)?;
        for index in 0..known.count() {
            survey.note(alloc, known, index as u64 + 1)?;
        }
        for (place, number) in replies.iter().enumerate() {
            survey.extend_replies(known.era(*number).unwrap_or(0), place);
        }
        survey.look_ahead();
        let Survey {
            natures,
            spans,
            shown: _,
            last_shown: _,
        } = survey;
        Ok(Problem {
            known,
            replies,
            spans,
            natures,
        })
    }

    /// What a call can do.
    pub fn nature(&self, number: u64) -> Nature {
        match self.natures.get((number as usize).saturating_sub(1)) {
            Some(nature) => *nature,
            None => Nature::Unplaced,
        }
    }

    /// The number of the object that a call makes, if it makes one: those that stood at first come before it.
    pub fn object_of(&self, number: u64) -> u64 {
        number.saturating_add(self.known.start().count() as u64)
    }

    /// The call that makes the object of a number, or 0 for one that stood at first.
    pub fn maker_of(&self, object: u64) -> u64 {
        object.saturating_sub(self.known.start().count() as u64)
    }

    /// Whether an era is the last one; eras are counted from 0.
    pub fn is_last(&self, era: usize) -> bool {
        era.saturating_add(1) >= self.spans.len()
    }

    /// The calls of the history.
    pub fn known(&self) -> &'s KnownCalls<'a> {
        self.known
    }

    /// The answered judged call whose reply stands at a place, counted from 0.
    pub fn reply_at(&self, place: usize) -> Option<u64> {
        self.replies.get(place).copied()
    }

    /// The calls and replies of an era, counted from 0.
    pub fn span(&self, era: usize) -> EraSpan {
        match self.spans.get(era) {
            Some(span) => *span,
            None => EraSpan::NONE,
        }
    }
}
