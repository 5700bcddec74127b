//! Causes, counted.

use nfs3_types::{Failure, NfsCall};
use tree_answers::{Cause, causes, is_caused_by};
use tree_handles::View;

/// How often each cause held at a call that failed with a status which stands beside it (`docs/PROFILE.md`).
#[derive(Clone, Copy)]
pub struct CauseCounts {
    /// In the order of `causes`.
    counts: [u64; 20],
}

impl CauseCounts {
    /// Before any call.
    pub fn none() -> CauseCounts {
        CauseCounts { counts: [0; 20] }
    }

    /// How often this cause held.
    pub fn of(&self, cause: Cause) -> u64 {
        let place = causes().iter().position(|other| *other == cause);
        place
            .and_then(|place| self.counts.get(place).copied())
            .unwrap_or(0)
    }

    /// Counts the causes of one failure, at the tree that its call met.
    pub(crate) fn note(&mut self, view: &View<'_>, call: &NfsCall, failure: Failure) {
        for (count, cause) in self.counts.iter_mut().zip(causes()) {
            if is_caused_by(view, call, failure, cause) {
                *count = count.saturating_add(1);
            }
        }
    }
}
