//! When it is time to tell how far a search is.

use std::time::{Clock, Duration, Instant};

/// How long it takes from one telling to the next.
const PERIOD: u64 = 1;

/// When was told last how far a search is.
#[derive(Clone, Copy)]
pub(crate) struct Watch {
    last: Option<Instant>,
}

impl Watch {
    /// From now on.
    pub(crate) fn new<R: Clock>(rt: &R) -> Watch {
        Watch {
            last: Instant::now(rt).ok(),
        }
    }

    /// Whether a second has gone by since it was due, or since the start.
    pub(crate) fn is_due<R: Clock>(&mut self, rt: &R) -> bool {
        let Ok(now) = Instant::now(rt) else {
            return false;
        };
        let is_due = match self.last {
            Some(last) => now.duration_since(last) >= Duration::from_secs(PERIOD),
            None => true,
        };
        if is_due {
            self.last = Some(now);
        }
        is_due
    }
}
