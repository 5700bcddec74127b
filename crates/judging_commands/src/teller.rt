//! What is said while a search runs, and when its time is over.

use crate::words::SearchRequest;
use cert_search::{Progress, SearchGate};
use first_look::FirstLook;
use std::time::{Clock, Instant};

/// Tells on standard error what a first look found and how far a search is, and ends the search when its time is over.
#[derive(Drop)]
pub(crate) struct Teller<'r, R> {
    rt: &'r R,
    /// Whether nothing is to be told.
    is_quiet: bool,
    /// When the search began, where there is a clock.
    start: Option<Instant>,
    /// After how many seconds it is over, where there is a limit.
    seconds: Option<u32>,
}

impl<'r, R: Eprint + Clock> Teller<'r, R> {
    /// From now on.
    pub(crate) fn new(rt: &'r R, request: &SearchRequest<'_>) -> Teller<'r, R> {
        Teller {
            rt,
            is_quiet: request.is_quiet,
            start: Instant::now(rt).ok(),
            seconds: request.seconds,
        }
    }

    /// Tells what a first look found.
    pub(crate) fn tell_look(&self, look: &FirstLook) {
        if self.is_quiet {
            return;
        }
        if let Some(two) = look.two_verifiers {
            let (era, one, other) = (two.era, two.one, two.other);
            let _ = eprintln!(self.rt;
                "calls {one} and {other} of era {era} got two write verifiers, so no order explains them: a crash isn't noted between them"
            );
        }
        if let Some(call) = look.unknown_handle {
            let _ = eprintln!(self.rt; "call {call} uses a handle that no reply gave");
        }
        if look.lacks_root {
            let _ = eprintln!(self.rt;
                "no call uses the root handle: is --root the handle that the clients mount?"
            );
        }
    }

    /// Tells that the time is over.
    pub(crate) fn tell_end(&self) {
        if self.is_quiet {
            return;
        }
        if let Some(seconds) = self.seconds {
            let _ = eprintln!(self.rt; "out of time after {seconds} seconds");
        }
    }
}

impl<'r, R: Eprint + Clock> SearchGate for Teller<'r, R> {
    fn at(&self, _worker: u32) {}

    fn tell(&self, progress: Progress) {
        if self.is_quiet {
            return;
        }
        let Progress {
            turns,
            depth,
            calls,
            states,
        } = progress;
        let _ = eprintln!(self.rt;
            "turns {turns}, depth {depth} of {calls} calls, states {states}"
        );
    }

    /// Without a clock a limited time is over at once.
    fn is_over(&self) -> bool {
        let Some(seconds) = self.seconds else {
            return false;
        };
        match (self.start, Instant::now(self.rt)) {
            (Some(start), Ok(now)) => now.duration_since(start).as_secs() >= u64::from(seconds),
            _ => true,
        }
    }
}
