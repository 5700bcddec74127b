//! A decision within so many seconds: a quick walk for a certificate for half of them at most, sweeps for one where it came to many states or gave up, and a walk
//! over all that may be to their end.

ghost use Rattle.decide.specs.Decision.{Says};

use crate::reached::Reached;
use certificate::Certificate;
use decide::{Decision, WalksWatch, Watch, decide};
use nfs_history::History;
use search_problem::Problem;
use search_sweeps::{SweepWatch, plan_of};
use std::alloc::AllocError;
use std::fs::File;
use std::io::{Eprint, IsTerminal};
use std::rt::Files;
use std::time::{Clock, Instant};

/// In how many parts the time is taken, of which the quick walk gets one.
const QUICK_PARTS: u32 = 2;

/// In how many parts, of which sweeps get one.
const SWEPT_PARTS: u32 = 8;

/// In how many parts, of which sweeps get one before the quick walk has all the states that there may be.
const EARLY_PARTS: u32 = 32;

/// How many sweeps are made at most.
const SWEEPS: u64 = 16;

/// How much a decision may cost.
#[derive(Clone, Copy)]
pub struct Effort {
    /// How many states there may be at once.
    pub states: u32,
    /// After how many seconds it gives up.
    pub seconds: u32,
    /// Whether it says on standard error how far it is, once a second.
    pub is_told: bool,
}

/// Whether standard error is a terminal.
pub fn is_watched<R: Files<File = File>>(rt: &R) -> bool {
    match File::open(rt, "/dev/stderr") {
        Ok(file) => file.is_terminal(),
        Err(_) => false,
    }
}

/// Ends a walk when a part of the time is over, of which there are so many, and notes how far the walks came.
#[derive(Drop)]
struct PartOfTime<'r, R> {
    rt: &'r R,
    history: &'r History,
    start: Option<Instant>,
    effort: Effort,
    parts: u32,
    /// How many events there are.
    events: usize,
    /// How many seconds were gone when it was said last how far it is.
    told: u128,
    /// How far the walk before this one came.
    earlier: Reached,
    reached: Reached,
}

impl<'r, R: Clock + Eprint> PartOfTime<'r, R> {
    /// How many milliseconds there are.
    fn given(&self) -> u128 {
        u128::from(self.effort.seconds).saturating_mul(1_000)
    }

    /// How many milliseconds are gone, if there is a clock.
    fn gone(&self) -> Option<u128> {
        let start = self.start?;
        match Instant::now(self.rt) {
            Ok(now) => Some(now.duration_since(start).as_millis()),
            Err(_) => None,
        }
    }

    /// Says how far it is, where a second is gone since it did.
    fn tell(&mut self, states: usize) {
        let Some(gone) = self.gone() else {
            return;
        };
        let seconds = gone / 1_000;
        if seconds <= self.told {
            return;
        }
        self.told = seconds;
        let (event, events, most) = (self.reached.event, self.events, self.reached.most.states);
        let _ = eprintln!(self.rt;
            "nfsbench: {event} of {events} events, orders now {states}, at most {most}"
        );
    }
}

impl<'r, R: Clock + Eprint> Watch for PartOfTime<'r, R> {
    /// Without a clock it is.
    fn is_over(&mut self) -> bool {
        match self.gone() {
            Some(gone) => gone.saturating_mul(u128::from(self.parts)) >= self.given(),
            None => true,
        }
    }

    fn see(&mut self, event: usize, states: usize) {
        // There is one event more, at which nothing happens.
        let number = (event as u64).saturating_add(1).min(self.events as u64);
        self.reached = self.reached.with(number, states as u64);
        if self.effort.is_told {
            self.tell(states);
        }
    }
}

/// Ends sweeps when so many milliseconds are gone from a moment on.
#[derive(Drop)]
struct SweptTime<'r, R> {
    rt: &'r R,
    start: Option<Instant>,
    given: u128,
}

impl<'r, R: Clock> SweepWatch for SweptTime<'r, R> {
    fn at(&mut self, _depth: usize) {}

    /// Without a clock they are over.
    fn is_over(&self) -> bool {
        match (self.start, Instant::now(self.rt)) {
            (Some(start), Ok(now)) => now.duration_since(start).as_millis() >= self.given,
            _ => true,
        }
    }
}

/// The certificate that sweeps over a history come to, within so many milliseconds.
fn swept<R: Clock + AllocGlobal>(
    rt: &R,
    history: &History,
    given: u128,
) -> Result<Option<Certificate>, AllocError> {
    let alloc = rt.alloc();
    let known = history.lend_calls(alloc)?;
    let problem = Problem::new(alloc, &known)?;
    let mut watch = SweptTime {
        rt,
        start: Instant::now(rt).ok(),
        given,
    };
    plan_of(alloc, &problem, SWEEPS, &mut watch)
}

impl<'r, R: Clock + Eprint + AllocGlobal> PartOfTime<'r, R> {
    /// Takes note that another walk begins.
    fn begin_walk(&mut self) {
        self.earlier = self.reached.or_further(self.earlier);
        self.reached = Reached::none();
    }
}

impl<'r, R: Clock + Eprint + AllocGlobal> WalksWatch for PartOfTime<'r, R> {
    fn again(&mut self) -> Result<Option<Certificate>, AllocError> {
        self.begin_walk();
        let given = self.given() / u128::from(EARLY_PARTS);
        swept(self.rt, self.history, given)
    }

    /// Sweeps are for histories in which more calls are on their way at once than a quick walk has states for.
    fn next_walk(&mut self, gave_up: bool) -> Result<Option<Certificate>, AllocError> {
        self.parts = 1;
        self.begin_walk();
        if !gave_up {
            return Ok(None);
        }
        let given = self.given() / u128::from(SWEPT_PARTS);
        swept(self.rt, self.history, given)
    }
}

/// Decides of a history, and says how far the walks came.
pub(crate) fn decide_within<R: Clock + Eprint + AllocGlobal>(
    rt: &R,
    history: &History,
    effort: Effort,
) -> (Decision, Reached)
    ensures { Says history.now.known result.0 }
{
    let mut watch = PartOfTime {
        rt,
        history,
        start: Instant::now(rt).ok(),
        effort,
        parts: QUICK_PARTS,
        events: history.events().len(),
        told: 0,
        earlier: Reached::none(),
        reached: Reached::none(),
    };
    let decision = decide(rt.alloc(), history, effort.states as usize, &mut watch);
    (decision, watch.reached.or_further(watch.earlier))
}
