//! How long a lane has waited.

ghost use Rattle.std.specs.Prelude.{◌≡◌, ◌^◌, ◌<◌, None};
ghost use Rattle.night_lanes.specs.Waiting.{clock_nanos, next_turn};

use std::time::Instant;

/// How many nanoseconds of a turn count at most, whatever a clock says: a second.
const MOST: u64 = 1_000_000_000;

/// How long a lane has waited, turn by turn. A clock may jump ahead or stand still: of each turn a second counts at most, and one in which a
/// read found nothing counts for what a read waits at least.
#[derive(Clone, Copy)]
pub struct Waiting {
    /// How many nanoseconds have passed.
    passed: u64,
    /// When the turn began, if the clock could be read.
    begun: Option<Instant>,
    /// How many nanoseconds a read of the turn waited at least.
    waited: u32,
}

/// How many nanoseconds a clock says that a turn took, a second at most.
fn clock_nanos(begun: Option<Instant>, now: Option<Instant>) -> u64
    ensures is { result ≡ clock_nanos begun now }
    ensures few { result < 2 ^ 30 }
{
    match (begun, now) {
        (Some(begun), Some(now)) => now
            .duration_since(begun)
            .as_nanos()
            .min(u128::from(MOST)) as u64,
        _ => 0,
    }
}

impl Waiting {
    /// No turn has begun.
    pub fn new() -> Waiting
        ensures { result ≡ record { passed = 0; begun = None; waited = 0 } }
    {
        Waiting {
            passed: 0,
            begun: None,
            waited: 0,
        }
    }

    /// A turn ends, and the next one begins now.
    pub fn begin_turn(&mut self, now: Option<Instant>)
        ensures { self.new ≡ next_turn self.old now }
    {
        let turn = clock_nanos(self.begun, now).max(u64::from(self.waited));
        self.passed = self.passed.saturating_add(turn);
        self.begun = now;
        self.waited = 0;
    }

    /// A read of the turn waited for this many nanoseconds, and found nothing.
    pub fn found_nothing(&mut self, nanoseconds: u32)
        ensures { self.new ≡ record self.old { waited = nanoseconds } }
    {
        self.waited = nanoseconds;
    }

    /// How many nanoseconds have passed.
    pub fn passed(&self) -> u64
        ensures { result ≡ self.now.passed }
    {
        self.passed
    }
}
