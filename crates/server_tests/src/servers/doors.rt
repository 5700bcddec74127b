//! A gate with two doors, at which a test holds a client's calls.

use journal_server::{Gate, Point};
use std::sync::atomic::{AtomicU64, Ordering};
use std::thread;
use std::time::{Clock, Duration};

/// How often a flag is looked at, with a pause of a millisecond after each look.
const TURNS: u32 = 10_000;

/// Something that happens once.
#[derive(Drop)]
pub(crate) struct Flag {
    word: AtomicU64,
}

impl Flag {
    /// It hasn't happened.
    pub(crate) fn new() -> Flag {
        Flag {
            word: AtomicU64::new(0),
        }
    }

    /// It happens.
    pub(crate) fn set(&self) {
        self.word.store(1, Ordering::SeqCst);
    }

    /// Whether it has happened.
    pub(crate) fn is_set(&self) -> bool {
        self.word.load(Ordering::SeqCst) != 0
    }

    /// Waits for it. Whether it happened before the turns were over.
    pub(crate) fn wait<R: Clock>(&self, rt: &R) -> bool {
        for _ in 0..TURNS {
            if self.is_set() {
                return true;
            }
            thread::sleep(rt, Duration::from_millis(1));
        }
        false
    }
}

/// A door at one point of a lane's calls, closed until it is opened.
#[derive(Drop)]
pub(crate) struct Door {
    lane: u32,
    point: Point,
    /// It is open for good.
    pub(crate) opened: Flag,
    /// A call has come to it.
    pub(crate) reached: Flag,
    /// A call was let through though the door was closed, since the turns were over.
    pub(crate) forced: Flag,
}

impl Door {
    /// A closed door.
    pub(crate) fn new(lane: u32, point: Point) -> Door {
        Door {
            lane,
            point,
            opened: Flag::new(),
            reached: Flag::new(),
            forced: Flag::new(),
        }
    }

    /// Holds a call of this lane at this point, if the door is there.
    fn hold<R: Clock>(&self, rt: &R, lane: u32, point: Point) {
        if lane != self.lane || point != self.point {
            return;
        }
        self.reached.set();
        if !self.opened.wait(rt) {
            self.forced.set();
        }
    }
}

/// A gate with two doors.
#[derive(Drop)]
pub(crate) struct Doors<'d, R> {
    rt: &'d R,
    first: &'d Door,
    second: &'d Door,
}

impl<'d, R> Doors<'d, R> {
    /// With these doors.
    pub(crate) fn new(rt: &'d R, first: &'d Door, second: &'d Door) -> Doors<'d, R> {
        Doors { rt, first, second }
    }
}

impl<'d, R: Clock> Gate for Doors<'d, R> {
    fn at(&self, lane: u32, point: Point) {
        self.first.hold(self.rt, lane, point);
        self.second.hold(self.rt, lane, point);
    }
}
