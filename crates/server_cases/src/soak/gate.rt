//! A gate that lets some calls wait a little, so that others come between.

use journal_server::{Gate, Point, Server, SimDevice};
use std::sync::atomic::{AtomicU64, Ordering};
use std::thread;
use std::time::{Clock, Duration};

/// One in so many calls waits at a point.
const EACH: u64 = 17;

/// A server whose calls wait now and then.
pub type SoakServer<'r, R> = Server<Jitter<'r, R>, SimDevice>;

/// Lets some calls wait a little.
#[derive(Drop)]
pub struct Jitter<'r, R> {
    rt: &'r R,
    /// If it doesn't listen, the server may take the last steps of a call at one hold of its book's lock.
    listens: bool,
    count: AtomicU64,
}

impl<'r, R> Jitter<'r, R> {
    /// Before the first call.
    pub fn new(rt: &'r R, listens: bool) -> Jitter<'r, R> {
        Jitter {
            rt,
            listens,
            count: AtomicU64::new(0),
        }
    }
}

impl<'r, R: Clock> Gate for Jitter<'r, R> {
    fn at(&self, _lane: u32, _point: Point) {
        if self.count.fetch_add(1, Ordering::SeqCst) % EACH == 0 {
            thread::sleep(self.rt, Duration::from_micros(100));
        }
    }

    fn listens(&self) -> bool {
        self.listens
    }
}
