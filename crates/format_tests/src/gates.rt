//! Gates of a search: one that holds a worker at its first branch until another one has taken one, and one that ends a search.

use crate::histories::Happened::{Answered, Asked, Done};
use crate::histories::{Happened, file};
use crate::requests::{Request, SYNCED};
use cert_search::{OpenSearch, SearchEnd, SearchGate, SearchRuntime, search_calls};
use nfs_history::read_calls;
use std::sync::atomic::{AtomicU64, Ordering};
use std::test::Fail;
use std::thread;
use std::time::{Clock, Duration};

/// CREATE of `a`, WRITEs of `abc` and of `xyz`, and a READ of `abc`.
const CREATE: Request = Request::Create(0, b'a', Some(0xaa));

const ABC: Request = Request::Write(0xaa, SYNCED, b"abc");

const XYZ: Request = Request::Write(0xaa, SYNCED, b"xyz");

const READ: Request = Request::Read(0xaa, b"abc");

/// The READ has to be before the WRITE of `xyz`, which began before it; it is answered first.
const READ_BESIDE_WRITE: &[Happened] = &[
    Done(1, 1, CREATE),
    Done(2, 2, ABC),
    Asked(3, 3, XYZ),
    Done(4, 4, READ),
    Answered(3, 3, XYZ),
];

/// Here that WRITE is answered first: so the order of the replies explains nothing, and a search has to find another.
const READ_AFTER_WRITE: &[Happened] = &[
    Done(1, 1, CREATE),
    Done(2, 2, ABC),
    Asked(3, 3, XYZ),
    Asked(4, 4, READ),
    Answered(3, 3, XYZ),
    Answered(4, 4, READ),
];

/// Whether a search with two workers finds a certificate, or else is out of turns.
fn ends<R: SearchRuntime, G: SearchGate + Sync>(
    rt: &R,
    list: &[Happened],
    gate: &G,
    is_found: bool,
) -> Result<bool, Fail> {
    let bytes = file(rt.alloc(), list)?;
    let known = read_calls(rt.alloc(), bytes.as_slice())?;
    Ok(match search_calls(rt, &known, 2, 10_000, gate) {
        SearchEnd::Found(_) => is_found,
        SearchEnd::OutOfTurns => !is_found,
        SearchEnd::NotFound | SearchEnd::NoMemory => false,
    })
}

/// Holds the first worker that takes a branch.
#[derive(Drop)]
struct HoldFirst<'r, R> {
    rt: &'r R,
    /// One more than the number of the first worker, or 0.
    first: AtomicU64,
    /// Whether another one has taken a branch.
    other: AtomicU64,
    /// Whether the first worker was let go without that.
    gave_up: AtomicU64,
}

impl<'r, R: Clock> HoldFirst<'r, R> {
    fn new(rt: &'r R) -> HoldFirst<'r, R> {
        HoldFirst {
            rt,
            first: AtomicU64::new(0),
            other: AtomicU64::new(0),
            gave_up: AtomicU64::new(0),
        }
    }

    /// Waits until another worker has taken a branch, and for ten seconds at most.
    fn hold(&self) {
        for _ in 0..10_000 {
            if self.other.load(Ordering::SeqCst) != 0 {
                return;
            }
            thread::sleep(self.rt, Duration::from_millis(1));
        }
        self.gave_up.store(1, Ordering::SeqCst);
    }
}

impl<'r, R: Clock> SearchGate for HoldFirst<'r, R> {
    fn at(&self, worker: u32) {
        let name = u64::from(worker).saturating_add(1);
        match self
            .first
            .compare_exchange(0, name, Ordering::SeqCst, Ordering::SeqCst)
        {
            Ok(_) => self.hold(),
            Err(first) if first != name => self.other.store(1, Ordering::SeqCst),
            Err(_) => {}
        }
    }
}

/// Whether a certificate is found while the first worker is held, and another one took a branch meanwhile.
fn is_found_by_two<R: SearchRuntime>(rt: &R) -> Result<bool, Fail> {
    let gate = HoldFirst::new(rt);
    let is_found = ends(rt, READ_BESIDE_WRITE, &gate, true)?;
    Ok(is_found && gate.gave_up.load(Ordering::SeqCst) == 0)
}

#[test]
fn another_worker_goes_on_while_one_is_held(rt: HostRuntime) -> Result<(), Fail> {
    assert!(rt; is_found_by_two(&rt)?);
    Ok(())
}

/// A gate at which a search is over before it takes a branch.
struct OverAtOnce;

impl SearchGate for OverAtOnce {
    fn at(&self, _worker: u32) {}

    fn is_over(&self) -> bool {
        true
    }
}

#[test]
fn a_search_that_is_over_is_out_of_turns(rt: HostRuntime) -> Result<(), Fail> {
    assert!(rt; ends(&rt, READ_AFTER_WRITE, &OverAtOnce, false)?);
    assert!(rt; ends(&rt, READ_AFTER_WRITE, &OpenSearch, true)?);
    Ok(())
}
