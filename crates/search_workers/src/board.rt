//! What the workers of a search share.

use crate::gate::Progress;
use crate::ways::NodeName;
use certificate::Certificate;
use std::sync::atomic::{AtomicBool, AtomicU64, AtomicUsize, Ordering};
use std::sync::{Mutex, Wait};

/// A branch that waits to be taken: the first legal move behind another one, from one of so high a rank on. Ranks count the moves
/// behind a branch from 0, the likeliest first.
#[derive(Clone, Copy)]
pub(crate) struct Branch {
    pub(crate) parent: NodeName,
    /// How many moves lead to the parent.
    pub(crate) depth: usize,
    pub(crate) rank: usize,
}

impl Branch {
    /// The likeliest move of all that may come first.
    pub(crate) const FIRST: Branch = Branch {
        parent: NodeName::ROOT,
        depth: 0,
        rank: 0,
    };
}

/// What a worker counted since it last told the others.
#[derive(Clone, Copy)]
pub(crate) struct Tally {
    /// Branches that it took.
    pub(crate) turns: u64,
    /// The most moves that led to one.
    pub(crate) depth: usize,
    /// Branches that nobody had claimed before.
    pub(crate) states: u64,
}

impl Tally {
    pub(crate) const NONE: Tally = Tally {
        turns: 0,
        depth: 0,
        states: 0,
    };
}

/// What the workers of a search share beside their branches. All but the certificate are words that are read and written in one step,
/// so that nobody waits for them.
#[derive(Drop)]
pub(crate) struct Board {
    /// How many branches wait or are worked at.
    open: AtomicU64,
    is_found: AtomicBool,
    lacked_memory: AtomicBool,
    /// Whether a worker stopped while branches were left.
    left_branches: AtomicBool,
    turns: AtomicU64,
    depth: AtomicUsize,
    states: AtomicU64,
    found: Mutex<Option<Certificate>>,
}

impl Board {
    /// Of a search whose first branch waits.
    pub(crate) fn new() -> Board {
        Board {
            open: AtomicU64::new(1),
            is_found: AtomicBool::new(false),
            lacked_memory: AtomicBool::new(false),
            left_branches: AtomicBool::new(false),
            turns: AtomicU64::new(0),
            depth: AtomicUsize::new(0),
            states: AtomicU64::new(0),
            found: Mutex::new(None),
        }
    }

    /// Whether there is nothing more to do.
    pub(crate) fn is_over(&self) -> bool {
        self.is_found.load(Ordering::SeqCst) || self.open.load(Ordering::SeqCst) == 0
    }

    /// So many branches more will wait. This is told before they do, so that the search isn't over while one waits.
    pub(crate) fn open(&self, count: u64) {
        self.open.fetch_add(count, Ordering::SeqCst);
    }

    /// So many branches are done with.
    pub(crate) fn close(&self, count: u64) {
        self.open.fetch_sub(count, Ordering::SeqCst);
    }

    /// Adds what a worker counted.
    pub(crate) fn count(&self, tally: Tally) {
        self.turns.fetch_add(tally.turns, Ordering::SeqCst);
        self.depth.fetch_max(tally.depth, Ordering::SeqCst);
        self.states.fetch_add(tally.states, Ordering::SeqCst);
    }

    /// Whether fewer branches than so many were claimed as new.
    pub(crate) fn has_room(&self, room: u64) -> bool {
        self.states.load(Ordering::SeqCst) < room
    }

    /// A certificate was found that is a witness.
    pub(crate) fn succeed<R: Wait>(&self, rt: &R, certificate: Certificate) {
        *self.found.lock(rt) = Some(certificate);
        self.is_found.store(true, Ordering::SeqCst);
    }

    /// A worker stops that may take no more branches.
    pub(crate) fn stop_worker(&self) {
        if self.open.load(Ordering::SeqCst) > 0 {
            self.left_branches.store(true, Ordering::SeqCst);
        }
    }

    /// A worker stops for want of memory.
    pub(crate) fn lack_memory(&self) {
        self.lacked_memory.store(true, Ordering::SeqCst);
    }

    /// Whether a worker stopped for want of memory.
    pub(crate) fn lacked_memory(&self) -> bool {
        self.lacked_memory.load(Ordering::SeqCst)
    }

    /// Whether a worker stopped while branches were left.
    pub(crate) fn left_branches(&self) -> bool {
        self.left_branches.load(Ordering::SeqCst)
    }

    /// How far the search is, in a history of so many calls.
    pub(crate) fn progress(&self, calls: usize) -> Progress {
        Progress {
            turns: self.turns.load(Ordering::SeqCst),
            depth: self.depth.load(Ordering::SeqCst),
            calls,
            states: self.states.load(Ordering::SeqCst),
        }
    }

    /// The certificate that was found.
    pub(crate) fn take_found<R: Wait>(&self, rt: &R) -> Option<Certificate> {
        self.found.lock(rt).take()
    }
}
