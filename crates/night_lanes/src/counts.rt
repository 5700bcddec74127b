//! How many calls were made, and how they came out.

use nfs3_types::{Failure, NfsReply, Procedure};
use rpc_client::Refusal;
use std::alloc::{AllocError, Global};

/// How many procedures NFS version 3 has.
const PROCEDURES: usize = 22;

/// How often a status came.
#[derive(Clone, Copy)]
pub struct FailureCount {
    pub failure: Failure,
    pub count: u64,
}

/// How many calls of a procedure were made, and how they came out.
#[derive(Drop)]
pub struct ProcedureCounts {
    /// Calls that were noted.
    pub calls: u64,
    /// Replies that were noted.
    pub replies: u64,
    /// Replies that are successes.
    pub done: u64,
    /// Replies with another status than NFS3_OK, each status once.
    pub failed: Vec<FailureCount>,
}

/// How many calls were made, and how they came out, by procedure.
pub struct Counts {
    rows: Vec<ProcedureCounts>,
    too_weak: u64,
}

impl Drop for Counts {
    fn drop(self) {
        let Counts { rows, too_weak: _ } = self;
        drop(rows);
    }
}

impl ProcedureCounts {
    fn new(alloc: Global) -> ProcedureCounts {
        ProcedureCounts {
            calls: 0,
            replies: 0,
            done: 0,
            failed: Vec::new(alloc),
        }
    }

    /// A status came this many more times.
    fn add_failure(&mut self, failure: Failure, count: u64) -> Result<(), AllocError> {
        for known in self.failed.iter_mut() {
            if known.failure == failure {
                known.count = known.count.saturating_add(count);
                return Ok(());
            }
        }
        self.failed.push(FailureCount { failure, count })?;
        Ok(())
    }

    /// How often a status came.
    pub fn count_of(&self, failure: Failure) -> u64 {
        for known in self.failed.as_slice() {
            if known.failure == failure {
                return known.count;
            }
        }
        0
    }

    /// Counts what others counted.
    fn add(&mut self, other: &ProcedureCounts) -> Result<(), AllocError> {
        self.calls = self.calls.saturating_add(other.calls);
        self.replies = self.replies.saturating_add(other.replies);
        self.done = self.done.saturating_add(other.done);
        for known in other.failed.as_slice() {
            self.add_failure(known.failure, known.count)?;
        }
        Ok(())
    }
}

impl Counts {
    /// No call was made.
    pub fn new(alloc: Global) -> Result<Counts, AllocError> {
        let mut rows = Vec::with_capacity(alloc, PROCEDURES)?;
        for _ in 0..PROCEDURES {
            rows.push(ProcedureCounts::new(alloc))?;
        }
        Ok(Counts { rows, too_weak: 0 })
    }

    fn row(&mut self, procedure: Procedure) -> Option<&mut ProcedureCounts> {
        self.rows.get_mut(procedure.number() as usize)
    }

    /// A call was noted.
    pub fn count_call(&mut self, procedure: Procedure) {
        if let Some(row) = self.row(procedure) {
            row.calls = row.calls.saturating_add(1);
        }
    }

    /// A reply was noted.
    pub fn count_reply(&mut self, procedure: Procedure) {
        if let Some(row) = self.row(procedure) {
            row.replies = row.replies.saturating_add(1);
        }
    }

    /// RPC refused a call.
    pub fn count_refusal(&mut self, refusal: Refusal) {
        if refusal.is_too_weak() {
            self.too_weak = self.too_weak.saturating_add(1);
        }
    }

    /// A reply that was noted has this result.
    pub fn count_result(&mut self, reply: &NfsReply) -> Result<(), AllocError> {
        let Some(row) = self.row(reply.procedure()) else {
            return Ok(());
        };
        match reply.failure() {
            Some(failure) => row.add_failure(failure, 1),
            None => {
                row.done = row.done.saturating_add(1);
                Ok(())
            }
        }
    }

    /// Counts what others counted.
    pub fn add(&mut self, other: &Counts) -> Result<(), AllocError> {
        self.too_weak = self.too_weak.saturating_add(other.too_weak);
        for (row, added) in self.rows.iter_mut().zip(other.rows.as_slice()) {
            row.add(added)?;
        }
        Ok(())
    }

    /// What was counted of a procedure.
    pub fn of(&self, procedure: Procedure) -> Option<&ProcedureCounts> {
        self.rows.get(procedure.number() as usize)
    }

    /// How many calls were noted.
    pub fn calls(&self) -> u64 {
        let mut sum = 0u64;
        for row in self.rows.as_slice() {
            sum = sum.saturating_add(row.calls);
        }
        sum
    }

    /// How many replies were noted.
    pub fn replies(&self) -> u64 {
        let mut sum = 0u64;
        for row in self.rows.as_slice() {
            sum = sum.saturating_add(row.replies);
        }
        sum
    }

    /// How many replies have a status that says that the user may not do it: NFS3ERR_PERM or NFS3ERR_ACCES.
    pub fn denied(&self) -> u64 {
        let mut sum = 0u64;
        for row in self.rows.as_slice() {
            sum = sum.saturating_add(row.count_of(Failure::NotOwner));
            sum = sum.saturating_add(row.count_of(Failure::Access));
        }
        sum
    }

    /// How many calls were refused by AUTH_TOOWEAK.
    pub fn too_weak(&self) -> u64 {
        self.too_weak
    }
}
