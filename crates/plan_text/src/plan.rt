//! The values that a plan holds. A contract sees a name as its bytes, and the list of steps as its items.

ghost use Rattle.std.specs.Prelude.{◌≡◌, ◌≤◌, ℕ, List, length, IfOk};

use nfs3_types::{ItemList, StableHow};
use std::alloc::{AllocError, Global};
use std::marker::Model;

/// The most bytes of a name, or of what a plan writes.
pub const NAME_LIMIT: usize = 64;

/// A name in the root directory, or what is written to a file: 1 to 64 bytes of a to z and 0 to 9.
#[derive(Drop)]
pub struct PlanName {
    bytes: Vec<u8>,
}

impl Model for PlanName {
    ghost use Rattle.std.specs.Prelude.{◌≤◌, List, ℕ, length};

    ghost Value = { List ℕ };

    ghost view = { λ n. n.bytes.items };

    ghost invariant = { λ n. length n.bytes.items ≤ 64 };
}

impl PlanName {
    /// The name of these bytes.
    pub(crate) fn from_slice(alloc: Global, bytes: &[u8]) -> Result<PlanName, AllocError>
        requires { length bytes.now ≤ 64 }
        ensures { IfOk result (λ n. n ≡ bytes.now) }
    {
        let mut copied = Vec::new(alloc);
        copied.extend_from_slice(bytes)?;
        Ok(PlanName { bytes: copied })
    }

    /// Its bytes.
    pub fn as_slice(&self) -> &[u8]
        ensures value { result.now ≡ self.now }
        ensures bound { length self.now ≤ 64 }
    {
        self.bytes.as_slice()
    }
}

/// What a client asks. Every name stands in the root directory.
#[derive(Drop)]
pub enum Operation {
    /// Make a file.
    Create(PlanName),
    /// Make a directory.
    MakeDirectory(PlanName),
    /// Remove a file.
    Remove(PlanName),
    /// Ask for a handle.
    Lookup(PlanName),
    /// Move what the first name names to the second.
    Rename(PlanName, PlanName),
    /// Write the bytes of the second name into the file, from an offset in bytes.
    Write(PlanName, u64, PlanName, StableHow),
    /// Read from an offset in bytes, at most a count of bytes.
    Read(PlanName, u64, u32),
    /// Ask for what was written to be on disk.
    Commit(PlanName),
}

/// What a client asks on a lane.
#[derive(Drop)]
pub struct LaneStep {
    /// From 1 to 64.
    pub lane: u32,
    /// What the client of the lane asks for.
    pub operation: Operation,
}

/// A step of a plan.
#[derive(Drop)]
pub enum Step {
    /// A lane's next operation, which `Go` begins.
    Lane(LaneStep),
    /// The lanes run what they were given, and end.
    Go,
    /// The server crashes, and at most so many records of its journal outlive it beside those on stable storage.
    Crash(u64),
}

/// A plan.
pub struct Plan {
    /// The append to the journal that fails, counted from 1 over the whole run.
    pub append_fault: Option<u64>,
    /// The barrier that fails, counted from 1 over the whole run.
    pub barrier_fault: Option<u64>,
    /// What clients ask for, and when the server crashes, in order.
    pub steps: ItemList<Step>,
}

impl Drop for Plan {
    fn drop(self) {
        let Plan {
            append_fault: _,
            barrier_fault: _,
            steps,
        } = self;
        drop(steps);
    }
}
