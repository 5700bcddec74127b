//! A device in memory.

ghost use Rattle.std.specs.Prelude.{◌≡◌, ◌≤◌, ◌==◌, ◌↔◌, [], length, unwrap_or, IsErrOf};
ghost use Rattle.journal.specs.Device.{Device, appended, settled, recovered, Leaves};
ghost use Rattle.journal.specs.Simulated.{Simulated, next_due};

use crate::device::{DevFault, JournalDevice};
use crate::journal_record::Record;
use std::alloc::Global;
use std::marker::Model;

/// A device in memory, for tests and plans of crashes: it fails once at a call of each kind that it is told.
pub struct SimDevice {
    alloc: Global,
    records: Vec<Record>,
    mark: u64,
    faults: u64,
    /// Which one of the coming calls of `append` fails, counted from 1; none at 0.
    append_due: u64,
    /// The same of `barrier`.
    barrier_due: u64,
    /// The same of `recover`.
    recover_due: u64,
}

impl Drop for SimDevice {
    fn drop(self) {
        let SimDevice {
            alloc: _,
            records,
            mark: _,
            faults: _,
            append_due: _,
            barrier_due: _,
            recover_due: _,
        } = self;
        drop(records);
    }
}

impl Model for SimDevice {
    ghost use Rattle.std.specs.Prelude.{◌≤◌, ◌+◌, min, length};
    ghost use Rattle.journal.specs.Simulated.{Simulated};

    ghost Value = { Simulated };

    ghost view = { λ d. record {
      device = record { records = d.records.items; mark = d.mark; faults = d.faults };
      append_due = d.append_due;
      barrier_due = d.barrier_due;
      recover_due = d.recover_due;
    } };

    ghost invariant = { λ d. (d.mark ≤ length d.records.items)
        × (d.faults + min d.append_due 1 + min d.barrier_due 1 + min d.recover_due 1 ≤ 3) };
}

/// One call of a kind later: whether this one fails.
fn falls_due(due: &mut u64) -> bool
    ensures fails { result ≡ (due.old == 1) }
    ensures later { due.new ≡ next_due due.old }
{
    let fails = *due == 1;
    *due = due.saturating_sub(1);
    fails
}

impl SimDevice {
    /// An empty device. Call `fail_append` of `append`, counted from 1, fails, and so on: one of each kind at most,
    /// none where there is no number or it is 0.
    pub fn new(
        alloc: Global,
        fail_append: Option<u64>,
        fail_barrier: Option<u64>,
        fail_recover: Option<u64>,
    ) -> SimDevice
        ensures { result ≡ record {
          device = record { records = []; mark = 0; faults = 0 };
          append_due = unwrap_or fail_append 0;
          barrier_due = unwrap_or fail_barrier 0;
          recover_due = unwrap_or fail_recover 0;
        } }
    {
        SimDevice {
            alloc,
            records: Vec::new(alloc),
            mark: 0,
            faults: 0,
            append_due: fail_append.unwrap_or(0),
            barrier_due: fail_barrier.unwrap_or(0),
            recover_due: fail_recover.unwrap_or(0),
        }
    }

    /// Its records, the oldest first.
    pub fn records(&self) -> &[Record]
        ensures { result.now ≡ self.now.device.records }
    {
        self.records.as_slice()
    }
}

impl JournalDevice for SimDevice {
    ghost device = { λ d. d.device };

    fn append(&mut self, bytes: &[u8]) -> Result<(), DevFault>
        ensures leaves { Leaves self.old.device (appended self.old.device bytes.now) result self.new.device }
        ensures due { IsErrOf result DevFault.Failed ↔ (self.old.append_due ≡ 1) }
        ensures next { self.new ≡ record self.old { device = self.new.device; append_due = next_due self.old.append_due } }
    {
        if falls_due(&mut self.append_due) {
            self.faults += 1;
            return Err(DevFault::Failed);
        }
        self.records.push(Record::from_slice(self.alloc, bytes)?)?;
        Ok(())
    }

    fn barrier(&mut self) -> Result<(), DevFault>
        ensures leaves { Leaves self.old.device (settled self.old.device) result self.new.device }
        ensures memory { IsErrOf result DevFault.NoMemory → ⊥ }
        ensures due { IsErrOf result DevFault.Failed ↔ (self.old.barrier_due ≡ 1) }
        ensures next { self.new ≡ record self.old { device = self.new.device; barrier_due = next_due self.old.barrier_due } }
    {
        if falls_due(&mut self.barrier_due) {
            self.faults += 1;
            return Err(DevFault::Failed);
        }
        self.mark = self.records.len() as u64;
        Ok(())
    }

    fn recover(&mut self, keep: u64) -> Result<(), DevFault>
        requires safe { self.old.device.mark ≤ keep }
        requires there { keep ≤ length self.old.device.records }
        ensures leaves { Leaves self.old.device (recovered self.old.device keep) result self.new.device }
        ensures memory { IsErrOf result DevFault.NoMemory → ⊥ }
        ensures due { IsErrOf result DevFault.Failed ↔ (self.old.recover_due ≡ 1) }
        ensures next { self.new ≡ record self.old { device = self.new.device; recover_due = next_due self.old.recover_due } }
    {
        if falls_due(&mut self.recover_due) {
            self.faults += 1;
            return Err(DevFault::Failed);
        }
        self.records.truncate(keep as usize);
        self.mark = keep;
        Ok(())
    }

    fn len(&self) -> u64 {
        self.records.len() as u64
    }

    fn mark(&self) -> u64 {
        self.mark
    }

    fn faults(&self) -> u64 {
        self.faults
    }
}
