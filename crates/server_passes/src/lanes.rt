//! The answered calls of each lane.

ghost use Rattle.std.specs.Prelude.{◌≡◌, ◌++◌, ℕ, IfOk, OnOk};
ghost use Rattle.std.specs.List.{filter_map};
ghost use Rattle.std.specs.Option.{option_to_list};
ghost use Rattle.server_passes.specs.Lanes.{answered_on, calls_on, put_on};

use indexmap::IndexMap;
use nfs_history::RecordedCall;
use std::alloc::{AllocError, Global};

/// An answered call: the number of its event, and that of the event of its reply.
#[derive(Clone, Copy)]
pub(crate) struct AnsweredCall {
    pub begin: u64,
    pub end: u64,
}

/// The answered calls, in order, by their lanes.
#[derive(Drop)]
pub(crate) struct LaneCalls {
    calls: IndexMap<u32, Vec<AnsweredCall>>,
}

impl LaneCalls {
    /// Those among these calls.
    pub(crate) fn of_calls(alloc: Global, calls: &[RecordedCall]) -> Result<LaneCalls, AllocError>
        ensures { IfOk result (λ lanes. (lane : ℕ) → calls_on lanes lane ≡ filter_map (answered_on lane) calls.now) }
    {
        let mut lanes = LaneCalls {
            calls: IndexMap::new(alloc),
        };
        for call in calls {
            lanes.take_in(alloc, call)?;
        }
        Ok(lanes)
    }

    // Puts a call behind the others of its lane, where it was answered.
    fn take_in(&mut self, alloc: Global, call: &RecordedCall) -> Result<(), AllocError>
        ensures { OnOk result ((lane : ℕ) → calls_on self.new lane ≡ calls_on self.old lane ++ option_to_list (answered_on lane call.now)) }
    {
        let Some(end) = call.end else {
            return Ok(());
        };
        let answered = AnsweredCall {
            begin: call.begin,
            end,
        };
        self.push(alloc, call.lane, answered)
    }

    // Puts a call behind the others of a lane.
    fn push(&mut self, alloc: Global, lane: u32, call: AnsweredCall) -> Result<(), AllocError>
        ensures { OnOk result ((other : ℕ) → calls_on self.new other ≡ calls_on self.old other ++ put_on lane call other) }
    {
        if let Some(calls) = self.calls.get_mut(&lane) {
            calls.push(call)?;
            return Ok(());
        }
        let mut calls = Vec::new(alloc);
        calls.push(call)?;
        self.calls.insert(lane, calls)?;
        Ok(())
    }

    /// Those of a lane.
    pub(crate) fn on(&self, lane: u32) -> &[AnsweredCall]
        ensures { result.now ≡ calls_on self.now lane }
    {
        match self.calls.get(&lane) {
            Some(calls) => calls.as_slice(),
            None => &[],
        }
    }
}
