//! How far sweeps are, told once a second.

use crate::gate::{Progress, SearchGate};
use crate::watch::Watch;
use search_sweeps::SweepWatch;
use std::time::Clock;

/// Tells a gate how far sweeps are.
#[derive(Drop)]
pub(crate) struct PassTeller<'t, R, G> {
    rt: &'t R,
    gate: &'t G,
    watch: Watch,
    /// How many calls the history has.
    calls: usize,
}

impl<'t, R: Clock, G: SearchGate> PassTeller<'t, R, G> {
    /// From now on.
    pub(crate) fn new(rt: &'t R, gate: &'t G, calls: usize) -> PassTeller<'t, R, G> {
        PassTeller {
            rt,
            gate,
            watch: Watch::new(rt),
            calls,
        }
    }
}

impl<'t, R: Clock, G: SearchGate> SweepWatch for PassTeller<'t, R, G> {
    fn at(&mut self, depth: usize) {
        if self.watch.is_due(self.rt) {
            self.gate.tell(Progress {
                turns: 0,
                depth,
                calls: self.calls,
                states: 0,
            });
        }
    }

    fn is_over(&self) -> bool {
        self.gate.is_over()
    }
}
