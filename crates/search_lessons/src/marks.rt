//! What a sweep notes of its eras.

use crate::lessons::{Lesson, Step};
use std::alloc::{AllocError, Global};
use std::collections::BTreeMap;

/// A call that no crash takes.
#[derive(Clone, Copy)]
pub struct Kept {
    /// The call's number, counted from 1.
    pub number: u64,
    /// The event at which it began.
    pub begin: u64,
    /// Whether it is a WRITE that a COMMIT kept.
    pub is_committed: bool,
}

/// What a sweep notes of its eras, counted from 0.
#[derive(Drop)]
pub struct Marks {
    /// For each era the first of its places that are known to be lost.
    lost_from: Vec<u64>,
    /// For each era that ended the last event at which a call began that no crash takes.
    stable_begin: Vec<u64>,
    /// WRITEs that a COMMIT kept.
    pub(crate) committed: BTreeMap<u64, ()>,
}

impl Marks {
    /// Of so many eras.
    pub fn new(alloc: Global, eras: usize) -> Result<Marks, AllocError> {
        Ok(Marks {
            lost_from: vec![in alloc; u64::MAX; eras]?,
            stable_begin: vec![in alloc; 0; eras]?,
            committed: BTreeMap::new(alloc),
        })
    }

    /// The WRITEs that a COMMIT kept.
    pub fn into_committed(self) -> BTreeMap<u64, ()> {
        let Marks {
            lost_from,
            stable_begin,
            committed,
        } = self;
        drop(lost_from);
        drop(stable_begin);
        committed
    }

    /// The first place of an era that is known to be lost, or the greatest number.
    pub(crate) fn lost_from(&self, era: usize) -> u64 {
        self.lost_from.get(era).copied().unwrap_or(u64::MAX)
    }

    /// Notes the places that lessons say are lost.
    pub fn lose(&mut self, steps: &[Step]) {
        for step in steps {
            if let Lesson::Lost(_, _) = step.lesson {
                if let Some(first) = self.lost_from.get_mut(step.era) {
                    *first = (*first).min(step.place);
                }
            }
        }
    }

    /// The last event of an era that ended at which a call began that no crash takes.
    pub(crate) fn stable_begin(&self, era: usize) -> u64 {
        self.stable_begin.get(era).copied().unwrap_or(0)
    }

    /// Notes calls of an era that no crash takes.
    pub fn keep(&mut self, era: usize, calls: &[Kept]) -> Result<(), AllocError> {
        for kept in calls {
            if let Some(last) = self.stable_begin.get_mut(era) {
                *last = (*last).max(kept.begin);
            }
            if kept.is_committed {
                self.committed.insert(kept.number, ())?;
            }
        }
        Ok(())
    }
}
