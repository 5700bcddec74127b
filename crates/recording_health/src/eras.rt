//! The eras of a recording, and how long a server showed life in each.

use crate::seconds::seconds_between;
use history_file::Event;
use indexmap::IndexMap;
use nfs_relay::transaction;
use std::alloc::{AllocError, Global};

/// Within how many seconds a crash is to be told of.
const TELLING_SECS: usize = 10;

/// What is known of the eras of a recording. Events are counted from 0 here.
#[derive(Drop)]
pub(crate) struct Eras {
    /// The crash that ended each era, but for the last one.
    crashes: Vec<usize>,
    /// Of each era the last call that got a reply.
    lives: Vec<usize>,
}

impl Eras {
    /// The eras of these events.
    pub(crate) fn of(alloc: Global, events: &[Event]) -> Result<Eras, AllocError> {
        let mut open: IndexMap<(u32, u32), usize> = IndexMap::new(alloc);
        let mut eras = Eras {
            crashes: Vec::new(alloc),
            lives: Vec::new(alloc),
        };
        let mut life = 0usize;
        for (index, event) in events.iter().enumerate() {
            match event {
                Event::Call { lane, message } => {
                    open.insert((*lane, transaction(message.as_slice())), index)?;
                }
                Event::Reply { lane, message } => {
                    let call = open.swap_remove(&(*lane, transaction(message.as_slice())));
                    life = life.max(call.unwrap_or(0));
                }
                Event::Close { .. } => {}
                Event::Crash => {
                    eras.crashes.push(index)?;
                    eras.lives.push(life)?;
                    life = 0;
                }
            }
        }
        eras.lives.push(life)?;
        Ok(eras)
    }

    /// Whether what came about before this many events was the crash that ended its era: no call that came later got a reply before it, and
    /// it was told within ten seconds. `moments` has how many events there were at each second.
    pub(crate) fn is_of_crash(&self, moments: &[usize], events: usize) -> bool {
        let era = self.crashes.partition_point(|crash| *crash < events);
        match (self.crashes.get(era), self.lives.get(era)) {
            (Some(crash), Some(life)) => {
                *life < events && seconds_between(moments, events, *crash) < TELLING_SECS
            }
            _ => false,
        }
    }
}
