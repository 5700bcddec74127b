//! How far a decision came that says nothing: hints, of which no theorem speaks.

use decide::{Undecided, open_calls};
use nfs_history::{HistoryFault, read_history};
use std::alloc::{AllocError, Global};

/// How many orders were left after an event: those of them that are alike in all that may come count as one.
#[derive(Clone, Copy)]
pub struct Orders {
    /// The event, from 1; 0 before the first.
    pub event: u64,
    /// How many.
    pub states: u64,
}

/// How far a walk came.
#[derive(Clone, Copy)]
pub struct Reached {
    /// The last event up to which an order of the calls explains all, from 1; 0 where none does.
    pub event: u64,
    /// The most orders that were left at once.
    pub most: Orders,
    /// The fewest, the last time that there were so few.
    pub fewest: Orders,
}

impl Reached {
    /// Before the first event.
    pub(crate) fn none() -> Reached {
        let one = Orders {
            event: 0,
            states: 1,
        };
        Reached {
            event: 0,
            most: one,
            fewest: one,
        }
    }

    /// After an event, from 1, that left so many.
    pub(crate) fn with(self, event: u64, states: u64) -> Reached {
        let here = Orders { event, states };
        let (mut most, mut fewest) = (self.most, self.fewest);
        if states > most.states {
            most = here;
        }
        if states <= fewest.states {
            fewest = here;
        }
        Reached {
            event,
            most,
            fewest,
        }
    }

    /// This one, or the other where that came further.
    pub(crate) fn or_further(self, other: Reached) -> Reached {
        if self.event < other.event {
            other
        } else {
            self
        }
    }
}

/// Why nothing is decided, and how far it came.
#[derive(Clone, Copy, Drop)]
pub struct Unsettled {
    /// Why.
    pub reason: Undecided,
    /// How far it came.
    pub reached: Reached,
}

/// Puts the numbers of calls there, with a comma between two.
fn put_numbers(text: &mut String, alloc: Global, calls: &[u64]) -> Result<(), AllocError> {
    for (index, call) in calls.iter().enumerate() {
        let word = if index == 0 {
            format!(in alloc; " {call}")?
        } else {
            format!(in alloc; ", {call}")?
        };
        text.push_str(word.as_str())?;
    }
    Ok(())
}

/// The line of the calls that are open after an event; none of bytes that are no history.
fn open_line(alloc: Global, history: &[u8], event: u64) -> Result<String, AllocError> {
    let known = match read_history(alloc, history) {
        Ok(known) => known,
        Err(HistoryFault::NoMemory) => return Err(AllocError),
        Err(_) => return Ok(String::new(alloc)),
    };
    let open = open_calls(alloc, &known, event.saturating_add(1))?;
    let mut line = String::from_str(alloc, "hint: calls open there:")?;
    if open.is_empty() {
        line.push_str(" none")?;
    }
    put_numbers(&mut line, alloc, open.as_slice())?;
    line.push_str("\n")?;
    Ok(line)
}

/// Lines of hints: how far some order of the calls in the bytes of a history's file explains it, which calls are open there, and where the fewest and the most
/// orders were left.
pub fn reached_text(alloc: Global, history: &[u8], reached: Reached) -> Result<String, AllocError> {
    let Reached {
        event,
        most,
        fewest,
    } = reached;
    let mut text = format!(in alloc;
        "hint: some order of the calls explains events 1 to {event}\n"
    )?;
    text.push_str(open_line(alloc, history, event)?.as_str())?;
    let (few, at_few) = (fewest.states, fewest.event);
    let (many, at_many) = (most.states, most.event);
    let counts = format!(in alloc;
        "hint: orders left: {few} after event {at_few}, the fewest; {many} after event {at_many}, the most\n"
    )?;
    text.push_str(counts.as_str())?;
    Ok(text)
}
