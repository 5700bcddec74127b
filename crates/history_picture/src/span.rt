//! Which events are drawn.

use crate::parts::PICTURE_EVENTS;

/// The events that are drawn: the first of those that were asked for.
#[derive(Clone, Copy)]
pub struct Span {
    /// The number of the first.
    pub first: u64,
    /// The number of the last.
    pub last: u64,
}

impl Span {
    /// Those of the events from one to another.
    pub fn of(first: u64, last: u64) -> Span {
        let most = first.saturating_add(PICTURE_EVENTS - 1);
        Span {
            first,
            last: last.min(most),
        }
    }

    /// How many they are.
    pub fn count(self) -> u64 {
        if self.last < self.first {
            return 0;
        }
        (self.last - self.first).saturating_add(1)
    }

    /// Which of them an event is, counted from 0.
    pub fn index_of(self, event: u64) -> Option<usize> {
        if event < self.first || self.last < event {
            return None;
        }
        Some((event - self.first) as usize)
    }

    /// Whether an event is among them.
    pub fn has(self, event: u64) -> bool {
        self.index_of(event).is_some()
    }
}
