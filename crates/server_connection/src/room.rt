//! What a history's file has room for.

use history_file::{EVENT_LIMIT, HISTORY_LIMIT};
use std::sync::atomic::{AtomicU64, Ordering};
use xdr_records::RECORD_LIMIT;

/// How many connections may end behind the calls, each of which takes an event.
const MOST_CLOSES: u64 = 64;

/// The bytes that an event takes in a history's file beside those of its message, at most.
const BESIDE: u64 = 16;

/// What a history's file has room for. Connections that are served side by side share it.
#[derive(Drop)]
pub struct Room {
    most_calls: u64,
    most_bytes: u64,
    /// How many calls were taken, and how many bytes they and their replies take at most.
    calls: AtomicU64,
    bytes: AtomicU64,
}

/// How many bytes an event takes whose message has so many.
fn event_bytes(message: usize) -> u64 {
    (message as u64).saturating_add(BESIDE)
}

/// Sets so much aside, unless there is too little.
fn take(used: &AtomicU64, count: u64, most: u64) -> bool {
    let before = used.fetch_add(count, Ordering::SeqCst);
    if before.saturating_add(count) <= most {
        return true;
    }
    used.fetch_sub(count, Ordering::SeqCst);
    false
}

impl Room {
    fn new(most_calls: u64, most_bytes: u64) -> Room {
        Room {
            most_calls,
            most_bytes,
            calls: AtomicU64::new(0),
            bytes: AtomicU64::new(0),
        }
    }

    /// That of a history's file of 1,000,000 events and 268,435,456 bytes, of which the head and 64 closes take so many.
    pub fn of_history(head: usize) -> Room {
        let calls = (EVENT_LIMIT as u64).saturating_sub(MOST_CLOSES) / 2;
        let bytes = (HISTORY_LIMIT as u64).saturating_sub(head as u64);
        Room::new(
            calls,
            bytes.saturating_sub(MOST_CLOSES.saturating_mul(BESIDE)),
        )
    }

    /// Room for whatever comes.
    pub fn endless() -> Room {
        Room::new(u64::MAX, u64::MAX)
    }

    /// Sets aside what a call of so many bytes takes, and the longest reply. Whether there is room for both.
    pub(crate) fn take(&self, call: usize) -> bool {
        let bytes = event_bytes(call).saturating_add(event_bytes(RECORD_LIMIT));
        if !take(&self.calls, 1, self.most_calls) {
            return false;
        }
        if take(&self.bytes, bytes, self.most_bytes) {
            return true;
        }
        self.calls.fetch_sub(1, Ordering::SeqCst);
        false
    }

    /// Gives back what a reply of so many bytes leaves of what was set aside.
    pub(crate) fn give_back(&self, reply: usize) {
        let rest = event_bytes(RECORD_LIMIT).saturating_sub(event_bytes(reply));
        self.bytes.fetch_sub(rest, Ordering::SeqCst);
    }

    /// Gives back all that was set aside for a call of so many bytes that isn't recorded.
    pub(crate) fn give_all_back(&self, call: usize) {
        let bytes = event_bytes(call).saturating_add(event_bytes(RECORD_LIMIT));
        self.bytes.fetch_sub(bytes, Ordering::SeqCst);
        self.calls.fetch_sub(1, Ordering::SeqCst);
    }
}
