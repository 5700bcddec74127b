//! Calls that have a recording refused, reported while it goes on; one of them may end it.

use history_file::Event;
use history_prefix::{Front, RefusedCall, wanted};
use nfs_relay::{Relay, RelayRuntime};
use std::alloc::{AllocError, Global};
use std::sync::Mutex;
use std::thread;
use std::time::Duration;

/// How many milliseconds are between two looks at the log.
const PAUSE: u64 = 20;

/// How many events are looked at while the log is locked.
const PIECE: usize = 64;

/// How many calls are reported with their words.
const REPORTED: u64 = 10;

/// Reports a call that has the recording refused.
fn tell_call<R: RelayRuntime>(rt: &R, refused: &RefusedCall) {
    let RefusedCall { call, event, fault } = *refused;
    let wanted = wanted(fault);
    let _ = eprintln!(rt;
        "nfsbench: call {call}, sent by event {event}, has the history refused: {fault}; wanted: {wanted}"
    );
}

/// What was looked at so far.
#[derive(Drop)]
struct Known {
    front: Front,
    /// How many calls are refused.
    refused: u64,
    /// Whether memory ran out, so that nothing more is looked at.
    is_blind: bool,
}

impl Known {
    /// Reports a call, if not too many were.
    fn tell<R: RelayRuntime>(&mut self, rt: &R, refused: &RefusedCall) {
        self.refused = self.refused.saturating_add(1);
        if self.refused <= REPORTED {
            tell_call(rt, refused);
        }
    }

    /// How many events a history has that ends before the first refused call was sent; none where no call is refused, or none is known.
    fn kept(&self) -> Option<u64> {
        if self.refused == 0 {
            None
        } else {
            Some(self.front.kept())
        }
    }

    /// Takes some events more, and reports the calls that are refused. Whether there were any.
    fn take<R: RelayRuntime>(&mut self, rt: &R, relay: &Relay) -> Result<bool, AllocError> {
        let log = relay.log().lock(rt);
        let seen = self.front.events() as usize;
        let rest = log.events().get(seen..).unwrap_or(&[]);
        for event in rest.iter().take(PIECE) {
            if let Some(refused) = self.front.take(&event.as_seen())? {
                self.tell(rt, &refused);
            }
        }
        Ok(!rest.is_empty())
    }

    /// Looks at nothing more, since memory ran out.
    fn go_blind<R: RelayRuntime>(&mut self, rt: &R) {
        self.is_blind = true;
        let _ = eprintln!(rt;
            "nfsbench: calls that have the history refused aren't reported any more: out of memory"
        );
    }

    /// Takes all that was noted since.
    fn catch_up<R: RelayRuntime>(&mut self, rt: &R, relay: &Relay) {
        for _ in rt.forever() {
            if self.is_blind {
                return;
            }
            match self.take(rt, relay) {
                Ok(is_more) => {
                    if !is_more {
                        return;
                    }
                }
                Err(AllocError) => self.go_blind(rt),
            }
        }
    }
}

/// The calls that have a recording refused.
#[derive(Drop)]
pub(crate) struct Refusals {
    /// Whether the first of them ends the recording.
    is_end: bool,
    known: Mutex<Known>,
}

impl Refusals {
    /// None are known yet.
    pub(crate) fn new(alloc: Global, is_end: bool) -> Refusals {
        Refusals {
            is_end,
            known: Mutex::new(Known {
                front: Front::new(alloc),
                refused: 0,
                is_blind: false,
            }),
        }
    }

    /// Reports what was noted since. Whether the recording is to end.
    fn look<R: RelayRuntime>(&self, rt: &R, relay: &Relay) -> bool {
        let mut known = self.known.lock(rt);
        known.catch_up(rt, relay);
        self.is_end && known.refused > 0
    }

    /// Reports the calls as they come until the relay has ended, and ends it where the first is to.
    pub(crate) fn follow<R: RelayRuntime>(&self, rt: &R, relay: &Relay) {
        for _ in rt.forever() {
            if relay.has_ended(rt) {
                return;
            }
            if self.look(rt, relay) {
                relay.finish(rt);
                return;
            }
            thread::sleep(rt, Duration::from_millis(PAUSE));
        }
    }

    /// Reports what is left when the relay has ended: the calls that are open, and how many weren't reported.
    pub(crate) fn finish<R: RelayRuntime>(&self, rt: &R, relay: &Relay) {
        let mut known = self.known.lock(rt);
        known.catch_up(rt, relay);
        let events = known.front.events();
        for _call in 0..events {
            let Some(refused) = known.front.end() else {
                break;
            };
            known.tell(rt, &refused);
        }
        let refused = known.refused;
        let more = refused.saturating_sub(REPORTED);
        if more > 0 {
            let _ = eprintln!(rt; "nfsbench: {more} calls more have the history refused");
        }
        if refused > 0 && !self.is_end {
            let _ = eprintln!(rt;
                "nfsbench: leave such calls out of what clients do, or record with --stop-at-outside; prefix keeps what came before"
            );
        }
        if refused > 0 && self.is_end {
            let _ = eprintln!(rt;
                "the recording ended: what came from the first such call on isn't kept"
            );
        }
    }

    /// What is kept of these events: all, or, where such a call is to end the recording, those of a history that ends before it was sent.
    pub(crate) fn kept<'e, R: RelayRuntime>(&self, rt: &R, events: &'e [Event]) -> &'e [Event] {
        if !self.is_end {
            return events;
        }
        let kept = self.known.lock(rt).kept();
        match kept {
            Some(count) => events.get(..count as usize).unwrap_or(events),
            None => events,
        }
    }
}
