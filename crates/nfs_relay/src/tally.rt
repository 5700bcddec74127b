//! How much a log holds.

ghost use Rattle.std.specs.Prelude.{◌≡◌, ◌+◌, ◌≤◌, length, drop};
ghost use Rattle.nfs_relay.specs.Counting.{calls_of, is_call};

use nfs_history::Event;
use std::fmt;

/// Whether an event is a call.
fn is_call(event: &Event) -> bool
    ensures { result ≡ is_call event.now }
{
    matches!(event, Event::Call { .. })
}

/// The number of calls among events.
#[tactic(auto, using(crate::proofs::Counts::within))]
pub fn calls_in(events: &[Event]) -> usize
    ensures calls { result ≡ calls_of events.now }
    ensures bound { result ≤ length events.now }
{
    events.iter().filter(|event| is_call(event)).count()
}

/// The bytes of an event's message.
fn message_size(event: &Event) -> usize {
    match event {
        Event::Call { message, .. } => message.as_slice().len(),
        Event::Reply { message, .. } => message.as_slice().len(),
        Event::Close { .. } => 0,
        Event::Crash => 0,
    }
}

/// The bytes of the messages of events, up to the greatest number.
fn bytes_in(events: &[Event]) -> usize {
    let mut bytes = 0usize;
    for event in events {
        bytes = bytes.saturating_add(message_size(event));
    }
    bytes
}

/// What was counted of a log's events so far.
#[derive(Clone, Copy)]
pub(crate) struct Tally {
    events: usize,
    calls: usize,
    bytes: usize,
    ghost counted: { calls ≤ events },
}

impl Tally {
    pub(crate) fn new() -> Tally
        ensures { (result.events ≡ 0) × (result.calls ≡ 0) × (result.bytes ≡ 0) }
    {
        Tally {
            events: 0,
            calls: 0,
            bytes: 0,
        }
    }

    /// Counts the events behind those that were counted.
    pub(crate) fn follow(&mut self, events: &[Event])
        ensures events { self.new.events ≡ length events.now }
        ensures calls { self.old.events ≤ length events.now
            → self.new.calls ≡ self.old.calls + calls_of (drop self.old.events events.now) }
    {
        if self.events > events.len() {
            *self = Tally::new();
        }
        let behind = &events[self.events..];
        *self = Tally {
            events: events.len(),
            calls: self.calls + calls_in(behind),
            bytes: self.bytes.saturating_add(bytes_in(behind)),
        };
    }
}

/// How far a recording is.
#[derive(Clone, Copy)]
pub(crate) struct Progress {
    /// How many connections are open.
    pub(crate) present: u32,
    pub(crate) tally: Tally,
}

impl fmt::Display for Progress {
    ghost use Rattle.std.specs.Prelude.{Some};
    ghost use Rattle.nfs_relay.specs.Words.{progress_words};

    ghost output = { λ p. Some (progress_words p.present p.tally.calls p.tally.bytes) };

    fn fmt<W: fmt::Write>(&self, f: &mut fmt::Formatter<W>) -> fmt::Result {
        let present = self.present;
        let calls = self.tally.calls;
        let bytes = self.tally.bytes;
        write!(f, "connections {present}, calls {calls}, bytes {bytes}")
    }
}
