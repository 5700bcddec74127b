//! What a picture shows, as data.

/// How many events a picture has at most.
pub const PICTURE_EVENTS: u64 = 2_000;

/// Why a call is marked.
#[derive(Clone, Copy, PartialEq, Eq)]
pub enum Mark {
    /// It isn't.
    Plain,
    /// It is asked for.
    Asked,
    /// It is at fault.
    AtFault,
    /// It explains the fault.
    Explains,
}

/// A call.
#[derive(Drop)]
pub struct Bar {
    /// The number of the call.
    pub number: u64,
    /// Its lane.
    pub lane: u32,
    /// The number of the event of the call.
    pub first: u64,
    /// The number of the event of the reply, if one came.
    pub last: Option<u64>,
    /// The procedure.
    pub procedure: &'static str,
    /// The name that it asks for, as it was sent, or words for the handle.
    pub name: Vec<u8>,
    /// What the reply says first; empty if none came.
    pub reply: &'static str,
    /// What the call says.
    pub asked: Vec<u8>,
    /// What the reply says; empty if none came.
    pub answered: Vec<u8>,
    /// Its place in the order of the certificate, if it has one.
    pub place: Option<u64>,
    /// Whether a crash took it away.
    pub is_lost: bool,
    /// What it has to do with the fault.
    pub mark: Mark,
}

/// Calls of a history, by lanes and events.
#[derive(Drop)]
pub struct Picture {
    /// What the picture is of.
    pub caption: Vec<u8>,
    /// The first event that is asked for.
    pub first: u64,
    /// The last event that is asked for. Of all of them the first `PICTURE_EVENTS` are drawn.
    pub last: u64,
    /// How many events the history has.
    pub events: u64,
    /// How many calls aren't drawn which began before the first event, and weren't over up to the last, by a reply or a crash.
    pub left_out: u64,
    /// The lanes from top to bottom, in rising order.
    pub lanes: Vec<u32>,
    /// The calls, in the order in which they began.
    pub bars: Vec<Bar>,
    /// The events at which the server went down.
    pub crashes: Vec<u64>,
}
