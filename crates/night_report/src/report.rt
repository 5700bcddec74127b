//! What is told of a night.

use failure_causes::CauseCounts;
use night_lanes::{Counts, Troubles};
use serde::Serialize;

/// What was asked for.
#[derive(Clone, Copy, Serialize)]
pub struct Request<'a> {
    pub seed: u64,
    pub clients: u64,
    /// How many calls each client makes in an era at most.
    pub calls: u64,
    /// How many calls a client has on its way at most.
    pub depth: u64,
    /// The word of the mix of calls.
    pub mix: &'a str,
    pub uid: u32,
    pub gid: u32,
    /// How many crashes were waited for.
    pub rounds: u64,
    /// The word of the profile that the history is judged under.
    pub profile: &'a str,
}

/// The history in numbers.
#[derive(Clone, Copy, Serialize)]
pub struct Numbers {
    /// The objects that the export held at first.
    pub start_objects: u64,
    pub eras: u64,
    pub calls: u64,
    pub replies: u64,
    /// The calls of a judged procedure that were answered.
    pub judged_and_answered: u64,
    /// Everything that hindered the calls.
    pub troubles: u64,
}

/// The answer to one question about a night.
#[derive(Clone, Copy, PartialEq, Eq)]
pub enum Finding<'a> {
    Yes,
    /// No, and why, in one line.
    No(&'a str),
    /// It isn't known, and why, in one line.
    Unknown(&'a str),
}

/// What became of a night.
#[derive(Clone, Copy)]
pub struct NightReport<'a> {
    /// The folder that holds the history and the reports, as it was named.
    pub folder: &'a str,
    pub request: Request<'a>,
    pub numbers: Numbers,
    pub counts: &'a Counts,
    /// How often each cause made a call fail, by the order that explains the history; nothing where none was found.
    pub causes: Option<CauseCounts>,
    pub troubles: &'a Troubles,
    /// The exit status.
    pub status: u8,
    /// The last line.
    pub line: &'a str,
    /// Why it isn't a yes, one line each.
    pub reasons: &'a [String],
    /// Whether the server was in health.
    pub health: Finding<'a>,
    /// Whether some order explains the history.
    pub order: Finding<'a>,
    /// Whether enough calls were answered.
    pub enough: Finding<'a>,
}
