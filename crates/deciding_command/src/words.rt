//! The words that ask for a decision.

use crate::within_time::Effort;
use clap::ArgMatches;

/// Which history is decided, and how much that may cost.
#[derive(Clone, Copy)]
pub struct DecideRequest<'a> {
    /// The path of the history.
    pub history: &'a str,
    /// The path that the certificate of a yes is written to, if one is wanted.
    pub certificate: Option<&'a str>,
    /// What it may cost: from 1 to 1,000,000 states, and as many seconds.
    pub effort: Effort,
    /// How often it goes on behind a no, without the calls that were named: at most 1,000 times.
    pub go_on: u32,
    /// The folder for the events that some order explains, where it isn't decided, if they are wanted.
    pub front: Option<&'a str>,
}

/// The bounds where the words don't say.
const STATES: u32 = 10_000;

const SECONDS: u32 = 60;

/// What a decision may cost, by these two options. It doesn't say how far it is.
pub fn effort_of(words: &ArgMatches<'_>) -> Effort {
    Effort {
        states: words.get_one("states").unwrap_or(STATES),
        seconds: words.get_one("seconds").unwrap_or(SECONDS),
        is_told: false,
    }
}

/// What the words behind `decide` ask for.
pub fn decide_request<'a>(decide: &ArgMatches<'a>) -> DecideRequest<'a> {
    DecideRequest {
        // The parser asks for it.
        history: decide.get_str("HISTORY").unwrap_or(""),
        certificate: decide.get_str("certificate"),
        effort: effort_of(decide),
        go_on: decide.get_one("go-on").unwrap_or(0),
        front: decide.get_str("front"),
    }
}
