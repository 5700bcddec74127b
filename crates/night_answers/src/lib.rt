//! Whether a server did what it was asked: the answers of a history by procedure, and how many of them did nothing.
#![tactic(auto)]

mod answers;
mod idle;

pub use answers::{Idleness, ProcedureAnswers, idleness_of, is_idle};
