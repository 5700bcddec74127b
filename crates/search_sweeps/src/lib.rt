//! A serial order of a history that is made in sweeps: a sweep goes on past a call that it can't place, learns from it, and the next
//! sweep does better. Nothing rests on it: what is found is judged.
#![tactic(auto)]

mod beside;
mod era_end;
mod listing;
mod makers;
mod naming;
mod notes;
mod plan;
mod stuck;
mod sweep;
mod watch;

pub use plan::plan_of;
pub use watch::SweepWatch;
