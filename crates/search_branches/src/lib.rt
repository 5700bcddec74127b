//! The branches of a search for a certificate: prefixes of a serial order, each with its tree, and the moves that may follow.
#![tactic(auto)]

mod branch_facts;
mod digest;
mod giving;
mod moves;
mod state;
mod trial;
mod whole;

pub use state::State;
