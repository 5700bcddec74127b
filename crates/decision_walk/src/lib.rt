//! The machine of a walk that decides whether a history has a witness: its states are trees with the handles that are bound.
#![tactic(auto)]

mod attempt;
mod bars;
mod call_lists;
mod children;
mod counting;
mod deeds;
mod eras;
mod guessing;
mod handles;
mod kept_tree;
mod machine;
mod mattering;
mod open_writes;
mod same;
mod settling;
mod stepping;
mod touching;
mod unbound;
mod walk_state;
mod why;

pub use decision_law;
pub use deeds::Deed;
pub use machine::HistoryMachine;
pub use walk_state::WalkState;
pub use why::Why;
