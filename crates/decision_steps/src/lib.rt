//! Placing calls in the states of a walk: in a tree, with the handles that are bound so far.
#![tactic(auto)]

mod asked;
mod binding;
mod difference;
mod fault;
mod given;
mod law;
mod state;

pub use asked::{is_failure, knows_handles};
pub use fault::PlaceFault;
pub use law::a_state_stands_for_its_plans;
pub use state::State;
