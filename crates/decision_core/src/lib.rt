//! The core of a walk that decides whether a history has a witness: over any machine, with a bound on states and a watch.
#![tactic(auto)]

mod deciding;
mod eras;
mod extending;
mod machine;
mod register;
mod spans;
mod states;

pub use deciding::{Event, Walked, decide};
pub use eras::some_plan_of_eras_is_a_witness;
pub use machine::{Machine, Stop, Watch};
pub use register::{Register, RegisterMachine};
pub use spans::{Span, timeline};
