//! What is known of a history before a certificate of it is searched: what its calls can do, and where its eras begin and end.
#![tactic(auto)]

mod found;
mod moves;
mod problem;
mod survey;

pub use found::{FoundCall, find, full_count};
pub use moves::Move;
pub use problem::Problem;
pub use survey::{EraSpan, Nature};
