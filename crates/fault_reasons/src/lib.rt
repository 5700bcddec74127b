//! Why a certificate is no witness of a history, as a value: what is wrong, where, and what would have been right there.
#![tactic(auto)]

mod asking;
mod candidates;
mod changes;
mod explaining;
mod failing;
mod lists;
mod looks;
mod placed;
mod reason;
mod running;
mod telling;

pub use explaining::explain;
pub use placed::{Placed, placed_at};
pub use reason::{CallSpan, IllegalPlace, LostPlace, Reason};
pub use running::tree_after;
