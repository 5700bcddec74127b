//! Which causes made calls fail: for each failure of a history that a certificate explains, the causes that hold where the call is placed.
#![tactic(auto)]

mod counting;
mod names;
mod placed;
mod running;

pub use counting::CauseCounts;
pub use names::cause_name;
pub use running::count_causes;
