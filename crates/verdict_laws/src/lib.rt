//! What an accepted plan comes to, in words above the definitions. No code runs: each law is the contract of a function that does
//! nothing.
#![tactic(auto)]

mod crashes;
mod example;
mod first;
mod strict;
mod without;

pub use crashes::{
    lost_writes_show_different_verifiers, stable_places_are_kept, what_was_kept_is_read,
};
pub use example::the_premises_are_met;
pub use first::what_stood_at_first_is_kept;
pub use strict::strict_attributes_are_true;
pub use without::without_a_crash_the_order_is_linear;
