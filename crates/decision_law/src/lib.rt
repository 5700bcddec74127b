//! Why a walk that comes to nothing shows that a history has no witness. No code runs: each law is the contract of a function that
//! does nothing.
#![tactic(auto)]

mod laws;

pub use laws::{
    a_witness_is_one_order, calls_are_timed, no_order_no_witness, spans_tell_the_times,
    two_verifiers_no_witness,
};
