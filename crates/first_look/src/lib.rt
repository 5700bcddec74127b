//! A first look at a history, at what no order of its calls changes: two write verifiers in one era, handles that no reply gave, and a
//! root handle that no call uses.
#![tactic(auto)]

mod handles;
mod looking;
mod verifiers;

pub use looking::{FirstLook, look};
pub use verifiers::TwoVerifiers;
