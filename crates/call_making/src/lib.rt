//! The calls that the clients of a night may ask, and the bytes by which a WRITE tells its call.
#![tactic(auto)]

mod bases;
mod labels;
mod making;
mod making_names;
mod stamp;
mod wish;

pub use bases::{BASES, Base, Realm};
pub use labels::{LABELS, Label, is_name, is_own};
pub use making::Maker;
pub use making_names::{attributes, file_attributes};
pub use stamp::{Stamp, whose};
pub use wish::{Called, Listing, Place, Range, Wish};
