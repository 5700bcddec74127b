//! A client of the MOUNT service of version 3 (RFC 1813, section 5): it asks for the root of an export, and takes its leave.
#![tactic(auto)]

mod asking;
mod fault;
mod flavors;
mod hearing;
mod mounting;
mod results;
mod status;
mod words;

pub use fault::MountFault;
pub use hearing::root_in;
pub use mounting::{mount, unmount};
pub use status::MountStatus;
