//! The attributes that a reply of NFS version 3 carries (RFC 1813, section 3.3), by whose they are.
#![tactic(auto)]

mod carried;
mod role;

pub use carried::{entries_of, post_attr, pre_size, type_and_size};
pub use role::Role;
