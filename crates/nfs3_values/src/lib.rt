//! The values that stand in the messages of NFS version 3 (RFC 1813, section 3.3) as bytes: how each is read, with the first
//! item at fault where it is none, and written in one spelling.
#![tactic(auto)]

mod attributes;
mod bytes;
mod calls;
mod entries;
mod fault;
mod replies;
mod value;

pub use fault::{Kind, MessageFault};
pub use value::{XdrValue, fault_at};
