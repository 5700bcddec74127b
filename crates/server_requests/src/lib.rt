//! What a journal server does with a message: which calls it records in its history, what it answers to the others, and what it
//! answers to a client that mounts it, which no history has.
#![tactic(auto)]

mod mounting;
mod plain;
mod request;

pub use mounting::mount_reply;
pub use request::{Request, read_request};
