//! Connections of a journal server: each reads the records of a stream, has the server answer them, and writes the replies.
#![tactic(auto)]

mod end;
mod export;
mod intake;
mod laws;
mod room;
mod sending;
mod serving;

pub use end::StreamEnd;
pub use export::Export;
pub use laws::no_mounted_call_is_recorded;
pub use room::Room;
pub use serving::{Allowance, serve_export, serve_stream};
