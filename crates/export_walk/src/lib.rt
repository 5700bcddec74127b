//! The walk of an export over TCP: it reads the tree that is there, and keeps the messages by which the server gave the handles.
#![tactic(auto)]

mod asking;
mod end;
mod hearing;
mod noting;
mod walking;
mod words;

pub use end::WalkEnd;
pub use noting::NotedExchange;
pub use walking::{WalkedExport, walk_export};
