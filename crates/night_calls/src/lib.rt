//! The calls of a night's clients: each client draws them by itself, from a seed and from the replies that it was given. Nothing is
//! sent and nothing waits here; a command sends what `Client::next` gives, and hands the reply to `Client::learn`.
#![tactic(auto)]

mod client;
mod drawing;
mod drawing_files;
mod drawing_names;
mod mix;

pub use call_making::{Stamp, whose};
pub use client::Client;
pub use mix::Mix;
