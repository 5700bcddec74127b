//! The command `show`: a line for each event of a history, and the verdict where a certificate is given.
#![tactic(auto)]

mod looking;
mod marks;
mod names;
mod seen_calls;
mod showing;
mod shown_lines;
mod touched;
mod words;

pub use judging_commands;
pub use looking::{LookFault, look_of};
pub use showing::{show_bytes, show_judged};
pub use words::{ShowRequest, show_request};
