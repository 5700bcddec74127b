//! The command `nfsbench test`: a night of a server, from its words to its last line.
#![tactic(auto)]

mod aside;
mod files;
mod folder;
mod growing;
mod opening;
mod refusal;
mod running;
mod summing;
mod test;
mod why;
mod words;

pub use explaining_command;
pub use test::run_test;
pub use words::{TestRequest, test_request};
