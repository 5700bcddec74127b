//! The commands that run the bundled server: what a plan says, or whoever connects, to a history with its certificate in two files.
#![tactic(auto)]

mod beginning;
mod fault;
mod lanes;
mod outputs;
mod part;
mod recorded;
mod running;
mod serving;
mod words;

pub use beginning::Beginning;
pub use fault::{RunFault, fault_report};
pub use recorded::{Counts, RunTexts};
pub use running::{run, run_text};
pub use server_connection;
pub use serving::serve;
pub use words::{RunRequest, ServeRequest, run_request, serve_request};
