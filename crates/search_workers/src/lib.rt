//! What a search for a certificate is done by: workers over branches, each in a thread, and sweeps over the history. A plan that they
//! come to has to be judged by who calls them.
#![tactic(auto)]

mod board;
mod gate;
mod running;
mod telling;
mod watch;
mod ways;
mod worker;

pub use gate::{OpenSearch, Progress, SearchGate};
pub use running::{Lack, SearchRuntime, run_workers, sweep_over_calls};
