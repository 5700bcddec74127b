//! Whether a certificate is a witness of a history: its shape, its order, its run from the opening tree over crashes, what its cuts
//! keep, and what write verifiers show.
#![tactic(auto)]

mod ahead;
mod fault;
mod laws;
mod run;
mod verdict;

pub use fault::{Fault, Stop};
pub use laws::{a_plan_has_one_verdict, two_files_have_one_verdict};
pub use replay_law::{EraRun, RunFault, run_eras};
pub use verdict::{FileVerdict, Judgement, Verdict, check, check_calls, check_files, judge_calls};
