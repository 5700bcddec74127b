//! Runs of the bundled server that can be repeated: clients on threads, crashes, and failing devices, as a plan's text says.
#![tactic(auto)]

mod client;
mod end;
mod run;

pub use end::RunEnd;
pub use journal_server;
pub use plan_text::{Plan, PlanFault, read_plan};
pub use run::{run_plan, run_plan_from};
