//! The text of a plan: what clients ask of a journal server, on which lanes, when it crashes, and how many records
//! outlive each crash at most, beside those on stable storage. `specs/PlanText.antt` says how it is written.
#![tactic(auto)]

mod line;
mod operation;
mod plan;
mod reading;
mod words;

pub use plan::{LaneStep, Operation, Plan, PlanName, Step};
pub use reading::{PlanFault, read_plan};
