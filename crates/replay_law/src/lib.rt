//! State machines whose steps can be judged one by one and taken back, and runs of them over crashes.
#![tactic(auto)]

mod eras;
mod first;
/// A register of one number, which can be replayed.
pub mod register;
mod replay;
mod run;
mod stepping;
mod undo;

pub use eras::run_eras;
pub use first::{no_run_has_an_illegal_step, the_first_illegal_step_is_one};
pub use register::Register;
pub use replay::{Replayable, StepFault};
pub use run::{EraRun, RunFault, Step};
pub use stepping::Replay;
pub use undo::undo_all;
