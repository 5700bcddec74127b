//! The clients of a night over TCP: each draws its calls, notes them, sends them, and notes what comes back. Whether the server kept
//! its word is judged later, from the log; what hinders the calls themselves is told as a fault of health.
#![tactic(auto)]

mod control;
mod conversation;
mod night;
mod runtime;
mod shared_log;
mod up;

pub use night::{EraEnd, Night};
pub use runtime::ClientsRuntime;
pub use up::{OldConnection, is_up_within};
