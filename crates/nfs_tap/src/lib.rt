//! A recorder of the calls and replies that pass between clients and a server, and the pumps that forward them.
#![tactic(auto)]

mod fault;
mod front;
mod log;
mod pump;
mod room;
mod window;

pub use fault::NoteFault;
pub use log::TapLog;
pub use pump::{PumpEnd, pump_calls, pump_replies};
