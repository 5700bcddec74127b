//! All of a journal server's book but its device: the history that it recorded, the serial order, the tree behind it, and how each call
//! is judged and noted. `recorder::Book` puts it over a device.

#![tactic(auto)]

mod answering;
mod beginning;
mod calls;
mod certifying;
mod crashing;
mod fault;
mod ledger;
mod lookups;
mod placed;
mod placing;
mod served;
mod spelled;
mod token;

pub use fault::{
    AnswerFault, BeginFault, CloseFault, CrashFault, FlushFault, PlaceFault, TokenFault,
};
pub use ledger::Ledger;
pub use placed::{CallState, Condition, EraOver, PlacedCall};
pub use placing::TreeStep;
pub use spelled::SpelledReply;
pub use token::Token;
