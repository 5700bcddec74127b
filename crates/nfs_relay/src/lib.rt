//! A recorder between clients and a server: it relays their connections, and has a log note what they say.
#![tactic(auto)]

mod connection;
mod control;
mod ending;
mod health;
mod order;
mod relay;
mod tally;
mod waiting;

pub use control::Halt;
pub use health::{Health, Refused, ServerEnd};
pub use order::{Order, OrderReader};
pub use relay::{Relay, RelayRuntime};
pub use tally::calls_in;
pub use waiting::transaction;
