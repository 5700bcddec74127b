//! The eras of a night: clients call, the server is killed and started again as the orders say, and the clients go on.
#![tactic(auto)]

mod eras;
mod orders;

pub use eras::{ErasEnd, ErasPlan, run_eras};
pub use night_verdict;
pub use orders::Orders;
