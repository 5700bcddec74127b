//! What the calls of a walk and their replies tell of an export: whether accounts of its objects say the same, and the objects.
#![tactic(auto)]

mod account;
mod exchange;
mod judging;
mod objects;
mod places;
mod start;

pub use account::{Account, Kind, Part};
pub use exchange::{Cursor, Exchange, Page, page_in};
pub use start::start_of;
