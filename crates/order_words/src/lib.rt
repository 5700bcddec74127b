//! Why no order explains a reply, in words: with an order that explains all before it, what each order of the open calls comes to.
#![tactic(auto)]

mod binds;
mod fronts;
mod open;
mod orders;
mod plans;
mod telling;

pub use fronts::events_front;
pub use telling::order_text;
