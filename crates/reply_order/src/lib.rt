//! The plan of a history that follows its replies: the calls of an era in the order in which they were answered.
#![tactic(auto)]

mod binds;
mod eras;
mod plan;
mod replies;

pub use plan::{one_plan_follows_the_replies, reply_order};
pub use replies::replies_in_order;
