//! The walk of an export before a night's first call. Nothing is sent here; a command sends what `Walk::next` gives, hands each reply to
//! `Walk::learn`, and takes the starting objects of its history from `Walk::finish`.
#![tactic(auto)]

mod asking;
mod explorer;
mod faults;
mod known;
mod listing;
mod pages;
mod paths;
mod refusal;
mod replies;
mod settings;
mod walk;
mod words;

pub use refusal::{Cause, Change, Refusal, WalkFault};
pub use settings::Settings;
pub use walk::Walk;
