//! The command `draw`: a history as a page of HTML.
#![tactic(auto)]

mod draw_words;
mod faults;
mod pages;
mod telling;

pub use draw_words::{DrawRequest, Wanted, draw_request};
pub use telling::draw_history;
