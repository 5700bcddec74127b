//! Why a file is refused, in words: the event at fault with its bytes, where it is in the file, and what is wanted there.
#![tactic(auto)]

mod history;
mod lanes;
mod messages;
mod places;
mod plan;

pub use history::refused_history;
pub use plan::refused_certificate;
