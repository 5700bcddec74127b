//! The objects of a folder of this machine, as the starting objects of a history of version 2.
#![tactic(auto)]

mod contents;
mod finder;
mod listing;
mod paths;
mod refusal;
mod room;
mod words;

pub use finder::{folder_start, start_within};
pub use refusal::{Cause, FolderFault, Refusal, Special};
pub use room::Limits;
