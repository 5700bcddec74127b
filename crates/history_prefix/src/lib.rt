//! A part of a history: its first events, or all but some of its calls.
#![tactic(auto)]

mod fault;
mod file;
mod keeping;
mod marks;
mod refused;
mod words;

pub use fault::PrefixFault;
pub use file::{PrefixFile, file_as, prefix_file, prefix_of};
pub use keeping::{keep_events, kept_history};
pub use marks::{calls_without, marks_within, marks_without, number_of};
pub use refused::{Front, RefusedCall, front_of};
pub use words::wanted;
