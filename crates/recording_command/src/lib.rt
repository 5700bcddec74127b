//! A recording, from its words to its history file.
#![tactic(auto)]

mod guard;
mod part;
mod probing;
mod recorder;
mod refusals;
mod root;
mod runtime;
mod saving;
mod tap;
mod tap_end;
mod tap_words;
mod watching;

pub use part::{Part, part_path};
pub use runtime::RecordingRuntime;
pub use tap::run_tap;
pub use tap_words::{EndWords, RootWords, TapRequest, host_address, tap_request};
