//! The command `import`: a history of a capture of packets.
#![tactic(auto)]

mod import;
mod import_words;

pub use import::run_import;
pub use import_words::{ImportRequest, import_request};
