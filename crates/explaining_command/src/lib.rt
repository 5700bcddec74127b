//! The command `nfsbench explain`: why a certificate is no witness of a history, or what is known where none is given.
#![tactic(auto)]

mod behind;
mod deciding;
mod explain_words;
mod explaining;
mod found;
mod objects;
mod telling;
mod unexplained;

pub use deciding::{decision_text, explain_history, explain_unreadable};
pub use deciding_command;
pub use explain_words::{ExplainRequest, explain_request};
pub use explaining::explain_read;
