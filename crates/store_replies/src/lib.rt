//! What a journal server replies to a call, worked out from the objects that the call has taken out, and what becomes of these objects.
//! Nothing is proved of it: the server's book judges each reply.
#![tactic(auto)]

mod attributes;
mod change;
mod decision;
mod failed;
mod files;
mod listing;
mod names_of;
mod renaming;
mod scene;
mod site;

pub use change::{Change, NewObject, Renaming};
pub use decision::{Decision, decide};
pub use scene::Scene;
pub use site::{Prepared, Site};
