//! The objects of a journal server, in parts with a lock each: what a call needs of them is taken out, in rising order of their
//! numbers, and given back; who wants one that is taken waits. Nothing is proved of what they hold: the server's book judges each reply.
#![tactic(auto)]

mod held;
mod node;
mod parents;
mod rebuild;
mod table;
mod wanted;

pub use held::Held;
pub use node::{Content, File, Node};
pub use parents::Parents;
pub use rebuild::objects_of;
pub use table::ObjectTable;
pub use wanted::{Targets, number_of};
