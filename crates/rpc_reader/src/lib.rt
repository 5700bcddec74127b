//! The heads of remote procedure calls and their replies, after RFC 5531: read, and written in one spelling.
#![tactic(auto)]

mod call;
mod fault;
mod item;
mod reply;
mod writer;

pub use call::{CallHead, SEALED_FLAVOR, read_call};
pub use fault::RpcFault;
pub use reply::{ReplyBody, ReplyHead, read_reply};
pub use writer::{put_call, put_reply};
