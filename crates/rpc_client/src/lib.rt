//! What a client of RPC says and hears: the message of a call with a credential of AUTH_SYS, and why a call was refused (RFC 5531).
#![tactic(auto)]

mod asking;
mod refusal;

pub use asking::{Asked, Credential, put_call_head, put_message};
pub use refusal::Refusal;
