//! A connection over TCP to a server of remote procedures, after RFC 5531: one call is on its way at a time.
#![tactic(auto)]

mod answer;
mod connection;
mod fault;
mod incoming;
mod outgoing;
mod runtime;

pub use connection::Connection;
pub use fault::ConnectionFault;
pub use runtime::ConnectionRuntime;
