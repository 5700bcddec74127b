//! From a captured packet to the TCP segment in it: link header, VLAN tags, IPv4 or IPv6 with its options, TCP.
#![tactic(auto)]

mod fields;
mod link;
mod network;
mod passed;
mod segment;
mod transport;

pub use passed::PassedOver;
pub use segment::{Address, Endpoint, Segment, segment_of};
