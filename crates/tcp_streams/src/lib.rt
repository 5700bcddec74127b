//! The bytes of one direction of a TCP connection in order (RFC 9293, section 3.4): which byte stands in which of the segments that were
//! seen. It knows numbers alone, and no byte.
#![tactic(auto)]

mod assembly;
mod filling;
mod numbers;
mod span;

pub use assembly::{Assembly, WAITING_LIMIT, assemble};
pub use span::{Segment, Span};
