//! The packets of a capture file: classic pcap (draft-ietf-opsawg-pcap) and pcapng (draft-ietf-opsawg-pcapng), in either byte order.
//! Their bytes are borrowed from the file's.
#![tactic(auto)]

mod blocks;
mod capture;
mod classic;
mod clock;
mod fault;
mod order;
mod packet;

pub use capture::read_packets;
pub use fault::CaptureFault;
pub use packet::{LinkType, Packet};
