//! A TCP segment, with where it came from and where it went.

ghost use Rattle.std.specs.Prelude.{◌≡◌, IfOk, Ok};
ghost use Rattle.packet_layers.specs.Packets.{Told, IsPacket, mapped};
ghost use Rattle.packet_layers.specs.Reading.{Gives, told, segment_at};

use crate::link::datagram_of;
use crate::network::carried_by;
use crate::passed::PassedOver;
use crate::transport::segment_in;
use packet_capture::Packet;

/// An IPv6 address; one of IPv4 is written as one of IPv6 (RFC 4291, section 2.5.5.2).
#[derive(Clone, Copy, PartialEq, Eq, PartialOrd, Ord)]
pub struct Address {
    /// Its first eight bytes.
    pub high: u64,
    /// Its last eight bytes.
    pub low: u64,
}

impl Address {
    /// That of an IPv4 address.
    pub fn from_v4(address: u32) -> Address
        ensures { result ≡ mapped address }
    {
        Address {
            high: 0,
            low: 0xFFFF_0000_0000 + u64::from(address),
        }
    }
}

/// One end of a connection.
#[derive(Clone, Copy, PartialEq, Eq, PartialOrd, Ord)]
pub struct Endpoint {
    pub address: Address,
    pub port: u16,
}

/// A TCP segment.
#[derive(Clone, Copy)]
pub struct Segment<'a> {
    pub source: Endpoint,
    pub destination: Endpoint,
    /// The sequence number of its first byte, or of its SYN where it has one.
    pub sequence: u32,
    pub fin: bool,
    pub syn: bool,
    pub reset: bool,
    /// Its bytes, as far as they were captured.
    pub payload: &'a [u8],
    /// How many bytes it had: more than were captured where the snap length cut it.
    pub length: usize,
}

/// Reads a packet from its front.
#[tactic(auto, unfolding(crate::specs::Reading::segment_at))]
fn segment_in_packet<'a>(packet: &Packet<'a>) -> Result<Segment<'a>, PassedOver>
    ensures { Gives told result (segment_at packet.now.link packet.now.bytes.now) }
{
    let datagram = datagram_of(packet.link, packet.bytes)?;
    let carried = carried_by(&datagram)?;
    segment_in(&carried)
}

/// The TCP segment in a packet, or why it is passed over.
pub fn segment_of<'a>(packet: &Packet<'a>) -> Result<Segment<'a>, PassedOver>
    // What is given stands in the packet.
    ensures found { IfOk result (λ segment. IsPacket packet.now.link packet.now.bytes.now (told segment)) }
    // A packet in which a segment stands gives it.
    ensures only { (segment : Told) → IsPacket packet.now.link packet.now.bytes.now segment → Gives told result (Ok segment) }
{
    segment_in_packet(packet)
}
