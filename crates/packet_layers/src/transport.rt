//! The header of a TCP segment (RFC 9293, section 3.1).

ghost use Rattle.packet_layers.specs.Reading.{Gives, carried_view, told, tcp_at};

use crate::fields::{short_at, split, word_at};
use crate::network::Within;
use crate::passed::PassedOver;
use crate::segment::{Endpoint, Segment};

/// The segment that an IP packet carries.
#[tactic(auto, unfolding(crate::specs::Reading::tcp_at))]
pub fn segment_in<'a>(carried: &Within<'a>) -> Result<Segment<'a>, PassedOver>
    ensures { Gives told result (tcp_at (carried_view carried.now)) }
{
    let bytes = carried.bytes;
    if bytes.len() < 14 {
        return Err(PassedOver::CutHeader);
    }
    let header = bytes[12] as usize / 16 * 4;
    let flags = bytes[13];
    if header < 20 {
        return Err(PassedOver::Malformed);
    }
    if carried.length < header {
        return Err(PassedOver::Malformed);
    }
    let Some(parts) = split(bytes, header) else {
        return Err(PassedOver::CutHeader);
    };
    Ok(Segment {
        source: Endpoint {
            address: carried.source,
            port: short_at(bytes, 0),
        },
        destination: Endpoint {
            address: carried.destination,
            port: short_at(bytes, 2),
        },
        sequence: word_at(bytes, 4),
        fin: flags % 2 == 1,
        syn: flags / 2 % 2 == 1,
        reset: flags / 4 % 2 == 1,
        payload: parts.behind,
        length: carried.length - header,
    })
}
