//! The link header of a packet, by its type (tcpdump.org's list of link-layer header types; IEEE 802.1Q for tags).

ghost use Rattle.std.specs.Prelude.{◌≡◌, ◌+◌, ◌<◌, ◌≤◌, length, MatchOption, Some, None};
ghost use Rattle.packet_layers.specs.Packets.{is_tag};
ghost use Rattle.packet_layers.specs.Reading.{Gives, datagram_view, past_tags, protocol_at, family_number, family_at, raw_at, datagram_at};

use crate::fields::{short_at, split};
use crate::passed::PassedOver;
use packet_capture::LinkType;

/// Which version of IP the bytes behind a link header are.
#[derive(Clone, Copy)]
pub enum Version {
    V4,
    V6,
}

/// What stands behind a link header.
#[derive(Clone, Copy)]
pub struct Datagram<'a> {
    pub version: Version,
    pub bytes: &'a [u8],
}

/// What stands behind headers that say what follows: its kind, and its bytes.
#[derive(Clone, Copy)]
pub struct Reached<'a> {
    pub kind: u16,
    pub bytes: &'a [u8],
}

fn as_version(version: Version, bytes: &[u8]) -> Datagram<'_>
    ensures { (result.version ≡ version) × (result.bytes.now ≡ bytes.now) }
{
    Datagram { version, bytes }
}

/// Whether a protocol is that of a VLAN tag.
fn is_tag(kind: u16) -> bool
    ensures { result ≡ is_tag kind }
{
    kind == 0x8100 || kind == 0x88A8 || kind == 0x9100
}

/// Goes past VLAN tags. `first` says what stands at the front.
fn past_tags(first: u16, bytes: &[u8], most: usize) -> Option<Reached<'_>>
    ensures { MatchOption result (past_tags most first bytes.now ≡ None)
        (λ reached. past_tags most first bytes.now ≡ Some (reached.kind, reached.bytes.now)) }
{
    let mut kind = first;
    let mut rest = bytes;
    for _ in 0..most {
        if !is_tag(kind) {
            return Some(Reached { kind, bytes: rest });
        }
        let Some(parts) = split(rest, 4) else {
            return None;
        };
        kind = short_at(rest, 2);
        rest = parts.behind;
    }
    None
}

/// IP behind a header of so many bytes, with the protocol at a place in it, and tags.
#[tactic(auto, unfolding(crate::specs::Reading::protocol_at, crate::specs::Reading::version_of))]
fn behind_protocol(bytes: &[u8], all: usize, place: usize) -> Result<Datagram<'_>, PassedOver>
    requires { place + 1 < all }
    ensures { Gives datagram_view result (protocol_at all place bytes.now) }
{
    let Some(parts) = split(bytes, all) else {
        return Err(PassedOver::CutHeader);
    };
    let Some(reached) = past_tags(short_at(bytes, place), parts.behind, bytes.len() + 1) else {
        return Err(PassedOver::CutHeader);
    };
    match reached.kind {
        0x0800 => Ok(as_version(Version::V4, reached.bytes)),
        0x86DD => Ok(as_version(Version::V6, reached.bytes)),
        _ => Err(PassedOver::NotIp),
    }
}

/// The family of addresses in four bytes, in whichever order they stand, or 0, which is none.
#[tactic(auto, unfolding(crate::specs::Reading::family_number))]
fn family_number(bytes: &[u8]) -> u8
    requires { 4 ≤ length bytes.now }
    ensures { result ≡ family_number bytes.now }
{
    if bytes[1] == 0 && bytes[2] == 0 {
        if bytes[0] == 0 {
            return bytes[3];
        }
        if bytes[3] == 0 {
            return bytes[0];
        }
    }
    0
}

/// IP behind four bytes for the family of addresses: 2 for IPv4, and one of four numbers for IPv6.
#[tactic(auto, unfolding(crate::specs::Reading::family_at))]
fn behind_family(bytes: &[u8]) -> Result<Datagram<'_>, PassedOver>
    ensures { Gives datagram_view result (family_at bytes.now) }
{
    let Some(parts) = split(bytes, 4) else {
        return Err(PassedOver::CutHeader);
    };
    match family_number(bytes) {
        2 => Ok(as_version(Version::V4, parts.behind)),
        10 | 24 | 28 | 30 => Ok(as_version(Version::V6, parts.behind)),
        _ => Err(PassedOver::NotIp),
    }
}

/// IP of the version that its first four bits say.
#[tactic(auto, unfolding(crate::specs::Reading::raw_at))]
fn raw(bytes: &[u8]) -> Result<Datagram<'_>, PassedOver>
    ensures { Gives datagram_view result (raw_at bytes.now) }
{
    if bytes.is_empty() {
        return Err(PassedOver::CutHeader);
    }
    match bytes[0] / 16 {
        4 => Ok(as_version(Version::V4, bytes)),
        6 => Ok(as_version(Version::V6, bytes)),
        _ => Err(PassedOver::NotIp),
    }
}

/// What stands behind the link header of a packet.
#[tactic(auto, unfolding(crate::specs::Reading::datagram_at))]
pub fn datagram_of(link: LinkType, bytes: &[u8]) -> Result<Datagram<'_>, PassedOver>
    ensures { Gives datagram_view result (datagram_at link bytes.now) }
{
    match link {
        LinkType::Ethernet => behind_protocol(bytes, 14, 12),
        LinkType::Cooked => behind_protocol(bytes, 16, 14),
        LinkType::Cooked2 => behind_protocol(bytes, 20, 0),
        LinkType::Null | LinkType::Loop => behind_family(bytes),
        LinkType::Raw => raw(bytes),
        LinkType::Ipv4 => Ok(as_version(Version::V4, bytes)),
        LinkType::Ipv6 => Ok(as_version(Version::V6, bytes)),
    }
}
