//! The header of an IP packet: version 4 (RFC 791, section 3.1) or 6 (RFC 8200, sections 3 and 4).

ghost use Rattle.std.specs.Prelude.{◌≡◌, ◌+◌, ◌<◌, ◌≤◌, length, MatchOption, Some, None};
ghost use Rattle.packet_layers.specs.Packets.{is_option, told_or};
ghost use Rattle.packet_layers.specs.Reading.{Gives, carried_view, past_options, v4_at, address_at, v6_at, carried_at};

use crate::fields::{front, long_at, short_at, split, word_at};
use crate::link::{Datagram, Reached, Version};
use crate::passed::PassedOver;
use crate::segment::Address;

/// The number of TCP among the protocols.
const TCP: u8 = 6;

/// The TCP segment inside an IP packet, as bytes.
#[derive(Clone, Copy)]
pub struct Within<'a> {
    pub source: Address,
    pub destination: Address,
    /// Its bytes, as far as they were captured.
    pub bytes: &'a [u8],
    /// How many bytes it had.
    pub length: usize,
}

/// A length as a header tells it. One of 0 is one that the header has no room for: then all that was captured counts.
fn told_or(told: u16, all: usize) -> usize
    ensures { result ≡ told_or told all }
{
    if told == 0 { all } else { told as usize }
}

/// What a packet of version 4 carries.
#[tactic(auto, unfolding(crate::specs::Reading::v4_at))]
fn carried_by_v4(bytes: &[u8]) -> Result<Within<'_>, PassedOver>
    ensures { Gives carried_view result (v4_at bytes.now) }
{
    if bytes.len() < 20 {
        return Err(PassedOver::CutHeader);
    }
    let header = bytes[0] as usize % 16 * 4;
    if bytes[0] / 16 != 4 {
        return Err(PassedOver::Malformed);
    }
    if header < 20 {
        return Err(PassedOver::Malformed);
    }
    if short_at(bytes, 6) % 16_384 != 0 {
        return Err(PassedOver::Fragment);
    }
    if bytes[9] != TCP {
        return Err(PassedOver::NotTcp);
    }
    let all = told_or(short_at(bytes, 2), bytes.len());
    if all < header {
        return Err(PassedOver::Malformed);
    }
    let Some(parts) = split(bytes, header) else {
        return Err(PassedOver::CutHeader);
    };
    Ok(Within {
        source: Address::from_v4(word_at(bytes, 12)),
        destination: Address::from_v4(word_at(bytes, 16)),
        bytes: front(parts.behind, all - header),
        length: all - header,
    })
}

/// Whether a header of IPv6 is one that is passed: hop-by-hop options, routing, destination options.
fn is_option(kind: u16) -> bool
    ensures { result ≡ is_option kind }
{
    kind == 0 || kind == 43 || kind == 60
}

/// Goes past the headers that stand between that of version 6 and TCP's. `first` says what stands at the front.
fn past_options(first: u8, bytes: &[u8], most: usize) -> Option<Reached<'_>>
    ensures { MatchOption result (past_options most first bytes.now ≡ None)
        (λ reached. past_options most first bytes.now ≡ Some (reached.kind, reached.bytes.now)) }
{
    let mut kind = u16::from(first);
    let mut rest = bytes;
    for _ in 0..most {
        if !is_option(kind) {
            return Some(Reached { kind, bytes: rest });
        }
        if rest.len() < 2 {
            return None;
        }
        let Some(parts) = split(rest, rest[1] as usize * 8 + 8) else {
            return None;
        };
        kind = u16::from(rest[0]);
        rest = parts.behind;
    }
    None
}

#[tactic(auto, unfolding(crate::specs::Reading::address_at))]
fn address_at(bytes: &[u8], place: usize) -> Address
    requires { place + 15 < length bytes.now }
    ensures { result ≡ address_at place bytes.now }
{
    Address {
        high: long_at(bytes, place),
        low: long_at(bytes, place + 8),
    }
}

/// What a packet of version 6 carries. A length of 0 is one that the header has no room for: then all that was captured counts.
#[tactic(auto, unfolding(crate::specs::Reading::v6_at, crate::specs::Reading::v6_reached))]
fn carried_by_v6(bytes: &[u8]) -> Result<Within<'_>, PassedOver>
    ensures { Gives carried_view result (v6_at bytes.now) }
{
    let Some(parts) = split(bytes, 40) else {
        return Err(PassedOver::CutHeader);
    };
    if bytes[0] / 16 != 6 {
        return Err(PassedOver::Malformed);
    }
    let all = told_or(short_at(bytes, 4), bytes.len() - 40);
    let behind = front(parts.behind, all);
    let Some(reached) = past_options(bytes[6], behind, behind.len() + 1) else {
        return Err(PassedOver::CutHeader);
    };
    match reached.kind {
        6 => Ok(Within {
            source: address_at(bytes, 8),
            destination: address_at(bytes, 24),
            bytes: reached.bytes,
            length: all.saturating_sub(behind.len().saturating_sub(reached.bytes.len())),
        }),
        44 => Err(PassedOver::Fragment),
        _ => Err(PassedOver::NotTcp),
    }
}

/// The TCP segment that an IP packet carries.
pub fn carried_by<'a>(datagram: &Datagram<'a>) -> Result<Within<'a>, PassedOver>
    ensures { Gives carried_view result (carried_at datagram.now.version datagram.now.bytes.now) }
{
    match datagram.version {
        Version::V4 => carried_by_v4(datagram.bytes),
        Version::V6 => carried_by_v6(datagram.bytes),
    }
}
