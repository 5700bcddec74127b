//! The classic format: a header, and packets behind it (draft-ietf-opsawg-pcap, sections 4 and 5).

use crate::clock::Resolution;
use crate::fault::CaptureFault;
use crate::order::{ByteOrder, short_at, split, word_at};
use crate::packet::{LinkType, Packet};
use std::alloc::Global;

/// How many bytes stand ahead of the first packet.
const FILE_HEADER: usize = 24;

/// How many bytes stand ahead of a packet's own.
const PACKET_HEADER: usize = 16;

/// The order of the bytes in a file, and how it counts time.
#[derive(Clone, Copy)]
pub struct Form {
    pub order: ByteOrder,
    pub resolution: Resolution,
}

/// How the file is written that begins with this word, if it is one of the classic format.
pub fn form_of(first: u32) -> Option<Form> {
    let (order, places) = match first {
        0xA1B2_C3D4 => (ByteOrder::Big, 6),
        0xD4C3_B2A1 => (ByteOrder::Little, 6),
        0xA1B2_3C4D => (ByteOrder::Big, 9),
        0x4D3C_B2A1 => (ByteOrder::Little, 9),
        _ => return None,
    };
    Some(Form {
        order,
        resolution: Resolution::Decimal(places),
    })
}

/// A packet, and what stands behind it.
#[derive(Clone, Copy)]
struct Taken<'a> {
    packet: Packet<'a>,
    behind: &'a [u8],
}

/// The packet at the front, if all of its bytes are there.
fn take_packet<'a>(form: Form, link: LinkType, bytes: &'a [u8]) -> Option<Taken<'a>> {
    let parts = split(bytes, PACKET_HEADER)?;
    let seconds = word_at(form.order, parts.front, 0)?;
    let ticks = word_at(form.order, parts.front, 4)?;
    let captured = word_at(form.order, parts.front, 8)?;
    let wire_length = word_at(form.order, parts.front, 12)?;
    let body = split(parts.behind, captured as usize)?;
    let part = form.resolution.nanoseconds(u64::from(ticks));
    let packet = Packet {
        link,
        time: u64::from(seconds) * 1_000_000_000 + part.min(0xFFFF_FFFF_FFFF),
        bytes: body.front,
        wire_length,
    };
    Some(Taken {
        packet,
        behind: body.behind,
    })
}

/// What the packets of the file begin with, as its header says. The bits above the low sixteen speak of check sums behind a packet.
fn link_of(form: Form, header: &[u8]) -> Result<LinkType, CaptureFault> {
    if short_at(form.order, header, 4) != Some(2) {
        return Err(CaptureFault::BadVersion(4));
    }
    let Some(word) = word_at(form.order, header, 20) else {
        return Err(CaptureFault::Truncated(0));
    };
    let number = word % 65_536;
    match LinkType::from_number(number) {
        Some(link) => Ok(link),
        None => Err(CaptureFault::UnknownLink(20, number)),
    }
}

/// The packets of a file of the classic format.
pub fn read_classic<'a>(
    alloc: Global,
    form: Form,
    bytes: &'a [u8],
) -> Result<Vec<Packet<'a>>, CaptureFault> {
    let Some(parts) = split(bytes, FILE_HEADER) else {
        return Err(CaptureFault::Truncated(0));
    };
    let link = link_of(form, parts.front)?;
    let mut packets = Vec::new(alloc);
    let mut rest = parts.behind;
    for _ in 0..bytes.len() {
        if rest.is_empty() {
            break;
        }
        let Some(taken) = take_packet(form, link, rest) else {
            let at = bytes.len().saturating_sub(rest.len());
            return Err(CaptureFault::Truncated(at as u64));
        };
        packets.push(taken.packet)?;
        rest = taken.behind;
    }
    Ok(packets)
}
