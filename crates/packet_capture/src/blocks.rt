//! The format pcapng: blocks, of which some describe interfaces and some hold packets (draft-ietf-opsawg-pcapng, section 4).

use crate::clock::Resolution;
use crate::fault::CaptureFault;
use crate::order::{ByteOrder, short_at, split, word_at};
use crate::packet::{LinkType, Packet};
use std::alloc::Global;

/// The type of a block that begins a section. It reads the same in either byte order.
pub const SECTION_HEADER: u32 = 0x0A0D_0D0A;

const INTERFACE_DESCRIPTION: u32 = 1;

const OLD_PACKET: u32 = 2;

const SIMPLE_PACKET: u32 = 3;

const ENHANCED_PACKET: u32 = 6;

/// The option of an interface that says how long a tick is.
const RESOLUTION_OPTION: u32 = 9;

/// An interface, as its block describes it.
#[derive(Clone, Copy)]
struct Interface {
    number: u32,
    snap_length: u32,
    resolution: Resolution,
}

/// A block: its type, where it begins in the file, and what stands between its lengths.
#[derive(Clone, Copy)]
struct Block<'a> {
    order: ByteOrder,
    kind: u32,
    at: u64,
    body: &'a [u8],
}

/// A block, and what stands behind it.
#[derive(Clone, Copy)]
struct Taken<'a> {
    block: Block<'a>,
    behind: &'a [u8],
}

/// In which order the numbers of a section stand, by the word in its first block that tells it.
fn section_order(bytes: &[u8], at: u64) -> Result<ByteOrder, CaptureFault> {
    match word_at(ByteOrder::Big, bytes, 8) {
        Some(0x1A2B_3C4D) => Ok(ByteOrder::Big),
        Some(0x4D3C_2B1A) => Ok(ByteOrder::Little),
        Some(_) => Err(CaptureFault::BadMagic),
        None => Err(CaptureFault::Truncated(at)),
    }
}

/// The order of the numbers from the block at the front on.
fn order_from(bytes: &[u8], at: u64, order: ByteOrder) -> Result<ByteOrder, CaptureFault> {
    if word_at(ByteOrder::Big, bytes, 0) == Some(SECTION_HEADER) {
        section_order(bytes, at)
    } else {
        Ok(order)
    }
}

/// The block at the front: its type, its length, its body, and its length again.
fn take_block<'a>(order: ByteOrder, at: u64, bytes: &'a [u8]) -> Result<Taken<'a>, CaptureFault> {
    let Some(kind) = word_at(order, bytes, 0) else {
        return Err(CaptureFault::Truncated(at));
    };
    let Some(length) = word_at(order, bytes, 4) else {
        return Err(CaptureFault::Truncated(at));
    };
    if length < 12 || length % 4 != 0 {
        return Err(CaptureFault::BadLength(at));
    }
    let Some(whole) = split(bytes, length as usize) else {
        return Err(CaptureFault::Truncated(at));
    };
    if word_at(order, whole.front, length as usize - 4) != Some(length) {
        return Err(CaptureFault::BadLength(at));
    }
    let block = Block {
        order,
        kind,
        at,
        body: part(whole.front, 8, length as usize - 12),
    };
    Ok(Taken {
        block,
        behind: whole.behind,
    })
}

/// So many bytes from a place on, or none where they aren't all there.
fn part(bytes: &[u8], at: usize, count: usize) -> &[u8] {
    match split(bytes, at) {
        Some(parts) => match split(parts.behind, count) {
            Some(inner) => inner.front,
            None => &[],
        },
        None => &[],
    }
}

/// How long a tick is, as the options of an interface say: a code, a length, and so many bytes, filled up to words.
fn resolution_of(order: ByteOrder, options: &[u8]) -> Resolution {
    let mut rest = options;
    for _ in 0..options.len() {
        let (Some(code), Some(count)) = (short_at(order, rest, 0), short_at(order, rest, 2)) else {
            break;
        };
        if code == RESOLUTION_OPTION && count == 1 {
            if let [byte, ..] = part(rest, 4, 1) {
                return Resolution::from_byte(*byte);
            }
        }
        let padded = (count as usize + 3) / 4 * 4;
        match split(rest, 4 + padded) {
            Some(parts) => rest = parts.behind,
            None => break,
        }
    }
    Resolution::Decimal(6)
}

/// The interface that a block describes.
fn interface_of(block: &Block<'_>) -> Result<Interface, CaptureFault> {
    let (Some(number), Some(snap_length), Some(options)) = (
        short_at(block.order, block.body, 0),
        word_at(block.order, block.body, 4),
        split(block.body, 8),
    ) else {
        return Err(CaptureFault::BadLength(block.at));
    };
    Ok(Interface {
        number,
        snap_length,
        resolution: resolution_of(block.order, options.behind),
    })
}

/// The link type of an interface that has a packet.
fn link_of(interface: Interface, at: u64) -> Result<LinkType, CaptureFault> {
    match LinkType::from_number(interface.number) {
        Some(link) => Ok(link),
        None => Err(CaptureFault::UnknownLink(at, interface.number)),
    }
}

/// A packet with a time: where in its block these stand is the same in an enhanced packet block and in an old one.
fn timed_packet<'a>(block: &Block<'a>, interface: Interface) -> Result<Packet<'a>, CaptureFault> {
    let link = link_of(interface, block.at)?;
    let (Some(high), Some(low), Some(captured), Some(wire_length)) = (
        word_at(block.order, block.body, 4),
        word_at(block.order, block.body, 8),
        word_at(block.order, block.body, 12),
        word_at(block.order, block.body, 16),
    ) else {
        return Err(CaptureFault::BadLength(block.at));
    };
    let bytes = part(block.body, 20, captured as usize);
    if bytes.len() < captured as usize {
        return Err(CaptureFault::BadLength(block.at));
    }
    let ticks = u64::from(high) * 4_294_967_296 + u64::from(low);
    Ok(Packet {
        link,
        time: interface.resolution.nanoseconds(ticks),
        bytes,
        wire_length,
    })
}

/// A packet without a time, of the first interface: it has that of the packet before it.
fn simple_packet<'a>(
    block: &Block<'a>,
    interface: Interface,
    time: u64,
) -> Result<Packet<'a>, CaptureFault> {
    let link = link_of(interface, block.at)?;
    let Some(wire_length) = word_at(block.order, block.body, 0) else {
        return Err(CaptureFault::BadLength(block.at));
    };
    let limit = if interface.snap_length == 0 {
        wire_length
    } else {
        wire_length.min(interface.snap_length)
    };
    let bytes = part(block.body, 4, limit as usize);
    if bytes.len() < limit as usize {
        return Err(CaptureFault::BadLength(block.at));
    }
    Ok(Packet {
        link,
        time,
        bytes,
        wire_length,
    })
}

/// The interface of a packet, by its number in the section.
fn interface_at(interfaces: &[Interface], index: u32, at: u64) -> Result<Interface, CaptureFault> {
    match interfaces.get(index as usize) {
        Some(interface) => Ok(*interface),
        None => Err(CaptureFault::UnknownInterface(at)),
    }
}

/// The packet of a block that holds one.
fn packet_of<'a>(
    block: &Block<'a>,
    interfaces: &[Interface],
    time: u64,
) -> Result<Option<Packet<'a>>, CaptureFault> {
    let index = match block.kind {
        SIMPLE_PACKET => Some(0),
        ENHANCED_PACKET => word_at(block.order, block.body, 0),
        OLD_PACKET => short_at(block.order, block.body, 0),
        _ => return Ok(None),
    };
    let Some(index) = index else {
        return Err(CaptureFault::BadLength(block.at));
    };
    let interface = interface_at(interfaces, index, block.at)?;
    let packet = if block.kind == SIMPLE_PACKET {
        simple_packet(block, interface, time)?
    } else {
        timed_packet(block, interface)?
    };
    Ok(Some(packet))
}

/// Checks that a section is of a version that is known.
fn check_version(block: &Block<'_>) -> Result<(), CaptureFault> {
    if short_at(block.order, block.body, 4) == Some(1) {
        Ok(())
    } else {
        Err(CaptureFault::BadVersion(block.at))
    }
}

/// Takes a block: a section begins without interfaces, an interface and a packet are kept, and others passed over.
fn put_block<'a>(
    block: &Block<'a>,
    interfaces: &mut Vec<Interface>,
    packets: &mut Vec<Packet<'a>>,
) -> Result<(), CaptureFault> {
    if block.kind == SECTION_HEADER {
        check_version(block)?;
        interfaces.clear();
        return Ok(());
    }
    if block.kind == INTERFACE_DESCRIPTION {
        interfaces.push(interface_of(block)?)?;
        return Ok(());
    }
    let time = match packets.last() {
        Some(packet) => packet.time,
        None => 0,
    };
    if let Some(packet) = packet_of(block, interfaces.as_slice(), time)? {
        packets.push(packet)?;
    }
    Ok(())
}

/// The packets of a pcapng file, of all its sections.
pub fn read_blocks<'a>(alloc: Global, bytes: &'a [u8]) -> Result<Vec<Packet<'a>>, CaptureFault> {
    let mut packets = Vec::new(alloc);
    let mut interfaces = Vec::new(alloc);
    let mut rest = bytes;
    let mut order = ByteOrder::Big;
    for _ in 0..bytes.len() {
        if rest.is_empty() {
            break;
        }
        let at = bytes.len().saturating_sub(rest.len()) as u64;
        order = order_from(rest, at, order)?;
        let taken = take_block(order, at, rest)?;
        put_block(&taken.block, &mut interfaces, &mut packets)?;
        rest = taken.behind;
    }
    Ok(packets)
}
