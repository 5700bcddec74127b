//! Capture files made by hand after the two drafts.

use packet_capture::LinkType::{Cooked, Cooked2, Ethernet, Ipv4, Ipv6, Loop, Null, Raw};
use packet_capture::{CaptureFault, LinkType, Packet, read_packets};
use std::alloc::Global;
use std::test::Fail;

/// Microseconds, the lowest byte first: two packets over Ethernet.
const LITTLE: [u8; 59] = [
    212, 195, 178, 161, 2, 0, 4, 0, 0, 0, 0, 0, 0, 0, 0, 0, 255, 255, 0, 0, 1, 0, 0, 0, 0, 241, 83,
    101, 250, 0, 0, 0, 3, 0, 0, 0, 60, 0, 0, 0, 10, 11, 12, 1, 241, 83, 101, 63, 66, 15, 0, 0, 0,
    0, 0, 5, 0, 0, 0,
];

/// Nanoseconds, the highest byte first: one packet with the second header of Linux.
const BIG: [u8; 42] = [
    161, 178, 60, 77, 0, 2, 0, 4, 0, 0, 0, 0, 0, 0, 0, 0, 0, 0, 0, 96, 0, 0, 1, 20, 0, 0, 0, 7, 7,
    91, 205, 21, 0, 0, 0, 2, 0, 0, 0, 2, 1, 2,
];

/// A file of USB packets.
const UNKNOWN: [u8; 24] = [
    212, 195, 178, 161, 2, 0, 4, 0, 0, 0, 0, 0, 0, 0, 0, 0, 255, 255, 0, 0, 147, 0, 0, 0,
];

/// Two sections of blocks. The first has two interfaces, of which one has nanoseconds and one a limit of four bytes.
const BLOCKS: [u8; 268] = [
    10, 13, 13, 10, 28, 0, 0, 0, 77, 60, 43, 26, 1, 0, 0, 0, 255, 255, 255, 255, 255, 255, 255,
    255, 28, 0, 0, 0, 1, 0, 0, 0, 20, 0, 0, 0, 1, 0, 0, 0, 4, 0, 0, 0, 20, 0, 0, 0, 1, 0, 0, 0, 40,
    0, 0, 0, 113, 0, 0, 0, 0, 0, 0, 0, 2, 0, 2, 0, 101, 48, 0, 0, 9, 0, 1, 0, 9, 0, 0, 0, 0, 0, 0,
    0, 40, 0, 0, 0, 5, 0, 0, 0, 16, 0, 0, 0, 1, 2, 3, 4, 16, 0, 0, 0, 6, 0, 0, 0, 40, 0, 0, 0, 1,
    0, 0, 0, 254, 156, 151, 23, 21, 205, 133, 61, 5, 0, 0, 0, 9, 0, 0, 0, 33, 34, 35, 36, 37, 0, 0,
    0, 40, 0, 0, 0, 3, 0, 0, 0, 20, 0, 0, 0, 6, 0, 0, 0, 49, 50, 51, 52, 20, 0, 0, 0, 10, 13, 13,
    10, 0, 0, 0, 28, 26, 43, 60, 77, 0, 1, 0, 0, 255, 255, 255, 255, 255, 255, 255, 255, 0, 0, 0,
    28, 0, 0, 0, 1, 0, 0, 0, 40, 0, 101, 0, 0, 0, 0, 0, 0, 0, 2, 0, 2, 101, 48, 0, 0, 0, 9, 0, 1,
    138, 0, 0, 0, 0, 0, 0, 0, 0, 0, 0, 40, 0, 0, 0, 2, 0, 0, 0, 36, 0, 0, 0, 0, 0, 0, 0, 0, 0, 0,
    22, 0, 0, 0, 0, 1, 0, 0, 0, 1, 65, 0, 0, 0, 0, 0, 0, 36,
];

/// What a packet is to be: its link, its time, its bytes, and how many it had on the wire.
type Want = (LinkType, u64, &'static [u8], u32);

const OF_LITTLE: [Want; 2] = [
    (Ethernet, 1_700_000_000_000_250_000, &[10, 11, 12], 60),
    (Ethernet, 1_700_000_001_999_999_000, &[], 5),
];

const OF_BIG: [Want; 1] = [(Cooked2, 7_123_456_789, &[1, 2], 2)];

const OF_BLOCKS: [Want; 3] = [
    (Cooked, 1_700_000_000_123_456_789, &[33, 34, 35, 36, 37], 9),
    (Ethernet, 1_700_000_000_123_456_789, &[49, 50, 51, 52], 6),
    (Raw, 5_500_000_000, &[65], 1),
];

fn is_as(packet: &Packet<'_>, (link, time, bytes, wire_length): Want) -> bool {
    packet.link == link
        && packet.time == time
        && packet.bytes == bytes
        && packet.wire_length == wire_length
}

/// Whether a file has these packets and no other.
fn has_packets(alloc: Global, file: &[u8], wants: &[Want]) -> Result<bool, CaptureFault> {
    let packets = read_packets(alloc, file)?;
    for (packet, want) in packets.iter().zip(wants) {
        if !is_as(packet, *want) {
            return Ok(false);
        }
    }
    Ok(packets.len() == wants.len())
}

/// Whether each front of a file that ends within an item is refused, and each other one gives fewer packets.
fn is_refused_where_cut(alloc: Global, file: &[u8], count: usize) -> bool {
    for end in 0..file.len() {
        match read_packets(alloc, &file[..end]) {
            Ok(packets) => {
                if packets.len() >= count {
                    return false;
                }
            }
            Err(CaptureFault::BadMagic | CaptureFault::Truncated(_)) => {}
            Err(_) => return false,
        }
    }
    true
}

/// Whether a file has these packets, and each front of it that ends within an item is refused.
fn is_read(alloc: Global, file: &[u8], wants: &[Want]) -> Result<bool, CaptureFault> {
    Ok(has_packets(alloc, file, wants)? && is_refused_where_cut(alloc, file, wants.len()))
}

/// The numbers of tcpdump.org's list, the lowest byte first, and two more for raw packets. The bits above the low sixteen speak of check sums.
const LINKS: [([u8; 4], LinkType); 11] = [
    ([0, 0, 0, 0], Null),
    ([1, 0, 0, 0], Ethernet),
    ([1, 0, 0, 84], Ethernet),
    ([12, 0, 0, 0], Raw),
    ([14, 0, 0, 0], Raw),
    ([101, 0, 0, 0], Raw),
    ([108, 0, 0, 0], Loop),
    ([113, 0, 0, 0], Cooked),
    ([228, 0, 0, 0], Ipv4),
    ([229, 0, 0, 0], Ipv6),
    ([20, 1, 0, 0], Cooked2),
];

/// The link type of the first packet of the first file, with this word in its header.
fn link_with(alloc: Global, word: [u8; 4]) -> Option<LinkType> {
    let mut file = LITTLE;
    file[20] = word[0];
    file[21] = word[1];
    file[22] = word[2];
    file[23] = word[3];
    let packets = read_packets(alloc, &file).ok()?;
    packets.first().map(|packet| packet.link)
}

#[test]
fn link_types_have_numbers(rt: HostRuntime) {
    for (word, link) in LINKS {
        assert!(rt; link_with(rt.alloc(), word) == Some(link));
    }
    let unknown = match read_packets(rt.alloc(), &UNKNOWN) {
        Err(CaptureFault::UnknownLink(20, 147)) => true,
        _ => false,
    };
    assert!(rt; unknown);
}

/// Whether the simple packet of the blocks has its four bytes where its interface has a limit of 0, which is none.
fn is_unlimited(alloc: Global) -> Result<bool, CaptureFault> {
    let mut file = BLOCKS;
    file[40] = 0;
    file[152] = 4;
    let packets = read_packets(alloc, &file)?;
    match packets.get(1) {
        Some(packet) => Ok(packet.bytes == [49, 50, 51, 52].as_slice()),
        None => Ok(false),
    }
}

#[test]
fn files_are_read_and_refused_where_they_are_cut(rt: HostRuntime) -> Result<(), Fail> {
    assert!(rt; is_read(rt.alloc(), &LITTLE, &OF_LITTLE)?);
    assert!(rt; is_read(rt.alloc(), &BIG, &OF_BIG)?);
    assert!(rt; is_read(rt.alloc(), &BLOCKS, &OF_BLOCKS)?);
    assert!(rt; is_unlimited(rt.alloc())?);
    Ok(())
}
