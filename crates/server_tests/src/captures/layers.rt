//! Packets made by hand after the RFCs.

use packet_capture::LinkType::{Cooked, Cooked2, Ethernet, Ipv4, Ipv6, Null, Raw};
use packet_capture::{LinkType, Packet};
use packet_layers::{Address, Endpoint, PassedOver, segment_of};

/// Ethernet with two VLAN tags, IPv4 with options, TCP with options, and two bytes of padding after it.
const TAGS: &[u8] = &[
    0, 1, 2, 3, 4, 5, 6, 7, 8, 9, 10, 11, 136, 168, 0, 5, 129, 0, 0, 6, 8, 0, 70, 0, 0, 51, 0, 1,
    64, 0, 64, 6, 0, 0, 10, 0, 0, 1, 10, 0, 0, 2, 1, 1, 1, 0, 3, 255, 8, 1, 255, 255, 255, 240, 0,
    0, 0, 7, 96, 24, 2, 0, 0, 0, 0, 0, 1, 1, 1, 1, 97, 98, 99, 0, 0,
];

/// The first header of Linux, and a SYN.
const COOKED: &[u8] = &[
    0, 0, 0, 1, 0, 6, 0, 0, 0, 0, 0, 0, 0, 0, 8, 0, 69, 0, 0, 40, 0, 1, 64, 0, 64, 6, 0, 0, 10, 0,
    0, 1, 10, 0, 0, 2, 3, 255, 8, 1, 0, 0, 0, 99, 0, 0, 0, 0, 80, 2, 2, 0, 0, 0, 0, 0,
];

/// The second header of Linux, IPv6 with hop-by-hop and destination options, and a FIN.
const COOKED_TWO: &[u8] = &[
    134, 221, 0, 0, 0, 0, 0, 0, 0, 0, 0, 0, 0, 0, 0, 0, 0, 0, 0, 0, 96, 0, 0, 0, 0, 46, 0, 64, 32,
    1, 13, 184, 0, 0, 0, 0, 0, 0, 0, 0, 0, 0, 0, 1, 32, 1, 13, 184, 0, 0, 0, 0, 0, 0, 0, 0, 0, 0,
    0, 2, 60, 0, 0, 0, 0, 0, 0, 0, 6, 1, 0, 0, 0, 0, 0, 0, 0, 0, 0, 0, 0, 0, 0, 0, 8, 1, 3, 255, 0,
    0, 0, 5, 0, 0, 0, 6, 80, 17, 2, 0, 0, 0, 0, 0, 120, 121,
];

/// A word for the protocol, a reset, of whose three bytes one was captured.
const FAMILY: &[u8] = &[
    2, 0, 0, 0, 69, 0, 0, 43, 0, 1, 64, 0, 64, 6, 0, 0, 10, 0, 0, 1, 10, 0, 0, 2, 3, 255, 8, 1, 0,
    0, 0, 1, 0, 0, 0, 0, 80, 4, 2, 0, 0, 0, 0, 0, 112,
];

/// The second fragment of an IPv4 packet.
const FRAGMENT: &[u8] = &[
    69, 0, 0, 23, 0, 1, 0, 1, 64, 6, 0, 0, 10, 0, 0, 1, 10, 0, 0, 2, 97, 98, 99,
];

/// A fragment of an IPv6 packet.
const FRAGMENT_SIX: &[u8] = &[
    96, 0, 0, 0, 0, 11, 44, 64, 32, 1, 13, 184, 0, 0, 0, 0, 0, 0, 0, 0, 0, 0, 0, 1, 32, 1, 13, 184,
    0, 0, 0, 0, 0, 0, 0, 0, 0, 0, 0, 2, 6, 0, 0, 1, 0, 0, 0, 0, 97, 98, 99,
];

/// UDP over IPv4.
const DATAGRAM: &[u8] = &[
    69, 0, 0, 28, 0, 1, 64, 0, 64, 17, 0, 0, 10, 0, 0, 1, 10, 0, 0, 2, 0, 0, 0, 0, 0, 0, 0, 0,
];

/// Address resolution over Ethernet.
const ARP: &[u8] = &[
    0, 1, 2, 3, 4, 5, 6, 7, 8, 9, 10, 11, 8, 6, 0, 0, 0, 0, 0, 0, 0, 0, 0, 0, 0, 0, 0, 0, 0, 0, 0,
    0, 0, 0, 0, 0, 0, 0, 0, 0, 0, 0,
];

/// An IPv4 header of sixteen bytes.
const SHORT_HEADER: &[u8] = &[
    68, 0, 0, 47, 0, 1, 64, 0, 64, 6, 0, 0, 10, 0, 0, 1, 10, 0, 0, 2, 3, 255, 8, 1, 255, 255, 255,
    240, 0, 0, 0, 7, 96, 24, 2, 0, 0, 0, 0, 0, 1, 1, 1, 1, 97, 98, 99,
];

/// The network of hosts 1 and 2 in IPv4 and in IPv6.
const V4: Address = Address {
    high: 0,
    low: 0xFFFF_0A00_0000,
};

const V6: Address = Address {
    high: 0x2001_0DB8_0000_0000,
    low: 0,
};

/// What a segment between the two hosts is to be: its ports, its sequence number, its flags (1 FIN, 2 SYN, 4 RST), its bytes and its length.
type Want = ((u16, u16), u32, u8, &'static [u8], usize);

/// Packets, their networks, and the segments in them.
const SEGMENTS: [(LinkType, &[u8], Address, Want); 4] = [
    (Ethernet, TAGS, V4, ((1023, 2049), 0xFFFFFFF0, 0, b"abc", 3)),
    (Cooked, COOKED, V4, ((1023, 2049), 99, 2, b"", 0)),
    (Cooked2, COOKED_TWO, V6, ((2049, 1023), 5, 1, b"xy", 2)),
    (Null, FAMILY, V4, ((1023, 2049), 1, 4, b"p", 3)),
];

/// Packets that are passed over, and why.
const OTHERS: [(LinkType, &[u8], PassedOver); 5] = [
    (Raw, FRAGMENT, PassedOver::Fragment),
    (Ipv6, FRAGMENT_SIX, PassedOver::Fragment),
    (Ipv4, DATAGRAM, PassedOver::NotTcp),
    (Ethernet, ARP, PassedOver::NotIp),
    (Raw, SHORT_HEADER, PassedOver::Malformed),
];

fn packet(link: LinkType, bytes: &[u8]) -> Packet<'_> {
    Packet {
        link,
        time: 0,
        bytes,
        wire_length: 0,
    }
}

/// Whether an end of a segment is this host of the network, at this port.
fn is_end(end: Endpoint, network: Address, host: u64, port: u16) -> bool {
    let address = Address {
        high: network.high,
        low: network.low.saturating_add(host),
    };
    end.address == address && end.port == port
}

/// Whether a packet holds such a segment.
fn holds(link: LinkType, bytes: &[u8], network: Address, want: Want) -> bool {
    let (ports, sequence, flags, payload, length) = want;
    match segment_of(&packet(link, bytes)) {
        Ok(segment) => {
            is_end(segment.source, network, 1, ports.0)
                && is_end(segment.destination, network, 2, ports.1)
                && segment.sequence == sequence
                && (segment.fin, segment.syn, segment.reset) == (flags == 1, flags == 2, flags == 4)
                && segment.payload == payload
                && segment.length == length
        }
        Err(_) => false,
    }
}

/// Whether a packet is passed over for this reason.
fn is_passed_over(link: LinkType, bytes: &[u8], want: PassedOver) -> bool {
    match segment_of(&packet(link, bytes)) {
        Ok(_) => false,
        Err(reason) => reason == want,
    }
}

#[test]
fn segments_are_found_and_others_passed_over(rt: HostRuntime) {
    for (link, bytes, network, want) in SEGMENTS {
        assert!(rt; holds(link, bytes, network, want));
    }
    for (link, bytes, want) in OTHERS {
        assert!(rt; is_passed_over(link, bytes, want));
    }
    // Each front of the tagged packet that ends before its padding and its bytes.
    for end in 0..TAGS.len().saturating_sub(5) {
        let front = TAGS.get(..end).unwrap_or(TAGS);
        assert!(rt; is_passed_over(Ethernet, front, PassedOver::CutHeader));
    }
}
