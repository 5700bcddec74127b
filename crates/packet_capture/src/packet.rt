//! A packet, and what stands at its beginning.

/// What a packet begins with, by the numbers of tcpdump.org's list of link-layer header types.
#[derive(Clone, Copy, PartialEq, Eq)]
pub enum LinkType {
    /// 0, LINKTYPE_NULL: a word for the protocol in the byte order of the machine that captured it.
    Null,
    /// 1, LINKTYPE_ETHERNET.
    Ethernet,
    /// 101, LINKTYPE_RAW, and 12 and 14, which some systems write for it: IPv4 or IPv6.
    Raw,
    /// 108, LINKTYPE_LOOP: a word for the protocol in network byte order.
    Loop,
    /// 113, LINKTYPE_LINUX_SLL.
    Cooked,
    /// 228, LINKTYPE_IPV4.
    Ipv4,
    /// 229, LINKTYPE_IPV6.
    Ipv6,
    /// 276, LINKTYPE_LINUX_SLL2.
    Cooked2,
}

impl LinkType {
    /// The link type of a number, if it is one that is known.
    pub fn from_number(number: u32) -> Option<LinkType> {
        match number {
            0 => Some(LinkType::Null),
            1 => Some(LinkType::Ethernet),
            12 | 14 | 101 => Some(LinkType::Raw),
            108 => Some(LinkType::Loop),
            113 => Some(LinkType::Cooked),
            228 => Some(LinkType::Ipv4),
            229 => Some(LinkType::Ipv6),
            276 => Some(LinkType::Cooked2),
            _ => None,
        }
    }
}

/// A packet of a capture.
#[derive(Clone, Copy)]
pub struct Packet<'a> {
    /// What it begins with.
    pub link: LinkType,
    /// When it was seen, in nanoseconds since 1970.
    pub time: u64,
    /// Its bytes, as far as they were captured.
    pub bytes: &'a [u8],
    /// How many bytes it had on the wire.
    pub wire_length: u32,
}
