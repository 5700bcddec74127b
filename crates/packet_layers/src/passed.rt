//! Why a packet is passed over.

use std::fmt;

/// Why a packet is passed over.
#[derive(Clone, Copy)]
pub enum PassedOver {
    /// It is neither IPv4 nor IPv6.
    NotIp,
    /// It is a fragment of an IP packet.
    Fragment,
    /// It isn't TCP, or TCP behind a header that isn't read here.
    NotTcp,
    /// A header says what no header can say.
    Malformed,
    /// The capture's snap length cut a header.
    CutHeader,
}

impl fmt::Display for PassedOver {
    fn fmt<W: fmt::Write>(&self, f: &mut fmt::Formatter<W>) -> fmt::Result {
        f.write_str(match self {
            PassedOver::NotIp => "not IP",
            PassedOver::Fragment => "a fragment of an IP packet",
            PassedOver::NotTcp => "not TCP",
            PassedOver::Malformed => "a header that no packet has",
            PassedOver::CutHeader => "a header that the snap length cut",
        })
    }
}
