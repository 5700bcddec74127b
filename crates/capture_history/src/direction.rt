//! One way of a connection: the segments that were seen of it, and their bytes.

use packet_layers::Segment;
use std::alloc::{AllocError, Global};

/// The bytes of a segment, borrowed from the capture.
#[derive(Clone, Copy)]
pub struct Payload<'a> {
    pub bytes: &'a [u8],
    /// The index of the packet that brought them.
    pub packet: u64,
}

/// A number of bytes of a segment, of which an IP packet has fewer than 2^32.
fn count_of(bytes: usize) -> u32 {
    bytes.min(u32::MAX as usize) as u32
}

/// A place that the stream reaches, as a segment says whose bytes weren't all captured, or that has a FIN.
#[derive(Clone, Copy)]
pub struct Mark {
    /// The sequence number after the segment's last byte.
    pub sequence: u32,
    /// The index of its packet.
    pub packet: u64,
}

/// The segments of one way, in the order in which they were seen.
#[derive(Drop)]
pub struct Direction<'a> {
    /// The sequence number of the first byte: the one after its SYN, or that of the first segment with bytes.
    pub first: u32,
    /// Whether it is known.
    pub has_begun: bool,
    /// Whether its SYN was seen.
    pub has_syn: bool,
    /// Whether a FIN was seen.
    pub has_ended: bool,
    /// Where their bytes stand in the stream. Their sources are places in `payloads`.
    pub segments: Vec<tcp_streams::Segment>,
    /// Their bytes.
    pub payloads: Vec<Payload<'a>>,
    /// How far the stream goes at least.
    pub marks: Vec<Mark>,
}

impl<'a> Direction<'a> {
    /// A way of which nothing was seen.
    pub fn new(alloc: Global) -> Direction<'a> {
        Direction {
            first: 0,
            has_begun: false,
            has_syn: false,
            has_ended: false,
            segments: Vec::new(alloc),
            payloads: Vec::new(alloc),
            marks: Vec::new(alloc),
        }
    }

    /// Takes a segment of the packet of this index. What bytes a RST has aren't of the stream (RFC 1122, section 4.2.2.12).
    pub fn put(&mut self, packet: u64, segment: &Segment<'a>) -> Result<(), AllocError> {
        if segment.reset {
            return Ok(());
        }
        let sequence = if segment.syn {
            segment.sequence.wrapping_add(1)
        } else {
            segment.sequence
        };
        if !self.has_begun && (segment.syn || segment.length > 0) {
            self.first = sequence;
            self.has_begun = true;
        }
        self.has_syn = self.has_syn || segment.syn;
        if segment.fin {
            self.has_ended = true;
        }
        if self.has_begun && (segment.fin || segment.payload.len() < segment.length) {
            let sequence = sequence.wrapping_add(count_of(segment.length));
            self.marks.push(Mark { sequence, packet })?;
        }
        if segment.payload.is_empty() {
            return Ok(());
        }
        self.put_payload(packet, sequence, segment.payload)
    }

    /// Puts bytes behind those that were seen before.
    fn put_payload(
        &mut self,
        packet: u64,
        sequence: u32,
        bytes: &'a [u8],
    ) -> Result<(), AllocError> {
        let source = self.payloads.len() as u64;
        let count = count_of(bytes.len());
        self.payloads.push(Payload { bytes, packet })?;
        self.segments.push(tcp_streams::Segment {
            sequence,
            count,
            source,
        })?;
        Ok(())
    }
}
