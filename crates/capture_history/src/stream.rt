//! The bytes of one way of a connection, with the packets that brought them.

ghost use Rattle.std.specs.Prelude.{◌≡◌, take, drop, IfOk};
ghost use Rattle.capture_history.specs.Streams.{run_bytes, IsStream};

use crate::direction::{Direction, Mark, Payload};
use std::alloc::{AllocError, Global};
use tcp_streams::{Assembly, Span, assemble};

/// Bytes of a stream that one packet brought.
#[derive(Clone, Copy)]
pub struct Part {
    /// Behind how many bytes of the stream they end.
    pub end: usize,
    /// The packet.
    pub packet: u64,
    /// The packet with which they became part of what was known without a gap.
    pub known: u64,
}

/// The bytes of a stream up to its first gap.
#[derive(Drop)]
pub struct Stream {
    pub bytes: Vec<u8>,
    /// Which packet brought which of them.
    pub parts: Vec<Part>,
    /// The packet at which it ends by a gap, if it does: the first that shows it, or the last ahead of the gap, if that came later.
    pub gap: Option<u64>,
}

/// The bytes from a place on, at most so many.
fn bytes_at(bytes: &[u8], at: usize, count: usize) -> &[u8]
    ensures { result.now ≡ take count (drop at bytes.now) }
{
    let behind = &bytes[at.min(bytes.len())..];
    &behind[..count.min(behind.len())]
}

/// The bytes of a run, which stand in one segment.
fn bytes_of<'a>(payloads: &[Payload<'a>], run: &Span) -> &'a [u8]
    ensures { result.now ≡ run_bytes payloads.now run.now }
{
    let Some(payload) = payloads.get(run.source as usize) else {
        return &[];
    };
    let at = run.at.saturating_sub(run.begin);
    let count = run.end.saturating_sub(run.at);
    bytes_at(payload.bytes, at as usize, count as usize)
}

/// The packet of a segment.
fn packet_at(payloads: &[Payload<'_>], source: u64) -> u64 {
    match payloads.get(source as usize) {
        Some(payload) => payload.packet,
        None => 0,
    }
}

/// The earlier of two packets.
fn earlier(one: Option<u64>, packet: u64) -> Option<u64> {
    match one {
        Some(other) => Some(other.min(packet)),
        None => Some(packet),
    }
}

/// Whether a stream whose first missing byte has this full number doesn't reach a place.
fn is_ahead(mark: Mark, next: u64) -> bool {
    let low = (next % 4_294_967_296) as u32;
    let ahead = mark.sequence.wrapping_sub(low);
    ahead > 0 && ahead < 0x8000_0000
}

/// The first packet that shows that bytes are missing: those of its segment, or some ahead of it.
fn first_behind(way: &Direction<'_>, assembly: &Assembly) -> Option<u64> {
    let mut first = None;
    for run in assembly.waiting.as_slice() {
        first = earlier(first, packet_at(way.payloads.as_slice(), run.source));
    }
    for mark in way.marks.as_slice() {
        if is_ahead(*mark, assembly.next) {
            first = earlier(first, mark.packet);
        }
    }
    first
}

/// Where a stream ends by a gap. The last packet ahead of it is `known`.
fn gap_of(way: &Direction<'_>, assembly: &Assembly, known: u64) -> Option<u64> {
    let first = first_behind(way, assembly)?;
    Some(first.max(known))
}

/// The stream of the segments that were seen one way.
pub fn stream_of(alloc: Global, way: &Direction<'_>) -> Result<Stream, AllocError>
    ensures { IfOk result (λ stream. IsStream way.now stream.bytes.items) }
{
    let payloads = way.payloads.as_slice();
    let assembly = assemble(alloc, way.first, way.segments.as_slice())?;
    let mut bytes = Vec::new(alloc);
    let mut parts = Vec::new(alloc);
    let mut known = 0;
    for run in assembly.front.as_slice() {
        bytes.extend_from_slice(bytes_of(payloads, run))?;
        let packet = packet_at(payloads, run.source);
        known = packet.max(known);
        parts.push(Part {
            end: bytes.len(),
            packet,
            known,
        })?;
    }
    let gap = gap_of(way, &assembly, known);
    Ok(Stream { bytes, parts, gap })
}
