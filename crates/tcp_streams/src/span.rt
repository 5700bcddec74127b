//! Segments, and runs of bytes that stand in one segment.

/// A segment that was seen: where its bytes stand in the stream, and which one it is.
#[derive(Clone, Copy)]
pub struct Segment {
    /// The sequence number of its first byte.
    pub sequence: u32,
    /// How many bytes it holds.
    pub count: u32,
    /// A number of the caller's choice, such as that of its packet.
    pub source: u64,
}

/// A run of bytes that stand in one segment, from one full number on up to another.
#[derive(Clone, Copy)]
pub struct Span {
    /// The full number of its first byte.
    pub at: u64,
    /// The full number behind its last byte.
    pub end: u64,
    /// The segment.
    pub source: u64,
    /// The full number of the segment's first byte.
    pub begin: u64,
}
