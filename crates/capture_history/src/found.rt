//! Events that were found in a capture.

/// What an event is.
#[derive(Clone, Copy, PartialEq, Eq)]
pub enum FoundKind {
    /// A call: it stands where its last byte was known.
    Call,
    /// A reply: it stands where its first byte was seen.
    Reply,
    /// The end of the lane.
    Close,
}

/// An event of a lane.
#[derive(Drop)]
pub struct Found {
    pub lane: u32,
    pub kind: FoundKind,
    /// The message of a call or a reply.
    pub message: Vec<u8>,
    /// The index of the packet at which it stands.
    pub at: u64,
}
