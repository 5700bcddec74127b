//! What a claimer knows.

use std::collections::LinkedList;

/// The fingerprint that a claimer claims, how many words of its order it found to hold others, and the fingerprints that it was
/// told New and Seen of, in turn. No value of it is made: it stands in contracts alone.
pub struct View {
    /// The fingerprint that it claims.
    pub fingerprint: u64,
    /// How many words of its order it found to hold others.
    pub probed: u64,
    /// The fingerprints that it was told New of, in turn.
    pub new_answers: LinkedList<u64>,
    /// The fingerprints that it was told Seen of, in turn.
    pub seen_answers: LinkedList<u64>,
}
