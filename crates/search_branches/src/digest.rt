//! What a branch's fingerprint is taken of, kept as the branch grows.

use seen_states::fingerprint;

/// Digests of what two branches have in common where neither needs to be tried after the other.
#[derive(Clone, Copy)]
pub(crate) struct Digest {
    /// The tree at the era's start.
    start: u64,
    /// The calls that are placed in the era, in whatever order.
    placed: [u64; 2],
    /// Those of them that change the tree, in their order.
    changes: [u64; 2],
    /// The handles that are bound, with their objects, in whatever order.
    binds: [u64; 2],
}

/// A number whose bits all depend on all bits of another one (Steele, Lea and Flood, 2014: the last step of SplitMix64).
fn mixed(number: u64) -> u64 {
    let mut mixed = number.wrapping_add(0x9e37_79b9_7f4a_7c15);
    mixed = (mixed ^ (mixed >> 30)).wrapping_mul(0xbf58_476d_1ce4_e5b9);
    mixed = (mixed ^ (mixed >> 27)).wrapping_mul(0x94d0_49bb_1331_11eb);
    mixed ^ (mixed >> 31)
}

/// Adds a number to a sum of such, in both its words.
fn added(sum: [u64; 2], number: u64) -> [u64; 2] {
    let first = mixed(number);
    [
        sum[0].wrapping_add(first),
        sum[1].wrapping_add(mixed(first ^ 0x5bd1_e995_9d1b_54a3)),
    ]
}

/// Puts a number behind a list of such, in both its words.
fn behind(list: [u64; 2], number: u64) -> [u64; 2] {
    [
        mixed(list[0] ^ number),
        mixed(list[1].wrapping_mul(31).wrapping_add(number)),
    ]
}

impl Digest {
    /// Of the start of an era whose tree has this digest.
    pub(crate) fn of_era(start: u64, binds: [u64; 2]) -> Digest {
        Digest {
            start,
            placed: [0; 2],
            changes: [0; 2],
            binds,
        }
    }

    /// What it has of the binds.
    pub(crate) fn binds(&self) -> [u64; 2] {
        self.binds
    }

    /// With one more call placed.
    pub(crate) fn with_call(self, number: u64, is_taken: bool, changes: bool) -> Digest {
        let code = number.wrapping_mul(2).wrapping_add(u64::from(is_taken));
        let mut digest = self;
        digest.placed = added(self.placed, code);
        if changes {
            digest.changes = behind(self.changes, code);
        }
        digest
    }

    /// With one more handle bound.
    pub(crate) fn with_bind(self, handle: &[u8], object: u64) -> Digest {
        let mut digest = self;
        digest.binds = added(self.binds, fingerprint(handle) ^ mixed(object));
        digest
    }

    /// The fingerprint of a branch in this era.
    pub(crate) fn fingerprint(&self, era: u64) -> u64 {
        let words = [
            era,
            self.start,
            self.placed[0],
            self.placed[1],
            self.changes[0],
            self.changes[1],
            self.binds[0],
            self.binds[1],
        ];
        let mut bytes = [0u8; 64];
        for (place, word) in bytes.chunks_exact_mut(8).zip(words) {
            place.copy_from_slice(word.to_be_bytes().as_slice());
        }
        fingerprint(bytes.as_slice())
    }
}
