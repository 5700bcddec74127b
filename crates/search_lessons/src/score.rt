//! How far a file is from what a reply shows of it.

use crate::files::Folded;
use crate::seen::Seen;

/// How many wrong bytes a wrong size counts for.
const SIZE_WEIGHT: u64 = 4;

/// How far a file is from what a reply shows of it.
#[derive(Clone, Copy)]
pub(crate) struct Score {
    /// Bytes that differ.
    pub(crate) wrong: u64,
    pub(crate) fits_size: bool,
}

impl Score {
    /// Of a file's bytes.
    pub(crate) fn of(seen: &Seen<'_>, folded: &Folded) -> Score {
        let mut wrong = 0u64;
        for (made, shown) in folded.bytes.iter().zip(seen.bytes.iter()) {
            if *made != *shown {
                wrong = wrong.saturating_add(1);
            }
        }
        Score {
            wrong,
            fits_size: seen.fits_size(folded.size),
        }
    }

    /// In wrong bytes.
    pub(crate) fn weight(self) -> u64 {
        if self.fits_size {
            self.wrong
        } else {
            self.wrong.saturating_add(SIZE_WEIGHT)
        }
    }

    /// Whether the size is right, and no byte more is wrong than elsewhere.
    pub(crate) fn mends_size(self, before: Score) -> bool {
        self.fits_size && self.wrong <= before.wrong
    }

    /// Whether it is nearer than elsewhere, in bytes or in size, and further in neither.
    pub(crate) fn mends(self, before: Score) -> bool {
        self.wrong <= before.wrong
            && (self.fits_size || !before.fits_size)
            && (self.wrong < before.wrong || self.fits_size != before.fits_size)
    }
}
