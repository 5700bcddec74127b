//! How a walk asks.

use tree_starts::START_LIMIT;

/// How a walk asks, and whether the export has to be empty.
#[derive(Clone, Copy)]
pub struct Settings {
    /// The most bytes that a READ asks for.
    pub piece: u32,
    /// The most bytes of a page of a list: `count` of READDIR, `maxcount` of READDIRPLUS.
    pub page: u32,
    /// An export that holds anything is refused.
    pub is_empty: bool,
    /// The most objects that may be found below the root: a start in a history has at most `START_LIMIT`.
    pub objects: usize,
}

impl Settings {
    /// Pieces of 65,536 bytes and pages of 32,768, which common servers give whole.
    pub const COMMON: Settings = Settings {
        piece: 65_536,
        page: 32_768,
        is_empty: false,
        objects: START_LIMIT,
    };
}
