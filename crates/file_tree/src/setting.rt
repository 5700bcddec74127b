//! What a run of calls is judged by.

use tree_answers::tree_handles::Binds;
use tree_starts::{Profile, Start};

/// What stays the same over a run: what the handles name, what stood at first, and how strictly replies are judged.
#[derive(Drop)]
pub struct TreeSetting {
    /// Which object each handle names.
    pub binds: Binds,
    /// The objects that stood at first.
    pub start: Start,
    /// How strictly replies are judged.
    pub profile: Profile,
}
