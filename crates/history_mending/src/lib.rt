//! What a recorder noted is on disk: the history of the whole events in a file that was left as it was written so far, and what is
//! appended to such a file.
#![tactic(auto)]

mod end;
mod events;
mod file;
mod head;
mod items;
mod laws;
mod mending;
mod part;

pub use end::End;
pub use file::mended_file;
pub use head::SeenHead;
pub use laws::{
    a_cut_gives_the_whole_events, a_history_file_is_mended_whole, bytes_are_mended_one_way,
};
pub use mending::{Mended, mend};
pub use part::{append_event, part_head, part_head_from, put_next};
