//! Which failures may answer a call on a file tree, and where the calls that leave it may succeed with their results.
#![tactic(auto)]

mod asked;
mod failure;
mod handle_causes;
mod listing;
mod look;
mod name_causes;
mod name_set;
mod read;
mod rename_causes;

pub use asked::{first_handle, first_place, second_handle, second_place};
pub use failure::{Cause, causes, holds, is_caused_by, is_judged_status, is_permitted};
pub use listing::{readdir_is_legal, readdirplus_is_legal};
pub use look::{
    commit_is_legal, getattr_is_legal, lookup_is_legal, object_named, readlink_is_legal,
};
pub use read::read_is_legal;
pub use tree_handles;
