//! What handles name in a file tree, and what names lead to in its directories.
#![tactic(auto)]

mod agreement;
mod binds;
mod entry;
mod handle_table;
mod kind;
mod live;
mod objects;
mod own_numbers;
mod padded;
mod pairs;
mod places;
mod short_handle;

pub use binds::Binds;
pub use entry::{entry_at, named};
pub use kind::{is_directory, is_file, is_link};
pub use live::{FileEntry, View, directory_of, file_of, gives_object, is_bound, live_entry};
pub use tree_nodes;
pub use tree_starts::{is_dot, is_plain, is_two_dots};
