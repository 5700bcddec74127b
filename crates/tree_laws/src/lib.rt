//! Laws of the file tree over which calls are judged, in the words of RFC 1813. The functions do nothing:
//! each one's contract is a law, proved of the definitions that the contracts of `file_tree` name.

#![tactic(auto)]

mod bytes;
mod example;
mod failures;
mod first;
mod objects;
mod one_path;
mod reading;
mod removals;
mod renames;
mod runs;
mod strict;
mod taken;
mod waiting;

pub use bytes::each_byte_is_set_or_stays;
pub use example::the_premises_are_met;
pub use failures::a_failure_leaves_the_tree;
pub use first::{
    a_start_stands_as_it_says, what_stood_at_first_is_read, what_stood_at_first_stays,
};
pub use objects::{only_its_own_object_is_new, other_handles_make_no_difference};
pub use one_path::a_call_changes_one_path;
pub use reading::what_is_written_is_read;
pub use removals::removals_take_one_node_away;
pub use renames::a_rename_moves_what_it_names;
pub use runs::{
    a_live_handle_stays_live, an_object_keeps_its_type, every_tree_is_well_formed,
    only_directories_have_entries,
};
pub use strict::{attributes_tell_the_truth, what_is_strict_is_plain};
pub use taken::a_success_may_be_taken;
pub use waiting::a_handle_waits_for_its_object;
