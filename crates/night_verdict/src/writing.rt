//! The history of a night.

ghost use Rattle.std.specs.Prelude.{◌≡◌, IfOk, [], length};
ghost use Rattle.history_file.specs.Writing.{file_text_from, IsOverLimitFrom, IsLargeOnlyIf};

use history_file::{WriteFault, write_history_from};
use nfs_tap::TapLog;
use std::alloc::Global;
use tree_starts::{Profile, Start};

/// The bytes of a night's history file, in version 2: the objects that stood at the export, and the events as they were noted.
pub fn night_history(
    alloc: Global,
    profile: Profile,
    start: &Start,
    log: &TapLog,
) -> Result<Vec<u8>, WriteFault>
    ensures text { IfOk result (λ history. history.items
        ≡ file_text_from (record { root = log.now.head.root; start = start.now; profile = profile }) log.now.events) }
    // It is too large only where it is over a limit of a history's file.
    ensures large { IsLargeOnlyIf
        (IsOverLimitFrom (record { root = log.now.head.root; start = start.now; profile = profile }) log.now.events) result }
{
    write_history_from(alloc, log.root().as_slice(), profile, start, log.events())
}
