//! One record of a journal, as a step of its tree.

ghost use Rattle.std.specs.Prelude.{◌≡◌, ◌≤◌, ◌^◌, Some, IfOk, IfErr, OnOk, MatchOption};
ghost use Rattle.nfs3_types.specs.declared.replies.Outcome.TheVariants.{Received};
ghost use Rattle.journal.specs.Exactly.{IsOnly};
ghost use Rattle.journal.specs.Journal.{IsJournalRecord};
ghost use Rattle.tree_starts.specs.Start.{object_made};
ghost use Rattle.file_tree.specs.Setting.{under};
ghost use Rattle.journal.specs.Taking.{after_change, with_handle, IsMade, IsTaken, IsUnread, StepStops, MakeStops, StopsAt};

use crate::change::{Change, read_record};
use crate::naming::{name_object, object_made};
use crate::rebuild_fault::RebuildFault;
use crate::record_fault::RecordFault;
use crate::text::JournalRecord;
use file_tree::{Binds, FileTree, Profile};
use nfs3_types::{NfsCall, Outcome};
use replay_law::StepFault;
use std::alloc::{AllocError, Global};

/// The change of the record with this number.
fn change_in(alloc: Global, number: u64, bytes: &[u8]) -> Result<Change, RebuildFault>
    ensures read { IfOk result (IsOnly (IsJournalRecord bytes.now)) }
    ensures fault { IfErr result (IsUnread number bytes.now) }
{
    match read_record(alloc, bytes) {
        Ok(change) => Ok(change),
        Err(RecordFault::NoRecord) => Err(RebuildFault::NoRecord(number)),
        Err(RecordFault::NoMemory) => Err(RebuildFault::NoMemory),
    }
}

/// Takes the step of the record with this number: a call, which makes this object if any, with how it came out.
fn take_step(
    profile: Profile,
    tree: &mut FileTree,
    binds: &Binds,
    number: u64,
    object: u64,
    call: &NfsCall,
    outcome: &Outcome,
) -> Result<(), RebuildFault>
    ensures ok { OnOk result (under profile binds.now tree.old object call.now outcome.now ≡ Some tree.new) }
    ensures fault { IfErr result (StepStops number (under profile binds.now tree.old object call.now outcome.now)) }
{
    match tree.step_under(profile, binds, object, call, outcome) {
        Ok(undo) => {
            drop(undo);
            Ok(())
        }
        Err(StepFault::NotAllowed) => Err(RebuildFault::NotLegal(number)),
        Err(StepFault::NoMemory) => Err(RebuildFault::NoMemory),
    }
}

/// Drops what was read of a record.
fn put_away(written: JournalRecord, call: NfsCall, outcome: Outcome) {
    drop(written);
    drop(call);
    drop(outcome);
}

/// Takes the step of a change that makes this object, if any. Its record has this number.
fn take_change(
    profile: Profile,
    tree: &mut FileTree,
    binds: &Binds,
    number: u64,
    object: u64,
    change: Change,
) -> Result<(), RebuildFault>
    ensures ok { OnOk result (after_change profile binds.now tree.old object change ≡ Some tree.new) }
    ensures fault { IfErr result (StepStops number (after_change profile binds.now tree.old object change)) }
{
    let Change {
        written,
        call,
        reply,
    } = change;
    let outcome = Outcome::Received(reply);
    let result = take_step(profile, tree, binds, number, object, &call, &outcome);
    put_away(written, call, outcome);
    result
}

/// Makes a change: its object gets its handle, and the step is taken. Its record has this number.
fn make_change(
    profile: Profile,
    first: u64,
    tree: &mut FileTree,
    binds: &mut Binds,
    number: u64,
    change: Change,
) -> Result<(), RebuildFault>
    ensures ok { OnOk result (IsMade profile first change binds.old tree.old binds.new tree.new) }
    ensures fault { IfErr result (MakeStops profile first number change binds.old tree.old) }
{
    let Some(object) = object_made(first, change.written.number) else {
        return Err(RebuildFault::NotLegal(number));
    };
    name_object(binds, object)?;
    take_change(profile, tree, binds, number, object, change)
}

/// Takes the record with this number: its call's object gets its handle, and its change is made.
pub(crate) fn take_record(
    alloc: Global,
    profile: Profile,
    first: u64,
    tree: &mut FileTree,
    binds: &mut Binds,
    number: u64,
    bytes: &[u8],
) -> Result<(), RebuildFault>
    ensures ok { OnOk result (IsTaken profile first bytes.now binds.old tree.old binds.new tree.new) }
    ensures fault { IfErr result (StopsAt profile first number bytes.now binds.old tree.old) }
{
    let change = change_in(alloc, number, bytes)?;
    make_change(profile, first, tree, binds, number, change)
}
