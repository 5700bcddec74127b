//! What is known of the calls of a recording, or its first fault.

ghost use Rattle.std.specs.Prelude.{◌≡◌, ◌<◌, ◌^◌, [], map, false, IfOk, IfSome, length, option_map, option_and_then};
ghost use Rattle.std.specs.Option.{option_copied, option_map_or};
ghost use Rattle.history_file.specs.Owning.{all_seen};
ghost use Rattle.nfs_history.specs.Calls.{calls_of, eras_from};
ghost use Rattle.nfs_history.specs.Matching.{seen_call};
ghost use Rattle.nfs_history.specs.Answers.{IsErrorOf};
ghost use Rattle.nfs_history.specs.FirstFault.{FirstFaultOf};
ghost use Rattle.nfs_history.specs.History.{IsRecorded, AreCallsOf};
ghost use Rattle.nfs_history.specs.Precedence.{call_at, begin_of, end_of};
ghost use Rattle.nfs_history.specs.Reread.{item_at, known_as, call_kind};
ghost use Rattle.nfs_history.specs.Standing.{EachMayFollow};
ghost use Rattle.nfs_history.specs.Storage.{storage_value, storage_in, brought_in, has_succeeded};

use crate::checking::follow_all;
use crate::fault::HistoryFault;
use crate::head::LentHead;
use crate::judging::{kinds_of, read_again};
use crate::matching::{SeenCall, count_eras, matched_calls};
use crate::recorded::{CallKind, RecordedCall};
use crate::storage::{StorageCall, brought_again, storage_again};
use history_file::SeenEvent;
use history_file::tree_starts::{Profile, SeenStart};
use nfs3_types::FileHandle;
use std::alloc::{AllocError, Global};
use std::marker::Model;

/// What a history is judged by: what it begins with, its eras and its calls, without its events. Each call was
/// read once, and is read again where its messages stand when it is asked for.
pub struct KnownCalls<'a> {
    head: LentHead<'a>,
    eras: u64,
    seen: Vec<SeenCall<'a>>,
    kinds: Vec<CallKind>,
}

impl<'a> Drop for KnownCalls<'a> {
    fn drop(self) {
        let KnownCalls {
            head,
            eras: _,
            seen,
            kinds,
        } = self;
        drop(head);
        drop(seen);
        drop(kinds);
    }
}

impl<'a> Model for KnownCalls<'a> {
    ghost use Rattle.std.specs.Prelude.{map};
    ghost use Rattle.nfs_history.specs.HistoryValue.{CallsValue};
    ghost use Rattle.nfs_history.specs.Inside.{lent_within};
    ghost use Rattle.nfs_history.specs.Matching.{seen_call};
    ghost use Rattle.nfs_history.specs.Reread.{AreReadTo};

    ghost Value = { CallsValue };

    ghost view = { lent_within };

    // Each call was read without a fault, and is of its kind.
    ghost invariant = { λ k. AreReadTo (map seen_call k.seen.items) k.kinds.items };
}

/// The calls among events of so many eras, which may follow one another. The events are let go.
fn followed_calls<'a>(
    alloc: Global,
    events: Vec<SeenEvent<'a>>,
    eras: u64,
) -> Result<Vec<SeenCall<'a>>, AllocError>
    requires count { eras ≡ eras_from 1 (all_seen events.items) }
    requires follow { EachMayFollow [] (all_seen events.items) }
    ensures { IfOk result (λ v. map seen_call v.items ≡ calls_of (all_seen events.entry.items)) }
{
    let mut calls = matched_calls(alloc, events.as_slice(), eras)?;
    calls.reverse();
    Ok(calls)
}

/// Item `number` of the calls that were seen, from 1 on.
fn seen_at<'s, 'a>(seen: &'s [SeenCall<'a>], number: u64) -> Option<&'s SeenCall<'a>>
    ensures { option_copied result ≡ item_at seen.now number }
{
    if number == 0 {
        return None;
    }
    seen.get(number as usize - 1)
}

/// Item `number` of the calls' kinds, from 1 on. It is proved for any `K`: of a `CallKind` the search looks at each procedure.
fn kind_at<K: Copy>(kinds: &[K], number: u64) -> Option<K>
    ensures { result ≡ item_at kinds.now number }
{
    if number == 0 {
        return None;
    }
    kinds.get(number as usize - 1).copied()
}

impl<'a> KnownCalls<'a> {
    /// What is known of the calls among these events, which are let go before the calls are read.
    pub(crate) fn of_events(
        alloc: Global,
        head: LentHead<'a>,
        events: Vec<SeenEvent<'a>>,
    ) -> Result<KnownCalls<'a>, HistoryFault>
        ensures found { IfOk result (AreCallsOf (record { head = head.entry; events = all_seen events.entry.items })) }
        ensures fault { IsErrorOf (FirstFaultOf (all_seen events.entry.items)) result }
    {
        follow_all(alloc, events.as_slice())?;
        KnownCalls::of_followed(alloc, head, events)
    }

    /// What is known of the calls among these events, which may follow one another, and are let go before the calls are read.
    pub(crate) fn of_followed(
        alloc: Global,
        head: LentHead<'a>,
        events: Vec<SeenEvent<'a>>,
    ) -> Result<KnownCalls<'a>, HistoryFault>
        requires { EachMayFollow [] (all_seen events.items) }
        ensures found { IfOk result (AreCallsOf (record { head = head.entry; events = all_seen events.entry.items })) }
        ensures fault { IsErrorOf (FirstFaultOf (all_seen events.entry.items)) result }
    {
        let eras = count_eras(events.as_slice());
        let seen = followed_calls(alloc, events, eras)?;
        let kinds = kinds_of(alloc, seen.as_slice())?;
        Ok(KnownCalls {
            head,
            eras,
            seen,
            kinds,
        })
    }

    /// The handle of the root directory.
    pub fn root(&self) -> &FileHandle
        ensures { result.now ≡ self.now.head.root }
    {
        self.head.root()
    }

    /// What the server held at first.
    pub fn start(&self) -> &SeenStart<'a>
        ensures { result.now ≡ self.now.head.start }
    {
        self.head.start()
    }

    /// How strictly the replies are judged.
    pub fn profile(&self) -> Profile
        ensures { result ≡ self.now.head.profile }
    {
        self.head.profile()
    }

    /// How many eras there are: one more than the server went down.
    pub fn eras(&self) -> u64
        ensures { result ≡ self.now.eras }
    {
        self.eras
    }

    /// How many calls there are.
    pub fn count(&self) -> usize
        ensures value { result ≡ length self.now.calls }
        ensures few { length self.now.calls < 2 ^ 63 }
    {
        self.kinds.len()
    }

    /// What call `number` is for a plan, where there is one. Calls are numbered from 1, in the order in which they began.
    pub fn kind(&self, number: u64) -> Option<CallKind>
        ensures { result ≡ option_map call_kind (call_at self.now.calls number) }
    {
        kind_at(self.kinds.as_slice(), number)
    }

    /// What each call is for a plan, in the order in which they began.
    pub fn kinds(&self) -> &[CallKind]
        ensures { result.now ≡ map call_kind self.now.calls }
    {
        self.kinds.as_slice()
    }

    // Call `number`, where it was seen.
    fn seen_call(&self, number: u64) -> Option<&SeenCall<'a>>
        ensures value { option_map known_as (option_copied result) ≡ call_at self.now.calls number }
        ensures read { IfSome result (λ c. IsRecorded (seen_call c.now) (known_as c.now)) }
    {
        seen_at(self.seen.as_slice(), number)
    }

    /// The number of the event with which a call began, or 0 where there is no such call.
    pub fn begin(&self, number: u64) -> u64
        ensures { result ≡ begin_of self.now.calls number }
    {
        match self.seen_call(number) {
            Some(call) => call.begin,
            None => 0,
        }
    }

    /// The number of the event of a call's reply, where one came.
    pub fn end(&self, number: u64) -> Option<u64>
        ensures { result ≡ end_of self.now.calls number }
    {
        match self.seen_call(number) {
            Some(call) => call.end(),
            None => None,
        }
    }

    /// The era of a call, from 1 on, where there is such a call.
    pub fn era(&self, number: u64) -> Option<u64>
        ensures { result ≡ option_map (λ call. call.era) (call_at self.now.calls number) }
    {
        match self.seen_call(number) {
            Some(call) => Some(call.era),
            None => None,
        }
    }

    /// The lane of a call, where there is such a call.
    pub fn lane(&self, number: u64) -> Option<u32>
        ensures { result ≡ option_map (λ call. call.lane) (call_at self.now.calls number) }
    {
        match self.seen_call(number) {
            Some(call) => Some(call.lane),
            None => None,
        }
    }

    /// Call `number`, where there is one, read from its messages.
    pub fn call(&self, alloc: Global, number: u64) -> Result<Option<RecordedCall>, AllocError>
        ensures { IfOk result (λ found. found ≡ call_at self.now.calls number) }
    {
        match self.seen_call(number) {
            Some(seen) => Ok(Some(read_again(alloc, seen)?)),
            None => Ok(None),
        }
    }

    /// What call `number` says of stable storage, where it is a WRITE or a COMMIT that succeeded. Its bytes aren't copied.
    pub fn storage(&self, alloc: Global, number: u64) -> Result<Option<StorageCall<'a>>, AllocError>
        ensures { IfOk result (λ found. option_map storage_value found ≡ option_and_then storage_in (call_at self.now.calls number)) }
    {
        match self.seen_call(number) {
            Some(seen) => storage_again(alloc, seen),
            None => Ok(None),
        }
    }

    /// How many bytes call `number` brought, where it is a WRITE. They aren't copied.
    pub fn brought(&self, alloc: Global, number: u64) -> Result<Option<usize>, AllocError>
        ensures { IfOk result (λ found. found ≡ option_and_then brought_in (call_at self.now.calls number)) }
    {
        match self.seen_call(number) {
            Some(seen) => brought_again(alloc, seen),
            None => Ok(None),
        }
    }

    /// Whether call `number` is a judged one that was answered by a success.
    pub fn succeeded(&self, alloc: Global, number: u64) -> Result<bool, AllocError>
        ensures { IfOk result (λ fine. fine ≡ option_map_or has_succeeded (call_at self.now.calls number) false) }
    {
        match self.call(alloc, number)? {
            Some(call) => Ok(call.succeeded()),
            None => Ok(false),
        }
    }
}
