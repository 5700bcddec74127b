//! The calls of a history, lent.

ghost use Rattle.std.specs.Prelude.{◌≡◌, ◌<◌, ◌^◌, false, IfOk, length, option_map, option_and_then};
ghost use Rattle.std.specs.Option.{option_map_or};
ghost use Rattle.nfs_history.specs.Precedence.{call_at, begin_of, end_of};
ghost use Rattle.nfs_history.specs.Reread.{call_kind};
ghost use Rattle.nfs_history.specs.Storage.{storage_value, storage_in, brought_in, has_succeeded};

use crate::history::History;
use crate::knowing::KnownCalls;
use crate::recorded::CallKind;
use crate::storage::StorageCall;
use nfs3_types::FileHandle;
use std::alloc::{AllocError, Global};
use std::marker::Model;

/// Where the calls are kept.
#[derive(Clone, Copy)]
pub(crate) enum Kept<'h, 'a> {
    /// Where their messages stand.
    Seen(&'h KnownCalls<'a>),
    /// Each one read.
    Recorded(&'h History),
}

/// The calls of a history, lent: what a plan is judged by but for its run. To lend them copies nothing. No look-up copies a call's
/// bytes but `succeeded`: it reads the call again where the calls stand as messages, in `KnownCalls`.
#[derive(Drop)]
pub struct LentCalls<'h, 'a> {
    kept: Kept<'h, 'a>,
}

impl<'h, 'a> Model for LentCalls<'h, 'a> {
    ghost use Rattle.nfs_history.specs.HistoryValue.{CallsValue};
    ghost use Rattle.nfs_history.specs.Lent.{kept_within};

    ghost Value = { CallsValue };

    ghost view = { λ l. kept_within l.kept };
}

impl<'a> KnownCalls<'a> {
    /// The same, lent.
    pub fn lend(&self) -> LentCalls<'_, 'a>
        ensures { result ≡ self.now }
    {
        LentCalls {
            kept: Kept::Seen(self),
        }
    }
}

impl History {
    /// Its calls, lent. Nothing is read again.
    pub fn lend(&self) -> LentCalls<'_, '_>
        ensures { result ≡ self.now.known }
    {
        LentCalls {
            kept: Kept::Recorded(self),
        }
    }
}

impl<'h, 'a> LentCalls<'h, 'a> {
    /// The handle of the root directory.
    pub fn root(&self) -> &FileHandle
        ensures { result.now ≡ self.now.head.root }
    {
        match self.kept {
            Kept::Seen(known) => known.root(),
            Kept::Recorded(history) => history.root(),
        }
    }

    /// How many eras there are: one more than the server went down.
    pub fn eras(&self) -> u64
        ensures { result ≡ self.now.eras }
    {
        match self.kept {
            Kept::Seen(known) => known.eras(),
            Kept::Recorded(history) => history.eras(),
        }
    }

    /// How many calls there are.
    pub fn count(&self) -> usize
        ensures value { result ≡ length self.now.calls }
        ensures few { length self.now.calls < 2 ^ 63 }
    {
        match self.kept {
            Kept::Seen(known) => known.count(),
            Kept::Recorded(history) => history.recorded_calls().len(),
        }
    }

    /// What call `number` is for a plan, where there is one. Calls are numbered from 1, in the order in which they began.
    pub fn kind(&self, number: u64) -> Option<CallKind>
        ensures { result ≡ option_map call_kind (call_at self.now.calls number) }
    {
        match self.kept {
            Kept::Seen(known) => known.kind(number),
            Kept::Recorded(history) => match history.find_call(number) {
                Some(call) => Some(call.kind()),
                None => None,
            },
        }
    }

    /// The number of the event with which a call began, or 0 where there is no such call.
    pub fn begin(&self, number: u64) -> u64
        ensures { result ≡ begin_of self.now.calls number }
    {
        match self.kept {
            Kept::Seen(known) => known.begin(number),
            Kept::Recorded(history) => match history.find_call(number) {
                Some(call) => call.begin,
                None => 0,
            },
        }
    }

    /// The number of the event of a call's reply, where one came.
    pub fn end(&self, number: u64) -> Option<u64>
        ensures { result ≡ end_of self.now.calls number }
    {
        match self.kept {
            Kept::Seen(known) => known.end(number),
            Kept::Recorded(history) => match history.find_call(number) {
                Some(call) => call.end,
                None => None,
            },
        }
    }

    /// The era of a call, from 1 on, where there is such a call.
    pub fn era(&self, number: u64) -> Option<u64>
        ensures { result ≡ option_map (λ call. call.era) (call_at self.now.calls number) }
    {
        match self.kept {
            Kept::Seen(known) => known.era(number),
            Kept::Recorded(history) => match history.find_call(number) {
                Some(call) => Some(call.era),
                None => None,
            },
        }
    }

    /// What call `number` says of stable storage, where it is a WRITE or a COMMIT that succeeded.
    pub fn storage(&self, alloc: Global, number: u64) -> Result<Option<StorageCall<'_>>, AllocError>
        ensures { IfOk result (λ found. option_map storage_value found ≡ option_and_then storage_in (call_at self.now.calls number)) }
    {
        match self.kept {
            Kept::Seen(known) => known.storage(alloc, number),
            Kept::Recorded(history) => match history.find_call(number) {
                Some(call) => Ok(call.storage()),
                None => Ok(None),
            },
        }
    }

    /// How many bytes call `number` brought, where it is a WRITE.
    pub fn brought(&self, alloc: Global, number: u64) -> Result<Option<usize>, AllocError>
        ensures { IfOk result (λ found. found ≡ option_and_then brought_in (call_at self.now.calls number)) }
    {
        match self.kept {
            Kept::Seen(known) => known.brought(alloc, number),
            Kept::Recorded(history) => match history.find_call(number) {
                Some(call) => Ok(call.brought()),
                None => Ok(None),
            },
        }
    }

    /// Whether call `number` is a judged one that was answered by a success. A call of `KnownCalls` is read again, with its bytes.
    pub fn succeeded(&self, alloc: Global, number: u64) -> Result<bool, AllocError>
        ensures { IfOk result (λ fine. fine ≡ option_map_or has_succeeded (call_at self.now.calls number) false) }
    {
        match self.kept {
            Kept::Seen(known) => known.succeeded(alloc, number),
            Kept::Recorded(history) => match history.find_call(number) {
                Some(call) => Ok(call.succeeded()),
                None => Ok(false),
            },
        }
    }
}
