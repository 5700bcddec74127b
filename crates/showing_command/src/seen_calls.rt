//! The calls of a history, and which of them touch an object.

use crate::names::{Change, Names};
use history_file::SeenEvent;
use history_lines::{SoughtHandle, short_of};
use indexmap::{IndexMap, IndexSet};
use nfs3_msgs::{Kind, MessageFault, NfsCall, NfsReply, read_args, read_result};
use nfs3_types::{
    Answer, DirectoryName, FileHandle, HANDLE_LIMIT, NFS_PROGRAM, NFS_VERSION, Procedure,
    ReadDirPlusSuccess,
};
use rpc_reader::{CallHead, ReplyBody, SEALED_FLAVOR, read_call, read_reply};
use std::alloc::{AllocError, Global};
use tree_answers::{first_place, second_handle, second_place};
use xdr_records::Reader;

/// A call, as far as it may touch the object.
#[derive(Clone, Copy)]
struct SeenCall {
    /// The number of its event.
    event: u64,
    /// The number of its reply's event.
    reply: Option<u64>,
    /// Whether the call or its reply has the object's handle.
    has_handle: bool,
    /// The number of the name in its arguments, of a RENAME the old one.
    name: Option<usize>,
    /// The number of a RENAME's new name.
    new_name: Option<usize>,
}

/// A call that is unanswered.
#[derive(Clone, Copy)]
struct Unanswered<'a> {
    /// The index of the call.
    call: usize,
    /// The index of the change that is kept for it.
    change: usize,
    /// Its procedure, if its arguments and its result can be read.
    procedure: Option<Procedure>,
    arguments: &'a [u8],
}

/// The calls of a history so far, as far as they may touch the object with a handle.
pub(crate) struct SeenCalls<'a> {
    alloc: Global,
    sought: SoughtHandle,
    calls: Vec<SeenCall>,
    names: Names,
    /// The calls that are unanswered, by lane and transaction number.
    unanswered: IndexMap<(u32, u32), Unanswered<'a>>,
}

impl Drop for SeenCalls<'_> {
    fn drop(self) {
        let SeenCalls {
            alloc: _,
            sought,
            calls,
            names,
            unanswered,
        } = self;
        drop(sought);
        drop(calls);
        drop(names);
        drop(unanswered);
    }
}

/// The procedure of a call, if it is one of NFS version 3 and isn't hidden.
fn procedure_of(head: &CallHead<'_>) -> Option<Procedure> {
    if head.program != NFS_PROGRAM || head.version != NFS_VERSION || head.flavor == SEALED_FLAVOR {
        return None;
    }
    Procedure::from_number(head.procedure)
}

/// The handle with which arguments begin, if they begin with one.
fn leading_handle(arguments: &[u8]) -> Option<&[u8]> {
    match Reader::new(arguments).opaque(HANDLE_LIMIT as u32) {
        Ok(handle) => Some(handle),
        Err(_) => None,
    }
}

/// Whether results of a procedure may give a handle, or say that a name was moved or removed.
fn tells_of_names(procedure: Procedure) -> bool {
    matches!(
        procedure,
        Procedure::Lookup
            | Procedure::Create
            | Procedure::MkDir
            | Procedure::SymLink
            | Procedure::Remove
            | Procedure::RmDir
            | Procedure::Rename
            | Procedure::ReadDirPlus
    )
}

/// The handle that a reply gives of what its call made or looked up.
fn given_by(reply: &NfsReply) -> Option<&FileHandle> {
    match reply {
        NfsReply::Create(Answer::Done(success))
        | NfsReply::MkDir(Answer::Done(success))
        | NfsReply::SymLink(Answer::Done(success)) => success.object.as_ref(),
        NfsReply::Lookup(Answer::Done(success)) => Some(&success.object),
        _ => None,
    }
}

/// What a call may change before it is answered, or if it never is.
fn begun_change(seen: &SeenCall) -> Change {
    match (seen.name, seen.new_name) {
        (Some(from), Some(to)) => Change::MayMove { from, to },
        _ => Change::Nothing,
    }
}

/// What a RENAME that succeeded changed.
fn moved(seen: &SeenCall) -> Change {
    match (seen.name, seen.new_name) {
        (Some(from), Some(to)) => Change::Moved { from, to },
        _ => Change::Nothing,
    }
}

/// What a REMOVE or an RMDIR that succeeded changed.
fn removed(seen: &SeenCall) -> Change {
    match seen.name {
        Some(name) => Change::Removed(name),
        None => Change::Nothing,
    }
}

/// What a success that doesn't give the object's handle changed.
fn ended_change(seen: &SeenCall, reply: &NfsReply) -> Change {
    match reply {
        NfsReply::Rename(_) => moved(seen),
        NfsReply::Remove(_) | NfsReply::RmDir(_) => removed(seen),
        _ => Change::Nothing,
    }
}

impl<'a> SeenCalls<'a> {
    /// No calls.
    pub(crate) fn new(alloc: Global, sought: SoughtHandle) -> SeenCalls<'a> {
        SeenCalls {
            alloc,
            sought,
            calls: Vec::new(alloc),
            names: Names::new(alloc),
            unanswered: IndexMap::new(alloc),
        }
    }

    /// Whether a handle is the object's.
    fn is_sought(&self, handle: &[u8]) -> bool {
        match &self.sought {
            SoughtHandle::Whole(bytes) => bytes.as_slice() == handle,
            SoughtHandle::Short(short) => *short == short_of(handle),
        }
    }

    /// Whether a handle is there, and is the object's.
    fn is_sought_there(&self, handle: Option<&FileHandle>) -> bool {
        match handle {
            Some(handle) => self.is_sought(handle.as_slice()),
            None => false,
        }
    }

    /// Whether arguments begin with the object's handle.
    fn is_first_handle(&self, arguments: &[u8]) -> bool {
        match leading_handle(arguments) {
            Some(handle) => self.is_sought(handle),
            None => false,
        }
    }

    /// The number of a name in a directory, where there is one.
    fn number_of(&mut self, place: Option<&DirectoryName>) -> Result<Option<usize>, AllocError> {
        match place {
            Some(place) => Ok(Some(
                self.names
                    .number_of(place.directory.as_slice(), place.name.as_slice())?,
            )),
            None => Ok(None),
        }
    }

    /// A call with these arguments, which is event `event`.
    fn with_arguments(&mut self, event: u64, call: &NfsCall) -> Result<SeenCall, AllocError> {
        Ok(SeenCall {
            event,
            reply: None,
            has_handle: self.is_sought(tree_answers::first_handle(call).as_slice())
                || self.is_sought_there(second_handle(call)),
            name: self.number_of(first_place(call))?,
            new_name: self.number_of(second_place(call))?,
        })
    }

    /// The same of arguments that are dropped.
    fn with_read(&mut self, event: u64, call: NfsCall) -> Result<SeenCall, AllocError> {
        self.with_arguments(event, &call)
    }

    /// The call that is event `event`.
    fn seen_call(
        &mut self,
        event: u64,
        procedure: Option<Procedure>,
        arguments: &[u8],
    ) -> Result<SeenCall, AllocError> {
        let mut seen = SeenCall {
            event,
            reply: None,
            has_handle: false,
            name: None,
            new_name: None,
        };
        let Some(procedure) = procedure else {
            return Ok(seen);
        };
        match read_args(self.alloc, procedure.number(), arguments) {
            Ok(call) => return self.with_read(event, call),
            Err(MessageFault::NoMemory) => return Err(AllocError),
            Err(MessageFault::BadMessage { at: _, kind }) => {
                seen.has_handle = matches!(kind, Kind::NotJudged)
                    && self.is_first_handle(arguments);
            }
        }
        Ok(seen)
    }

    /// Takes in a call, which is event `event`.
    fn take_call(&mut self, event: u64, lane: u32, message: &'a [u8]) -> Result<(), AllocError> {
        let Ok(head) = read_call(message) else {
            return Ok(());
        };
        let procedure = procedure_of(&head);
        let seen = self.seen_call(event, procedure, head.args)?;
        let asked = Unanswered {
            call: self.calls.len(),
            change: self.names.add(begun_change(&seen))?,
            procedure,
            arguments: head.args,
        };
        self.calls.push(seen)?;
        self.unanswered.insert((lane, head.xid), asked)?;
        Ok(())
    }

    /// Notes that the reply to a call gives the object's handle for a name, which the call may have found before others that overlap it.
    fn note_given(
        &mut self,
        asked: &Unanswered<'a>,
        name: Option<usize>,
    ) -> Result<(), AllocError> {
        if let Some(seen) = self.calls.get_mut(asked.call) {
            seen.has_handle = true;
        }
        if let Some(name) = name {
            self.names.replace(asked.change, Change::Given(name));
            self.names.add(Change::Given(name))?;
        }
        Ok(())
    }

    /// The number of a name in a list of the directory with which arguments begin.
    fn listed_name(&mut self, arguments: &[u8], name: &[u8]) -> Result<Option<usize>, AllocError> {
        match leading_handle(arguments) {
            Some(directory) => Ok(Some(self.names.number_of(directory, name)?)),
            None => Ok(None),
        }
    }

    /// Takes in the list that answers a call.
    fn take_list(
        &mut self,
        asked: &Unanswered<'a>,
        list: &ReadDirPlusSuccess,
    ) -> Result<(), AllocError> {
        for entry in list.entries.as_slice() {
            if self.is_sought_there(entry.object.as_ref()) {
                let name = self.listed_name(asked.arguments, entry.name.as_slice())?;
                self.note_given(asked, name)?;
            }
        }
        Ok(())
    }

    /// Takes in the success of a call.
    fn take_success(&mut self, asked: &Unanswered<'a>, reply: &NfsReply) -> Result<(), AllocError> {
        if let NfsReply::ReadDirPlus(Answer::Done(list)) = reply {
            return self.take_list(asked, list);
        }
        let Some(seen) = self.calls.get(asked.call).copied() else {
            return Ok(());
        };
        if self.is_sought_there(given_by(reply)) {
            return self.note_given(asked, seen.name);
        }
        self.names.add(ended_change(&seen, reply))?;
        Ok(())
    }

    /// Takes in the result of a call. A RENAME that fails moves nothing.
    fn take_result(&mut self, asked: &Unanswered<'a>, reply: NfsReply) -> Result<(), AllocError> {
        if reply.failure().is_some() {
            self.names.replace(asked.change, Change::Nothing);
            return Ok(());
        }
        self.take_success(asked, &reply)
    }

    /// Takes in the bytes of a result.
    fn take_results(&mut self, asked: &Unanswered<'a>, results: &[u8]) -> Result<(), AllocError> {
        let Some(procedure) = asked.procedure else {
            return Ok(());
        };
        if !tells_of_names(procedure) {
            return Ok(());
        }
        match read_result(self.alloc, procedure.number(), results) {
            Ok(reply) => self.take_result(asked, reply),
            Err(MessageFault::NoMemory) => Err(AllocError),
            Err(MessageFault::BadMessage { .. }) => Ok(()),
        }
    }

    /// Takes in a reply, which is event `event`.
    fn take_reply(&mut self, event: u64, lane: u32, message: &[u8]) -> Result<(), AllocError> {
        let Ok(head) = read_reply(message) else {
            return Ok(());
        };
        let Some(asked) = self.unanswered.swap_remove(&(lane, head.xid)) else {
            return Ok(());
        };
        if let Some(seen) = self.calls.get_mut(asked.call) {
            seen.reply = Some(event);
        }
        match head.body {
            ReplyBody::Success(results) => self.take_results(&asked, results),
            _ => {
                self.names.replace(asked.change, Change::Nothing);
                Ok(())
            }
        }
    }

    /// Takes in event `number`, which follows all that were taken in before.
    pub(crate) fn take_event(
        &mut self,
        number: u64,
        event: &SeenEvent<'a>,
    ) -> Result<(), AllocError> {
        match event {
            SeenEvent::Call { lane, message } => self.take_call(number, *lane, *message),
            SeenEvent::Reply { lane, message } => self.take_reply(number, *lane, *message),
            SeenEvent::Close { .. } | SeenEvent::Crash => Ok(()),
        }
    }

    /// The numbers of the events that are calls that touch the object, or replies to them.
    pub(crate) fn touching(&self) -> Result<IndexSet<u64>, AllocError> {
        let held = self.names.held()?;
        let mut numbers = IndexSet::new(self.alloc);
        for call in self.calls.as_slice() {
            if call.has_handle
                || held.was_ever_held(call.name)
                || held.was_ever_held(call.new_name)
            {
                numbers.insert(call.event)?;
                if let Some(reply) = call.reply {
                    numbers.insert(reply)?;
                }
            }
        }
        Ok(numbers)
    }
}
