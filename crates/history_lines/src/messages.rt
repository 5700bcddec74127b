//! What a call and a reply say, in words.

use crate::arguments::add_arguments;
use crate::names::{procedure_name, refusal_name};
use crate::results::{add_result, add_status};
use crate::text::Text;
use byteorder::{BigEndian, ByteOrder};
use nfs3_msgs::{Kind, MessageFault, read_args, read_result};
use nfs3_types::{HANDLE_LIMIT, NFS_PROGRAM, NFS_VERSION, NfsCall, NfsReply, Procedure};
use rpc_reader::{CallHead, ReplyBody, SEALED_FLAVOR};
use std::alloc::Global;
use xdr_records::Reader;

/// What a call asked for, which the reply to it doesn't say.
#[derive(Clone, Copy)]
pub struct Asked {
    /// The number of the call.
    pub number: u64,
    program: u32,
    version: u32,
    procedure: u32,
    /// The flavor of its credential.
    flavor: u32,
}

impl Asked {
    /// What call `number` asks for, which has this head.
    pub fn of_head(number: u64, head: &CallHead<'_>) -> Asked {
        Asked {
            number,
            program: head.program,
            version: head.version,
            procedure: head.procedure,
            flavor: head.flavor,
        }
    }

    /// Its procedure, where it is one of NFS version 3.
    pub fn procedure(&self) -> Option<Procedure> {
        if self.is_of_nfs() {
            Procedure::from_number(self.procedure)
        } else {
            None
        }
    }

    /// Whether it is of NFS version 3.
    fn is_of_nfs(&self) -> bool {
        self.program == NFS_PROGRAM && self.version == NFS_VERSION
    }

    /// Whether its arguments and its result are hidden.
    fn is_sealed(&self) -> bool {
        self.flavor == SEALED_FLAVOR
    }
}

/// Appends which procedure a call is of.
fn add_procedure(text: &mut Text<'_>, asked: &Asked) {
    if asked.is_of_nfs() {
        if let Some(procedure) = Procedure::from_number(asked.procedure) {
            text.add_words(" ");
            text.add_words(procedure_name(procedure));
            return;
        }
    } else {
        text.add_number(" program ", u64::from(asked.program));
        text.add_number(" version ", u64::from(asked.version));
    }
    text.add_number(" procedure ", u64::from(asked.procedure));
}

/// Whether it is the number of a procedure whose arguments begin with a handle and its results with a
/// status: of each but NULL.
fn has_handle_and_status(procedure: u32) -> bool {
    match Procedure::from_number(procedure) {
        None | Some(Procedure::Null) => false,
        Some(_) => true,
    }
}

/// Appends the arguments of a procedure whose messages aren't read: those that have any begin with a handle.
fn add_other_arguments(text: &mut Text<'_>, procedure: u32, arguments: &[u8]) {
    let mut reader = Reader::new(arguments);
    if has_handle_and_status(procedure) {
        if let Ok(handle) = reader.opaque(HANDLE_LIMIT as u32) {
            text.add_handle(" object ", handle);
        }
    }
    text.add_any_bytes(" arguments ", reader.rest());
}

/// Appends bytes that are no arguments, or no results, with the place of the first item at fault.
fn add_bad(text: &mut Text<'_>, words: &str, bytes: &[u8], at: usize) {
    text.add_bytes(words, bytes);
    text.add_number(" fault at byte ", at as u64);
}

/// Appends arguments that were read.
fn add_read_arguments(text: &mut Text<'_>, call: NfsCall) {
    add_arguments(text, &call);
}

/// Appends arguments that weren't read, for this reason.
fn add_unread_arguments(
    text: &mut Text<'_>,
    procedure: u32,
    arguments: &[u8],
    fault: MessageFault,
) {
    match fault {
        MessageFault::NoMemory => text.note_no_memory(),
        MessageFault::BadMessage { at, kind } => {
            if matches!(kind, Kind::NotJudged) {
                add_other_arguments(text, procedure, arguments);
            } else {
                add_bad(text, " bad arguments ", arguments, at);
            }
        }
    }
}

/// Appends what a call asks for.
pub fn add_call(alloc: Global, text: &mut Text<'_>, asked: &Asked, arguments: &[u8]) {
    add_procedure(text, asked);
    if asked.is_sealed() {
        text.add_words(" sealed");
    }
    if asked.is_sealed() || !asked.is_of_nfs() {
        text.add_any_bytes(" arguments ", arguments);
        return;
    }
    match read_args(alloc, asked.procedure, arguments) {
        Ok(call) => add_read_arguments(text, call),
        Err(fault) => add_unread_arguments(text, asked.procedure, arguments, fault),
    }
}

/// Appends a result of which only the status is read, where there is one.
fn add_other_results(text: &mut Text<'_>, procedure: u32, results: &[u8]) {
    if !has_handle_and_status(procedure) || results.len() < 4 {
        add_success(text, results);
        return;
    }
    add_status(text, BigEndian::read_u32(results));
    text.add_any_bytes(" results ", &results[4..]);
}

/// Appends results that aren't read.
fn add_success(text: &mut Text<'_>, results: &[u8]) {
    text.add_words(" SUCCESS");
    text.add_any_bytes(" results ", results);
}

/// Appends results that were read.
fn add_read_results(text: &mut Text<'_>, reply: NfsReply) {
    add_result(text, &reply);
}

/// Appends results that weren't read, for this reason.
fn add_unread_results(text: &mut Text<'_>, procedure: u32, results: &[u8], fault: MessageFault) {
    match fault {
        MessageFault::NoMemory => text.note_no_memory(),
        MessageFault::BadMessage { at, kind } => {
            if matches!(kind, Kind::NotJudged) {
                add_other_results(text, procedure, results);
            } else {
                add_bad(text, " bad results ", results, at);
            }
        }
    }
}

/// Appends what the result of a call says.
fn add_results(alloc: Global, text: &mut Text<'_>, asked: &Asked, results: &[u8]) {
    if asked.is_sealed() {
        text.add_words(" SUCCESS sealed");
        text.add_any_bytes(" results ", results);
        return;
    }
    if !asked.is_of_nfs() {
        add_success(text, results);
        return;
    }
    match read_result(alloc, asked.procedure, results) {
        Ok(reply) => add_read_results(text, reply),
        Err(fault) => add_unread_results(text, asked.procedure, results, fault),
    }
}

/// Appends a range of versions.
fn add_versions(text: &mut Text<'_>, words: &str, low: u32, high: u32) {
    text.add_words(words);
    text.add_number(" low ", u64::from(low));
    text.add_number(" high ", u64::from(high));
}

/// Appends why a caller isn't believed.
fn add_refusal(text: &mut Text<'_>, number: u32) {
    match refusal_name(number) {
        Some(name) => {
            text.add_words(" AUTH_ERROR ");
            text.add_words(name);
        }
        None => text.add_number(" AUTH_ERROR ", u64::from(number)),
    }
}

/// Appends what a reply says to a call, which isn't known where it answers none.
pub fn add_reply(alloc: Global, text: &mut Text<'_>, asked: Option<Asked>, body: &ReplyBody<'_>) {
    if let Some(asked) = asked {
        add_procedure(text, &asked);
    }
    match body {
        ReplyBody::Success(results) => match asked {
            Some(asked) => add_results(alloc, text, &asked, *results),
            None => add_success(text, *results),
        },
        ReplyBody::ProgUnavail => text.add_words(" PROG_UNAVAIL"),
        ReplyBody::ProgMismatch(low, high) => add_versions(text, " PROG_MISMATCH", *low, *high),
        ReplyBody::ProcUnavail => text.add_words(" PROC_UNAVAIL"),
        ReplyBody::GarbageArgs => text.add_words(" GARBAGE_ARGS"),
        ReplyBody::SystemErr => text.add_words(" SYSTEM_ERR"),
        ReplyBody::RpcMismatch(low, high) => add_versions(text, " RPC_MISMATCH", *low, *high),
        ReplyBody::AuthError(number) => add_refusal(text, *number),
    }
}
