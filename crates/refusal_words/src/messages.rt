//! What of a message is at fault.

use crate::history::push_line;
use history_file::SeenEvent;
use history_lines::Text;
use nfs3_msgs::{Kind, MessageFault, read_args, read_result};
use rpc_reader::{ReplyBody, RpcFault, read_call, read_reply};
use std::alloc::{AllocError, Global};

/// A line of what is wrong at a byte of a message.
fn push_at(lines: &mut Vec<u8>, alloc: Global, at: usize, words: &str) -> Result<(), AllocError> {
    let mut text = Text::new(alloc);
    text.push_number("  at byte ", at as u64)?;
    text.push_words(" of its message: ")?;
    text.push_words(words)?;
    push_line(lines, text)
}

/// What is wrong with an item.
fn item_words(kind: Kind) -> &'static str {
    match kind {
        // Of the result of a LINK or a MKNOD the status alone is read.
        Kind::Short | Kind::NotJudged => "bytes are missing",
        Kind::BadFlag => "a flag is neither 0 nor 1",
        Kind::TooLong => "a length is over its limit",
        Kind::Trailing => "bytes follow the last item",
        Kind::BadEnum => "a word that has no meaning there",
    }
}

/// A line of the first item at fault in a part of a message, which is its last one.
fn push_item(
    lines: &mut Vec<u8>,
    alloc: Global,
    message: &[u8],
    part: &[u8],
    fault: MessageFault,
) -> Result<(), AllocError> {
    match fault {
        MessageFault::NoMemory => Err(AllocError),
        MessageFault::BadMessage { at, kind } => {
            let front = message.len().saturating_sub(part.len());
            push_at(lines, alloc, front.saturating_add(at), item_words(kind))
        }
    }
}

/// A line of the first item at fault in the arguments of a call.
pub(crate) fn push_arguments_fault(
    lines: &mut Vec<u8>,
    alloc: Global,
    message: &[u8],
) -> Result<(), AllocError> {
    let Ok(head) = read_call(message) else {
        return Ok(());
    };
    match read_args(alloc, head.procedure, head.args) {
        Ok(call) => {
            drop(call);
            Ok(())
        }
        Err(fault) => push_item(lines, alloc, message, head.args, fault),
    }
}

/// The bytes of the results in a reply; none where there are none.
fn results_of(message: &[u8]) -> Option<&[u8]> {
    let Ok(head) = read_reply(message) else {
        return None;
    };
    match head.body {
        ReplyBody::Success(results) => Some(results),
        _ => None,
    }
}

/// A line of the first item at fault in the result of a reply, to this call.
pub(crate) fn push_result_fault(
    lines: &mut Vec<u8>,
    alloc: Global,
    call: &[u8],
    reply: &[u8],
) -> Result<(), AllocError> {
    let Ok(head) = read_call(call) else {
        return Ok(());
    };
    let Some(results) = results_of(reply) else {
        return Ok(());
    };
    match read_result(alloc, head.procedure, results) {
        Ok(result) => {
            drop(result);
            Ok(())
        }
        Err(fault) => push_item(lines, alloc, reply, results, fault),
    }
}

/// Why a message is none of RPC, as its event says.
fn head_fault(event: &SeenEvent<'_>) -> Option<RpcFault> {
    match event {
        SeenEvent::Call { message, .. } => match read_call(message) {
            Ok(_) => None,
            Err(fault) => Some(fault),
        },
        SeenEvent::Reply { message, .. } => match read_reply(message) {
            Ok(_) => None,
            Err(fault) => Some(fault),
        },
        SeenEvent::Close { .. } | SeenEvent::Crash => None,
    }
}

/// A line of what is wrong with the head of a message.
pub(crate) fn push_head_fault(
    lines: &mut Vec<u8>,
    alloc: Global,
    event: &SeenEvent<'_>,
) -> Result<(), AllocError> {
    let Some(fault) = head_fault(event) else {
        return Ok(());
    };
    let words = format!(in alloc; "{fault}")?;
    let mut text = Text::new(alloc);
    text.push_words("  in its head: ")?;
    text.push_words(words.as_str())?;
    push_line(lines, text)
}
