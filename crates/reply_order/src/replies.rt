//! The replies of a history, in their order.

ghost use Rattle.std.specs.Prelude.{◌≡◌, length, map, IfOk};
ghost use Rattle.reply_order.specs.declared.replies.Reply.{Reply};
ghost use Rattle.reply_order.specs.ReplyOrder.{AreAnsweredInOrder};
ghost use Rattle.reply_order.specs.Making.{reply_at, replies_up_to, AreInOrder};

use nfs_history::{CallKind, KnownCalls};
use std::alloc::{AllocError, Global};

/// The reply to a judged call.
#[derive(Clone, Copy)]
pub struct Reply {
    /// The call's number.
    pub number: u64,
    /// The number of the event.
    pub end: u64,
    /// The era of the call, counted from 1.
    pub era: u64,
}

/// The reply to call `number`, where that is an answered judged one.
fn reply_at(history: &KnownCalls<'_>, number: u64) -> Option<Reply>
    ensures { result ≡ reply_at history.now.calls number }
{
    let Some(CallKind::Answered(..)) = history.kind(number) else {
        return None;
    };
    let era = history.era(number)?;
    let end = history.end(number).unwrap_or(0);
    Some(Reply { number, end, era })
}

/// The replies in the order of their calls.
fn all_replies(alloc: Global, history: &KnownCalls<'_>) -> Result<Vec<Reply>, AllocError>
    ensures { IfOk result (λ v. v.items ≡ replies_up_to history.now.calls (length history.now.calls)) }
{
    let mut replies = Vec::new(alloc);
    for index in 0..history.count() {
        if let Some(reply) = reply_at(history, index as u64 + 1) {
            replies.push(reply)?;
        }
    }
    Ok(replies)
}

/// The replies in their order.
pub fn ordered_replies(alloc: Global, history: &KnownCalls<'_>) -> Result<Vec<Reply>, AllocError>
    ensures { IfOk result (λ v. AreInOrder history.now.calls v.items) }
{
    let mut replies = all_replies(alloc, history)?;
    replies.sort_by_key(|reply| reply.end)?;
    Ok(replies)
}

/// The numbers of the calls.
fn numbers_of(alloc: Global, replies: &[Reply]) -> Result<Vec<u64>, AllocError>
    ensures { IfOk result (λ v. v.items ≡ map (λ (r : Reply). r.number) replies.now) }
{
    replies.iter().map(|reply| reply.number).collect(alloc)
}

/// The numbers of the answered judged calls of all eras, in the order of their replies. It takes the time of a sort.
pub fn replies_in_order(alloc: Global, history: &KnownCalls<'_>) -> Result<Vec<u64>, AllocError>
    ensures { IfOk result (λ numbers. AreAnsweredInOrder history.now.calls numbers.items) }
{
    let replies = ordered_replies(alloc, history)?;
    let numbers = numbers_of(alloc, replies.as_slice())?;
    Ok(numbers)
}
