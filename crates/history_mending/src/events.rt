//! The whole events at the front of some bytes, as far as a log takes them. No message is copied.

ghost use Rattle.std.specs.Prelude.{◌≡◌, ◌⊎◌, ◌+◌, ◌<◌, ◌≤◌, ℕ, List, length, IfOk, MatchBool};
ghost use Rattle.history_file.specs.declared.fault.FileFault.TheVariants.{Truncated};
ghost use Rattle.history_file.specs.Limits.{event_limit};
ghost use Rattle.history_file.specs.Event.{Event};
ghost use Rattle.history_file.specs.HistoryFile.{event};
ghost use Rattle.history_file.specs.Owning.{seen_event};
ghost use Rattle.nfs_history.specs.Checking.{Knows};
ghost use Rattle.history_mending.specs.Fronts.{Begins};
ghost use Rattle.history_mending.specs.Ends.{EventFails, EndsSo};
ghost use Rattle.history_mending.specs.Steps.{IsNext, AreWhole};

use crate::end::End;
use crate::items::event;
use history_file::{EVENT_LIMIT, FileFault, SeenEvent};
use nfs_history::OpenCalls;
use std::alloc::{AllocError, Global};
use xdr_records::Reader;

/// What stands behind some events.
#[derive(Clone, Copy)]
pub enum Next<'a> {
    /// Another event, and what is behind it.
    Another {
        next: SeenEvent<'a>,
        behind: &'a [u8],
    },
    /// No event that is taken: why.
    Ended {
        end: End,
    },
}

/// Events, what is behind the last of them, and why they end there.
#[derive(Drop)]
pub struct WholeEvents<'a> {
    pub events: Vec<SeenEvent<'a>>,
    pub rest: &'a [u8],
    pub end: End,
}

/// Why events end where the next one is cut: whether anything of it is there.
fn cut_end(rest: &[u8]) -> End
    ensures { (over : ℕ) (seen : List Event) → EventFails (length seen + 1) rest.now Truncated → EndsSo over seen rest.now result }
{
    if rest.is_empty() {
        return End::Whole;
    }
    End::Cut
}

/// Why events end where what is left of them isn't one.
fn end_of(rest: &[u8], fault: FileFault) -> End
    ensures { (over : ℕ) (seen : List Event) → EventFails (length seen + 1) rest.now fault → EndsSo over seen rest.now result }
{
    match fault {
        FileFault::Truncated => cut_end(rest),
        _ => End::NoEvent,
    }
}

/// Whether event `number`, and what is ahead of the bytes that are left, is within the limits of a history. Of the file so many bytes
/// pass them.
fn is_within(number: u64, left: &[u8], beyond: usize) -> bool
    ensures { MatchBool result ((number ≤ event_limit) × (beyond ≤ length left.now)) ((event_limit < number) ⊎ (length left.now < beyond)) }
{
    if number > EVENT_LIMIT as u64 {
        return false;
    }
    if left.len() < beyond {
        return false;
    }
    true
}

/// Event `number`, which stands here, if it is taken. Of the file so many bytes pass the limit of a history.
fn taken<'a>(
    known: &OpenCalls,
    number: u64,
    next: SeenEvent<'a>,
    behind: &'a [u8],
    beyond: usize,
) -> Next<'a>
    ensures { (seen : List Event) (rest : List ℕ) → Knows known.now seen → number ≡ length seen + 1 → Begins (event number) (seen_event next.entry) rest behind.now → IsNext beyond seen rest result }
{
    if let Some(fault) = known.fault_of(number, &next) {
        return Next::Ended {
            end: End::CannotFollow(fault),
        };
    }
    if !is_within(number, behind, beyond) {
        return Next::Ended { end: End::Full };
    }
    Next::Another { next, behind }
}

/// What stands behind the events before event `number`. Of the file so many bytes pass the limit of a history.
fn next_in<'a>(known: &OpenCalls, number: u64, rest: &'a [u8], beyond: usize) -> Next<'a>
    ensures { (seen : List Event) → Knows known.now seen → number ≡ length seen + 1 → IsNext beyond seen rest.now result }
{
    let mut reader = Reader::new(rest);
    match event(&mut reader, number) {
        Ok(next) => taken(known, number, next, reader.rest(), beyond),
        Err(fault) => Next::Ended {
            end: end_of(rest, fault),
        },
    }
}

/// The events at the front of the body of a file, of which so many bytes pass the limit of a history.
pub fn whole_events<'a>(
    alloc: Global,
    body: &'a [u8],
    beyond: usize,
) -> Result<WholeEvents<'a>, AllocError>
    requires { beyond ≤ length body.now }
    ensures { IfOk result (AreWhole beyond body.now) }
{
    let mut events = Vec::new(alloc);
    let mut known = OpenCalls::new(alloc);
    let mut rest = body;
    for index in 0..EVENT_LIMIT + 1 {
        match next_in(&known, index as u64 + 1, rest, beyond) {
            Next::Another { next, behind } => {
                known.follow(&next)?;
                events.push(next)?;
                rest = behind;
            }
            Next::Ended { end } => return Ok(WholeEvents { events, rest, end }),
        }
    }
    unreachable!()
}
