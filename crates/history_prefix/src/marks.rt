//! Which events of a history are kept: a mark for each, that of event 1 first.

ghost use Rattle.std.specs.Prelude.{◌≡◌, ◌<◌, ◌+◌, ◌==◌, ◌&&◌, ◌||◌, not, ℕ, cond, nat_le, false, length, get_or, IfOk, OnOk};
ghost use Rattle.history_prefix.specs.Keeping.{is_within, is_event_of, is_named, is_without, is_reply_within};
ghost use Rattle.history_prefix.specs.Marks.{AreMarks, is_other, nth_kept};

use nfs_history::{History, RecordedCall, find_call};
use std::alloc::{AllocError, Global};

/// Changes the mark of a number, where there is one.
fn set_mark(marks: &mut [bool], number: u64, mark: bool)
    ensures count { length marks.new ≡ length marks.old }
    ensures each { (i : ℕ) → i < length marks.old
        → get_or marks.new i false ≡ cond (number == i + 1) mark (get_or marks.old i false) }
{
    if number == 0 || number > marks.len() as u64 {
        return;
    }
    marks[number as usize - 1] = mark;
}

/// So many marks, of which the first ones keep.
fn first_marks(alloc: Global, count: usize, last: u64) -> Result<Vec<bool>, AllocError>
    ensures { IfOk result (λ marks. AreMarks (λ i. nat_le i last) count marks.items) }
{
    let mut marks = Vec::with_capacity(alloc, count)?;
    for index in 0..count {
        marks.push((index as u64) < last)?;
    }
    Ok(marks)
}

/// Keeps the reply of a call that began at one of the first events.
fn keep_reply(marks: &mut [bool], call: &RecordedCall, last: u64)
    ensures count { length marks.new ≡ length marks.old }
    ensures each { (i : ℕ) → i < length marks.old
        → get_or marks.new i false ≡ get_or marks.old i false || is_reply_within last (i + 1) call.now }
{
    if call.begin > last {
        return;
    }
    if let Some(end) = call.end {
        set_mark(marks, end, true);
    }
}

/// For each event of a history whether it is one of the first `last`, or the reply of a call that began among them.
pub fn marks_within(alloc: Global, history: &History, last: u64) -> Result<Vec<bool>, AllocError>
    ensures { IfOk result (λ marks. AreMarks (is_within history.now.known.calls last) (length history.now.events) marks.items) }
{
    let count = history.events().len();
    let calls = history.recorded_calls();
    let mut marks = first_marks(alloc, count, last)?;
    for call in calls {
        keep_reply(marks.as_mut_slice(), call, last);
    }
    Ok(marks)
}

/// Leaves out a call and its reply.
fn leave_out(marks: &mut [bool], call: &RecordedCall)
    ensures count { length marks.new ≡ length marks.old }
    ensures each { (i : ℕ) → i < length marks.old
        → get_or marks.new i false ≡ get_or marks.old i false && not (is_event_of (i + 1) call.now) }
{
    set_mark(marks, call.begin, false);
    if let Some(end) = call.end {
        set_mark(marks, end, false);
    }
}

/// Leaves out the call of a number, where there is one.
fn leave_out_number(marks: &mut [bool], calls: &[RecordedCall], number: u64)
    ensures count { length marks.new ≡ length marks.old }
    ensures each { (i : ℕ) → i < length marks.old
        → get_or marks.new i false ≡ get_or marks.old i false && not (is_named calls.now (i + 1) number) }
{
    if let Some(call) = find_call(calls, number) {
        leave_out(marks, call);
    }
}

/// For each event of a history whether it is no event of the calls of these numbers: neither the call nor its reply.
pub fn marks_without(
    alloc: Global,
    history: &History,
    numbers: &[u64],
) -> Result<Vec<bool>, AllocError>
    ensures { IfOk result (λ marks. AreMarks (is_without history.now.known.calls numbers.now) (length history.now.events) marks.items) }
{
    let count = history.events().len();
    let calls = history.recorded_calls();
    let mut marks = vec![in alloc; true; count]?;
    for number in numbers {
        leave_out_number(marks.as_mut_slice(), calls, *number);
    }
    Ok(marks)
}

/// For each of so many calls whether its number is none of these.
pub fn calls_without(alloc: Global, count: usize, numbers: &[u64]) -> Result<Vec<bool>, AllocError>
    ensures { IfOk result (λ marks. AreMarks (is_other numbers.now) count marks.items) }
{
    let mut marks = vec![in alloc; true; count]?;
    for number in numbers {
        set_mark(marks.as_mut_slice(), *number, false);
    }
    Ok(marks)
}

/// Which number the one that is kept as number `kept` had, where so many are kept.
pub fn number_of(marks: &[bool], kept: u64) -> Option<u64>
    ensures { result ≡ nth_kept 1 marks.now kept }
{
    let mut left = kept;
    for index in 0..marks.len() {
        if marks[index] {
            if left == 1 {
                return Some(index as u64 + 1);
            }
            left = left.saturating_sub(1);
        }
    }
    None
}
