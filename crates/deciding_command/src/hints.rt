//! Hints: what is decided of a history without the calls that were named. No theorem speaks of them.

ghost use Rattle.std.specs.Prelude.{◌≡◌, ◌⊎◌};
ghost use Rattle.deciding_command.specs.Told.{Grows};

use crate::telling::hint_line;
use crate::within_time::decide_within;
use crate::words::DecideRequest;
use decide::decision_walk::Why;
use decide::{Decision, Undecided};
use history_prefix::{calls_without, kept_history, marks_without, number_of};
use nfs_history::{History, HistoryFault, read_history};
use program_streams::{Output, tell};
use std::alloc::{AllocError, Global};
use std::io::Eprint;
use std::time::Clock;

/// A reply, or a crash, that no order explains. The numbers are those of the whole history.
#[derive(Clone, Copy)]
pub(crate) struct Named {
    /// The number of the event.
    pub(crate) event: u64,
    /// The number of the call, which is past the last one where the event is a crash.
    pub(crate) call: u64,
}

/// What is decided without the calls that were named.
#[derive(Clone, Copy)]
pub(crate) enum Hint {
    /// There is still no certificate.
    Reply(Named),
    /// There is still none, and this event is a crash, which can't be left out.
    Crash(u64),
    /// There is one.
    Explained,
    /// It isn't decided.
    Undecided(Undecided),
    /// There is no history without these calls: memory ran out. No other fault is known.
    NoHistory(HistoryFault),
}

/// A history without some of its calls, and which events and calls of the whole one are in it.
#[derive(Drop)]
struct Rest {
    history: History,
    events: Vec<bool>,
    calls: Vec<bool>,
}

impl Rest {
    /// The history without these calls.
    fn of(alloc: Global, whole: &History, left_out: &[u64]) -> Result<Rest, HistoryFault> {
        let events = marks_without(alloc, whole, left_out)?;
        let history = kept_history(alloc, whole, events.as_slice())?;
        let calls = calls_without(alloc, whole.recorded_calls().len(), left_out)?;
        Ok(Rest {
            history,
            events,
            calls,
        })
    }

    /// The number of a call in the whole history. One past the last call is that of a crash.
    fn call_of(&self, number: u64) -> Option<u64> {
        number_of(self.calls.as_slice(), number)
    }

    /// What is told of a no with these numbers.
    fn refused(&self, event: u64, call: u64) -> Hint {
        let event = number_of(self.events.as_slice(), event).unwrap_or(event);
        match self.call_of(call) {
            Some(call) => Hint::Reply(Named { event, call }),
            None => Hint::Crash(event),
        }
    }

    /// What is told where it isn't decided for this reason.
    fn undecided(&self, reason: Undecided) -> Hint {
        let whole = |call| self.call_of(call).unwrap_or(call);
        Hint::Undecided(match reason {
            Undecided::NotCovered(Why::HandleNotGiven(call)) => {
                Undecided::NotCovered(Why::HandleNotGiven(whole(call)))
            }
            Undecided::NotCovered(Why::LongWrite(call)) => {
                Undecided::NotCovered(Why::LongWrite(whole(call)))
            }
            reason => reason,
        })
    }
}

/// What is decided of a history without these calls.
fn hint_without<R: Clock + Eprint + AllocGlobal>(
    rt: &R,
    request: &DecideRequest<'_>,
    whole: &History,
    left_out: &[u64],
) -> Hint {
    let rest = match Rest::of(rt.alloc(), whole, left_out) {
        Ok(rest) => rest,
        Err(fault) => return Hint::NoHistory(fault),
    };
    let (decision, _reached) = decide_within(rt, &rest.history, request.effort);
    match decision {
        Decision::Yes(_certificate) => Hint::Explained,
        Decision::No(refusal) => rest.refused(refusal.event, refusal.call),
        Decision::Undecided(reason) => rest.undecided(reason),
        Decision::NoMemory => Hint::NoHistory(HistoryFault::NoMemory),
    }
}

/// Tells a hint, and gives the status of a no.
fn tell_hint<O: Output>(alloc: Global, output: &mut O, hint: Hint) -> u8
    ensures known { (result ≡ 1) ⊎ (result ≡ 2) }
    ensures grows { Grows (O.contents output.old) (O.contents output.new) }
{
    match hint_line(alloc, hint) {
        Ok(line) => tell(output, line.as_bytes(), 1),
        Err(AllocError) => tell(output, b"then: undecided: out of memory\n", 1),
    }
}

/// Leaves out the calls that are named, one after the other, and tells what is decided of the rest.
fn tell_rests<R: Clock + Eprint + AllocGlobal, O: Output>(
    rt: &R,
    request: &DecideRequest<'_>,
    whole: &History,
    first: Named,
    output: &mut O,
) -> u8
    ensures known { (result ≡ 1) ⊎ (result ≡ 2) }
    ensures grows { Grows (O.contents output.old) (O.contents output.new) }
{
    let alloc = rt.alloc();
    if first.call > whole.calls() {
        return tell_hint(alloc, output, Hint::Crash(first.event));
    }
    let mut left_out = Vec::new(alloc);
    let mut named = first.call;
    for _ in 0..request.go_on {
        if left_out.push(named).is_err() {
            return tell_hint(alloc, output, Hint::NoHistory(HistoryFault::NoMemory));
        }
        let hint = hint_without(rt, request, whole, left_out.as_slice());
        let status = tell_hint(alloc, output, hint);
        match hint {
            Hint::Reply(next) if status == 1 => named = next.call,
            _ => return status,
        }
    }
    1
}

/// Goes on behind a no of a history's file: leaves out the call that was named, decides of the rest, and so on as often as the request
/// allows. Each answer is a line. The status is that of the no, or 2 where a line can't be written.
pub(crate) fn tell_hints<R: Clock + Eprint + AllocGlobal, O: Output>(
    rt: &R,
    request: &DecideRequest<'_>,
    bytes: &[u8],
    first: Named,
    output: &mut O,
) -> u8
    ensures known { (result ≡ 1) ⊎ (result ≡ 2) }
    ensures grows { Grows (O.contents output.old) (O.contents output.new) }
{
    match read_history(rt.alloc(), bytes) {
        Ok(whole) => tell_rests(rt, request, &whole, first, output),
        Err(fault) => tell_hint(rt.alloc(), output, Hint::NoHistory(fault)),
    }
}
