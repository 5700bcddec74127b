//! What is said of a decision.

ghost use Rattle.std.specs.Prelude.{◌≡◌, ◌<◌, IfOk};
ghost use Rattle.deciding_command.specs.FileDecision.{IsYes, IsNo, IsRefused};
ghost use Rattle.deciding_command.specs.Told.{line_of_no, yes_line};

use crate::file_decision::FileDecision;
use crate::hints::Hint;
use decide::Undecided;
use decide::decision_walk::Why;
use program_streams::{Report, line_of};
use std::alloc::{AllocError, Global};

/// The line of a reason that a call is the cause of.
fn reason_at(alloc: Global, reason: &str, call: u64) -> Result<String, AllocError> {
    format!(in alloc; "undecided: {reason} {call}\n")
}

/// The line of a reason why nothing is decided, with its line feed: it begins with `undecided: `.
pub fn reason_line(alloc: Global, reason: Undecided) -> Result<String, AllocError> {
    match reason {
        Undecided::TooManyStates => line_of(alloc, "undecided: ", &"too many states"),
        Undecided::Ended => line_of(alloc, "undecided: ", &"out of time"),
        Undecided::NotCovered(Why::HandleNotGiven(call)) => {
            reason_at(
                alloc,
                "more than 64 objects exist, and no reply gave a handle of call",
                call,
            )
        }
        Undecided::NotCovered(Why::LongWrite(call)) => {
            reason_at(alloc, "no reply came to the long WRITE of call", call)
        }
        Undecided::NotCovered(Why::WayLost) => line_of(alloc, "undecided: ", &"a state was lost"),
        Undecided::NotAccepted => line_of(alloc, "undecided: ", &"no certificate was made"),
        Undecided::NoEvents => line_of(alloc, "undecided: ", &"no order of events"),
    }
}

/// The line and the status of a decision.
pub fn report_of(alloc: Global, decision: &FileDecision) -> Result<Report, AllocError>
    ensures yes { IfOk result (λ report. report.status ≡ 0 → IsYes decision.now) }
    ensures no { IfOk result (λ report. report.status ≡ 1 → IsNo decision.now) }
    ensures line { IfOk result (λ report. report.status ≡ 0 → report.line ≡ yes_line) }
    ensures told { IfOk result (λ report. report.status ≡ 1 → report.line ≡ line_of_no decision.now) }
    ensures refused { IsRefused decision.now → IfOk result (λ report. report.status ≡ 2) }
    ensures known { IfOk result (λ report. report.status < 3) }
{
    match decision {
        FileDecision::Yes(_) => Ok(Report::new(0, String::from_str(alloc, "yes\n")?)),
        FileDecision::NoWitness { event, call } => Ok(Report::new(
            1,
            format!(in alloc; "no witness: event {event} call {call}\n")?,
        )),
        FileDecision::Undecided(undecided) => {
            Ok(Report::new(2, reason_line(alloc, undecided.reason)?))
        }
        FileDecision::BadHistory(fault) => Ok(Report::new(2, line_of(alloc, "refused: ", fault)?)),
    }
}

/// The line of a hint.
pub(crate) fn hint_line(alloc: Global, hint: Hint) -> Result<String, AllocError> {
    match hint {
        Hint::Reply(named) => {
            format!(in alloc; "then: event {} call {}\n", named.event, named.call)
        }
        Hint::Crash(event) => format!(in alloc; "then: event {event} is a crash\n"),
        Hint::Explained => String::from_str(alloc, "then: none\n"),
        Hint::Undecided(reason) => {
            let line = reason_line(alloc, reason)?;
            format!(in alloc; "then: {line}")
        }
        Hint::NoHistory(fault) => line_of(alloc, "then: undecided: ", &fault),
    }
}
