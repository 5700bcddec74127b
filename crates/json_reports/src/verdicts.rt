//! The objects of `check` and `report`.

ghost use Rattle.std.specs.Prelude.{◌≡◌};
ghost use Rattle.json_reports.specs.Words.{verdict_word};

use crate::faults::{ToldFault, of_history, of_plan, of_text};
use crate::object::{Member, Object};
use history_report::HistoryNumbers;
use std::alloc::{AllocError, Global};
use witness_check::FileVerdict;

/// The word of a verdict.
fn verdict_word(verdict: FileVerdict) -> &'static str
    ensures { result.now ≡ verdict_word verdict }
{
    match verdict {
        FileVerdict::Yes => "yes",
        FileVerdict::No(_) => "no",
        FileVerdict::BadHistory(_) | FileVerdict::BadText(_) => "refused",
    }
}

/// Why nothing was judged.
fn reason_of(verdict: FileVerdict) -> Option<Member<'static>> {
    match verdict {
        FileVerdict::BadHistory(_) => Some(Member::text("reason", "bad history")),
        FileVerdict::BadText(_) => Some(Member::text("reason", "bad certificate")),
        FileVerdict::Yes | FileVerdict::No(_) => None,
    }
}

/// The fault that a verdict tells.
fn fault_of(verdict: FileVerdict) -> Option<ToldFault> {
    match verdict {
        FileVerdict::Yes => None,
        FileVerdict::No(fault) => Some(of_plan(fault)),
        FileVerdict::BadHistory(fault) => Some(of_history(fault)),
        FileVerdict::BadText(fault) => Some(of_text(fault)),
    }
}

impl<'a> Object<'a> {
    /// Puts a fault's name and its values.
    fn put_fault(&mut self, told: ToldFault) -> Result<(), AllocError> {
        self.put(Member::text("fault", told.name))?;
        self.put_some(told.first)?;
        self.put_some(told.second)
    }

    /// Puts a verdict.
    fn put_verdict(&mut self, verdict: FileVerdict) -> Result<(), AllocError> {
        self.put(Member::text("verdict", verdict_word(verdict)))?;
        self.put_some(reason_of(verdict))?;
        match fault_of(verdict) {
            Some(told) => self.put_fault(told),
            None => Ok(()),
        }
    }

    /// Puts what is counted of a history.
    fn put_counts(&mut self, counts: &HistoryNumbers) -> Result<(), AllocError> {
        self.put(Member::number("calls", counts.calls))?;
        self.put(Member::number("judged", counts.judged))?;
        self.put(Member::number("answered", counts.answered))?;
        self.put(Member::number("unjudged", counts.unjudged))?;
        self.put(Member::number("excused", counts.excused))?;
        self.put(Member::number("eras", counts.eras))
    }
}

/// The object of a verdict.
pub fn verdict_line(alloc: Global, verdict: FileVerdict) -> Result<String, AllocError> {
    let mut object = Object::new(alloc);
    object.put_verdict(verdict)?;
    object.line(alloc)
}

/// The object of a verdict, and of what is counted of the history; with how many places were lost, where that is known.
pub fn report_line(
    alloc: Global,
    verdict: FileVerdict,
    counts: &HistoryNumbers,
    lost: Option<u64>,
) -> Result<String, AllocError> {
    let mut object = Object::new(alloc);
    object.put_verdict(verdict)?;
    object.put_counts(counts)?;
    if let Some(lost) = lost {
        object.put(Member::number("lost", lost))?;
    }
    object.line(alloc)
}

/// The object of what can't be judged, for this reason.
pub fn refusal_line(alloc: Global, reason: &str) -> Result<String, AllocError> {
    let mut object = Object::new(alloc);
    object.put(Member::text("verdict", "refused"))?;
    object.put(Member::text("reason", reason))?;
    object.line(alloc)
}
