//! The calls of a history, counted.

ghost use Rattle.std.specs.Prelude.{◌≡◌};
ghost use Rattle.history_report.specs.Counted.{is_excused_status, report_of};
ghost use Rattle.history_report.specs.Kinds.{is_judged_kind, is_answered_kind, is_excused_kind, report_by};
ghost use Rattle.history_report.specs.Noting.{report_with, CanGrow};

use crate::kind::HasKind;
use nfs_history::{CallKind, History, KnownCalls};
use nfs3_types::Failure;

/// What is counted of a history.
#[derive(Clone, Copy)]
pub struct HistoryNumbers {
    /// All its calls.
    pub calls: u64,
    /// Those of a judged procedure that didn't fail in RPC.
    pub judged: u64,
    /// The judged ones that were answered.
    pub answered: u64,
    /// The calls that aren't judged.
    pub unjudged: u64,
    /// The judged ones that were answered by a status which may answer any call.
    pub excused: u64,
    /// One more than the server went down.
    pub eras: u64,
}

/// Whether a status may answer any call.
fn is_excused_status(failure: Failure) -> bool
    ensures { result ≡ is_excused_status failure }
{
    !matches!(
        failure,
        Failure::NoEntry
            | Failure::Exists
            | Failure::NotDirectory
            | Failure::IsDirectory
            | Failure::NotEmpty
            | Failure::Stale
            | Failure::BadHandle
            | Failure::NotSynchronized
            | Failure::BadCookie
            | Failure::TooSmall
    )
}

fn is_judged(kind: CallKind) -> bool
    ensures { result ≡ is_judged_kind kind }
{
    !matches!(kind, CallKind::Unjudged)
}

fn is_answered(kind: CallKind) -> bool
    ensures { result ≡ is_answered_kind kind }
{
    matches!(kind, CallKind::Answered(..))
}

fn is_excused(kind: CallKind) -> bool
    ensures { result ≡ is_excused_kind kind }
{
    match kind {
        CallKind::Answered(_, Some(failure)) => is_excused_status(failure),
        _ => false,
    }
}

/// Counts one more call.
fn note_kind(report: &mut HistoryNumbers, kind: CallKind)
    requires { CanGrow report.old }
    ensures { report.new ≡ report_with report.old kind }
{
    report.calls += 1;
    report.judged += u64::from(is_judged(kind));
    report.answered += u64::from(is_answered(kind));
    report.unjudged += u64::from(!is_judged(kind));
    report.excused += u64::from(is_excused(kind));
}

/// What is counted of the calls of so many eras.
fn count_kinds<K: HasKind>(eras: u64, calls: &[K]) -> HistoryNumbers
    ensures { result ≡ report_by K.kind eras calls.now }
{
    let mut report = HistoryNumbers {
        calls: 0,
        judged: 0,
        answered: 0,
        unjudged: 0,
        excused: 0,
        eras,
    };
    for call in calls {
        note_kind(&mut report, call.kind_of());
    }
    report
}

/// What is counted of a history.
pub fn report_of(history: &History) -> HistoryNumbers
    ensures { result ≡ report_of history.now.known.eras history.now.known.calls }
{
    count_kinds(history.eras(), history.recorded_calls())
}

/// What is counted of the history that these calls are of. None of them is read.
pub fn report_of_calls(history: &KnownCalls<'_>) -> HistoryNumbers
    ensures { result ≡ report_of history.now.eras history.now.calls }
{
    count_kinds(history.eras(), history.kinds())
}
