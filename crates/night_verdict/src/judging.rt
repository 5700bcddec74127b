//! A night is judged.

ghost use Rattle.std.specs.Prelude.{◌≡◌, ◌≢◌, IfOk, ℕ, List, None};
ghost use Rattle.nfs_history.specs.declared.fault.HistoryFault.{HistoryFault};
ghost use Rattle.nfs_history.specs.declared.knowing.KnownCalls.{KnownCalls};
ghost use Rattle.nfs_history.specs.History.{IsCallsFile};
ghost use Rattle.witness_check.specs.Witness.{AreAccepted};
ghost use Rattle.deciding_command.specs.FileDecision.{Decides};
ghost use Rattle.history_report.specs.Counted.{report_of};
ghost use Rattle.night_verdict.specs.Verdict.{IsAnswered, IsExcused, IsIdleness, AreAnswered, IsCause, verdict_of};
ghost use Rattle.night_verdict.specs.declared.verdict.Cause.{Cause};
ghost use Rattle.night_verdict.specs.declared.verdict.NightVerdict.TheVariants.{Yes, No};

use crate::facts::NightFacts;
use crate::verdict::{NightVerdict, verdict_of};
use deciding_command::{Effort, FileDecision, decide_file};
use history_report::report_of_calls;
use nfs_history::{HistoryFault, read_calls};
use night_answers::{Idleness, idleness_of};
use std::alloc::{AllocError, Global};
use std::io::Eprint;
use std::time::Clock;

/// How many judged calls of a history were answered, and what the answers come to.
#[derive(Clone, Copy)]
pub struct Answered {
    /// How many; 0 where there is no history.
    pub all: u64,
    /// How many of them by a status that may answer any call, such as NFS3ERR_ACCES (docs/PROFILE.md).
    pub excused: u64,
    /// How many of the answers did nothing, and the first procedure that did little.
    pub idleness: Idleness,
}

/// What a night comes to.
#[derive(Drop)]
pub struct Judgement {
    /// What is said of it.
    pub verdict: NightVerdict,
    /// How many judged calls of the history were answered, and what the answers come to.
    pub answered: Answered,
    /// What is decided of the history.
    pub decision: FileDecision,
}

/// None were answered where this fault was found; that memory ran out is no fault of the bytes.
fn none_answered(fault: HistoryFault) -> Result<Answered, AllocError>
    ensures none { IfOk result (λ count. (count.all ≡ 0) × (count.excused ≡ 0) × (count.idleness.idle ≡ 0) × (count.idleness.procedure ≡ None)) }
    ensures fault { IfOk result (λ _. fault ≢ HistoryFault.NoMemory) }
{
    match fault {
        HistoryFault::NoMemory => Err(AllocError),
        _ => Ok(Answered {
            all: 0,
            excused: 0,
            idleness: Idleness {
                idle: 0,
                procedure: None,
            },
        }),
    }
}

/// What is counted of the answers of the history in these bytes; nothing where they are none.
fn answered_in(alloc: Global, history: &[u8]) -> Result<Answered, AllocError>
    ensures { IfOk result (AreAnswered history.now) }
{
    match read_calls(alloc, history) {
        Ok(known) => {
            let numbers = report_of_calls(&known);
            Ok(Answered {
                all: numbers.answered,
                excused: numbers.excused,
                idleness: idleness_of(alloc, &known)?,
            })
        }
        Err(fault) => none_answered(fault),
    }
}

/// Judges a night by its history: whether the server was in health, whether enough calls were answered, and whether some order explains
/// what the clients saw. The last may take as much as the effort allows. An `Err` means that memory ran out.
pub fn judge_night<R: Clock + Eprint + AllocGlobal>(
    rt: &R,
    facts: &NightFacts<'_>,
    history: &[u8],
    effort: Effort,
) -> Result<Judgement, AllocError>
    // A yes comes only with a certificate that is a witness, and with a server in health.
    ensures yes { IfOk result (λ judged. judged.verdict ≡ Yes → (text : List ℕ) × AreAccepted history.now text) }
    // A no comes only for a trouble that the server made, or where no certificate is a witness.
    ensures no { IfOk result (λ judged. (cause : Cause) → judged.verdict ≡ No cause
        → IsCause facts.now.troubles.now facts.now.end facts.now.at_least judged.answered.all history.now cause) }
    // Which it is, is settled by what is known of the night.
    ensures exact { IfOk result (λ judged. judged.verdict ≡ verdict_of facts.now judged.answered judged.decision) }
    ensures answered { IfOk result (λ judged. IsAnswered history.now judged.answered.all) }
    ensures excused { IfOk result (λ judged. IsExcused history.now judged.answered.excused) }
    ensures idle { IfOk result (λ judged. IsIdleness history.now judged.answered.idleness) }
    ensures decided { IfOk result (λ judged. Decides history.now judged.decision) }
{
    let answered = answered_in(rt.alloc(), history)?;
    let decision = decide_file(rt, history, effort)?;
    Ok(Judgement {
        verdict: verdict_of(facts, answered, &decision),
        answered,
        decision,
    })
}
