//! Whether a history has a certificate, and the call of a no.

ghost use Rattle.std.specs.Prelude.{◌≡◌, ◌<◌, ℕ, List, IfOk};
ghost use Rattle.witness_check.specs.Witness.{AreAccepted};
ghost use Rattle.deciding_command.specs.FileDecision.{IsWithoutWitness, IsNeverAccepted};

use crate::behind::{Behind, behind_fault};
use crate::telling::with_behind;
use crate::unexplained::behind_no;
use deciding_command::{Effort, FileDecision, Reached, decide_file, reached_text, report_of};
use program_streams::Report;
use std::alloc::{AllocError, Global};
use std::io::Eprint;
use std::time::Clock;

/// How far a decision came that says nothing.
fn behind_undecided(alloc: Global, history: &[u8], reached: Reached) -> Result<Behind, AllocError> {
    let text = reached_text(alloc, history, reached)?;
    let mut behind = Behind::nothing(alloc);
    behind.lines.extend_from_slice(text.as_bytes())?;
    Ok(behind)
}

/// What is known behind a decision.
fn behind_decision<R: Clock + Eprint + AllocGlobal>(
    rt: &R,
    history: &[u8],
    decision: &FileDecision,
    effort: Effort,
) -> Result<Behind, AllocError> {
    match decision {
        FileDecision::NoWitness { event, call } => behind_no(rt, history, *event, *call, effort),
        FileDecision::BadHistory(fault) => behind_fault(rt.alloc(), history, *fault),
        FileDecision::Undecided(undecided) => {
            behind_undecided(rt.alloc(), history, undecided.reached)
        }
        FileDecision::Yes(_) => Ok(Behind::nothing(rt.alloc())),
    }
}

/// What is known behind a decision on the bytes of a history file, as lines of printable bytes: of a reply that no order explains the call,
/// and what the orders come to in which it is placed; of one that isn't decided how far it came. None where there is a certificate.
pub fn decision_text<R: Clock + Eprint + AllocGlobal>(
    rt: &R,
    history: &[u8],
    decision: &FileDecision,
    effort: Effort,
) -> Result<Vec<u8>, AllocError> {
    let Behind { lines, .. } = behind_decision(rt, history, decision, effort)?;
    Ok(lines)
}

/// What `decide` says of the bytes of a history file, and behind a no or a refusal what is known of it; with `is_json` as an object of JSON.
/// That memory runs out is no answer.
#[tactic(auto, using(crate::proofs::Told::known_behind))]
pub fn explain_history<R: Clock + Eprint + AllocGlobal>(
    rt: &R,
    history: &[u8],
    effort: Effort,
    is_json: bool,
) -> Result<Report, AllocError>
    // With status 0 the bytes are accepted with some certificate, with status 1 with none.
    ensures yes { IfOk result (λ report. report.status ≡ 0 → (text : List ℕ) × AreAccepted history.now text) }
    ensures no { IfOk result (λ report. report.status ≡ 1 → IsWithoutWitness history.now × IsNeverAccepted history.now) }
    ensures known { IfOk result (λ report. report.status < 3) }
{
    let decision = decide_file(rt, history, effort)?;
    let told = report_of(rt.alloc(), &decision)?;
    let behind = behind_decision(rt, history, &decision, effort)?;
    with_behind(rt.alloc(), &told, &behind, is_json)
}

/// What is said where a history can't be read.
pub fn explain_unreadable(alloc: Global, is_json: bool) -> Result<Report, AllocError>
    ensures { IfOk result (λ report. report.status ≡ 2) }
{
    let told = Report::refused(alloc, "unreadable history")?;
    with_behind(alloc, &told, &Behind::nothing(alloc), is_json)
}
