//! What a call and its reply are to a book.

ghost use Rattle.std.specs.Prelude.{◌≡◌, ◌↔◌, ◌⊎◌, not, true, None, IsTrue, option_map};
ghost use Rattle.rpc_reader.specs.Views.{call_value};
ghost use Rattle.nfs3_types.specs.Procedures.{is_judged};
ghost use Rattle.nfs_history.specs.Success.{write_success, commit_success};
ghost use Rattle.cut_check.specs.Effect.{effect_of};
ghost use Rattle.cut_check.specs.declared.effect.Effect.TheVariants.{Lasting};
ghost use Rattle.tree_laws.specs.Leaving.{only_looks};
ghost use Rattle.tree_laws.specs.Outcomes.{count_written};
ghost use Rattle.book_laws.specs.Placing.{is_recorded};
ghost use Rattle.book_laws.specs.Steps.{commits};
ghost use Rattle.journal.specs.Exactly.{ExactlySeen};
ghost use Rattle.book_ledger.specs.Recordable.{asks_judged, may_make, step_so, AsksJudged, IsKeptInside, AreKeptArguments, IsKeptAsked};

use crate::fault::BeginFault;
use journal::is_inside;
use nfs_history::{commit_success, succeeded, write_success};
use nfs3_msgs::{MessageFault, read_args};
use nfs3_types::{NFS_PROGRAM, NFS_VERSION, NfsCall, Outcome, Procedure, StableHow};
use rpc_reader::{CallHead, SEALED_FLAVOR, read_call};
use std::alloc::Global;
use xdr_records::RECORD_LIMIT;

/// Whether the procedure of this number is judged.
fn is_judged(number: u32) -> bool
    ensures { result ≡ is_judged number }
{
    match Procedure::from_number(number) {
        Some(procedure) => procedure.is_judged(),
        None => false,
    }
}

/// Whether a message is a call of a judged procedure whose arguments can be read.
fn asks_judged(head: &CallHead<'_>) -> bool
    ensures { result ≡ asks_judged (call_value head.now) }
{
    head.program == NFS_PROGRAM
        && head.version == NFS_VERSION
        && head.flavor != SEALED_FLAVOR
        && is_judged(head.procedure)
}

/// The head of a judged call.
fn judged_head(message: &[u8]) -> Option<CallHead<'_>>
    ensures { ExactlySeen call_value (AsksJudged message.now) result }
{
    match read_call(message) {
        Ok(head) => { if asks_judged(&head) { Some(head) } else { None } }
        Err(_) => None,
    }
}

/// Whether a call lies inside the model whatever its reply.
fn check_inside(call: NfsCall) -> Result<NfsCall, BeginFault>
    ensures { IsKeptInside call result }
{
    if is_inside(&call) {
        Ok(call)
    } else {
        Err(BeginFault::BadRecord)
    }
}

/// Whether these are the arguments of a call that lies inside the model whatever its reply.
fn check_arguments(alloc: Global, procedure: u32, bytes: &[u8]) -> Result<NfsCall, BeginFault>
    ensures { AreKeptArguments procedure bytes.now result }
{
    match read_args(alloc, procedure, bytes) {
        Ok(call) => check_inside(call),
        Err(MessageFault::BadMessage { .. }) => Err(BeginFault::BadRecord),
        Err(MessageFault::NoMemory) => Err(BeginFault::NoMemory),
    }
}

/// Whether a history takes a message as a judged call whatever is answered.
pub(crate) fn check_recordable(alloc: Global, message: &[u8]) -> Result<NfsCall, BeginFault>
    ensures { IsKeptAsked message.now result }
{
    if message.len() > RECORD_LIMIT {
        return Err(BeginFault::BadRecord);
    }
    let Some(head) = judged_head(message) else {
        return Err(BeginFault::BadRecord);
    };
    check_arguments(alloc, head.procedure, head.args)
}

/// Whether a call changes the tree where it succeeds.
#[tactic(auto, using(crate::proofs::Changes::changes_as))]
fn may_change(call: &NfsCall) -> bool
    ensures { result ≡ not (only_looks call.now) }
{
    call.procedure().changes_the_tree()
}

/// Whether a call that came out so has a record in the journal.
pub(crate) fn is_recorded(call: &NfsCall, outcome: &Outcome) -> bool
    ensures { result ≡ is_recorded (step_so call.now outcome.now) }
{
    may_change(call) && succeeded(call, outcome)
}

/// The level at which a WRITE was answered, with the bytes that it counts, where it succeeded.
fn write_answer(outcome: &Outcome) -> Option<(StableHow, u32)>
    ensures { result ≡ option_map (λ success. (success.level, success.count)) (write_success outcome.now) }
{
    let success = write_success(outcome)?;
    Some((success.level, success.count))
}

/// The verifier of a COMMIT that succeeded.
fn commit_verifier(outcome: &Outcome) -> Option<u64>
    ensures { result ≡ option_map (λ success. success.verifier.value) (commit_success outcome.now) }
{
    let success = commit_success(outcome)?;
    Some(success.verifier.value)
}

/// Whether a reply promises that the call outlives a crash (RFC 1813, section 4.7), or, of a COMMIT, that what is placed ahead does.
pub(crate) fn promises(call: &NfsCall, outcome: &Outcome) -> bool
    ensures { IsTrue result ↔ ((effect_of None call.now outcome.now ≡ Lasting) ⊎ (commits (step_so call.now outcome.now) ≡ true)) }
{
    match call {
        NfsCall::Write(_) => {
            matches!(
                write_answer(outcome),
                Some((StableHow::DataSync | StableHow::FileSync, _))
            )
        }
        NfsCall::Commit(_) => commit_verifier(outcome).is_some(),
        _ => is_recorded(call, outcome),
    }
}

/// How many bytes a WRITE wrote, by its reply.
pub(crate) fn count_written(outcome: &Outcome) -> Option<u32>
    ensures { result ≡ count_written outcome.now }
{
    match outcome {
        Outcome::Received(_) => write_answer(outcome).map(|answer| answer.1),
        Outcome::Taken(count) => *count,
    }
}

/// Whether a call makes an object where it succeeds.
pub(crate) fn may_make(call: &NfsCall) -> bool
    ensures { result ≡ may_make call.now }
{
    matches!(
        call,
        NfsCall::Create(_) | NfsCall::MkDir(_) | NfsCall::SymLink(_)
    )
}
