//! What each call of a history was, and how it came out.

ghost use Rattle.std.specs.Prelude.{◌≡◌, map, true, false, IfOk, IfErr, Option, Some, None, option_map};
ghost use Rattle.rpc_reader.specs.Values.{Body};
ghost use Rattle.rpc_reader.specs.Views.{call_value, body_value};
ghost use Rattle.nfs3_msgs.specs.Messages.{IsArguments};
ghost use Rattle.nfs_history.specs.Matching.{seen_call, seen_reply, bytes_of};
ghost use Rattle.nfs_history.specs.Effects.{Says};
ghost use Rattle.nfs_history.specs.History.{CameOut, IsKnownAs, IsRecorded};
ghost use Rattle.nfs_history.specs.Outside.{outside};
ghost use Rattle.nfs_history.specs.CallFaults.{FirstCallFault};
ghost use Rattle.nfs_history.specs.Judging.{left_out, outside_fault, result_fault, judged_fault, fault_of, IsFound, IsReadable, AreReadable, IsStopFor};
ghost use Rattle.nfs_history.specs.Reread.{known_call, IsReadAs, AreReadTo};

use crate::effects::{has_no_effect, is_judged, is_sealed, results_of, which_left_out};
use crate::fault::{CallFault, HistoryFault, Which};
use crate::limits::outside_model;
use crate::matching::{SeenCall, SeenReply, transaction};
use crate::recorded::{CallKind, Meaning, RecordedCall};
use nfs3_msgs::{MessageFault, read_args, read_result};
use nfs3_types::{NfsCall, Outcome};
use rpc_reader::{CallHead, ReplyBody, read_call, read_reply};
use std::alloc::{AllocError, AllocFailed, Global};

/// Why it isn't found what a call was.
#[derive(Clone, Copy)]
pub enum Stop {
    /// The call is at fault.
    Fault(CallFault),
    /// Memory ran out.
    NoMemory,
}

impl From<CallFault> for Stop {
    ghost use Rattle.std.specs.Prelude.{◌≡◌};
    ghost use Rattle.nfs_history.specs.declared.judging.Stop.TheVariants.{Fault};

    ghost from_gives = { λ fault e. e ≡ Fault fault };

    fn from(fault: CallFault) -> Stop {
        Stop::Fault(fault)
    }
}

impl From<AllocError> for Stop {
    ghost use Rattle.std.specs.Prelude.{◌≡◌};
    ghost use Rattle.nfs_history.specs.declared.judging.Stop.TheVariants.{NoMemory};

    ghost from_gives = { λ _ e. e ≡ NoMemory };

    fn from(_error: AllocError) -> Stop {
        Stop::NoMemory
    }
}

impl<T: Drop> From<AllocFailed<T>> for Stop {
    ghost use Rattle.std.specs.Prelude.{◌≡◌};
    ghost use Rattle.nfs_history.specs.declared.judging.Stop.TheVariants.{NoMemory};

    ghost from_gives = { λ _ e. e ≡ NoMemory };

    fn from(_error: AllocFailed<T>) -> Stop {
        Stop::NoMemory
    }
}

impl From<Stop> for HistoryFault {
    ghost use Rattle.std.specs.Prelude.{◌≡◌};
    ghost use Rattle.nfs_history.specs.Judging.{of_stop};

    ghost from_gives = { λ stop e. e ≡ of_stop stop };

    fn from(stop: Stop) -> HistoryFault {
        match stop {
            Stop::Fault(fault) => HistoryFault::from(fault),
            Stop::NoMemory => HistoryFault::NoMemory,
        }
    }
}

/// What is wrong with a LINK or MKNOD that may have had an effect.
fn left_out(number: u64, which: Which, results: Option<&[u8]>) -> CallFault
    ensures { result ≡ left_out number which (bytes_of results.entry) }
{
    match results {
        Some(results) if results.len() < 4 => CallFault::BadResult(number),
        _ => CallFault::Outside {
            call: number,
            which,
        },
    }
}

/// A call and its outcome, where they lie inside the model.
fn kept_inside(
    number: u64,
    call: NfsCall,
    outcome: Option<Outcome>,
) -> Result<(NfsCall, Option<Outcome>), CallFault>
    ensures found { IfOk result (λ k. (k.0 ≡ call) × (k.1 ≡ outcome) × (outside call outcome ≡ None)) }
    ensures fault { IfErr result (λ f. outside_fault number call outcome ≡ Some f) }
{
    match outside_model(&call, &outcome) {
        None => Ok((call, outcome)),
        Some(which) => Err(CallFault::Outside {
            call: number,
            which,
        }),
    }
}

/// A call, and how it came out.
fn with_outcome(
    alloc: Global,
    number: u64,
    procedure: u32,
    call: NfsCall,
    results: Option<&[u8]>,
) -> Result<(NfsCall, Option<Outcome>), Stop>
    ensures found { IfOk result (λ k. (k.0 ≡ call) × CameOut procedure (bytes_of results.entry) k.1
        × (outside k.0 k.1 ≡ None)) }
    ensures fault { IsStopFor (λ f. result_fault number procedure call (bytes_of results.entry) ≡ Some f) result }
{
    let outcome = match results {
        None => None,
        Some(results) => match read_result(alloc, procedure, results) {
            Ok(answer) => Some(Outcome::Received(answer)),
            Err(MessageFault::NoMemory) => return Err(Stop::NoMemory),
            Err(MessageFault::BadMessage { .. }) => {
                return Err(Stop::Fault(CallFault::BadResult(number)));
            }
        },
    };
    Ok(kept_inside(number, call, outcome)?)
}

/// What a call of a judged procedure asked, and how it came out.
fn judged(
    alloc: Global,
    number: u64,
    head: &CallHead<'_>,
    results: Option<&[u8]>,
) -> Result<(NfsCall, Option<Outcome>), Stop>
    ensures found { IfOk result (λ k. IsArguments head.now.procedure head.now.args.now k.0
        × CameOut head.now.procedure (bytes_of results.entry) k.1 × (outside k.0 k.1 ≡ None)) }
    ensures fault { IsStopFor (λ f. judged_fault number head.now.procedure head.now.args.now
        (bytes_of results.entry) ≡ Some f) result }
{
    match read_args(alloc, head.procedure, head.args) {
        Ok(call) => with_outcome(alloc, number, head.procedure, call, results),
        Err(MessageFault::NoMemory) => Err(Stop::NoMemory),
        Err(MessageFault::BadMessage { .. }) => Err(Stop::Fault(CallFault::BadArgs(number))),
    }
}

/// What a call was, and how it came out.
fn known_of(
    alloc: Global,
    number: u64,
    head: &CallHead<'_>,
    body: &Option<ReplyBody<'_>>,
) -> Result<(Meaning, Option<Outcome>), Stop>
    ensures found { IfOk result (λ k. IsKnownAs (call_value head.now) (option_map body_value body.now) k.0 k.1) }
    ensures fault { IsStopFor (λ f. fault_of number (call_value head.now) (option_map body_value body.now)
        ≡ Some f) result }
{
    if has_no_effect(head, body) {
        return Ok((Meaning::Unjudged, None));
    }
    if is_sealed(head) {
        return Err(Stop::Fault(CallFault::Sealed(number)));
    }
    let results = results_of(body);
    if is_judged(head.procedure) {
        let (call, outcome) = judged(alloc, number, head, results)?;
        Ok((Meaning::Judged(call), outcome))
    } else {
        let which = which_left_out(head.procedure);
        Err(Stop::Fault(left_out(number, which, results)))
    }
}

/// The body of the reply to a call, where one came.
pub(crate) fn body_of<'a>(answer: &Option<SeenReply<'a>>) -> Option<ReplyBody<'a>>
    requires { (body : Option Body) × Says (option_map seen_reply answer.now) body }
    ensures { Says (option_map seen_reply answer.now) (option_map body_value result) }
{
    let Some(reply) = answer else {
        return None;
    };
    match read_reply(reply.message) {
        Ok(head) => Some(head.body),
        Err(_) => unreachable!(),
    }
}

/// What is known of call `number`.
pub fn judged_call(alloc: Global, number: u64, seen: &SeenCall<'_>) -> Result<RecordedCall, Stop>
    requires { IsReadable (seen_call seen.now) }
    ensures found { IfOk result (IsRecorded (seen_call seen.now)) }
    ensures fault { IsStopFor (IsFound number (seen_call seen.now)) result }
{
    let Ok(head) = read_call(seen.message) else {
        unreachable!();
    };
    let body = body_of(&seen.answer);
    let (meaning, outcome) = known_of(alloc, number, &head, &body)?;
    Ok(RecordedCall {
        lane: seen.lane,
        xid: transaction(seen.message),
        meaning,
        begin: seen.begin,
        end: seen.end(),
        era: seen.era,
        outcome,
    })
}

/// What call `number` is for a plan, where it has no fault.
fn checked_kind(alloc: Global, number: u64, seen: &SeenCall<'_>) -> Result<CallKind, Stop>
    requires { IsReadable (seen_call seen.now) }
    ensures found { IfOk result (IsReadAs (seen_call seen.now)) }
    ensures fault { IsStopFor (IsFound number (seen_call seen.now)) result }
{
    let call = judged_call(alloc, number, seen)?;
    Ok(call.kind())
}

/// What each call of a list is for a plan, where none has a fault.
pub fn kinds_of(alloc: Global, seen: &[SeenCall<'_>]) -> Result<Vec<CallKind>, Stop>
    requires { AreReadable (map seen_call seen.now) }
    ensures found { IfOk result (λ v. AreReadTo (map seen_call seen.now) v.items) }
    ensures fault { IsStopFor (FirstCallFault 1 (map seen_call seen.now)) result }
{
    let mut kinds = Vec::with_capacity(alloc, seen.len())?;
    for (index, next) in seen.iter().enumerate() {
        let kind = checked_kind(alloc, index as u64 + 1, next)?;
        kinds.push(kind)?;
    }
    Ok(kinds)
}

/// A call that was read before without a fault.
pub fn read_again(alloc: Global, seen: &SeenCall<'_>) -> Result<RecordedCall, AllocError>
    requires { IsRecorded (seen_call seen.now) (known_call (seen_call seen.now)) }
    ensures { IfOk result (λ call. call ≡ known_call (seen_call seen.now)) }
{
    match judged_call(alloc, 1, seen) {
        Ok(call) => Ok(call),
        Err(Stop::NoMemory) => Err(AllocError),
        Err(Stop::Fault(_)) => unreachable!(),
    }
}
