//! The command `decide`.

ghost use Rattle.std.specs.Prelude.{◌≡◌, ◌⊎◌, ◌<◌, ℕ, List, IfSome};
ghost use Rattle.std.specs.Io.KnownBytes.{Appends};
ghost use Rattle.program_streams.specs.Told.{Tells, memory_line};
ghost use Rattle.nfs_history.specs.declared.fault.HistoryFault.{HistoryFault};
ghost use Rattle.nfs_history.specs.FirstFault.{FirstFault};
ghost use Rattle.witness_check.specs.Witness.{AreAccepted};
ghost use Rattle.deciding_command.specs.FileDecision.{IsWithoutWitness, IsWithoutWitnessAt, IsNeverAccepted, IsRefused, IsYes, IsNo};
ghost use Rattle.deciding_command.specs.Told.{IsToldWithHints, line_of_no, no_line, yes_line};

use crate::file_decision::{FileDecision, decide_file};
use crate::fronts::tell_undecided;
use crate::hints::{Named, tell_hints};
use crate::prefixing::is_written;
use crate::telling::report_of;
use crate::words::DecideRequest;
use program_streams::{Output, tell, tell_answer, tell_want_of_memory};
use std::alloc::AllocError;
use std::io::Eprint;
use std::rt::Files;
use std::time::Clock;

/// Writes the certificate of a yes to the path that is asked for, if one is. Whether it is there now, or wasn't wanted. The history
/// can't be that file.
fn is_saved<R: Files + Eprint>(
    rt: &R,
    request: &DecideRequest<'_>,
    decision: &FileDecision,
) -> bool {
    match (request.certificate, decision) {
        (Some(path), FileDecision::Yes(text)) => {
            is_written(rt, path, request.history, text.as_slice())
        }
        _ => true,
    }
}

/// Says what was decided.
fn tell_decision<R: Files + AllocGlobal + Eprint, O: Output>(
    rt: &R,
    request: &DecideRequest<'_>,
    decision: &FileDecision,
    output: &mut O,
) -> u8
    ensures yes { result ≡ 0 → IsYes decision.now }
    ensures no { result ≡ 1 → IsNo decision.now }
    ensures line { result ≡ 0 → Appends (O.contents output.old) (O.contents output.new) yes_line }
    ensures told { result ≡ 1 → Appends (O.contents output.old) (O.contents output.new) (line_of_no decision.now) }
    ensures refused { IsRefused decision.now → (result ≡ 2)
        ⊎ Tells result (O.contents output.old) (O.contents output.new) 3 memory_line }
    ensures memory_line { result ≡ 3 → Appends (O.contents output.old) (O.contents output.new) memory_line }
    ensures known { result < 4 }
{
    if is_saved(rt, request, decision) {
        tell_answer(output, report_of(rt.alloc(), decision))
    } else {
        tell(output, b"refused: cannot write\n", 2)
    }
}

/// The call that a no names, if the request goes on behind one that was told.
fn named_by(request: &DecideRequest<'_>, decision: &FileDecision, status: u8) -> Option<Named>
    ensures { IfSome result (λ _. (status ≡ 1) × (0 < request.now.go_on)) }
{
    if status != 1 || request.go_on == 0 {
        return None;
    }
    match decision {
        FileDecision::NoWitness { event, call } => Some(Named {
            event: *event,
            call: *call,
        }),
        _ => None,
    }
}

/// Says what was decided, and behind a no goes on as the request says.
fn tell_all<R: Files + Clock + AllocGlobal + Eprint, O: Output>(
    rt: &R,
    request: &DecideRequest<'_>,
    bytes: &[u8],
    decision: &FileDecision,
    output: &mut O,
) -> u8
    ensures yes { result ≡ 0 → IsYes decision.now }
    ensures no { result ≡ 1 → IsNo decision.now }
    ensures line { result ≡ 0 → Appends (O.contents output.old) (O.contents output.new) yes_line }
    ensures told { result ≡ 1
        → IsToldWithHints (O.contents output.old) (O.contents output.new) (line_of_no decision.now) request.now.go_on }
    ensures refused { IsRefused decision.now → (result ≡ 2)
        ⊎ Tells result (O.contents output.old) (O.contents output.new) 3 memory_line }
    ensures memory_line { result ≡ 3 → Appends (O.contents output.old) (O.contents output.new) memory_line }
    ensures known { result < 4 }
{
    let status = tell_decision(rt, request, decision, output);
    match named_by(request, decision, status) {
        Some(named) => tell_hints(rt, request, bytes, named, output),
        None => {
            tell_undecided(rt, request, bytes, decision);
            status
        }
    }
}

/// Decides whether the bytes of a history file have any certificate, says so in a line, and returns the exit status: 0 after `yes`, 1
/// after `no witness: ..`, 2 after `undecided: ..`, a refusal of the bytes or a failed write, 3 if memory ran out.
///
/// The certificate of a yes is written to the file that the request names. It stops where more states would stand at once than the
/// request allows, and about when its seconds are over. Behind a no it goes on as often as the request says, without the calls that
/// were named, and tells what it decides then in further lines. These are hints: the status is that of the no. Where it isn't decided, hints of how far it
/// came go to standard error, and the events that some order explains to a folder, if the request names one.
pub fn decide_history<R: Files + Clock + AllocGlobal + Eprint, O: Output>(
    rt: &R,
    request: &DecideRequest<'_>,
    history: &[u8],
    output: &mut O,
) -> u8
    // With status 0 the bytes are accepted with some certificate, and the line is `yes`.
    ensures yes { result ≡ 0 → (text : List ℕ) × AreAccepted history.now text }
    ensures line { result ≡ 0 → Appends (O.contents output.old) (O.contents output.new) yes_line }
    // With status 1 they are the file of a history, no certificate is a witness of it, and so with no text they are accepted.
    ensures no { result ≡ 1 → IsWithoutWitness history.now × IsNeverAccepted history.now }
    // The first line that is written then names an event and a call: such a history is without a witness, and that call of it was
    // answered at that event, or it is no call, and an era's end is named by it. Only hints stand behind the line, and none where the request asks for none.
    ensures told { result ≡ 1 → (event : ℕ) × (call : ℕ) × IsWithoutWitnessAt history.now event call
        × IsToldWithHints (O.contents output.old) (O.contents output.new) (no_line event call) request.now.go_on }
    // Bytes that are no history file are refused, memory aside.
    ensures refused { (fault : HistoryFault) → FirstFault history.now fault → (result ≡ 2)
        ⊎ Tells result (O.contents output.old) (O.contents output.new) 3 memory_line }
    ensures memory_line { result ≡ 3 → Appends (O.contents output.old) (O.contents output.new) memory_line }
    ensures known { result < 4 }
{
    match decide_file(rt, history, request.effort) {
        Ok(decision) => tell_all(rt, request, history, &decision, output),
        Err(AllocError) => tell_want_of_memory(output),
    }
}
