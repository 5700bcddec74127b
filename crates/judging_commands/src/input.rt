//! The whole way of a bundle, from the input to the output.

ghost use Rattle.std.specs.Prelude.{◌≡◌, ◌⊎◌, ◌<◌, ◌≤◌, ◌++◌, ◌∷◌, [], ℕ, List, codes, IfOk, IfSome, OnErr};
ghost use Rattle.std.specs.Io.KnownBytes.{Appends};
ghost use Rattle.judging_commands.specs.Bundle.{IsAcceptedBundle, IsRefutedBundle};
ghost use Rattle.judging_commands.specs.Report.{IsSaid, MaySay, MayTell, no_line};
ghost use Rattle.program_streams.specs.Streams.{AppendsFront, GivesAll, HasRoom};
ghost use Rattle.program_streams.specs.Told.{Tells, memory_line};
ghost use Rattle.witness_check.specs.declared.fault.Fault.{Fault};

use crate::report::judge;
use program_streams::{
    Input, InputFault, Output, Report, read_all, tell_report, tell_want_of_memory,
};
use std::alloc::{AllocError, Global};

/// Reads a bundle and judges it.
fn judge_input<I: Input>(alloc: Global, input: &mut I) -> Result<Report, AllocError>
    ensures said { IfOk result (λ report. MaySay (I.remaining input.old) report.status report.line) }
    ensures exact { (bytes line : List ℕ) (status : ℕ) → IsSaid bytes status line
        → GivesAll (I.remaining input.old) (I.reads_left input.old) bytes
        → IfOk result (λ report. (report.status ≡ status) × (report.line ≡ line)) }
{
    match read_all(alloc, input) {
        Ok(bytes) => judge(alloc, bytes.as_slice()),
        Err(InputFault::Unreadable) => Report::refused(alloc, "bad bundle"),
        Err(InputFault::NoMemory) => Err(AllocError),
    }
}

/// Reads a bundle (a history in lower case hex on the first line, a certificate's text after it), writes the verdict on it in one line,
/// and returns the exit status: 0 after `yes`, 1 after `no: ..`, 2 after a refusal or a failed write, 3 if memory ran out.
pub fn run_bundle<I: Input, O: Output>(alloc: Global, input: &mut I, output: &mut O) -> u8
    ensures yes { result ≡ 0 → IfSome (I.remaining input.old) IsAcceptedBundle }
    // At 1 the line names the first fault of the plan.
    ensures no { result ≡ 1 → (fault : Fault) × IfSome (I.remaining input.old) (IsRefutedBundle fault)
        × Appends (O.contents output.old) (O.contents output.new) (no_line fault) }

    // What is written: at any status a front of a line that may be told, which ends early only where a write failed.
    ensures told { (line : List ℕ) × MayTell (I.remaining input.old) line
        × AppendsFront (O.contents output.old) (O.contents output.new) line }
    ensures yes_line { result ≡ 0
        → Appends (O.contents output.old) (O.contents output.new) (codes "yes" ++ 10 ∷ []) }
    ensures no_line { result ≡ 1 → (fault : List ℕ)
        × Appends (O.contents output.old) (O.contents output.new) (codes "no: " ++ fault ++ 10 ∷ []) }
    ensures memory_line { result ≡ 3
        → Appends (O.contents output.old) (O.contents output.new) memory_line }
    ensures known { result < 4 }

    // Where neither reading nor writing fails, exactly what is said of the bytes, or that memory ran out.
    ensures exact { (bytes line : List ℕ) (status : ℕ) → IsSaid bytes status line
        → GivesAll (I.remaining input.old) (I.reads_left input.old) bytes
        → HasRoom (O.room output.old) line → HasRoom (O.room output.old) memory_line
        → Tells result (O.contents output.old) (O.contents output.new) status line
        ⊎ Tells result (O.contents output.old) (O.contents output.new) 3 memory_line }
{
    match judge_input(alloc, input) {
        Ok(said) => tell_report(output, &said),
        Err(AllocError) => tell_want_of_memory(output),
    }
}
