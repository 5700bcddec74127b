//! The lines of a history file's events, on an output.

ghost use Rattle.std.specs.Prelude.{◌≡◌, ◌≢◌, ◌<◌, ℕ, List, OnOk, IfErr};
ghost use Rattle.std.specs.Io.KnownBytes.{Appends};
ghost use Rattle.history_file.specs.FileFaults.{IsFileFault};
ghost use Rattle.history_lines.specs.Left.{IsWhole};
ghost use Rattle.history_lines.specs.Lines.{AreLinesOf};
ghost use Rattle.nfs_history.specs.declared.knowing.KnownCalls.{KnownCalls};
ghost use Rattle.nfs_history.specs.History.{IsCallsFile};
ghost use Rattle.showing_command.specs.Shown.{AreLines};
ghost use Rattle.program_streams.specs.Streams.{AppendsFront};
ghost use Rattle.program_streams.specs.Told.{memory_line};
ghost use Rattle.witness_check.specs.declared.verdict.FileVerdict.TheVariants.{Yes};
ghost use Rattle.witness_check.specs.Verdict.{IsFileVerdict};

use crate::marks::marks_of;
use crate::shown_lines::ShownLines;
use history_file::FileFault;
use history_lines::Look;
use judging_commands::verdict_report;
use nfs_history::{HistoryFault, read_calls};
use program_streams::{Output, tell, tell_report, tell_want_of_memory};
use std::alloc::{AllocError, Global};
use witness_check::{FileVerdict, check_files};

/// Why a showing ended ahead of a file's end.
#[derive(Clone, Copy)]
enum ShowStop {
    Fault(FileFault),
    CannotWrite,
}

/// Writes the lines that are left.
fn put_lines<O: Output>(lines: &mut ShownLines<'_>, output: &mut O) -> Result<(), ShowStop>
    ensures lines { (text : List ℕ) × AreLines text × AppendsFront (O.contents output.old) (O.contents output.new) text }
    ensures whole { OnOk result ((text : List ℕ) × AreLines text × Appends (O.contents output.old) (O.contents output.new) text) }
{
    for _ in 0..u64::MAX {
        match lines.next_line() {
            Ok(Some(line)) => match output.write_text(line.as_slice()) {
                Ok(()) => {}
                Err(_) => return Err(ShowStop::CannotWrite),
            },
            Ok(None) => return Ok(()),
            Err(fault) => return Err(ShowStop::Fault(fault)),
        }
    }
    Err(ShowStop::CannotWrite)
}

/// Writes the lines of the events of a file that are selected.
fn put_selected<O: Output>(
    alloc: Global,
    bytes: &[u8],
    look: Look,
    output: &mut O,
) -> Result<(), ShowStop>
    ensures lines { (text : List ℕ) × AreLines text × AppendsFront (O.contents output.old) (O.contents output.new) text }
    ensures whole { OnOk result ((text : List ℕ) × AreLines text × Appends (O.contents output.old) (O.contents output.new) text) }
{
    match ShownLines::new(alloc, bytes, look) {
        Ok(lines) => {
            let mut lines = lines;
            put_lines(&mut lines, output)
        }
        Err(fault) => Err(ShowStop::Fault(fault)),
    }
}

/// Says why a history is refused. Where memory runs out, that is said in the place of the fault: lines may stand ahead of it,
/// so it isn't told as the program's want of memory.
fn tell_refused<O: Output>(alloc: Global, output: &mut O, fault: HistoryFault) -> u8
    ensures { result ≡ 2 }
{
    if let HistoryFault::NoMemory = fault {
        return tell(output, b"refused: out of memory\n", 2);
    }
    match verdict_report(alloc, FileVerdict::BadHistory(fault)) {
        Ok(report) => {
            tell_report(output, &report);
            2
        }
        Err(AllocError) => tell(output, b"refused: out of memory\n", 2),
    }
}

/// Shows a line for each event of a history file that a look is for, and after them the file's first fault, if it has one.
/// Gives 0 for a history, else 2.
pub fn show_bytes<O: Output>(alloc: Global, bytes: &[u8], look: Look, output: &mut O) -> u8
    // All that is written of a history are lines of printable bytes.
    ensures lines { result ≡ 0 → (text : List ℕ) × AreLines text × Appends (O.contents output.old) (O.contents output.new) text }
    ensures whole { result ≡ 0 → (known : KnownCalls) × IsCallsFile bytes.now known }
    ensures known { result ≢ 0 → result ≡ 2 }
{
    match put_selected(alloc, bytes, look, output) {
        Ok(()) => match read_calls(alloc, bytes) {
            Ok(_) => 0,
            Err(fault) => tell_refused(alloc, output, fault),
        },
        Err(ShowStop::Fault(fault)) => tell_refused(alloc, output, HistoryFault::from(fault)),
        Err(ShowStop::CannotWrite) => 2,
    }
}

/// Says what a verdict is, after lines. Where memory runs out that is said as [`tell_refused`] says it.
fn tell_verdict<O: Output>(alloc: Global, output: &mut O, verdict: FileVerdict) -> u8
    ensures yes { result ≡ 0 → verdict ≡ Yes }
    ensures known { result < 3 }
{
    match verdict_report(alloc, verdict) {
        Ok(report) => tell_report(output, &report),
        Err(AllocError) => tell(output, b"refused: out of memory\n", 2),
    }
}

/// Shows the lines as [`show_bytes`], with the calls marked that the verdict on the history and a certificate names, and after them
/// the verdict as `check` says it, with its status.
pub fn show_judged<O: Output>(
    alloc: Global,
    bytes: &[u8],
    certificate: &[u8],
    look: Look,
    output: &mut O,
) -> u8
    // 0 comes of a yes alone.
    ensures yes { result ≡ 0 → IsFileVerdict bytes.now certificate.now Yes }
    // Where memory ran out ahead of the first line, that alone is said.
    ensures memory_line { result ≡ 3 → Appends (O.contents output.old) (O.contents output.new) memory_line }
    ensures known { result < 4 }
{
    let verdict = match check_files(alloc, bytes, certificate) {
        Ok(verdict) => verdict,
        Err(AllocError) => return tell_want_of_memory(output),
    };
    let mut look = look;
    look.marks = marks_of(&verdict);
    match put_selected(alloc, bytes, look, output) {
        Ok(()) => tell_verdict(alloc, output, verdict),
        Err(ShowStop::Fault(FileFault::NoMemory)) => tell_refused(
            alloc,
            output,
            HistoryFault::NoMemory,
        ),
        Err(ShowStop::Fault(_)) => tell_verdict(alloc, output, verdict),
        Err(ShowStop::CannotWrite) => 2,
    }
}
