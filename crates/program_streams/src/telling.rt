//! What is said is written.

ghost use Rattle.std.specs.Prelude.{◌≡◌, ◌⊎◌, IfOk, OnErr};
ghost use Rattle.program_streams.specs.Streams.{AppendsFront, HasRoom};
ghost use Rattle.program_streams.specs.Told.{Tells, memory_line};

use crate::output::Output;
use crate::report::Report;
use std::alloc::AllocError;

/// The exit status where the line can't be written.
const WRITE_FAILED: u8 = 2;

/// The exit status for want of memory.
const OUT_OF_MEMORY: u8 = 3;

/// Writes a line, and gives its exit status where it is written.
pub fn tell<O: Output>(output: &mut O, line: &[u8], status: u8) -> u8
    ensures whole { (result ≡ 2)
        ⊎ Tells result (O.contents output.old) (O.contents output.new) status line.now }
    ensures front { AppendsFront (O.contents output.old) (O.contents output.new) line.now }
    ensures sound { HasRoom (O.room output.old) line.now
        → Tells result (O.contents output.old) (O.contents output.new) status line.now }
{
    match output.write_text(line) {
        Ok(()) => status,
        Err(_) => WRITE_FAILED,
    }
}

/// Writes what is said.
pub fn tell_report<O: Output>(output: &mut O, report: &Report) -> u8
    ensures whole { (result ≡ 2)
        ⊎ Tells result (O.contents output.old) (O.contents output.new) report.now.status report.now.line }
    ensures front { AppendsFront (O.contents output.old) (O.contents output.new) report.now.line }
    ensures sound { HasRoom (O.room output.old) report.now.line
        → Tells result (O.contents output.old) (O.contents output.new) report.now.status report.now.line }
{
    tell(output, report.line().as_bytes(), report.status())
}

/// Says that memory ran out.
pub fn tell_want_of_memory<O: Output>(output: &mut O) -> u8
    ensures whole { (result ≡ 2)
        ⊎ Tells result (O.contents output.old) (O.contents output.new) 3 memory_line }
    ensures front { AppendsFront (O.contents output.old) (O.contents output.new) memory_line }
    ensures sound { HasRoom (O.room output.old) memory_line
        → Tells result (O.contents output.old) (O.contents output.new) 3 memory_line }
{
    tell(output, b"out of memory\n", OUT_OF_MEMORY)
}

/// Writes what is said, or says that memory ran out.
pub fn tell_answer<O: Output>(output: &mut O, answer: Result<Report, AllocError>) -> u8
    ensures memory { OnErr answer ((result ≡ 2)
        ⊎ Tells result (O.contents output.old) (O.contents output.new) 3 memory_line) }
    ensures report { IfOk answer (λ report. (result ≡ 2)
        ⊎ Tells result (O.contents output.old) (O.contents output.new) report.status report.line) }
{
    match answer {
        Ok(report) => tell_report(output, &report),
        Err(AllocError) => tell_want_of_memory(output),
    }
}
