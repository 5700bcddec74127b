//! A picture of the history at a path.

ghost use Rattle.std.specs.Prelude.{◌≡◌, ◌<◌};
ghost use Rattle.std.specs.Io.KnownBytes.{Appends};
ghost use Rattle.program_streams.specs.Told.{memory_line};

use crate::files::{read_certificate_file, read_history_file};
use drawing_command::{DrawRequest, draw_history};
use program_streams::{Output, tell, tell_want_of_memory};
use std::alloc::AllocError;
use std::rt::Files;

/// Draws a history, and the certificate at a path, as [`draw_history`].
fn draw_with_certificate<R: Files + AllocGlobal + Eprint, O: Output>(
    rt: &R,
    request: &DrawRequest<'_>,
    history: &[u8],
    path: &str,
    output: &mut O,
) -> u8
    ensures memory_line { result ≡ 3
        → Appends (O.contents output.old) (O.contents output.new) memory_line }
    ensures known { result < 4 }
{
    match read_certificate_file(rt, path) {
        Ok(Some(text)) => draw_history(rt.alloc(), request, history, Some(text.as_slice()), output),
        Ok(None) => tell(output, b"refused: unreadable certificate\n", 2),
        Err(AllocError) => tell_want_of_memory(output),
    }
}

/// Draws a history, with the certificate if there is one, as [`draw_history`].
fn draw_bytes<R: Files + AllocGlobal + Eprint, O: Output>(
    rt: &R,
    request: &DrawRequest<'_>,
    history: &[u8],
    output: &mut O,
) -> u8
    ensures memory_line { result ≡ 3
        → Appends (O.contents output.old) (O.contents output.new) memory_line }
    ensures known { result < 4 }
{
    match request.certificate {
        Some(path) => draw_with_certificate(rt, request, history, path, output),
        None => draw_history(rt.alloc(), request, history, None, output),
    }
}

/// Draws the history at a path. It is read first, and then the certificate, before anything is judged.
pub(crate) fn draw_path<R: Files + AllocGlobal + Eprint, O: Output>(
    rt: &R,
    request: &DrawRequest<'_>,
    output: &mut O,
) -> u8
    ensures memory_line { result ≡ 3
        → Appends (O.contents output.old) (O.contents output.new) memory_line }
    ensures known { result < 4 }
{
    match read_history_file(rt, request.history) {
        Ok(Some(history)) => draw_bytes(rt, request, history.as_slice(), output),
        Ok(None) => tell(output, b"refused: unreadable history\n", 2),
        Err(AllocError) => tell_want_of_memory(output),
    }
}
