//! Replies that are written.

ghost use Rattle.std.specs.Prelude.{◌≡◌, ◌++◌, ℕ, List, OnOk, IfErr};
ghost use Rattle.std.specs.Io.KnownBytes.{Appends};
ghost use Rattle.xdr_records.specs.Record.{record_text};
ghost use Rattle.server_connection.specs.Steps.{IsUnsent};

use crate::end::StreamEnd;
use program_streams::write_pieces;
use std::alloc::Global;
use std::io::Write;
use xdr_records::{RECORD_LIMIT, frame};

/// Writes a reply as one fragment.
pub(crate) fn send<W: Write>(alloc: Global, writer: &mut W, reply: &[u8]) -> Result<(), StreamEnd>
    ensures whole { OnOk result (Appends (W.contents writer.old) (W.contents writer.new) (record_text reply.now)) }
    ensures front { IfErr result (λ end. IsUnsent end (W.contents writer.old) (W.contents writer.new) (record_text reply.now)) }
{
    if reply.len() > RECORD_LIMIT {
        return Err(StreamEnd::WriteFault);
    }
    let text = frame(alloc, reply)?;
    match write_pieces(writer, text.as_slice()) {
        Ok(()) => Ok(()),
        Err(_) => Err(StreamEnd::WriteFault),
    }
}
