//! Where a text is written.

ghost use Rattle.std.specs.Prelude.{◌≡◌, ◌-◌, ℕ, List, length, take, Option, Some, None, OnOk, OnErr, IsOk, vec_len, ◌++◌};
ghost use Rattle.std.specs.Vec.{vec_capacity};
ghost use Rattle.std.specs.Io.KnownBytes.{Appends};
ghost use Rattle.program_streams.specs.Streams.{AppendsFront, HasRoom};

use std::io::{self, ErrorKind, Write};

/// What takes a text. It may say what it holds, and that so many bytes can be written without failing.
pub trait Output {
    // What it holds, where that is known.
    ghost contents: { Self → Option (List ℕ) } = { λ _. None };

    // How long a text may be so that writing it doesn't fail, where there is such a length.
    ghost room: { Self → Option ℕ } = { λ _. None };

    /// Writes a text, or a front of it where a write fails.
    fn write_text(&mut self, text: &[u8]) -> io::Result<()>
        ensures whole { OnOk result (Appends (contents self.old) (contents self.new) text.now) }
        ensures front { AppendsFront (contents self.old) (contents self.new) text.now }
        ensures sound { HasRoom (room self.old) text.now → IsOk result };
}

/// The room is what was reserved.
impl Output for Vec<u8> {
    ghost contents = { λ bytes. Some bytes.items };

    ghost room = { λ bytes. Some (vec_capacity bytes - vec_len bytes) };

    fn write_text(&mut self, text: &[u8]) -> io::Result<()> {
        self.extend_from_slice(text)?;
        Ok(())
    }
}

/// A writer of the library as an output. Its writes may fail.
#[derive(Drop)]
pub struct Sink<W> {
    inner: W,
}

impl<W: Write> Sink<W> {
    /// A writer of the library, written to as an output.
    pub fn new(inner: W) -> Sink<W>
        ensures { result ≡ record { inner = inner } }
    {
        Sink { inner }
    }
}

impl<W: Write> Output for Sink<W> {
    ghost contents = { λ sink. W.contents sink.inner };

    fn write_text(&mut self, text: &[u8]) -> io::Result<()> {
        write_pieces(&mut self.inner, text)
    }
}

/// Writes a text piece by piece. A write that is interrupted is tried again.
pub fn write_pieces<W: Write>(writer: &mut W, text: &[u8]) -> io::Result<()>
    ensures whole { OnOk result (Appends (W.contents writer.old) (W.contents writer.new) text.now) }
    ensures front { AppendsFront (W.contents writer.old) (W.contents writer.new) text.now }
{
    let mut written = 0;
    for _ in 0..u64::MAX {
        if written == text.len() {
            return writer.flush();
        }
        match writer.write(&text[written..]) {
            Ok(0) => return Err(io::Error::from(ErrorKind::WriteZero)),
            Ok(count) => written += count,
            Err(error) if error.kind() == ErrorKind::Interrupted => {}
            Err(error) => return Err(error),
        }
    }
    Err(io::Error::from(ErrorKind::Other))
}
