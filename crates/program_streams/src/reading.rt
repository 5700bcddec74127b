//! An input, read to its end.

ghost use Rattle.std.specs.Prelude.{◌≡◌, ◌≤◌, ◌<◌, ℕ, List, length, Some, IfOk, IfSome, OnOk, ◌++◌, vec_len, None};
ghost use Rattle.std.specs.Io.KnownBytes.{Consumes, IsAtEnd};
ghost use Rattle.program_streams.specs.Streams.{HasFewerReads};

use crate::input::{Input, READ_SIZE};
use std::alloc::{AllocError, Global};
use std::io::ErrorKind;

/// How many reads an input may take.
pub const READ_LIMIT: u32 = 1_000_000;

/// Why an input wasn't read.
#[derive(Clone, Copy)]
pub enum InputFault {
    /// A read failed, or there were too many.
    Unreadable,
    /// There was no memory for the bytes. A reader that tells want of memory is unreadable.
    NoMemory,
}

impl From<AllocError> for InputFault {
    ghost use Rattle.program_streams.specs.declared.reading.InputFault.TheVariants.{NoMemory};

    ghost from_gives = { λ _ fault. fault ≡ NoMemory };

    fn from(_error: AllocError) -> InputFault {
        InputFault::NoMemory
    }
}

/// How far an input was read.
#[derive(Clone, Copy)]
enum Progress {
    /// There may be more.
    More,
    /// It ends here.
    End,
}

/// One read, whose bytes are put behind those that came before.
fn read_piece<I: Input>(
    input: &mut I,
    buffer: &mut [u8],
    bytes: &mut Vec<u8>,
) -> Result<Progress, InputFault>
    requires { length buffer.old ≡ 65536 }
    ensures piece { OnOk result ((piece : List ℕ) × (bytes.new.items ≡ bytes.old.items ++ piece)
        × Consumes (I.remaining input.old) (I.remaining input.new) piece) }
    ensures end { result ≡ Ok Progress.End → IsAtEnd (I.remaining input.new) }
    ensures more { result ≡ Ok Progress.More
        → IfSome (I.reads_left input.old) (HasFewerReads (I.reads_left input.new)) }
    ensures fails { result ≡ Err InputFault.Unreadable → I.reads_left input.old ≡ None }
{
    match input.read(buffer) {
        Ok(0) => Ok(Progress::End),
        Ok(count) => {
            bytes.extend_from_slice(&buffer[..count])?;
            Ok(Progress::More)
        }
        Err(error) if error.kind() == ErrorKind::Interrupted => Ok(Progress::More),
        Err(_) => Err(InputFault::Unreadable),
    }
}

/// A buffer of this many bytes.
fn empty_buffer(alloc: Global, size: usize) -> Result<Vec<u8>, AllocError>
    ensures { IfOk result (λ buffer. vec_len buffer ≡ size) }
{
    vec![in alloc; 0; size]
}

/// All bytes of an input.
pub fn read_all<I: Input>(alloc: Global, input: &mut I) -> Result<Vec<u8>, InputFault>
    ensures bytes { IfOk result (λ bytes. IfSome (I.remaining input.old) (λ known. bytes.items ≡ known)) }
    ensures fails { result ≡ Err InputFault.Unreadable
        → IfSome (I.reads_left input.old) (λ reads. 1000000 ≤ reads) }
{
    let mut buffer = empty_buffer(alloc, READ_SIZE)?;
    let mut bytes = Vec::new(alloc);
    for _read in 0..READ_LIMIT {
        match read_piece(input, buffer.as_mut_slice(), &mut bytes) {
            Ok(Progress::End) => return Ok(bytes),
            Ok(Progress::More) => {}
            Err(fault) => return Err(fault),
        }
    }
    Err(InputFault::Unreadable)
}
