//! Where the bytes of an input come from.

ghost use Rattle.std.specs.Prelude.{◌≡◌, ◌+◌, ◌/◌, ℕ, List, length, Option, Some, None};
ghost use Rattle.std.specs.Io.{ReadsAtMost};
ghost use Rattle.std.specs.Io.KnownBytes.{ReadConsumes};
ghost use Rattle.program_streams.specs.Streams.{DoesNotFail};

use std::io::{self, Read};

/// How many bytes a read asks for.
pub const READ_SIZE: usize = 65_536;

/// A stream of bytes that ends. It may say which bytes are to come, and that no read of it fails.
pub trait Input {
    // The bytes to come, where they are known.
    ghost remaining: { Self → Option (List ℕ) } = { λ _. None };

    // At most how many reads are ahead of the one that tells the end, where no read fails, unless it is interrupted.
    ghost reads_left: { Self → Option ℕ } = { λ _. None };

    /// Reads some bytes to the front of the buffer, and says how many; none at the end.
    fn read(&mut self, buf: &mut [u8]) -> io::Result<usize>
        ensures bound { ReadsAtMost result buf.new }
        ensures bytes { ReadConsumes (remaining self.old) (remaining self.new) result buf.new }
        ensures sound { length buf.new ≡ 65536
            → DoesNotFail (reads_left self.old) (reads_left self.new) result };
}

/// Each read fills the buffer, as far as there are bytes.
impl Input for &[u8] {
    ghost remaining = { λ bytes. Some bytes.now };

    ghost reads_left = { λ bytes. Some ((length bytes.now + 65535) / 65536) };

    fn read(&mut self, buf: &mut [u8]) -> io::Result<usize> {
        Read::read(self, buf)
    }
}

/// A reader of the library as an input. Its reads may fail.
#[derive(Drop)]
pub struct Stream<R> {
    inner: R,
}

impl<R: Read> Stream<R> {
    /// A reader of the library, read as an input.
    pub fn new(inner: R) -> Stream<R>
        ensures { result ≡ record { inner = inner } }
    {
        Stream { inner }
    }
}

impl<R: Read> Input for Stream<R> {
    ghost remaining = { λ stream. R.remaining stream.inner };

    fn read(&mut self, buf: &mut [u8]) -> io::Result<usize> {
        self.inner.read(buf)
    }
}
