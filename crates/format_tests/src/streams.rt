//! Messages of two calls and records of the first, readers that give pieces, fail, don't end or count, and a writer that fails.

use std::io::{self, ErrorKind, Read, Write};

/// The call with transaction number 1: CREATE of "a" in the root, UNCHECKED and without attributes.
pub(crate) const CALL: &[u8] =
    b"\0\0\0\x01\0\0\0\0\0\0\0\x02\0\x01\x86\xa3\0\0\0\x03\0\0\0\x08\0\0\0\0\0\0\0\0\0\0\0\0\0\0\0\0\0\0\0\x01\0\0\0\0\0\0\0\x01a\0\0\0\0\0\0\0\0\0\0\0\0\0\0\0\0\0\0\0\0\0\0\0\0\0\0\0\0\0\0\0";

/// The call with transaction number 2: WRITE of "abc" to the file of handle aa, FILE_SYNC.
pub(crate) const WRITE_CALL: &[u8] =
    b"\0\0\0\x02\0\0\0\0\0\0\0\x02\0\x01\x86\xa3\0\0\0\x03\0\0\0\x07\0\0\0\0\0\0\0\0\0\0\0\0\0\0\0\0\0\0\0\x01\xaa\0\0\0\0\0\0\0\0\0\0\0\0\0\0\x03\0\0\0\x02\0\0\0\x03abc\0";

/// The reply to the first: OK, with a handle.
pub(crate) const REPLY: &[u8] =
    b"\0\0\0\x01\0\0\0\x01\0\0\0\0\0\0\0\0\0\0\0\0\0\0\0\0\0\0\0\0\0\0\0\x01\0\0\0\x01\xaa\0\0\0\0\0\0\0\0\0\0\0\0\0\0\0";

/// The record of the first call in a stream.
pub(crate) const CALL_FRAME: &[u8] =
    b"\x80\0\0\x54\0\0\0\x01\0\0\0\0\0\0\0\x02\0\x01\x86\xa3\0\0\0\x03\0\0\0\x08\0\0\0\0\0\0\0\0\0\0\0\0\0\0\0\0\0\0\0\x01\0\0\0\0\0\0\0\x01a\0\0\0\0\0\0\0\0\0\0\0\0\0\0\0\0\0\0\0\0\0\0\0\0\0\0\0\0\0\0\0";

/// The first 50 bytes of it.
pub(crate) const PART_FRAME: &[u8] =
    b"\x80\0\0\x54\0\0\0\x01\0\0\0\0\0\0\0\x02\0\x01\x86\xa3\0\0\0\x03\0\0\0\x08\0\0\0\0\0\0\0\0\0\0\0\0\0\0\0\0\0\0\0\x01\0\0";

/// The record of the call, and the header of one that is too long.
pub(crate) const LONG_FRAME: &[u8] =
    b"\x80\0\0\x54\0\0\0\x01\0\0\0\0\0\0\0\x02\0\x01\x86\xa3\0\0\0\x03\0\0\0\x08\0\0\0\0\0\0\0\0\0\0\0\0\0\0\0\0\0\0\0\x01\0\0\0\0\0\0\0\x01a\0\0\0\0\0\0\0\0\0\0\0\0\0\0\0\0\0\0\0\0\0\0\0\0\0\0\0\0\0\0\0\xff\xff\xff\xff";

/// The record of the reply in a stream.
pub(crate) const REPLY_FRAME: &[u8] =
    b"\x80\0\0\x34\0\0\0\x01\0\0\0\x01\0\0\0\0\0\0\0\0\0\0\0\0\0\0\0\0\0\0\0\0\0\0\0\x01\0\0\0\x01\xaa\0\0\0\0\0\0\0\0\0\0\0\0\0\0\0";

/// What a stream gives after its bytes.
#[derive(Clone, Copy)]
pub(crate) enum Then {
    End,
    /// The reads fail.
    Fault,
    /// One byte of zero at each read, without end.
    Zeros,
}

/// Gives some bytes, at most so many at a time, and then this.
#[derive(Clone, Copy)]
pub(crate) struct Stream<'a>(pub(crate) &'a [u8], pub(crate) usize, pub(crate) Then);

impl Read for Stream<'_> {
    fn read(&mut self, buf: &mut [u8]) -> io::Result<usize> {
        if !self.0.is_empty() {
            let most = self.1.min(buf.len());
            return self.0.read(&mut buf[..most]);
        }
        match self.2 {
            Then::Fault => Err(io::Error::from(ErrorKind::ConnectionReset)),
            Then::Zeros if !buf.is_empty() => {
                buf[0] = 0;
                Ok(1)
            }
            _ => Ok(0),
        }
    }
}

/// Counts its reads: so many are interrupted, and each later one gives a byte of zero. Four of those are a fragment that ends no record.
#[derive(Drop)]
pub(crate) struct Fragments {
    pub(crate) interrupted: u32,
    pub(crate) reads: u32,
}

impl Read for Fragments {
    fn read(&mut self, buf: &mut [u8]) -> io::Result<usize> {
        self.reads = self.reads.saturating_add(1);
        if self.reads <= self.interrupted {
            return Err(io::Error::from(ErrorKind::Interrupted));
        }
        Stream(b"", 1, Then::Zeros).read(buf)
    }
}

/// Takes no byte: each write fails.
#[derive(Drop)]
pub(crate) struct Broken;

impl Write for Broken {
    fn write(&mut self, _buf: &[u8]) -> io::Result<usize> {
        Err(io::Error::from(ErrorKind::BrokenPipe))
    }

    fn flush(&mut self) -> io::Result<()> {
        Ok(())
    }
}
