//! Readers that give a bundle in pieces, break off or never end, and writers with little room.

use crate::files::{CERTIFICATE, HISTORY};
use nfsbench_engine::run_bundle;
use program_streams::{Sink, Stream};
use std::alloc::{AllocError, Global};
use std::io::{self, ErrorKind, Read, Write};
use std::test::Fail;

/// A history of no event, in hex.
const EMPTY: &str = "4e46534849535431000000010000000000000000";

/// A certificate of no call.
const NO_CALL: &str = "witness 1\nend\n";

const YES: &[u8] = b"yes\n";

const BAD_BUNDLE: &[u8] = b"refused: bad bundle\n";

/// A bundle of a history in hex and a certificate.
fn bundle_of(alloc: Global, history: &str, certificate: &str) -> Result<String, AllocError> {
    format!(in alloc; "{history}\n{certificate}")
}

/// How a reader behaves.
#[derive(Clone, Copy)]
enum Reading {
    /// Ends after its bytes.
    Ends,
    /// Fails after its bytes.
    Fails,
    /// Is interrupted before each read that gives something.
    Interrupted,
    /// Gives one digit a read, without end.
    Endless,
}

/// Gives some bytes, at most so many at a time, and behaves so.
#[derive(Drop)]
struct Slow<'a> {
    rest: &'a [u8],
    piece: usize,
    reading: Reading,
    /// Whether this read is the first, the third and so on.
    is_odd: bool,
}

impl Read for Slow<'_> {
    fn read(&mut self, buf: &mut [u8]) -> io::Result<usize> {
        self.is_odd = !self.is_odd;
        match self.reading {
            Reading::Interrupted if self.is_odd => Err(io::Error::from(ErrorKind::Interrupted)),
            Reading::Fails if self.rest.is_empty() => Err(io::Error::from(
                ErrorKind::UnexpectedEof,
            )),
            Reading::Endless => b"0".as_slice().read(buf),
            _ => {
                let room = self.piece.min(buf.len());
                self.rest.read(&mut buf[..room])
            }
        }
    }
}

/// Whether a bundle that comes in pieces of so many bytes, from a reader that behaves so, gets this line and this status.
fn is_told(
    alloc: Global,
    rest: &[u8],
    piece: usize,
    reading: Reading,
    line: &[u8],
    status: u8,
) -> bool {
    let mut reader = Slow {
        rest,
        piece,
        reading,
        is_odd: false,
    };
    let mut told = Vec::new(alloc);
    let given = run_bundle(alloc, &mut Stream::new(&mut reader), &mut told);
    given == status && told.as_slice() == line
}

/// Whether no bundle is found where the reader fails after so many bytes, given in such pieces.
fn is_torn(alloc: Global, bundle: &[u8], end: usize, piece: usize) -> bool {
    match bundle.get(..end) {
        Some(rest) => is_told(alloc, rest, piece, Reading::Fails, BAD_BUNDLE, 2),
        None => false,
    }
}

#[test]
fn a_reader_that_fails_anywhere_gives_no_bundle(rt: HostRuntime) -> Result<(), Fail> {
    let bundle = bundle_of(rt.alloc(), HISTORY, CERTIFICATE)?;
    for end in 0..=bundle.len() {
        let whole = is_torn(rt.alloc(), bundle.as_bytes(), end, 65_536);
        assert!(rt; whole, "after {end}");
        let pieces = is_torn(rt.alloc(), bundle.as_bytes(), end, 7);
        assert!(rt; pieces, "after {end}, in pieces");
    }
    Ok(())
}

#[test]
fn a_bundle_may_come_in_any_pieces(rt: HostRuntime) -> Result<(), Fail> {
    let bundle = bundle_of(rt.alloc(), HISTORY, CERTIFICATE)?;
    for piece in 1..=bundle.len() {
        let whole = is_told(rt.alloc(), bundle.as_bytes(), piece, Reading::Ends, YES, 0);
        assert!(rt; whole, "pieces of {piece}");
    }
    Ok(())
}

#[test]
fn an_interrupted_read_is_tried_again_and_an_endless_one_ends(rt: HostRuntime) -> Result<(), Fail> {
    let bundle = bundle_of(rt.alloc(), HISTORY, CERTIFICATE)?;
    let text = bundle.as_bytes();
    assert!(rt; is_told(rt.alloc(), text, 100, Reading::Interrupted, YES, 0));
    assert!(rt; is_told(rt.alloc(), b"", 1, Reading::Endless, BAD_BUNDLE, 2));
    Ok(())
}

/// How a writer behaves.
#[derive(Clone, Copy)]
enum Writing {
    /// Takes what fits at once.
    AtOnce,
    /// Takes a byte at a time.
    Bytewise,
    /// Is interrupted at its first write, and then takes a byte at a time.
    Interrupted,
    /// Takes what fits, and doesn't hand it on.
    Unflushed,
}

/// A writer with room for so many bytes, which behaves so.
#[derive(Drop)]
struct Narrow {
    told: Vec<u8>,
    room: usize,
    writing: Writing,
}

impl Write for Narrow {
    fn write(&mut self, buf: &[u8]) -> io::Result<usize> {
        let piece = match self.writing {
            Writing::Interrupted => {
                self.writing = Writing::Bytewise;
                return Err(io::Error::from(ErrorKind::Interrupted));
            }
            Writing::Bytewise => 1,
            Writing::AtOnce | Writing::Unflushed => self.room,
        };
        let count = piece.min(self.room).min(buf.len());
        if count == 0 {
            return Err(io::Error::from(ErrorKind::StorageFull));
        }
        self.told.extend_from_slice(&buf[..count])?;
        self.room -= count;
        Ok(count)
    }

    fn flush(&mut self) -> io::Result<()> {
        match self.writing {
            Writing::Unflushed => Err(io::Error::from(ErrorKind::BrokenPipe)),
            _ => Ok(()),
        }
    }
}

/// Whether just this is written to such a writer, with this status.
fn is_written(
    alloc: Global,
    mut bundle: &[u8],
    room: usize,
    writing: Writing,
    line: &[u8],
    status: u8,
) -> bool {
    let mut writer = Narrow {
        told: Vec::new(alloc),
        room,
        writing,
    };
    let given = run_bundle(alloc, &mut bundle, &mut Sink::new(&mut writer));
    given == status && writer.told.as_slice() == line
}

/// Whether just the front of the line that fits is written with this status, at once and a byte at a time.
fn is_front_written(alloc: Global, bundle: &[u8], line: &[u8], room: usize, status: u8) -> bool {
    match line.get(..room) {
        Some(front) => is_written(alloc, bundle, room, Writing::AtOnce, front, status)
            && is_written(alloc, bundle, room, Writing::Bytewise, front, status),
        None => false,
    }
}

/// Whether the line comes out whole with its status where there is room for it, and cut off with status 2 where not.
fn is_cut_off(alloc: Global, bundle: &[u8], line: &[u8], status: u8) -> bool {
    for room in 0..line.len() {
        if !is_front_written(alloc, bundle, line, room, 2) {
            return false;
        }
    }
    is_front_written(alloc, bundle, line, line.len(), status)
}

/// Certificates of the sample's history, and what is said of them, with the status.
const SAID: [(&str, &[u8], u8); 3] = [
    (CERTIFICATE, YES, 0),
    (NO_CALL, b"no: Missing 1\n", 1),
    ("witness 2\nend\n", b"refused: BadLine 1\n", 2),
];

#[test]
fn a_line_that_breaks_off_has_the_status_of_no_verdict(rt: HostRuntime) -> Result<(), Fail> {
    for (certificate, line, status) in SAID {
        let bundle = bundle_of(rt.alloc(), HISTORY, certificate)?;
        assert!(rt; is_cut_off(rt.alloc(), bundle.as_bytes(), line, status));
    }
    assert!(rt; is_cut_off(rt.alloc(), b"", BAD_BUNDLE, 2));
    Ok(())
}

#[test]
fn a_line_that_is_not_handed_on_has_the_status_of_no_verdict(rt: HostRuntime) -> Result<(), Fail> {
    let alloc = rt.alloc();
    let bundle = bundle_of(alloc, EMPTY, NO_CALL)?;
    let text = bundle.as_bytes();
    assert!(rt; is_written(alloc, text, 65_536, Writing::Unflushed, YES, 2));
    // An interrupted write is tried again.
    assert!(rt; is_written(alloc, text, 65_536, Writing::Interrupted, YES, 0));
    Ok(())
}
