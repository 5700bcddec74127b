//! Streams of calls that are served, over memory.

mod messages;
mod mounting;
mod plans;

use crate::servers::{OpenServer, PLAIN, open_server};
use journal_server::CallFault;
use server_connection::{Allowance, Export, Room, StreamEnd, serve_export, serve_stream};
use std::alloc::{AllocError, Global};
use std::io::{self, ErrorKind, Read, Write};
use std::sync::Wait;
use std::test::Fail;

/// A NULL call of transaction 5, as one fragment.
const NULL_FRAME: &[u8] =
    b"\x80\x00\x00\x28\x00\x00\x00\x05\x00\x00\x00\x00\x00\x00\x00\x02\x00\x01\x86\xa3\
    \x00\x00\x00\x03\x00\x00\x00\x00\x00\x00\x00\x00\x00\x00\x00\x00\x00\x00\x00\x00\x00\x00\x00\x00";

/// Its reply.
const NULL_REPLY: &[u8] =
    b"\x80\x00\x00\x18\x00\x00\x00\x05\x00\x00\x00\x01\x00\x00\x00\x00\x00\x00\x00\x00\
    \x00\x00\x00\x00\x00\x00\x00\x00";

/// A GETATTR of the root, of transaction 6, as one fragment: a call that is recorded.
const RECORDED_FRAME: &[u8] =
    b"\x80\x00\x00\x34\x00\x00\x00\x06\x00\x00\x00\x00\x00\x00\x00\x02\x00\x01\x86\xa3\
    \x00\x00\x00\x03\x00\x00\x00\x01\x00\x00\x00\x00\x00\x00\x00\x00\x00\x00\x00\x00\x00\x00\x00\x00\
    \x00\x00\x00\x08\x00\x00\x00\x00\x00\x00\x00\x00";

/// The header of a record of 2^31 - 1 bytes, and a record that is no call.
const LONG: &[u8] = b"\xff\xff\xff\xff";

const NO_CALL: &[u8] = b"\x80\x00\x00\x00";

/// What a stream gives after its bytes.
#[derive(Clone, Copy)]
enum Then {
    End,
    /// The reads fail.
    Fault,
    /// One byte of zero at each read, without end.
    Zeros,
}

/// Gives some bytes, at most so many at a time, and then this.
#[derive(Clone, Copy)]
struct Stream<'a>(&'a [u8], usize, Then);

impl Read for Stream<'_> {
    fn read(&mut self, buf: &mut [u8]) -> io::Result<usize> {
        if !self.0.is_empty() {
            let most = self.1.min(buf.len());
            return self.0.read(&mut buf[..most]);
        }
        match self.2 {
            Then::Fault => Err(io::Error::from(ErrorKind::ConnectionReset)),
            Then::Zeros if !buf.is_empty() => {
                buf[0] = 0;
                Ok(1)
            }
            _ => Ok(0),
        }
    }
}

/// Takes no byte: each write fails.
#[derive(Drop)]
struct Broken;

impl Write for Broken {
    fn write(&mut self, _buf: &[u8]) -> io::Result<usize> {
        Err(io::Error::from(ErrorKind::BrokenPipe))
    }

    fn flush(&mut self) -> io::Result<()> {
        Ok(())
    }
}

/// Ends a server.
fn put_away(alloc: Global, server: OpenServer) {
    drop(server.close(Vec::new(alloc)));
}

/// How much of a stream is served.
#[derive(Clone, Copy)]
enum Most<'r> {
    /// So many records.
    Records(u64),
    /// What a history has room for.
    Room(&'r Room),
}

/// Serves a stream on the next lane: how it ends, and how many exchanges the pass has.
fn serve_lane<R: Wait, W: Write>(
    rt: &R,
    alloc: Global,
    server: &OpenServer,
    stream: &mut Stream<'_>,
    writer: &mut W,
    most: Most<'_>,
) -> Option<(StreamEnd, usize)> {
    let mut pass = server.join_lane(rt).ok()?;
    let end = match most {
        Most::Records(records) => {
            serve_stream(rt, alloc, stream, writer, server, &mut pass, records)
        }
        Most::Room(room) => {
            let allowance = Allowance { records: 9, room };
            let plain = Export::Plain;
            serve_export(
                rt, alloc, plain, stream, writer, server, &mut pass, allowance,
            )
        }
    };
    Some((end, pass.exchanges().len()))
}

/// Serves a stream of a new server to this writer: how it ends, and how many exchanges the pass has.
fn serve<R: Wait, W: Write>(
    rt: &R,
    alloc: Global,
    mut stream: Stream<'_>,
    writer: &mut W,
    most: Most<'_>,
) -> Result<(StreamEnd, usize), AllocError> {
    let server = open_server(alloc, PLAIN)?;
    let served = serve_lane(rt, alloc, &server, &mut stream, writer, most);
    put_away(alloc, server);
    served.ok_or(AllocError)
}

/// These bytes, so many times.
fn repeated(alloc: Global, bytes: &[u8], count: usize) -> Result<Vec<u8>, AllocError> {
    let mut all = Vec::new(alloc);
    for _ in 0..count {
        all.extend_from_slice(bytes)?;
    }
    Ok(all)
}

const BAD_RECORD: StreamEnd = StreamEnd::Refused(CallFault::BadRecord);

/// How many bytes of two NULL calls a stream gives, which bytes after them, how many at a time, and what then; how many records are asked
/// of it; how it ends, and how many NULL calls are answered by then.
const SERVED: [((usize, &[u8], usize, Then), u64, StreamEnd, usize); 11] = [
    ((44, b"", 4096, Then::End), 2, StreamEnd::End, 1),
    ((44, b"", 1, Then::End), 2, StreamEnd::End, 1),
    ((44, b"", 4096, Then::End), 1, StreamEnd::Bound, 1),
    ((88, b"", 4096, Then::End), 1, StreamEnd::Bound, 1),
    ((88, b"", 4096, Then::End), 3, StreamEnd::End, 2),
    ((44, b"", 4096, Then::End), 0, StreamEnd::Bound, 0),
    ((0, b"", 4096, Then::Zeros), 2, StreamEnd::Bound, 0),
    ((44, b"", 4096, Then::Fault), 2, StreamEnd::ReadFault, 1),
    ((44, LONG, 4096, Then::End), 2, StreamEnd::RecordTooLong, 1),
    ((44, NO_CALL, 4096, Then::End), 3, BAD_RECORD, 1),
    ((40, b"", 4096, Then::End), 2, StreamEnd::End, 0),
];

/// Whether a stream of NULL calls ends so, with so many of them answered and none noted.
fn ends<R: Wait>(
    rt: &R,
    alloc: Global,
    (given, tail, at_once, then): (usize, &[u8], usize, Then),
    records: u64,
    (want, replies): (StreamEnd, usize),
) -> Result<bool, AllocError> {
    let mut bytes = repeated(alloc, NULL_FRAME, 2)?;
    bytes.truncate(given);
    bytes.extend_from_slice(tail)?;
    let written = repeated(alloc, NULL_REPLY, replies)?;
    let mut out = Vec::new(alloc);
    let stream = Stream(bytes.as_slice(), at_once, then);
    let ended = serve(rt, alloc, stream, &mut out, Most::Records(records))?;
    Ok(ended == (want, 0) && out.as_slice() == written.as_slice())
}

#[test]
fn a_stream_is_served(rt: HostRuntime) -> Result<(), Fail> {
    for (stream, records, end, replies) in SERVED {
        assert!(rt; ends(&rt, rt.alloc(), stream, records, (end, replies))?);
    }
    Ok(())
}

/// How a stream of this one record ends, whose writer fails or doesn't, how many exchanges the pass has, and how many bytes are written.
fn serve_one<R: Wait>(
    rt: &R,
    alloc: Global,
    frame: &[u8],
    fails: bool,
) -> Result<((StreamEnd, usize), usize), AllocError> {
    let stream = Stream(frame, 4096, Then::End);
    let mut out = Vec::new(alloc);
    let ended = if fails {
        serve(rt, alloc, stream, &mut Broken, Most::Records(2))?
    } else {
        serve(rt, alloc, stream, &mut out, Most::Records(2))?
    };
    Ok((ended, out.len()))
}

/// The reply has a header, six words of its head, the status and 84 bytes of attributes.
#[test]
fn a_recorded_call_is_noted_also_where_its_reply_is_not_written(
    rt: HostRuntime,
) -> Result<(), Fail> {
    let alloc = rt.alloc();
    let written = ((StreamEnd::End, 1), 4 + 24 + 4 + 84);
    assert!(rt; serve_one(&rt, alloc, RECORDED_FRAME, false)? == written);
    assert!(rt; serve_one(&rt, alloc, RECORDED_FRAME, true)? == ((StreamEnd::WriteFault, 1), 0));
    assert!(rt; serve_one(&rt, alloc, NULL_FRAME, true)? == ((StreamEnd::WriteFault, 0), 0));
    Ok(())
}

/// What a call of the root's attributes and its reply take in a history, 16 bytes beside each message; what is set aside has the longest reply.
const TAKEN: usize = (16 + 52) + (16 + 112);

const SET_ASIDE: usize = (16 + 52) + (16 + 2_097_152);

/// A history's bytes beside 64 closes.
const BESIDE_CLOSES: usize = 268_435_456 - 64 * 16;

/// A call that comes twice, for how many bytes there is room, how the stream ends, and how many calls are noted. One that isn't takes no room.
const ROOMS: [(&[u8], usize, StreamEnd, usize); 6] = [
    (RECORDED_FRAME, SET_ASIDE - 1, StreamEnd::Full, 0),
    (RECORDED_FRAME, SET_ASIDE, StreamEnd::Full, 1),
    (RECORDED_FRAME, SET_ASIDE + TAKEN - 1, StreamEnd::Full, 1),
    (RECORDED_FRAME, SET_ASIDE + TAKEN, StreamEnd::End, 2),
    (NULL_FRAME, SET_ASIDE - 12, StreamEnd::End, 0),
    (NULL_FRAME, SET_ASIDE - 13, StreamEnd::Full, 0),
];

/// Whether a stream of a call that comes twice ends so, in a history with room for so many bytes beside 64 closes.
fn ends_within<R: Wait>(
    rt: &R,
    alloc: Global,
    frame: &[u8],
    bytes: usize,
    want: (StreamEnd, usize),
) -> Result<bool, AllocError> {
    let calls = repeated(alloc, frame, 2)?;
    let room = Room::of_history(BESIDE_CLOSES.saturating_sub(bytes));
    let stream = Stream(calls.as_slice(), 4096, Then::End);
    Ok(serve(rt, alloc, stream, &mut Vec::new(alloc), Most::Room(&room))? == want)
}

#[test]
fn a_full_history_ends_the_stream(rt: HostRuntime) -> Result<(), Fail> {
    for (frame, bytes, end, noted) in ROOMS {
        assert!(rt; ends_within(&rt, rt.alloc(), frame, bytes, (end, noted))?);
    }
    Ok(())
}
