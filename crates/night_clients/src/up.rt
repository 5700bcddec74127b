//! Whether a server is up.

use crate::runtime::ClientsRuntime;
use nfs3_types::{NFS_PROGRAM, NFS_VERSION, Procedure};
use rpc_reader::{ReplyBody, put_call, read_reply};
use std::alloc::{AllocError, Global};
use std::io::{Read, Write};
use std::net::{SocketAddr, TcpStream};
use std::thread;
use std::time::{Duration, Instant};
use xdr_records::frame;

/// How many milliseconds are between two tries.
const PAUSE: u64 = 10;

/// How many seconds a try may take.
const PATIENCE: u64 = 1;

/// The transaction number of the NULL call.
const XID: u32 = 1;

/// The bytes of the reply to it, with its header: accepted, an empty verifier, SUCCESS and no results (RFC 5531, section 9).
const REPLY_SIZE: usize = 28;

/// The bytes of a header (RFC 5531, section 11).
const HEADER_SIZE: usize = 4;

/// A NULL call as one fragment.
fn null_record(alloc: Global) -> Result<Vec<u8>, AllocError> {
    let mut message = Vec::new(alloc);
    put_call(
        &mut message,
        XID,
        NFS_PROGRAM,
        NFS_VERSION,
        Procedure::Null.number(),
        &[],
    )?;
    if message.len() > 2_097_152 {
        return Err(AllocError);
    }
    frame(alloc, message.as_slice())
}

/// Whether a message is the reply to the NULL call.
fn is_answer(message: &[u8]) -> bool {
    match read_reply(message) {
        Ok(head) => head.xid == XID && matches!(head.body, ReplyBody::Success(_)),
        Err(_) => false,
    }
}

/// Whether the server answers the NULL call on this stream.
fn answers<S: Read + Write>(stream: &mut S, record: &[u8]) -> bool {
    let mut reply = [0u8; REPLY_SIZE];
    if stream.write_all(record).is_err() || stream.read_exact(&mut reply).is_err() {
        return false;
    }
    is_answer(&reply[HEADER_SIZE..])
}

/// A connection to a server, on which nothing waits for longer than a try may take.
fn connect<R: ClientsRuntime>(rt: &R, server: &SocketAddr) -> Option<TcpStream> {
    let patience = Duration::from_secs(PATIENCE);
    let stream = TcpStream::connect_timeout(rt, server, patience).ok()?;
    stream.set_read_timeout(Some(patience)).ok()?;
    Some(stream)
}

/// Whether a server takes a connection and answers NULL on it.
fn is_up<R: ClientsRuntime>(rt: &R, server: &SocketAddr, record: &[u8]) -> bool {
    match connect(rt, server) {
        Some(mut stream) => answers(&mut stream, record),
        None => false,
    }
}

/// A connection that is made before a server is killed, by which it shows whether it was. None of its calls is noted.
#[derive(Drop)]
pub struct OldConnection {
    stream: Option<TcpStream>,
}

impl OldConnection {
    /// A connection, if the server takes one.
    pub fn open<R: ClientsRuntime>(rt: &R, server: &SocketAddr) -> OldConnection {
        OldConnection {
            stream: connect(rt, server),
        }
    }

    /// Whether the server still answers NULL on it, within a second.
    pub fn is_answered(&mut self, alloc: Global) -> bool {
        match (self.stream.as_mut(), null_record(alloc)) {
            (Some(stream), Ok(record)) => answers(stream, record.as_slice()),
            _ => false,
        }
    }
}

/// Waits until a server answers NULL, as long as the limit says. No call of it is noted.
pub fn is_up_within<R: ClientsRuntime>(rt: &R, server: &SocketAddr, limit: Duration) -> bool {
    let Ok(record) = null_record(rt.alloc()) else {
        return false;
    };
    let Ok(start) = Instant::now(rt) else {
        return is_up(rt, server, record.as_slice());
    };
    for _ in rt.forever() {
        if is_up(rt, server, record.as_slice()) {
            return true;
        }
        match Instant::now(rt) {
            Ok(now) if now.duration_since(start) < limit => {}
            _ => return false,
        }
        thread::sleep(rt, Duration::from_millis(PAUSE));
    }
    unreachable!()
}
