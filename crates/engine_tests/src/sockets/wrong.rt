//! A relay that changes replies, so that the server after it seems wrong.

use super::{connect, sends};
use nfs_relay::RelayRuntime;
use std::alloc::Global;
use std::io::Read;
use std::net::{TcpListener, TcpStream};
use std::thread;

/// Where the status of a result is in a record whose reply is accepted, with a verifier of no bytes (RFC 5531, section 9).
const STATUS: usize = 28;

/// NFS3ERR_NOENT, and the last byte of NFS3ERR_NOTDIR (RFC 1813, section 2.6). The results of both have the same form.
const NO_ENTRY: &[u8] = b"\0\0\0\x02";

const NO_DIRECTORY: u8 = 20;

/// The next record of a stream, which is one fragment (RFC 5531, section 11).
fn next_record(alloc: Global, stream: &mut TcpStream) -> Option<Vec<u8>> {
    let mut mark = [0u8; 4];
    stream.read_exact(&mut mark).ok()?;
    let [_, a, b, c] = mark;
    let size = u32::from_be_bytes([0, a, b, c]) as usize;
    let mut record = Vec::from_slice(alloc, mark.as_slice()).ok()?;
    record.resize(size.saturating_add(4), 0).ok()?;
    let body = record.as_mut_slice().get_mut(4..)?;
    stream.read_exact(body).ok()?;
    Some(record)
}

/// Whatever isn't there is said to be looked for in what is no directory.
fn change(reply: &mut [u8]) {
    let end = STATUS.saturating_add(NO_ENTRY.len());
    if reply.get(STATUS..end) != Some(NO_ENTRY) {
        return;
    }
    if let Some(last) = reply.get_mut(end.saturating_sub(1)) {
        *last = NO_DIRECTORY;
    }
}

/// Carries the next call of a client to a server, and its reply back, changed. Whether both came and went.
fn carry_one(alloc: Global, client: &mut TcpStream, server: &mut TcpStream) -> bool {
    let Some(call) = next_record(alloc, client) else {
        return false;
    };
    if !sends(server, call.as_slice()) {
        return false;
    }
    let Some(mut reply) = next_record(alloc, server) else {
        return false;
    };
    change(reply.as_mut_slice());
    sends(client, reply.as_slice())
}

/// Carries what a client asks to the server at a port, until one of them ends.
fn carry<R: RelayRuntime>(rt: &R, client: TcpStream, port: u16) {
    let mut client = client;
    let Ok(mut server) = connect(rt, port) else {
        return;
    };
    for _ in rt.forever() {
        if !carry_one(rt.alloc(), &mut client, &mut server) {
            return;
        }
    }
}

/// Carries so many connections to the server at a port, side by side. Whether each came.
pub(super) fn changes_replies<R: RelayRuntime>(
    rt: &R,
    listener: TcpListener,
    port: u16,
    lanes: u32,
) -> bool {
    thread::scope(thread::scope_env(), rt, |scope| {
        for _lane in 0..lanes {
            let Ok((client, _)) = listener.accept() else {
                return false;
            };
            if scope.spawn(move || carry(rt, client, port)).is_err() {
                return false;
            }
        }
        true
    })
}
