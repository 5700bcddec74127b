//! One call on a connection: its reply in pieces, ends, and silence.

use crate::server::{Answer, Server, begin, manner_of};
use night_clients::ClientsRuntime;
use rpc_connection::{Connection, ConnectionFault};
use rpc_reader::{RpcFault, put_call};
use std::net::{SocketAddr, TcpListener, TcpStream};
use std::thread;
use std::time::Duration;

/// A record that is the reply of success to call 1, without results (RFC 5531, sections 9 and 11).
const REPLY: &[u8] = b"\x80\0\0\x18\0\0\0\x01\0\0\0\x01\0\0\0\0\0\0\0\0\0\0\0\0\0\0\0\0";

/// The front of the reply.
const FRONT: &[u8] = b"\x80\0\0\x18\0\0\0\x01\0\0\0\x01\0\0";

/// A record that is the front of a call.
const CALL: &[u8] = b"\x80\0\0\x08\0\0\0\x01\0\0\0\0";

/// Asks NULL of NFS as call 1, of a server that has a second.
fn ask<R: ClientsRuntime>(rt: &R, server: &SocketAddr) -> Result<Vec<u8>, ConnectionFault> {
    let mut message = Vec::new(rt.alloc());
    put_call(&mut message, 1, 100_003, 3, 0, &[])?;
    let mut connection = Connection::connect(rt, server, Duration::from_secs(1))?;
    connection.ask(rt, 1, message.as_slice())
}

/// Why the call got no reply; nothing if its reply came, to the last byte.
fn fault_at<R: ClientsRuntime>(rt: &R, server: &SocketAddr) -> Option<ConnectionFault> {
    match ask(rt, server) {
        Ok(reply) if reply.as_slice() == &REPLY[4..] => None,
        Ok(_) => Some(ConnectionFault::NoMemory),
        Err(fault) => Some(fault),
    }
}

/// Whether a server that treats the call so leads to this.
fn leads_to<R: ClientsRuntime>(
    rt: &R,
    answer: Answer,
    wanted: Option<ConnectionFault>,
) -> Option<bool> {
    let server = Server::new(rt, 1)?;
    thread::scope(thread::scope_env(), rt, |scope| {
        let served = begin(scope, rt, &server, manner_of(answer, 1, 1))?;
        let found = fault_at(rt, &server.address);
        drop(served.join(rt));
        Some(found == wanted)
    })
}

/// How a server treats the call, and why it gets no reply, if it gets none. The header is that of a record of 2,097,153 bytes.
const ASKED: [(Answer, Option<ConnectionFault>); 6] = [
    (Answer::InPieces, None),
    (Answer::Ends(FRONT), Some(ConnectionFault::Ended)),
    (Answer::Silence, Some(ConnectionFault::NoReply)),
    (Answer::Numbered(7), Some(ConnectionFault::OtherNumber(7))),
    (
        Answer::Ends(b"\x80\x20\0\x01"),
        Some(ConnectionFault::RecordTooLong),
    ),
    (
        Answer::Ends(CALL),
        Some(ConnectionFault::NotRpc(RpcFault::NotReply)),
    ),
];

/// Whether no connection is taken if nothing listens.
fn is_refused<R: ClientsRuntime>(rt: &R) -> Option<bool> {
    let server = Server::new(rt, 1)?;
    let address = server.address;
    drop(server);
    Some(fault_at(rt, &address) == Some(ConnectionFault::CannotConnect))
}

#[test]
fn calls_are_asked(rt: HostRuntime) {
    let _listener: Option<TcpListener> = None;
    let _stream: Option<TcpStream> = None;
    for (answer, wanted) in ASKED {
        assert!(rt; leads_to(&rt, answer, wanted) == Some(true));
    }
    assert!(rt; is_refused(&rt) == Some(true));
}
