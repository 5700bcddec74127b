//! A connection, and the calls that are asked on it.

ghost use Rattle.std.specs.Prelude.{IfOk};
ghost use Rattle.rpc_connection.specs.Answers.{IsReplyTo};

use crate::answer::check_reply;
use crate::fault::ConnectionFault;
use crate::incoming::receive;
use crate::outgoing::send;
use crate::runtime::ConnectionRuntime;
use std::alloc::{AllocError, Global};
use std::net::{SocketAddr, TcpStream};
use std::time::{Clock, Duration, Instant};
use xdr_records::{RECORD_LIMIT, RecordFeed, frame};

/// How many milliseconds a read or a write waits before the clock is looked at.
const TICK: u64 = 50;

/// The most bytes that a read takes.
const PIECE: usize = 65_536;

/// A connection to a server.
#[derive(Drop)]
pub struct Connection {
    stream: TcpStream,
    feed: RecordFeed,
    buffer: Vec<u8>,
    patience: Duration,
}

/// A buffer of this many bytes.
fn empty_buffer(alloc: Global, size: usize) -> Result<Vec<u8>, AllocError> {
    vec![in alloc; 0; size]
}

/// A message as a record.
fn record_of(alloc: Global, message: &[u8]) -> Result<Vec<u8>, ConnectionFault> {
    if message.len() > RECORD_LIMIT {
        return Err(ConnectionFault::RecordTooLong);
    }
    Ok(frame(alloc, message)?)
}

/// Whether so much time went by.
fn is_over<R: Clock>(rt: &R, since: Instant, patience: Duration) -> bool {
    match Instant::now(rt) {
        Ok(now) => now.duration_since(since) >= patience,
        Err(_) => true,
    }
}

/// A stream to a server, whose reads and writes wait a tick.
fn stream_to<R: ConnectionRuntime>(
    rt: &R,
    server: &SocketAddr,
    patience: Duration,
) -> Option<TcpStream> {
    let stream = TcpStream::connect_timeout(rt, server, patience).ok()?;
    let tick = Some(Duration::from_millis(TICK));
    let _ = stream.set_nodelay(true);
    if stream.set_read_timeout(tick).is_err() || stream.set_write_timeout(tick).is_err() {
        return None;
    }
    Some(stream)
}

impl Connection {
    /// A connection to the server at an address, which may take so long, as each reply may.
    pub fn connect<R: ConnectionRuntime>(
        rt: &R,
        server: &SocketAddr,
        patience: Duration,
    ) -> Result<Connection, ConnectionFault> {
        let buffer = empty_buffer(rt.alloc(), PIECE)?;
        let Some(stream) = stream_to(rt, server, patience) else {
            return Err(ConnectionFault::CannotConnect);
        };
        Ok(Connection {
            stream,
            feed: RecordFeed::new(rt.alloc()),
            buffer,
            patience,
        })
    }

    /// Reads once, and gives the next record, if one is whole.
    fn take_record(&mut self) -> Result<Option<Vec<u8>>, ConnectionFault> {
        let mut reader = &self.stream;
        let came = receive(&mut reader, self.buffer.as_mut_slice(), &mut self.feed);
        match self.feed.take() {
            Some(record) => Ok(Some(record)),
            None => {
                came?;
                Ok(None)
            }
        }
    }

    /// Sends a record, and gives the next one that comes.
    fn exchange<R: ConnectionRuntime>(
        &mut self,
        rt: &R,
        record: &[u8],
    ) -> Result<Vec<u8>, ConnectionFault> {
        let Ok(since) = Instant::now(rt) else {
            return Err(ConnectionFault::NoReply);
        };
        let mut left = record;
        for _ in rt.forever() {
            if left.is_empty() {
                if let Some(reply) = self.take_record()? {
                    return Ok(reply);
                }
            } else {
                let mut writer = &self.stream;
                left = send(&mut writer, left)?;
            }
            if is_over(rt, since, self.patience) {
                return Err(ConnectionFault::NoReply);
            }
        }
        unreachable!()
    }

    /// Sends a message with this transaction number, a call without record marking, and gives the reply to it, without record marking too.
    /// Behind a fault the connection is useless.
    pub fn ask<R: ConnectionRuntime>(
        &mut self,
        rt: &R,
        xid: u32,
        message: &[u8],
    ) -> Result<Vec<u8>, ConnectionFault>
        // What is given is a reply with that number.
        ensures { IfOk result (λ reply. IsReplyTo xid reply.items) }
    {
        let record = record_of(rt.alloc(), message)?;
        let reply = self.exchange(rt, record.as_slice())?;
        check_reply(xid, reply.as_slice())?;
        Ok(reply)
    }
}
