//! A connection of the server, which keeps what it was sent and what it sent.

use super::message::{Message, record_of};
use super::objects::{COMMON, Habits, Object};
use super::tree::Tree;
use history_file::Event;
use nfs3_msgs::read_args;
use nfs3_types::Procedure;
use night_clients::{ClientsRuntime, Night};
use rpc_reader::{CallHead, read_call};
use std::alloc::{AllocError, Global};
use std::io::{self, ErrorKind, Read, Write};
use std::net::{Shutdown, TcpStream};
use std::thread;
use std::time::Duration;
use xdr_records::RecordFeed;

/// What the server does with a call.
#[derive(Clone, Copy)]
pub(crate) enum Answer {
    /// It answers rightly.
    Right,
    /// It answers in two pieces, and looks whether the reply is noted before its end.
    InPieces,
    /// It doesn't answer.
    Silence,
    /// It sends these bytes in two pieces, and ends the connection.
    Ends(&'static [u8]),
    /// It answers twice.
    Twice,
    /// It answers call 999, which nobody made, and then this one.
    Unasked,
    /// It sends the call, and then answers.
    Call,
    /// It answers a call of this number.
    Numbered(u32),
    /// It answers with these words after the transaction number (RFC 5531, section 9).
    Words(&'static [u32]),
    /// It refuses each call but NULL by PROC_UNAVAIL.
    Refuses,
    /// It answers with a failure of this status.
    Status(u32),
    /// It holds the calls until so many came, and answers the last first.
    Hold(usize),
}

/// What a server holds, how it treats its connections, and when it dies.
#[derive(Clone, Copy)]
pub(crate) struct Manner {
    pub(crate) objects: &'static [Object],
    pub(crate) habits: Habits,
    /// Of the calls of a connection, those from the first to the last of these numbers are treated so, and the others rightly.
    pub(crate) answer: Answer,
    pub(crate) first: usize,
    pub(crate) last: usize,
    /// How many connections it takes at most.
    pub(crate) connections: usize,
    /// It ends its first connection at once, as if it went down after it.
    pub(crate) drops_first: bool,
    /// It gives the word of a crash once its connections have ended.
    pub(crate) dies: bool,
}

/// A right server with an empty tree, for one connection.
pub(crate) const RIGHT: Manner = Manner {
    objects: &[],
    habits: COMMON,
    answer: Answer::Right,
    first: 1,
    last: 0,
    connections: 1,
    drops_first: false,
    dies: false,
};

/// The same, but it treats some calls so.
pub(crate) fn manner_of(answer: Answer, first: usize, last: usize) -> Manner {
    Manner {
        answer,
        first,
        last,
        ..RIGHT
    }
}

/// What a connection saw.
#[derive(Drop)]
pub(crate) struct Seen {
    pub(crate) calls: Vec<Vec<u8>>,
    pub(crate) replies: Vec<Vec<u8>>,
    /// Whether each call was noted when it came, and no reply before its end.
    pub(crate) is_in_order: bool,
}

/// A connection that is served.
#[derive(Drop)]
struct Connection {
    stream: TcpStream,
    manner: Manner,
    tree: Tree,
    seen: Seen,
    /// The calls that are held.
    held: Vec<Vec<u8>>,
}

/// Whether the log of a night holds a call with this message, and how many replies it holds.
fn noted<R: ClientsRuntime>(rt: &R, night: &Night, call: &[u8]) -> (bool, usize) {
    let log = night.log().lock(rt);
    let mut holds = false;
    let mut replies = 0usize;
    for event in log.events() {
        match event {
            Event::Call { message, .. } => holds = holds || message.as_slice() == call,
            Event::Reply { .. } => replies = replies.saturating_add(1),
            _ => {}
        }
    }
    (holds, replies)
}

impl Connection {
    /// How the call is treated that came last.
    fn answer(&self) -> Answer {
        let number = self.seen.calls.len();
        if self.manner.first <= number && number <= self.manner.last {
            self.manner.answer
        } else {
            Answer::Right
        }
    }

    /// Writes what comes after the transaction number: that the call is accepted (RFC 5531, section 9), and its results.
    fn put_results(&mut self, out: &mut Message, answer: Answer, head: &CallHead<'_>) {
        out.words(&[1, 0, 0, 0, 0]);
        if let Answer::Status(status) = answer {
            let procedure = Procedure::from_number(head.procedure);
            return out.failure(procedure.unwrap_or(Procedure::Null), status);
        }
        if let Ok(call) = read_args(self.tree.alloc, head.procedure, head.args) {
            self.tree.answer(&call, out);
        }
    }

    /// The reply to a call that is treated so.
    fn reply_to(&mut self, answer: Answer, call: &[u8]) -> Result<Vec<u8>, AllocError> {
        let mut out = Message::new(self.tree.alloc);
        let Ok(head) = read_call(call) else {
            return out.finish();
        };
        let xid = match answer {
            Answer::Numbered(xid) => xid,
            _ => head.xid,
        };
        out.word(xid);
        match answer {
            Answer::Words(words) => out.words(words),
            Answer::Refuses if head.procedure != 0 => out.words(&[1, 0, 0, 0, 3]),
            _ => self.put_results(&mut out, answer, &head),
        }
        out.finish()
    }

    fn write(&self, bytes: &[u8]) -> io::Result<()> {
        let mut stream = &self.stream;
        stream.write_all(bytes)
    }

    /// Writes so many of the bytes, and gives the others once some time went by.
    fn write_front<'b, R: ClientsRuntime>(
        &self,
        rt: &R,
        bytes: &'b [u8],
        count: usize,
    ) -> io::Result<&'b [u8]> {
        let (front, rest) = bytes.split_at(bytes.len().min(count));
        self.write(front)?;
        thread::sleep(rt, Duration::from_millis(20));
        Ok(rest)
    }

    /// Sends bytes in two pieces, and ends the connection.
    fn end<R: ClientsRuntime>(&self, rt: &R, bytes: &[u8]) -> io::Result<()> {
        let rest = self.write_front(rt, bytes, 6)?;
        self.write(rest)?;
        Err(io::Error::from(ErrorKind::ConnectionAborted))
    }

    /// Sends a message that isn't kept.
    fn send_apart(&self, message: &[u8]) -> io::Result<()> {
        let text = record_of(self.tree.alloc, message)?;
        self.write(text.as_slice())
    }

    /// Sends a reply, in pieces or at once, and keeps it.
    fn send<R: ClientsRuntime>(
        &mut self,
        rt: &R,
        night: &Night,
        reply: Vec<u8>,
        in_pieces: bool,
    ) -> io::Result<()> {
        let text = record_of(self.tree.alloc, reply.as_slice())?;
        let mut rest = text.as_slice();
        if in_pieces {
            rest = self.write_front(rt, rest, rest.len().saturating_sub(1))?;
            if noted(rt, night, b"").1 != self.seen.replies.len() {
                self.seen.is_in_order = false;
            }
        }
        self.seen.replies.push(reply)?;
        self.write(rest)
    }

    /// Sends what goes before the reply to a call.
    fn send_before(&mut self, answer: Answer, call: &[u8], reply: &[u8]) -> io::Result<()> {
        match answer {
            Answer::Twice => self.send_apart(reply),
            Answer::Call => self.send_apart(call),
            Answer::Unasked => {
                let unasked = self.reply_to(Answer::Numbered(999), call)?;
                self.send_apart(unasked.as_slice())
            }
            _ => Ok(()),
        }
    }

    /// Answers a call.
    fn reply<R: ClientsRuntime>(
        &mut self,
        rt: &R,
        night: &Night,
        answer: Answer,
        call: &[u8],
    ) -> io::Result<()> {
        let reply = self.reply_to(answer, call)?;
        self.send_before(answer, call, reply.as_slice())?;
        self.send(rt, night, reply, matches!(answer, Answer::InPieces))
    }

    /// Holds a call, and answers all that are held, the last first, once there are so many.
    fn hold<R: ClientsRuntime>(
        &mut self,
        rt: &R,
        night: &Night,
        call: Vec<u8>,
        count: usize,
    ) -> io::Result<()> {
        self.held.push(call)?;
        if self.held.len() < count {
            return Ok(());
        }
        for _ in 0..self.held.len() {
            if let Some(call) = self.held.pop() {
                self.reply(rt, night, Answer::Right, call.as_slice())?;
            }
        }
        Ok(())
    }

    /// Treats a call.
    fn treat<R: ClientsRuntime>(&mut self, rt: &R, night: &Night, call: Vec<u8>) -> io::Result<()> {
        if !noted(rt, night, call.as_slice()).0 {
            self.seen.is_in_order = false;
        }
        let kept = Vec::from_slice(self.tree.alloc, call.as_slice())?;
        self.seen.calls.push(kept)?;
        match self.answer() {
            Answer::Silence => Ok(()),
            Answer::Ends(bytes) => self.end(rt, bytes),
            Answer::Hold(count) => self.hold(rt, night, call, count),
            answer => self.reply(rt, night, answer, call.as_slice()),
        }
    }

    /// Treats the calls that come.
    fn serve<R: ClientsRuntime>(&mut self, rt: &R, night: &Night) -> io::Result<()> {
        let mut feed = RecordFeed::new(self.tree.alloc);
        let mut buffer = [0u8; 4096];
        for _ in 0..u64::MAX {
            let mut stream = &self.stream;
            let count = stream.read(&mut buffer)?;
            if count == 0 || feed.feed(&buffer[..count]).is_err() {
                return Ok(());
            }
            for _ in 0..u64::MAX {
                let Some(call) = feed.take() else {
                    break;
                };
                self.treat(rt, night, call)?;
            }
        }
        Ok(())
    }
}

/// Serves a connection to its end.
pub(super) fn serve_stream<R: ClientsRuntime>(
    rt: &R,
    night: &Night,
    stream: TcpStream,
    manner: Manner,
) -> Option<Seen> {
    let alloc: Global = rt.alloc();
    let _ = stream.set_nodelay(true);
    let mut connection = Connection {
        stream,
        manner,
        tree: Tree::new(alloc, manner.objects, manner.habits).ok()?,
        seen: Seen {
            calls: Vec::new(alloc),
            replies: Vec::new(alloc),
            is_in_order: true,
        },
        held: Vec::new(alloc),
    };
    let _ = connection.serve(rt, night);
    let _ = connection.stream.shutdown(Shutdown::Both);
    let Connection { seen, .. } = connection;
    Some(seen)
}
