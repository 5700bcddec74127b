//! The records of a stream, each answered as it comes.

ghost use Rattle.std.specs.Prelude.{◌≡◌, ◌≢◌, ◌⊎◌, ◌++◌, OnOk, OnErr, IfOk, IfErr, vec_len};
ghost use Rattle.std.specs.Io.KnownBytes.{IsAtEnd};
ghost use Rattle.server_connection.specs.Serving.{Serves, EndsIn};
ghost use Rattle.journal_server.specs.Passing.{IsAsBefore, MayStop};
ghost use Rattle.server_connection.specs.Steps.{IsAnsweredBy, IsServed, IsUnanswered, IsHalfServed, Answers, Stops, IsReady, IsEmptied, Takes};

use crate::end::StreamEnd;
use crate::export::Export;
use crate::intake::Intake;
use crate::room::Room;
use crate::sending::send;
use journal_server::{CallFault, Gate, JournalDevice, Pass, Server};
use program_streams::{READ_LIMIT, READ_SIZE};
use server_passes::Exchange;
use server_requests::mount_reply;
use std::alloc::{AllocError, Global};
use std::io::{ErrorKind, Read, Write};
use std::sync::Wait;
use xdr_records::{FeedFault, RecordFeed};

/// How much of a stream is answered.
#[derive(Clone, Copy)]
pub struct Allowance<'a> {
    /// How many records at most.
    pub records: u64,
    /// What a history has room for.
    pub room: &'a Room,
}

/// The reply to a message.
fn answer<R: Wait, G: Gate, D: JournalDevice>(
    rt: &R,
    alloc: Global,
    export: Export,
    server: &Server<G, D>,
    pass: &mut Pass,
    message: &[u8],
) -> Result<Vec<u8>, CallFault>
    ensures answered { IfOk result (λ reply. IsAnsweredBy export pass.old message.now reply.items pass.new) }
    ensures kept { OnErr result (IsAsBefore pass.old pass.new) }
    ensures refused { IfErr result (MayStop message.now) }
{
    match export {
        Export::Plain => server.call(rt, pass, message),
        Export::Mountable => match mount_reply(alloc, message)? {
            Some(reply) => Ok(reply),
            None => server.call(rt, pass, message),
        },
    }
}

/// Has a record answered, and writes the reply.
fn serve_record<R: Wait, W: Write, G: Gate, D: JournalDevice>(
    rt: &R,
    alloc: Global,
    export: Export,
    server: &Server<G, D>,
    pass: &mut Pass,
    writer: &mut W,
    content: &[u8],
) -> Result<(), StreamEnd>
    ensures ok { OnOk result (IsServed export content.now pass.old pass.new (W.contents writer.old) (W.contents writer.new)) }
    ensures err { IfErr result (λ end. IsUnanswered end content.now pass.old pass.new (W.contents writer.old) (W.contents writer.new)
        ⊎ IsHalfServed export end content.now pass.old pass.new (W.contents writer.old) (W.contents writer.new)) }
{
    let reply = answer(rt, alloc, export, server, pass, content)?;
    send(alloc, writer, reply.as_slice())
}

/// Gives back what was set aside for a call of so many bytes and isn't needed for the exchange that was noted of it, if one was.
fn settle(room: &Room, call: usize, noted: Option<&Exchange>) {
    match noted {
        Some(exchange) => room.give_back(exchange.reply().len()),
        None => room.give_all_back(call),
    }
}

/// Has the records answered that wait, as many as may be.
fn serve_waiting<R: Wait, W: Write, G: Gate, D: JournalDevice>(
    rt: &R,
    alloc: Global,
    export: Export,
    server: &Server<G, D>,
    pass: &mut Pass,
    writer: &mut W,
    intake: &mut Intake<'_>,
) -> Result<(), StreamEnd>
    ensures ok { OnOk result (Answers export intake.old.feed.waiting pass.old pass.new (W.contents writer.old) (W.contents writer.new)) }
    ensures emptied { OnOk result (IsEmptied intake.old intake.new) }
    ensures err { IfErr result (λ end. Stops export end intake.old.left intake.old.feed.waiting pass.old pass.new
        (W.contents writer.old) (W.contents writer.new)) }
{
    while let Some(content) = intake.next() {
        if !intake.room.take(content.len()) {
            return Err(StreamEnd::Full);
        }
        let known = pass.exchanges().len();
        serve_record(rt, alloc, export, server, pass, writer, content.as_slice())?;
        settle(intake.room, content.len(), pass.exchanges().get(known));
    }
    if intake.left == 0 {
        return Err(StreamEnd::Bound);
    }
    Ok(())
}

/// Takes a piece of the stream, and has the records answered that end in it.
fn serve_piece<R: Wait, W: Write, G: Gate, D: JournalDevice>(
    rt: &R,
    alloc: Global,
    export: Export,
    server: &Server<G, D>,
    pass: &mut Pass,
    writer: &mut W,
    intake: &mut Intake<'_>,
    piece: &[u8],
) -> Result<(), StreamEnd>
    requires { IsReady intake.old }
    ensures ok { OnOk result (Takes export intake.old piece.now intake.new pass.old pass.new (W.contents writer.old) (W.contents writer.new)) }
    ensures err { IfErr result (λ end. EndsIn export end intake.old.left (intake.old.feed.rest ++ piece.now) pass.old pass.new
        (W.contents writer.old) (W.contents writer.new)) }
    ensures unended { IfErr result (λ end. end ≢ StreamEnd.End) }
{
    let fed = intake.feed.feed(piece);
    serve_waiting(rt, alloc, export, server, pass, writer, intake)?;
    match fed {
        Ok(()) => Ok(()),
        Err(fault) => match fault {
            FeedFault::RecordTooLong => Err(StreamEnd::RecordTooLong),
            FeedFault::NoMemory => Err(StreamEnd::NoMemory),
        },
    }
}

/// A buffer of this many bytes.
fn empty_buffer(alloc: Global, size: usize) -> Result<Vec<u8>, AllocError>
    ensures { IfOk result (λ buffer. vec_len buffer ≡ size) }
{
    vec![in alloc; 0; size]
}

/// Serves a stream of calls: has each of its records answered by the server, as it comes whole, and writes each reply as one fragment
/// (RFC 5531, section 11). Where stock clients may mount the server, what they ask first is answered ahead of it. It ends once so many
/// records are answered, or there is no room for one more, or behind 1,000,000 reads of at most 65,536 bytes. Bytes that came behind the last record that may be
/// answered are dropped.
///
/// Where the reader and the writer tell their bytes: whole records from the front of what was read are answered, in order, at most so
/// many; what the pass knows more are the exchanges of those that are recorded; and what was written is the frames of all replies, but
/// that of the last there may be a front at `WriteFault`, and nothing at `NoMemory`. It isn't claimed that a fault comes only where a
/// read, a write or a growth failed, nor that `Bound` comes only where the stream may go on, nor that `Full` comes only where room is
/// wanting, nor how often it is read.
pub fn serve_export<R: Wait, I: Read, W: Write, G: Gate, D: JournalDevice>(
    rt: &R,
    alloc: Global,
    export: Export,
    reader: &mut I,
    writer: &mut W,
    server: &Server<G, D>,
    pass: &mut Pass,
    allowance: Allowance<'_>,
) -> StreamEnd
    ensures ended { result ≡ StreamEnd.End → IsAtEnd (I.remaining reader.new) }
    ensures served { Serves export result allowance.entry.records pass.old pass.new (I.remaining reader.old) (I.remaining reader.new)
        (W.contents writer.old) (W.contents writer.new) }
{
    let Allowance { records, room } = allowance;
    if records == 0 {
        return StreamEnd::Bound;
    }
    let mut buffer = match empty_buffer(alloc, READ_SIZE) {
        Ok(buffer) => buffer,
        Err(AllocError) => return StreamEnd::NoMemory,
    };
    let feed = RecordFeed::new(alloc);
    let mut intake = Intake {
        feed,
        left: records,
        room,
    };
    for _read in 0..READ_LIMIT {
        match reader.read(buffer.as_mut_slice()) {
            Ok(0) => return StreamEnd::End,
            Ok(count) => {
                let piece = &buffer[..count];
                match serve_piece(rt, alloc, export, server, pass, writer, &mut intake, piece) {
                    Ok(()) => {}
                    Err(end) => return end,
                }
            }
            Err(error) if error.kind() == ErrorKind::Interrupted => {}
            Err(_) => return StreamEnd::ReadFault,
        }
    }
    StreamEnd::Bound
}

/// Serves a stream of calls, as [`serve_export`] to clients that mount nothing, with room for whatever comes.
pub fn serve_stream<R: Wait, I: Read, W: Write, G: Gate, D: JournalDevice>(
    rt: &R,
    alloc: Global,
    reader: &mut I,
    writer: &mut W,
    server: &Server<G, D>,
    pass: &mut Pass,
    records: u64,
) -> StreamEnd
    ensures ended { result ≡ StreamEnd.End → IsAtEnd (I.remaining reader.new) }
    ensures served { Serves Export.Plain result records pass.old pass.new (I.remaining reader.old) (I.remaining reader.new)
        (W.contents writer.old) (W.contents writer.new) }
{
    let room = &Room::endless();
    serve_export(
        rt,
        alloc,
        Export::Plain,
        reader,
        writer,
        server,
        pass,
        Allowance { records, room },
    )
}
