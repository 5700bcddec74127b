//! The pumps: each has the records of one way of a connection noted, and forwards them.

ghost use Rattle.std.specs.Prelude.{◌≡◌, ◌≢◌, ◌<◌, ◌≤◌, ◌++◌, ◌∷◌, ℕ, List, [], length, OnOk, OnErr, IfOk, IfErr, vec_len};
ghost use Rattle.std.specs.Io.KnownBytes.{Appends, IsAtEnd, prepend_known};
ghost use Rattle.xdr_records.specs.Record.{IsUnfinished, IsSplit, record_text, record_limit};
ghost use Rattle.history_file.specs.Owning.{happened};
ghost use Rattle.nfs_tap.specs.Noting.{with_event};
ghost use Rattle.nfs_tap.specs.Pumping.{frames, event_of, IsAnywhere, IsNamed, AreWithinLimit, IsIdle, IsForwarded, IsEmptied, Stops, Pumps};
ghost use Rattle.nfs_tap.specs.Whole.{IsPassed, StopsAmid, IsNext, IsTurned, Turns, EndsAtEnd};

use crate::fault::NoteFault;
use crate::front::{first_record, may_be_plain};
use crate::log::TapLog;
use crate::window::Window;
use history_file::{Event, SeenEvent};
use program_streams::{READ_LIMIT, READ_SIZE, write_pieces};
use std::alloc::{AllocError, Global};
use std::fmt;
use std::io::{ErrorKind, Read, Write};
use std::sync::{Mutex, Wait};
use xdr_records::{FeedFault, RecordFeed, frame};

/// How a pump ended.
#[derive(Clone, Copy, PartialEq, Eq)]
pub enum PumpEnd {
    /// The stream ended. A record of which only a part came is dropped.
    End,
    /// A read failed.
    ReadFault,
    /// A write failed. The record that it was of is noted.
    WriteFault,
    /// A header takes its record past the limit of 2,097,152 bytes. The records ahead of it are forwarded.
    RecordTooLong,
    /// The log doesn't take a record, which isn't forwarded. The fault is never `NoMemory`.
    LogFault(NoteFault),
    /// The log has no room for a record within the limits of a history's file, and the record isn't forwarded.
    LogFull,
    /// The stream didn't end within 1,000,000 reads.
    Bound,
    /// Memory ran out.
    NoMemory,
}

impl fmt::Display for PumpEnd {
    ghost use Rattle.std.specs.Prelude.{Some};
    ghost use Rattle.nfs_tap.specs.FaultText.{pump_end_words};

    ghost output = { λ end. Some (pump_end_words end) };

    fn fmt<W: fmt::Write>(&self, f: &mut fmt::Formatter<W>) -> fmt::Result {
        match self {
            PumpEnd::End => f.write_str("End"),
            PumpEnd::ReadFault => f.write_str("ReadFault"),
            PumpEnd::WriteFault => f.write_str("WriteFault"),
            PumpEnd::RecordTooLong => f.write_str("RecordTooLong"),
            PumpEnd::LogFault(fault) => write!(f, "LogFault {fault}"),
            PumpEnd::LogFull => f.write_str("LogFull"),
            PumpEnd::Bound => f.write_str("Bound"),
            PumpEnd::NoMemory => f.write_str("out of memory"),
        }
    }
}

impl From<NoteFault> for PumpEnd {
    ghost use Rattle.std.specs.Prelude.{◌≡◌};
    ghost use Rattle.nfs_tap.specs.Pumping.{end_of};

    ghost from_gives = { λ fault e. e ≡ end_of fault };

    fn from(fault: NoteFault) -> PumpEnd {
        match fault {
            NoteFault::NoMemory => PumpEnd::NoMemory,
            fault => PumpEnd::LogFault(fault),
        }
    }
}

impl From<AllocError> for PumpEnd {
    ghost use Rattle.std.specs.Prelude.{◌≡◌};
    ghost use Rattle.nfs_tap.specs.declared.pump.PumpEnd.TheVariants.{NoMemory};

    ghost from_gives = { λ _ e. e ≡ NoMemory };

    fn from(_error: AllocError) -> PumpEnd {
        PumpEnd::NoMemory
    }
}

/// Which way records go.
#[derive(Clone, Copy)]
pub enum Way {
    /// From a client.
    Calls,
    /// To a client.
    Replies,
}

/// Whose records are noted, and where.
#[derive(Clone, Copy)]
struct Tap<'a> {
    way: Way,
    lane: u32,
    log: &'a Mutex<TapLog>,
}

/// The event that a record is noted as, with a copy of it.
fn event_of(alloc: Global, way: Way, lane: u32, content: &[u8]) -> Result<Event, AllocError>
    ensures { IfOk result (λ event. happened event ≡ event_of way lane content.now) }
{
    match way {
        Way::Calls => {
            let message = content;
            Event::from_seen(alloc, &SeenEvent::Call { lane, message })
        }
        Way::Replies => {
            let message = content;
            Event::from_seen(alloc, &SeenEvent::Reply { lane, message })
        }
    }
}

/// Has the log note a record of a lane, of which this is the event.
fn note_record(
    log: &mut TapLog,
    way: Way,
    lane: u32,
    content: &[u8],
    event: Event,
) -> Result<(), PumpEnd>
    requires { happened event ≡ event_of way lane content.now }
    ensures noted { OnOk result (log.new ≡ with_event log.old (event_of way lane content.now)) }
    ensures kept { OnErr result (log.new ≡ log.old) }
    ensures anywhere { IfErr result IsAnywhere }
{
    if !log.has_room(content.len()) {
        return Err(PumpEnd::LogFull);
    }
    log.note_event(event)?;
    Ok(())
}

/// Has a record noted by the log that is shared. It is copied before the lock is taken.
fn note_shared<R: Wait>(rt: &R, alloc: Global, tap: Tap<'_>, content: &[u8]) -> Result<(), PumpEnd>
    ensures { IfErr result IsAnywhere }
{
    let event = event_of(alloc, tap.way, tap.lane, content)?;
    note_record(&mut tap.log.lock(rt), tap.way, tap.lane, content, event)
}

/// Has a record noted, and then writes its text, which is it as one fragment.
fn forward<R: Wait, W: Write>(
    rt: &R,
    alloc: Global,
    tap: Tap<'_>,
    writer: &mut W,
    content: &[u8],
    text: &[u8],
) -> Result<(), PumpEnd>
    requires { text.now ≡ record_text content.now }
    ensures ok { OnOk result (Appends (W.contents writer.old) (W.contents writer.new) (record_text content.now)) }
    ensures err { IfErr result (λ end. Stops end (W.contents writer.old) (W.contents writer.new) (content.now ∷ [])) }
{
    note_shared(rt, alloc, tap, content)?;
    match write_pieces(writer, text) {
        Ok(()) => Ok(()),
        Err(_) => Err(PumpEnd::WriteFault),
    }
}

/// Has a record noted that came in more than one fragment, and then writes it as one.
fn forward_content<R: Wait, W: Write>(
    rt: &R,
    alloc: Global,
    tap: Tap<'_>,
    writer: &mut W,
    content: &[u8],
) -> Result<(), PumpEnd>
    requires { length content.now ≤ record_limit }
    ensures ok { OnOk result (Appends (W.contents writer.old) (W.contents writer.new) (record_text content.now)) }
    ensures err { IfErr result (λ end. Stops end (W.contents writer.old) (W.contents writer.new) (content.now ∷ [])) }
{
    let text = frame(alloc, content)?;
    forward(rt, alloc, tap, writer, content, text.as_slice())
}

/// Forwards the records that wait.
fn forward_waiting<R: Wait, W: Write>(
    rt: &R,
    alloc: Global,
    tap: Tap<'_>,
    writer: &mut W,
    feed: &mut RecordFeed,
) -> Result<(), PumpEnd>
    requires { AreWithinLimit feed.old.waiting }
    ensures ok { OnOk result (Appends (W.contents writer.old) (W.contents writer.new) (frames feed.old.waiting)) }
    ensures empty { OnOk result (IsEmptied feed.old feed.new) }
    ensures err { IfErr result (λ end. Stops end (W.contents writer.old) (W.contents writer.new) feed.old.waiting) }
{
    while let Some(content) = feed.take() {
        forward_content(rt, alloc, tap, writer, content.as_slice())?;
    }
    Ok(())
}

/// Takes a piece of the stream, and forwards the records that end in it.
fn pass_on<R: Wait, W: Write>(
    rt: &R,
    alloc: Global,
    tap: Tap<'_>,
    writer: &mut W,
    feed: &mut RecordFeed,
    piece: &[u8],
) -> Result<(), PumpEnd>
    requires { IsIdle feed.old }
    ensures ok { OnOk result (IsIdle feed.new × ((records : List (List ℕ)) × IsSplit IsUnfinished (feed.old.rest ++ piece.now) records feed.new.rest
        × Appends (W.contents writer.old) (W.contents writer.new) (frames records))) }
    ensures err { IfErr result (λ end. (written : List ℕ) × Appends (W.contents writer.old) (W.contents writer.new) written
        × IsForwarded end (feed.old.rest ++ piece.now) written) }
    ensures unended { IfErr result (λ end. end ≢ PumpEnd.End) }
    ensures named { IfErr result IsNamed }
{
    let fed = feed.feed(piece);
    forward_waiting(rt, alloc, tap, writer, feed)?;
    match fed {
        Ok(()) => Ok(()),
        Err(fault) => match fault {
            FeedFault::RecordTooLong => Err(PumpEnd::RecordTooLong),
            FeedFault::NoMemory => Err(PumpEnd::NoMemory),
        },
    }
}

/// A buffer of this many bytes.
fn empty_buffer(alloc: Global, size: usize) -> Result<Vec<u8>, AllocError>
    ensures { IfOk result (λ buffer. vec_len buffer ≡ size) }
{
    vec![in alloc; 0; size]
}

/// Forwards the records at the front of some bytes that stand there whole, each as one fragment, and says how many bytes they
/// take. None is copied but to be noted.
fn forward_front<R: Wait, W: Write>(
    rt: &R,
    alloc: Global,
    tap: Tap<'_>,
    writer: &mut W,
    bytes: &[u8],
) -> Result<usize, PumpEnd>
    ensures ok { IfOk result (λ used. IsPassed (W.contents writer.old) (W.contents writer.new) bytes.now used) }
    ensures err { IfErr result (λ end. StopsAmid end bytes.now (W.contents writer.old) (W.contents writer.new)) }
{
    let mut rest = bytes;
    while let Some(first) = first_record(rest) {
        forward(rt, alloc, tap, writer, first.content, first.text)?;
        rest = first.behind;
    }
    Ok(bytes.len() - rest.len())
}

/// What a turn of a pump comes to.
#[derive(Clone, Copy)]
enum Turn {
    /// It goes on.
    On,
    /// A record comes in more than one fragment, or is past the limit.
    Odd,
    Over(PumpEnd),
}

/// How a pump goes on behind whole records, by what stands there.
fn next_turn(bytes: &[u8]) -> Turn
    ensures { IsNext result }
{
    if may_be_plain(bytes) {
        Turn::On
    } else {
        Turn::Odd
    }
}

/// Forwards the records that stand whole in the window.
fn pass_window<R: Wait, W: Write>(
    rt: &R,
    alloc: Global,
    tap: Tap<'_>,
    writer: &mut W,
    window: &mut Window,
) -> Turn
    ensures { IsTurned result window.old.bytes window.new.bytes (W.contents writer.old) (W.contents writer.new) }
{
    match forward_front(rt, alloc, tap, writer, window.as_slice()) {
        Ok(used) => {
            window.advance(used);
            next_turn(window.as_slice())
        }
        Err(end) => Turn::Over(end),
    }
}

/// Forwards what stands at the end of a stream.
fn pass_last<R: Wait, W: Write>(
    rt: &R,
    alloc: Global,
    tap: Tap<'_>,
    writer: &mut W,
    bytes: &[u8],
) -> PumpEnd
    ensures named { IsNamed result }
    ensures forwarded { (written : List ℕ) × Appends (W.contents writer.old) (W.contents writer.new) written
        × IsForwarded result bytes.now written }
{
    let mut feed = RecordFeed::new(alloc);
    match pass_on(rt, alloc, tap, writer, &mut feed, bytes) {
        Ok(()) => PumpEnd::End,
        Err(end) => end,
    }
}

/// One read into the room of the window, and what comes of it.
fn read_on<R: Wait, I: Read, W: Write>(
    rt: &R,
    alloc: Global,
    tap: Tap<'_>,
    reader: &mut I,
    writer: &mut W,
    window: &mut Window,
) -> Turn
    requires { 0 < window.old.room }
    ensures ended { EndsAtEnd result (I.remaining reader.new) }
    ensures turned { Turns result (prepend_known window.old.bytes (I.remaining reader.old)) (I.remaining reader.new) window.new.bytes
        (W.contents writer.old) (W.contents writer.new) }
{
    match window.read_from(reader) {
        Ok(0) => Turn::Over(pass_last(rt, alloc, tap, writer, window.as_slice())),
        Ok(_) => pass_window(rt, alloc, tap, writer, window),
        Err(error) if error.kind() == ErrorKind::Interrupted => Turn::On,
        Err(_) => Turn::Over(PumpEnd::ReadFault),
    }
}

/// Makes room in the window, and reads on.
fn make_turn<R: Wait, I: Read, W: Write>(
    rt: &R,
    alloc: Global,
    tap: Tap<'_>,
    reader: &mut I,
    writer: &mut W,
    window: &mut Window,
) -> Turn
    ensures ended { EndsAtEnd result (I.remaining reader.new) }
    ensures turned { Turns result (prepend_known window.old.bytes (I.remaining reader.old)) (I.remaining reader.new) window.new.bytes
        (W.contents writer.old) (W.contents writer.new) }
{
    match window.make_room() {
        Ok(()) => read_on(rt, alloc, tap, reader, writer, window),
        Err(AllocError) => Turn::Over(PumpEnd::NoMemory),
    }
}

/// Pumps the records of a stream to its end by so many reads at most, in whatever fragments they come. Some bytes were read already.
fn pump_pieces<R: Wait, I: Read, W: Write>(
    rt: &R,
    alloc: Global,
    tap: Tap<'_>,
    reader: &mut I,
    writer: &mut W,
    begun: &[u8],
    reads: u32,
) -> PumpEnd
    ensures ended { result ≡ PumpEnd.End → IsAtEnd (I.remaining reader.new) }
    ensures named { IsNamed result }
    ensures forwarded { Pumps result (prepend_known begun.now (I.remaining reader.old)) (I.remaining reader.new)
        (W.contents writer.old) (W.contents writer.new) }
{
    let mut feed = RecordFeed::new(alloc);
    match pass_on(rt, alloc, tap, writer, &mut feed, begun) {
        Ok(()) => {}
        Err(end) => return end,
    }
    let mut buffer = match empty_buffer(alloc, READ_SIZE) {
        Ok(buffer) => buffer,
        Err(AllocError) => return PumpEnd::NoMemory,
    };
    for _read in 0..reads {
        match reader.read(buffer.as_mut_slice()) {
            Ok(0) => return PumpEnd::End,
            Ok(count) => match pass_on(rt, alloc, tap, writer, &mut feed, &buffer[..count]) {
                Ok(()) => {}
                Err(end) => return end,
            },
            Err(error) if error.kind() == ErrorKind::Interrupted => {}
            Err(_) => return PumpEnd::ReadFault,
        }
    }
    PumpEnd::Bound
}

/// Pumps the records of a stream to its end.
fn pump<R: Wait, I: Read, W: Write>(
    rt: &R,
    alloc: Global,
    tap: Tap<'_>,
    reader: &mut I,
    writer: &mut W,
) -> PumpEnd
    ensures ended { result ≡ PumpEnd.End → IsAtEnd (I.remaining reader.new) }
    ensures named { IsNamed result }
    ensures forwarded { Pumps result (I.remaining reader.old) (I.remaining reader.new) (W.contents writer.old) (W.contents writer.new) }
{
    let mut window = Window::new(alloc);
    for turn in 0..READ_LIMIT {
        match make_turn(rt, alloc, tap, reader, writer, &mut window) {
            Turn::On => {}
            Turn::Odd => {
                return pump_pieces(
                    rt,
                    alloc,
                    tap,
                    reader,
                    writer,
                    window.as_slice(),
                    READ_LIMIT - turn - 1,
                );
            }
            Turn::Over(end) => return end,
        }
    }
    PumpEnd::Bound
}

/// Forwards the records that a client sends on a lane, as they come: each is noted as a call, and then written as one
/// fragment. The log's lock isn't held while bytes are read or written.
pub fn pump_calls<R: Wait, I: Read, W: Write>(
    rt: &R,
    alloc: Global,
    reader: &mut I,
    writer: &mut W,
    lane: u32,
    log: &Mutex<TapLog>,
) -> PumpEnd
    ensures ended { result ≡ PumpEnd.End → IsAtEnd (I.remaining reader.new) }
    ensures named { IsNamed result }
    ensures forwarded { Pumps result (I.remaining reader.old) (I.remaining reader.new) (W.contents writer.old) (W.contents writer.new) }
{
    let way = Way::Calls;
    pump(rt, alloc, Tap { way, lane, log }, reader, writer)
}

/// Forwards the records that a server sends on a lane, as [`pump_calls`] does those of a client: each is noted as a reply.
pub fn pump_replies<R: Wait, I: Read, W: Write>(
    rt: &R,
    alloc: Global,
    reader: &mut I,
    writer: &mut W,
    lane: u32,
    log: &Mutex<TapLog>,
) -> PumpEnd
    ensures ended { result ≡ PumpEnd.End → IsAtEnd (I.remaining reader.new) }
    ensures named { IsNamed result }
    ensures forwarded { Pumps result (I.remaining reader.old) (I.remaining reader.new) (W.contents writer.old) (W.contents writer.new) }
{
    let way = Way::Replies;
    pump(rt, alloc, Tap { way, lane, log }, reader, writer)
}
