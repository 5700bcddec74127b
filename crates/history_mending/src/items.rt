//! The items of a history file, from the front.

ghost use Rattle.std.specs.Prelude.{◌≡◌, ◌≤◌, [], IfOk};
ghost use Rattle.xdr_records.specs.Grammar.Grammar.{one_word, one_opaque, named};
ghost use Rattle.xdr_records.specs.Kinds.{Tells, kind_reading};
ghost use Rattle.tree_starts.specs.Start.{start_limit};
ghost use Rattle.history_file.specs.Kinds.{kind_of};
ghost use Rattle.history_file.specs.Starting as starting;
ghost use Rattle.history_file.specs.HistoryFile.{event_kind, message, event};
ghost use Rattle.history_file.specs.Owning.{seen_event};
ghost use Rattle.history_mending.specs.Steps.{kind_value, TellsOrNoMemory};

use history_file::{FileFault, ItemFault, SeenEvent, read_objects};
use std::alloc::Global;
use tree_starts::{Profile, START_LIMIT, SeenStart};
use xdr_records::{RECORD_LIMIT, Reader, XdrFault};

/// The kind word of an event.
#[derive(Clone, Copy)]
pub enum EventKind {
    /// 0: a call was sent.
    Call,
    /// 1: a reply came.
    Reply,
    /// 2: a lane was closed.
    Close,
    /// 3: the server crashed.
    Crash,
}

/// What is wrong where an item can't be read.
fn fault_of(fault: XdrFault) -> FileFault
    ensures { result ≡ kind_of fault }
{
    match fault {
        XdrFault::Short | XdrFault::BadFlag => FileFault::Truncated,
        XdrFault::TooLong => FileFault::TooLarge,
        XdrFault::Trailing => FileFault::Trailing,
    }
}

/// The next word.
pub fn word(reader: &mut Reader<'_>) -> Result<u32, FileFault>
    ensures { Tells (λ n. n) reader.new result (kind_reading kind_of one_word reader.old) }
{
    reader.u32().map_err(fault_of)
}

/// The next bytes behind their length.
pub fn opaque<'a>(reader: &mut Reader<'a>, limit: u32) -> Result<&'a [u8], FileFault>
    ensures { Tells (λ bytes. bytes.now) reader.new result (kind_reading kind_of (one_opaque limit) reader.old) }
{
    reader.opaque(limit).map_err(fault_of)
}

fn kind(reader: &mut Reader<'_>, number: u64) -> Result<EventKind, FileFault>
    ensures { Tells kind_value reader.new result (kind_reading kind_of (named (event_kind number)) reader.old) }
{
    match word(reader)? {
        0 => Ok(EventKind::Call),
        1 => Ok(EventKind::Reply),
        2 => Ok(EventKind::Close),
        3 => Ok(EventKind::Crash),
        _ => Err(FileFault::BadEvent(number)),
    }
}

/// How strictly replies are judged.
pub fn profile(reader: &mut Reader<'_>) -> Result<Profile, FileFault>
    ensures { Tells (λ p. p) reader.new result (kind_reading kind_of (named starting.profile_word) reader.old) }
{
    match word(reader)? {
        0 => Ok(Profile::Plain),
        1 => Ok(Profile::Strict),
        _ => Err(FileFault::BadProfile),
    }
}

/// The number of starting objects.
pub fn object_count(reader: &mut Reader<'_>) -> Result<u32, FileFault>
    ensures read { Tells (λ n. n) reader.new result (kind_reading kind_of (named starting.object_count) reader.old) }
    ensures few { IfOk result (λ n. n ≤ start_limit) }
{
    let number = word(reader)?;
    if number as usize > START_LIMIT {
        return Err(FileFault::TooLarge);
    }
    Ok(number)
}

/// The starting objects, of this number.
pub fn objects<'a>(
    alloc: Global,
    reader: &mut Reader<'a>,
    number: u32,
) -> Result<SeenStart<'a>, FileFault>
    requires { number ≤ start_limit }
    ensures { TellsOrNoMemory (λ s. s) reader.new result (kind_reading kind_of (starting.objects number [] 1) reader.old) }
{
    match read_objects(alloc, reader, number) {
        Ok(start) => Ok(start),
        Err(ItemFault::Fault { fault, .. }) => Err(fault),
        Err(ItemFault::NoMemory) => Err(FileFault::NoMemory),
    }
}

#[tactic(auto, unfolding(history_file::specs::HistoryFile::message))]
fn message<'a>(reader: &mut Reader<'a>) -> Result<&'a [u8], FileFault>
    ensures { Tells (λ m. m.now) reader.new result (kind_reading kind_of message reader.old) }
{
    opaque(reader, RECORD_LIMIT as u32)
}

/// Event `number`. Its message isn't copied.
#[tactic(auto, unfolding(history_file::specs::HistoryFile::event))]
pub fn event<'a>(reader: &mut Reader<'a>, number: u64) -> Result<SeenEvent<'a>, FileFault>
    ensures { Tells seen_event reader.new result (kind_reading kind_of (event number) reader.old) }
{
    match kind(reader, number)? {
        EventKind::Call => {
            let lane = word(reader)?;
            let message = message(reader)?;
            Ok(SeenEvent::Call { lane, message })
        }
        EventKind::Reply => {
            let lane = word(reader)?;
            let message = message(reader)?;
            Ok(SeenEvent::Reply { lane, message })
        }
        EventKind::Close => {
            let lane = word(reader)?;
            Ok(SeenEvent::Close { lane })
        }
        EventKind::Crash => Ok(SeenEvent::Crash),
    }
}
