//! From the connections of a server to a recorder's log.

ghost use Rattle.std.specs.Prelude.{◌≡◌, ◌++◌, List, [], length, IfOk, IfErr, OnOk};
ghost use Rattle.history_file.specs.Event.{Recording};
ghost use Rattle.capture_history.specs.Imports.{AreNoted, IsImport};
ghost use Rattle.capture_history.specs.Noting.{IsNext, IsNoted, AreInOrder, IsPut, AreFound, IsSorted};

use crate::connection::Connection;
use crate::fault::ImportFault;
use crate::found::{Found, FoundKind};
use crate::lane::put_lane;
use crate::notes::{LaneNote, NoteKind};
use nfs_tap::{NoteFault, TapLog};
use nfs3_types::FileHandle;
use packet_capture::Packet;
use std::alloc::{AllocError, Global};

/// What a server's connections say.
#[derive(Drop)]
pub struct Import {
    /// The calls and replies, and the closes.
    pub log: TapLog,
    /// What is told of lanes: where one ended early, and what was left out.
    pub notes: Vec<LaneNote>,
}

/// The time of the packet of an index.
fn time_of(packets: &[Packet<'_>], index: u64) -> u64 {
    match packets.get(index as usize) {
        Some(packet) => packet.time,
        None => 0,
    }
}

/// Has the log note an event, or gives why it doesn't. A close finds room always: a log keeps some for 4,096 of them.
fn note_event(log: &mut TapLog, event: &Found) -> Result<Option<NoteKind>, ImportFault>
    ensures { IfOk result (λ why. IsNext log.old event.now why log.new) }
{
    let message = event.message.as_slice();
    if event.kind != FoundKind::Close && !log.has_room(message.len()) {
        return Ok(Some(NoteKind::LogFull));
    }
    let noted = match event.kind {
        FoundKind::Call => log.note_call(event.lane, message),
        FoundKind::Reply => log.note_reply(event.lane, message),
        FoundKind::Close => log.note_close(event.lane),
    };
    match noted {
        Ok(()) => Ok(None),
        Err(NoteFault::NoMemory) => Err(ImportFault::NoMemory),
        Err(fault) => Ok(Some(NoteKind::Refused(fault))),
    }
}

/// Has the log note an event, or tells why it doesn't.
fn note_next(
    packets: &[Packet<'_>],
    log: &mut TapLog,
    notes: &mut Vec<LaneNote>,
    event: &Found,
) -> Result<(), ImportFault>
    ensures { OnOk result (IsNoted log.old notes.old.items event.now log.new notes.new.items) }
{
    match note_event(log, event)? {
        None => Ok(()),
        Some(kind) => {
            notes.push(LaneNote {
                lane: event.lane,
                time: time_of(packets, event.at),
                kind,
            })?;
            Ok(())
        }
    }
}

/// Has the log note events in order, and tells of those that it doesn't.
fn note_all(
    packets: &[Packet<'_>],
    log: &mut TapLog,
    notes: &mut Vec<LaneNote>,
    events: &[Found],
) -> Result<(), ImportFault>
    ensures { OnOk result (AreInOrder log.old notes.old.items events.now log.new notes.new.items) }
{
    for event in events {
        note_next(packets, log, notes, event)?;
    }
    Ok(())
}

/// The events of all lanes, and what is told of those that end early.
#[derive(Drop)]
struct Lanes {
    found: Vec<Found>,
    notes: Vec<LaneNote>,
}

/// Puts the events of a lane behind those of others, and tells of it where it ends early.
fn put_told(
    alloc: Global,
    packets: &[Packet<'_>],
    found: &mut Vec<Found>,
    notes: &mut Vec<LaneNote>,
    lane: u32,
    connection: &Connection<'_>,
) -> Result<(), AllocError>
    ensures { OnOk result (IsPut lane connection.now found.old.items notes.old.items found.new.items notes.new.items) }
{
    match put_lane(alloc, found, lane, connection)? {
        None => Ok(()),
        Some(end) => {
            notes.push(LaneNote {
                lane,
                time: time_of(packets, end.at),
                kind: end.kind,
            })?;
            Ok(())
        }
    }
}

/// The events of connections, whose lanes are numbered from 1.
fn lanes_of(
    alloc: Global,
    packets: &[Packet<'_>],
    connections: &[Connection<'_>],
) -> Result<Lanes, ImportFault>
    ensures { IfOk result (λ lanes. AreFound connections.now lanes) }
{
    let mut found = Vec::new(alloc);
    let mut notes = Vec::new(alloc);
    for index in 0..connections.len() {
        let Ok(lane) = u32::try_from(index + 1) else {
            return Err(ImportFault::ManyConnections);
        };
        let connection = &connections[index];
        put_told(alloc, packets, &mut found, &mut notes, lane, connection)?;
    }
    Ok(Lanes { found, notes })
}

/// Events in the order of the packets at which they stand. Those of one packet stay in their order.
fn sort(found: &mut Vec<Found>) -> Result<(), AllocError>
    ensures { OnOk result (IsSorted found.old.items found.new.items) }
{
    found.sort_by_key(|event| event.at)?;
    Ok(())
}

/// The log of a server's connections, of which the packets tell the time.
pub fn import_lanes(
    alloc: Global,
    packets: &[Packet<'_>],
    root: FileHandle,
    connections: &[Connection<'_>],
) -> Result<Import, ImportFault>
    ensures { IfOk result (λ import. IsImport root connections.now import.log import.notes.items) }
{
    let Lanes {
        mut found,
        mut notes,
    } = lanes_of(alloc, packets, connections)?;
    sort(&mut found)?;
    let mut log = TapLog::new(alloc, root);
    note_all(packets, &mut log, &mut notes, found.as_slice())?;
    Ok(Import { log, notes })
}
