//! Servers, what clients ask of them, and what they closed with.

mod book_memory;
mod crashing;
mod crowd;
mod doors;
mod memory;

ghost use Rattle.std.specs.Prelude.{◌≡◌, []};

use certificate::write_certificate;
use client_calls::{Creation, create};
use journal_server::{
    CallFault, Closed, Gate, JournalDevice, OpenGate, Pass, Profile, Server, SimDevice, Start,
};
use nfs3_types::{Data, Name};
use std::alloc::{AllocError, Global};
use std::sync::Wait;
use tree_starts::{StartFault, StartNode, StartObject};
use witness_check::{Verdict, check};

/// A server that holds no call.
pub(crate) type OpenServer = Server<OpenGate, SimDevice>;

/// A device that never fails.
pub(crate) fn device(alloc: Global) -> SimDevice
    ensures { result.device ≡ record { records = []; mark = 0; faults = 0 } }
{
    SimDevice::new(alloc, None, None, None)
}

/// How a server begins: how strictly its replies are judged, and whether it holds the file `abc` at the name `z`.
pub(crate) type Opening = (Profile, bool);

/// Plain, with nothing.
pub(crate) const PLAIN: Opening = (Profile::Plain, false);

const OPENINGS: [Opening; 4] = [
    PLAIN,
    (Profile::Strict, false),
    (Profile::Plain, true),
    (Profile::Strict, true),
];

/// The start of one file `abc` at this name.
pub(crate) fn one_file(alloc: Global, letter: u8) -> Result<Start, StartFault> {
    let mut objects = Vec::with_capacity(alloc, 1)?;
    objects.push(StartObject {
        parent: 0,
        name: Name::from_slice(alloc, [letter].as_slice())?,
        node: StartNode::File(Data::from_slice(alloc, b"abc".as_slice())?),
    })?;
    Start::new(alloc, objects)
}

/// What a server holds at first.
fn start_of(alloc: Global, holds_file: bool) -> Result<Start, AllocError> {
    if !holds_file {
        return Ok(Start::empty(alloc));
    }
    match one_file(alloc, b'z') {
        Ok(start) => Ok(start),
        Err(_) => Err(AllocError),
    }
}

/// A server that holds no call, over a device that never fails.
pub(crate) fn open_server(
    alloc: Global,
    (profile, holds_file): Opening,
) -> Result<OpenServer, AllocError> {
    let start = start_of(alloc, holds_file)?;
    Server::new_from(alloc, OpenGate, device(alloc), profile, start)
}

/// Whether a server's certificate is a witness of its history; asked for again where memory was wanting.
fn explains(alloc: Global, closed: &Closed) -> bool {
    match check(alloc, &closed.history, &closed.certificate) {
        Ok(verdict) => matches!(verdict, Verdict::Yes),
        Err(_) => {
            matches!(
                check(alloc, &closed.history, &closed.certificate),
                Ok(Verdict::Yes)
            )
        }
    }
}

/// Whether a server's certificate has this text, and is a witness of its history.
fn explains_by(alloc: Global, closed: &Closed, text: &str) -> bool {
    match write_certificate(alloc, &closed.certificate) {
        Ok(out) => out.as_slice() == text.as_bytes() && explains(alloc, closed),
        Err(_) => false,
    }
}

/// A pass of the next lane.
fn join<R: Wait, G: Gate, D: JournalDevice>(
    rt: &R,
    server: &Server<G, D>,
) -> Result<Pass, CallFault> {
    match server.join_lane(rt) {
        Ok(pass) => Ok(pass),
        Err(_) => Err(CallFault::NoMemory),
    }
}

/// How a message is answered, without what is answered.
fn ask<R: Wait, G: Gate, D: JournalDevice>(
    rt: &R,
    server: &Server<G, D>,
    pass: &mut Pass,
    message: Result<Vec<u8>, AllocError>,
) -> Result<(), CallFault> {
    let message = message?;
    let reply = server.call(rt, pass, message.as_slice())?;
    drop(reply);
    Ok(())
}

/// How a CREATE of this file in the root is answered.
fn make_file<R: Wait, G: Gate, D: JournalDevice>(
    rt: &R,
    alloc: Global,
    server: &Server<G, D>,
    pass: &mut Pass,
    (xid, letter): (u32, u8),
) -> Result<(), CallFault> {
    let message = create(alloc, xid, 0, &[letter], Creation::Unchecked(None));
    ask(rt, server, pass, message)
}
