//! A client on a thread.

use crate::messages::{made_object, number_at, procedure_of};
use crate::soak::asking::Asker;
use crate::soak::gate::SoakServer;
use journal_server::{CallFault, Pass};
use nfs3_types::{FileType, Procedure};
use std::sync::Wait;
use std::thread;
use std::time::{Clock, Duration};

/// How often a client calls.
const CALLS: u32 = 200;

/// So many calls in a row find the server down before a client gives up.
const PATIENCE: u32 = 30;

/// What a thread has at its end: its lanes, each with the answered calls that it made on it; or what wasn't as it may be.
pub type Ran = Result<Vec<Pass>, &'static str>;

/// What comes after a call.
#[derive(Clone, Copy)]
enum Next {
    Go,
    /// The lane is over.
    Rejoin,
    /// The server is down.
    Pause,
    /// The lane was closed.
    Closed,
}

// What comes after a fault.
fn after(fault: CallFault, device_fails: bool) -> Result<Next, &'static str> {
    match fault {
        CallFault::EraOver(_) => Ok(Next::Rejoin),
        CallFault::Down if device_fails => Ok(Next::Pause),
        CallFault::Down => Err("a server was down whose device hadn't failed"),
        CallFault::BadRecord => Err("a call was taken for none"),
        CallFault::LaneClosed => Ok(Next::Closed),
        CallFault::XidInUse => Err("a transaction number was taken for one in use"),
        CallFault::NoMemory => Err("memory ran out"),
    }
}

// Notes an object that was made, for all clients, if this call was answered.
fn take_reply(asker: &mut Asker<'_>, message: &[u8], reply: &[u8]) -> Result<Next, &'static str> {
    if number_at(reply, 0, 4) != number_at(message, 0, 4) {
        return Err("another call was answered");
    }
    let kind = match procedure_of(message) {
        Some(Procedure::Create) => FileType::Regular,
        Some(Procedure::MkDir) => FileType::Directory,
        Some(Procedure::SymLink) => FileType::SymbolicLink,
        _ => return Ok(Next::Go),
    };
    if let Some(object) = made_object(reply) {
        asker.known.note(&mut asker.random, kind, object);
    }
    Ok(Next::Go)
}

// Calls; now and then leaves, and calls once more, which is refused, or is in no history.
fn step<R: Wait + Clock>(
    rt: &R,
    server: &SoakServer<'_, R>,
    asker: &mut Asker<'_>,
    pass: &mut Pass,
) -> Result<Next, &'static str> {
    let leaves = asker.random.below(100) == 0;
    if leaves {
        if let Err(fault) = server.leave(rt, pass) {
            return after(fault, asker.device_fails);
        }
    }
    let Ok(message) = asker.ask() else {
        return Err("memory ran out");
    };
    let next = match server.call(rt, pass, message.as_slice()) {
        Ok(reply) => take_reply(asker, message.as_slice(), reply.as_slice()),
        Err(fault) => after(fault, asker.device_fails),
    };
    match next {
        Ok(_) if leaves => Ok(Next::Rejoin),
        Ok(Next::Closed) => Err("an open lane was taken for a closed one"),
        next => next,
    }
}

// Calls on one lane, until so many calls were made.
fn run_lane<R: Wait + Clock>(
    rt: &R,
    server: &SoakServer<'_, R>,
    asker: &mut Asker<'_>,
    pass: &mut Pass,
) -> Result<Next, &'static str> {
    let mut patience = PATIENCE;
    for _ in asker.xid..CALLS {
        match step(rt, server, asker, pass) {
            Ok(Next::Go) => patience = PATIENCE,
            Ok(Next::Pause) if patience > 0 => {
                patience -= 1;
                thread::sleep(rt, Duration::from_millis(1));
            }
            next => return next,
        }
    }
    Ok(Next::Pause)
}

/// Calls on lanes, one after the other, so often.
pub fn run_client<R: Wait + Clock>(
    rt: &R,
    server: &SoakServer<'_, R>,
    asker: &mut Asker<'_>,
) -> Ran {
    let mut passes = Vec::new(asker.alloc);
    for _ in 0..CALLS {
        let Ok(mut pass) = server.join_lane(rt) else {
            return Err("no lane was given out");
        };
        let next = run_lane(rt, server, asker, &mut pass);
        if passes.push(pass).is_err() {
            return Err("memory ran out");
        }
        match next {
            Ok(Next::Rejoin) => {}
            Ok(_) => break,
            Err(wrong) => return Err(wrong),
        }
    }
    Ok(passes)
}
