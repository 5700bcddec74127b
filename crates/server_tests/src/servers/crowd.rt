//! Eight clients in one directory.

use crate::servers::{OpenServer, Opening, ask, explains, join, open_server};
use client_calls::{Creation, create, remove, rename, write};
use journal_server::{CallFault, Closed, Pass, Profile};
use nfs3_types::StableHow;
use std::alloc::Global;
use std::sync::Wait;
use std::test::Fail;
use std::thread::{self, Threads};

const CLIENTS: usize = 8;

/// One of four names.
fn name_of(pick: u32) -> u8 {
    b"abcd".get(pick as usize % 4).copied().unwrap_or(b'a')
}

/// The object that a reply to a CREATE names in its bytes 36 to 43; else 0.
fn object_in(reply: &[u8]) -> u64 {
    let mut object = 0u64;
    for index in 36..44usize {
        match reply.get(index) {
            Some(byte) => object = object.wrapping_mul(256).wrapping_add(u64::from(*byte)),
            None => return 0,
        }
    }
    object
}

/// The object that a CREATE makes or finds.
fn make<R: Wait>(
    rt: &R,
    alloc: Global,
    server: &OpenServer,
    pass: &mut Pass,
    (xid, name): (u32, u8),
) -> Result<u64, CallFault> {
    let made = create(alloc, xid, 0, &[name], Creation::Unchecked(None))?;
    let reply = server.call(rt, pass, made.as_slice())?;
    Ok(object_in(reply.as_slice()))
}

/// A CREATE and a WRITE of what it made, a RENAME and a REMOVE of the new name.
fn run_round<R: Wait>(
    rt: &R,
    alloc: Global,
    server: &OpenServer,
    pass: &mut Pass,
    (xid, from, to): (u32, u8, u8),
) -> Result<(), CallFault> {
    let object = make(rt, alloc, server, pass, (xid, from))?;
    let written = write(alloc, xid, object, 0, StableHow::Unstable, b"abc");
    ask(rt, server, pass, written)?;
    let renamed = rename(alloc, xid, (0, &[from]), (0, &[to]));
    ask(rt, server, pass, renamed)?;
    let removed = remove(alloc, xid, 0, &[to]);
    ask(rt, server, pass, removed)
}

/// What a client knows of its fifty rounds; nothing, if a call wasn't answered.
fn run_client<R: Wait>(rt: &R, alloc: Global, server: &OpenServer) -> Option<Pass> {
    let mut pass = join(rt, server).ok()?;
    for round in 0..50u32 {
        let turn = round.wrapping_add(pass.lane());
        let (from, to) = (name_of(turn), name_of(turn.wrapping_add(1 + round % 3)));
        if run_round(rt, alloc, server, &mut pass, (round, from, to)).is_err() {
            return None;
        }
    }
    Some(pass)
}

/// What clients on threads know.
fn run_clients<R: Wait + Threads + Sync>(
    rt: &R,
    alloc: Global,
    server: &OpenServer,
) -> Option<Vec<Pass>> {
    let ran = thread::map_indices(rt, alloc, CLIENTS, &|_| run_client(rt, alloc, server)).ok()?;
    let mut passes = Vec::new(alloc);
    for pass in ran {
        passes.push(pass?).ok()?;
    }
    Some(passes)
}

/// Closes a server that clients on threads have called.
fn close_crowd<R: Wait + Threads + Sync>(
    rt: &R,
    alloc: Global,
    opening: Opening,
) -> Result<Closed, Fail> {
    let server = open_server(alloc, opening)?;
    let passes = match run_clients(rt, alloc, &server) {
        Some(passes) => passes,
        None => Vec::new(alloc),
    };
    Ok(server.close(passes)?)
}

/// Whether all 1,600 calls were answered, and are explained.
fn is_explained(alloc: Global, closed: &Closed) -> bool {
    let calls = closed.history.recorded_calls();
    let answered = calls.iter().filter(|call| call.end.is_some()).count();
    answered == 1600 && explains(alloc, closed)
}

#[test]
fn eight_clients_in_one_directory_are_explained(rt: HostRuntime) -> Result<(), Fail> {
    let alloc = rt.alloc();
    for profile in [Profile::Plain, Profile::Strict] {
        let closed = close_crowd(&rt, alloc, (profile, false))?;
        assert!(rt; is_explained(alloc, &closed));
    }
    Ok(())
}

#[test]
fn eight_clients_of_a_server_that_held_a_file_are_explained(rt: HostRuntime) -> Result<(), Fail> {
    let alloc = rt.alloc();
    for profile in [Profile::Plain, Profile::Strict] {
        let closed = close_crowd(&rt, alloc, (profile, true))?;
        assert!(rt; is_explained(alloc, &closed));
    }
    Ok(())
}
