//! A server for which memory is wanting once.

use crate::servers::{OpenServer, Opening, PLAIN, explains, open_server};
use client_calls::{
    Creation, commit, create, make_directory, make_link, read, read_directory, read_directory_plus,
    remove, rename, set_size, write,
};
use journal_server::{CallFault, CloseFault, Closed, CrashFault, Pass, Profile};
use nfs3_types::StableHow;
use std::alloc::{AllocError, Global};
use std::sync::Wait;
use std::test::Fail;

/// Messages.
type Messages = Vec<Vec<u8>>;

/// Puts one more to messages.
fn put(out: &mut Messages, message: Result<Vec<u8>, AllocError>) -> Result<(), AllocError> {
    out.push(message?)?;
    Ok(())
}

/// How many messages come before a crash.
const BEFORE_CRASH: usize = 7;

/// What is asked of a server that held so many objects: a file is made and moves into a directory; after the crash it is read, and more is made.
fn messages(alloc: Global, held: u64) -> Result<Messages, AllocError> {
    let (file, folder) = (held.saturating_add(1), held.saturating_add(3));
    let mut out = Vec::new(alloc);
    put(
        &mut out,
        create(alloc, 1, 0, b"a", Creation::Unchecked(None)),
    )?;
    let wrote = write(alloc, 2, file, 4090, StableHow::Unstable, b"over two pages");
    put(&mut out, wrote)?;
    put(&mut out, make_directory(alloc, 3, 0, b"d"))?;
    put(&mut out, rename(alloc, 4, (0, b"a"), (folder, b"b")))?;
    put(&mut out, make_link(alloc, 5, folder, b"c", b"text"))?;
    put(&mut out, read_directory(alloc, 6, folder, 0, 4096))?;
    put(&mut out, remove(alloc, 7, folder, b"c"))?;
    put(&mut out, read_directory_plus(alloc, 1, folder, 0, 4096))?;
    put(&mut out, read(alloc, 2, file, 4000, 200))?;
    put(&mut out, set_size(alloc, 3, file, Some(10)))?;
    put(
        &mut out,
        create(alloc, 4, folder, b"e", Creation::Exclusive(9)),
    )?;
    put(&mut out, commit(alloc, 5, file, 0, 0))?;
    Ok(out)
}

/// The same; made again where memory was wanting.
fn make_messages(alloc: Global, held: u64) -> Result<Messages, Fail> {
    match messages(alloc, held) {
        Ok(made) => Ok(made),
        Err(_) => Ok(messages(alloc, held)?),
    }
}

/// A new server; asked for again where memory was wanting.
fn new_server(alloc: Global, opening: Opening) -> Result<OpenServer, Fail> {
    match open_server(alloc, opening) {
        Ok(server) => Ok(server),
        Err(_) => Ok(open_server(alloc, opening)?),
    }
}

/// Room for two passes.
fn room(alloc: Global) -> Result<Vec<Pass>, Fail> {
    match Vec::with_capacity(alloc, 2) {
        Ok(passes) => Ok(passes),
        Err(_) => Ok(Vec::with_capacity(alloc, 2)?),
    }
}

/// How often memory was wanting with one call more; nothing, if the call didn't come as it had to. The server may be down for a want of memory.
fn wanting_with(wanting: u32, called: Result<Vec<u8>, CallFault>) -> Option<u32> {
    match called {
        Ok(reply) => {
            drop(reply);
            Some(wanting)
        }
        Err(CallFault::NoMemory) => Some(wanting.saturating_add(1)),
        Err(CallFault::Down) if wanting > 0 => Some(wanting),
        Err(_) => None,
    }
}

/// The same with a crash more.
fn wanting_with_crash(wanting: u32, crashed: Result<(), CrashFault>) -> Option<u32> {
    match crashed {
        Ok(()) => Some(wanting),
        Err(CrashFault::NoMemory) => Some(wanting.saturating_add(1)),
        Err(_) => None,
    }
}

/// The same with a client more that asks all of this.
fn ask_all<R: Wait>(
    rt: &R,
    server: &OpenServer,
    pass: &mut Pass,
    messages: &[Vec<u8>],
    before: u32,
) -> Option<u32> {
    let mut wanting = before;
    for message in messages {
        wanting = wanting_with(wanting, server.call(rt, pass, message.as_slice()))?;
    }
    Some(wanting)
}

/// How often memory was wanting for two clients with a crash between them, which keeps all; nothing, if not all came as it had to.
fn ask_both<R: Wait>(
    rt: &R,
    server: &OpenServer,
    asked: &[Vec<u8>],
    before: &mut Pass,
    after: &mut Pass,
) -> Option<u32> {
    let (first, second) = asked.split_at(asked.len().min(BEFORE_CRASH));
    let called = ask_all(rt, server, before, first, 0)?;
    let crashed = wanting_with_crash(called, server.crash(rt, u64::MAX))?;
    ask_all(rt, server, after, second, crashed)
}

/// The same of two passes that are made, and then among these.
fn run<R: Wait>(
    rt: &R,
    server: &OpenServer,
    asked: &[Vec<u8>],
    passes: &mut Vec<Pass>,
) -> Option<u32> {
    let mut before = server.join_lane(rt).ok()?;
    let mut after = server.join_lane(rt).ok()?;
    let wanting = ask_both(rt, server, asked, &mut before, &mut after);
    passes.push(before).ok()?;
    passes.push(after).ok()?;
    wanting
}

/// Whether a server closes with a witness, or else memory was wanting for it.
fn is_closed(alloc: Global, closed: Result<Closed, CloseFault>) -> bool {
    match closed {
        Ok(closed) => explains(alloc, &closed),
        Err(fault) => fault == CloseFault::NoMemory,
    }
}

/// Whether a server that begins so explains itself, with memory wanting at most once.
fn is_explained<R: Wait>(rt: &R, alloc: Global, opening: Opening) -> Result<bool, Fail> {
    let asked = make_messages(alloc, u64::from(opening.1))?;
    let mut passes = room(alloc)?;
    let server = new_server(alloc, opening)?;
    let wanting = run(rt, &server, asked.as_slice(), &mut passes);
    let closed = is_closed(alloc, server.close(passes));
    Ok(match wanting {
        Some(count) => count < 2 && closed,
        None => false,
    })
}

// It passes as well where any one allocation is refused, as by `rt try --test --fail-alloc N`.
#[test]
fn a_refused_growth_leaves_a_server_that_explains_itself(rt: HostRuntime) -> Result<(), Fail> {
    for opening in [PLAIN, (Profile::Strict, true)] {
        assert!(rt; is_explained(&rt, rt.alloc(), opening)?);
    }
    Ok(())
}
