//! Calls that are held, while others are answered or the server crashes.

use crate::servers::doors::{Door, Doors, Flag};
use crate::servers::{OPENINGS, Opening, ask, device, explains_by, join, make_file, start_of};
use client_calls::write;
use journal_server::{CallFault, Closed, Pass, Point, Server, SimDevice};
use nfs3_types::StableHow;
use std::alloc::Global;
use std::sync::Wait;
use std::test::Fail;
use std::thread::{self, Threads, join as run_both};
use std::time::{Clock, Duration};

type HeldServer<'d, R> = Server<Doors<'d, R>, SimDevice>;

/// The third call is the WRITE that is held, the fourth the one that is answered meanwhile.
const BESIDE: &str =
    "witness 1\nbind 0000000000000001 1\nbind 0000000000000002 2\nplace 1\nplace 2\n\
                           place 4\nplace 3\nend\n";

/// How a WRITE of three bytes to this object is answered.
fn write_file<R: Wait + Clock>(
    rt: &R,
    alloc: Global,
    server: &HeldServer<'_, R>,
    pass: &mut Pass,
    object: u64,
) -> Result<(), CallFault> {
    let message = write(alloc, 1, object, 0, StableHow::Unstable, b"abc");
    ask(rt, server, pass, message)
}

/// Whether the WRITE to the second file is answered while that to the first one waits at the door.
fn write_beside<R: Wait + Clock>(
    rt: &R,
    alloc: Global,
    server: &HeldServer<'_, R>,
    pass: &mut Pass,
    door: &Door,
) -> bool {
    let reached = door.reached.wait(rt);
    let wrote = write_file(rt, alloc, server, pass, 2);
    let held = !door.forced.is_set();
    door.opened.set();
    reached && held && wrote.is_ok()
}

/// The passes of three clients, of whom the first makes two files, and the second is held.
fn write_both<R: Wait + Clock + Threads + Sync>(
    rt: &R,
    alloc: Global,
    server: &HeldServer<'_, R>,
    door: &Door,
) -> Result<(Pass, Pass, Pass, bool), CallFault> {
    let mut first = join(rt, server)?;
    make_file(rt, alloc, server, &mut first, (1, b'a'))?;
    make_file(rt, alloc, server, &mut first, (2, b'b'))?;
    let mut held = join(rt, server)?;
    let mut free = join(rt, server)?;
    let (one, two) = run_both(
        rt,
        || write_file(rt, alloc, server, &mut held, 1),
        || write_beside(rt, alloc, server, &mut free, door),
    );
    Ok((first, held, free, one.is_ok() && two))
}

/// Closes a server in which one client was held, if all went well.
fn close_held<R: Wait + Clock + Threads + Sync>(rt: &R, alloc: Global) -> Result<Closed, Fail> {
    let door = Door::new(2, Point::Locked);
    let mut passes = Vec::with_capacity(alloc, 3)?;
    let server = Server::new(alloc, Doors::new(rt, &door, &door), device(alloc))?;
    if let Ok((first, held, free, true)) = write_both(rt, alloc, &server, &door) {
        drop(passes.push(first));
        drop(passes.push(held));
        drop(passes.push(free));
    }
    Ok(server.close(passes)?)
}

#[test]
fn a_file_is_written_while_a_write_to_another_is_held(rt: HostRuntime) -> Result<(), Fail> {
    let alloc = rt.alloc();
    let closed = close_held(&rt, alloc)?;
    assert!(rt; explains_by(alloc, &closed, BESIDE));
    Ok(())
}

/// A call was lost before it had a place: of a server that held nothing at first, and of one that held an object.
const UNPLACED: (&str, &str) = (
    "witness 1\ncut 0\nend\n",
    "witness 1\nbind 0000000000000001 1\ncut 0\nend\n",
);

/// The call has a place, and the crash took it.
const TAKEN: (&str, &str) = (
    "witness 1\nbind 0000000000000001 1\ntake 1\ncut 0\nend\n",
    "witness 1\nbind 0000000000000001 1\nbind 0000000000000002 2\ntake 1\ncut 0\nend\n",
);

/// The call has a place, and outlived the crash.
const KEPT: (&str, &str) = (
    "witness 1\nbind 0000000000000001 1\ntake 1\ncut 1\nend\n",
    "witness 1\nbind 0000000000000001 1\nbind 0000000000000002 2\ntake 1\ncut 1\nend\n",
);

/// Where a call is held over a crash, how many records outlive it at most beside those on stable storage, and the certificates.
const CRASHES: [(Point, u64, (&str, &str)); 4] = [
    (Point::Begun, 0, UNPLACED),
    (Point::Placed, 0, TAKEN),
    (Point::Placed, 1, KEPT),
    (Point::Flushed, 0, KEPT),
];

/// Whether a CREATE is answered that its era is over.
fn is_over<R: Wait + Clock>(
    rt: &R,
    alloc: Global,
    server: &HeldServer<'_, R>,
    pass: &mut Pass,
) -> bool {
    make_file(rt, alloc, server, pass, (1, b'a')) == Err(CallFault::EraOver(2))
}

/// Whether a crash comes while a call waits at the door, which is opened then.
fn crash_beside<R: Wait + Clock>(
    rt: &R,
    server: &HeldServer<'_, R>,
    door: &Door,
    extra: u64,
) -> bool {
    let reached = door.reached.wait(rt);
    let crashed = server.crash(rt, extra);
    let held = !door.forced.is_set();
    door.opened.set();
    reached && held && crashed.is_ok()
}

/// What a client knows whose CREATE is held over a crash, and whether all came as it had to.
fn crash_held<R: Wait + Clock + Threads + Sync>(
    rt: &R,
    alloc: Global,
    server: &HeldServer<'_, R>,
    door: &Door,
    extra: u64,
) -> Result<(Pass, bool), CallFault> {
    let mut pass = join(rt, server)?;
    let (over, crashed) = run_both(
        rt,
        || is_over(rt, alloc, server, &mut pass),
        || crash_beside(rt, server, door, extra),
    );
    Ok((pass, over && crashed))
}

/// Whether a server whose only call was held closes by this certificate, with what its client knows, and all came as it had to.
fn is_closed_by<R: Wait + Clock>(
    alloc: Global,
    server: HeldServer<'_, R>,
    mut passes: Vec<Pass>,
    ran: Result<(Pass, bool), CallFault>,
    text: &str,
) -> Result<bool, Fail> {
    let fits = matches!(&ran, Ok((_, true)));
    if let Ok((pass, _)) = ran {
        drop(passes.push(pass));
    }
    let closed = server.close(passes)?;
    Ok(fits && explains_by(alloc, &closed, text))
}

/// Whether a server that begins so closes by this certificate, whose only call is held over a crash.
fn is_explained<R: Wait + Clock + Threads + Sync>(
    rt: &R,
    alloc: Global,
    (profile, holds_file): Opening,
    (point, extra): (Point, u64),
    text: &str,
) -> Result<bool, Fail> {
    let door = Door::new(1, point);
    let passes = Vec::with_capacity(alloc, 1)?;
    let start = start_of(alloc, holds_file)?;
    let gate = Doors::new(rt, &door, &door);
    let server = Server::new_from(alloc, gate, device(alloc), profile, start)?;
    let ran = crash_held(rt, alloc, &server, &door, extra);
    is_closed_by(alloc, server, passes, ran, text)
}

#[test]
fn a_call_that_is_held_over_a_crash_is_lost_or_kept(rt: HostRuntime) -> Result<(), Fail> {
    for (point, extra, texts) in CRASHES {
        for opening in OPENINGS {
            let text = if opening.1 { texts.1 } else { texts.0 };
            assert!(rt; is_explained(&rt, rt.alloc(), opening, (point, extra), text)?);
        }
    }
    Ok(())
}

/// A call that is held with its objects locked and once more when it is placed, and a crash between.
#[derive(Drop)]
struct Between<'d> {
    locked: &'d Door,
    placed: &'d Door,
    begun: Flag,
    done: Flag,
}

/// Whether a crash that begins while a call holds its objects succeeds.
fn crash_between<R: Wait + Clock>(
    rt: &R,
    server: &HeldServer<'_, R>,
    between: &Between<'_>,
) -> bool {
    let reached = between.locked.reached.wait(rt);
    between.begun.set();
    let crashed = server.crash(rt, 0);
    between.done.set();
    let placed = between.placed.reached.wait(rt);
    between.placed.opened.set();
    reached && placed && crashed.is_ok()
}

/// Whether the crash isn't done some time after it began; then lets the call go on.
fn is_waiting<R: Clock>(rt: &R, between: &Between<'_>) -> bool {
    let begun = between.begun.wait(rt);
    thread::sleep(rt, Duration::from_millis(50));
    let waiting = !between.done.is_set();
    between.locked.opened.set();
    begun && waiting
}

/// What a client knows whose CREATE holds its objects when a crash begins, and whether all came as it had to.
fn crash_locked<R: Wait + Clock + Threads + Sync>(
    rt: &R,
    alloc: Global,
    server: &HeldServer<'_, R>,
    between: &Between<'_>,
) -> Result<(Pass, bool), CallFault> {
    let mut pass = join(rt, server)?;
    let (over, (crashed, waiting)) = run_both(
        rt,
        || is_over(rt, alloc, server, &mut pass),
        || {
            run_both(
                rt,
                || crash_between(rt, server, between),
                || is_waiting(rt, between),
            )
        },
    );
    Ok((pass, over && crashed && waiting))
}

/// Whether a server closes by this certificate, whose only call holds its objects when a crash begins.
fn is_waited_for<R: Wait + Clock + Threads + Sync>(
    rt: &R,
    alloc: Global,
    text: &str,
) -> Result<bool, Fail> {
    let locked = Door::new(1, Point::Locked);
    let placed = Door::new(1, Point::Placed);
    let between = Between {
        locked: &locked,
        placed: &placed,
        begun: Flag::new(),
        done: Flag::new(),
    };
    let passes = Vec::with_capacity(alloc, 1)?;
    let server = Server::new(alloc, Doors::new(rt, &locked, &placed), device(alloc))?;
    let ran = crash_locked(rt, alloc, &server, &between);
    is_closed_by(alloc, server, passes, ran, text)
}

#[test]
fn a_crash_waits_for_a_call_that_holds_its_objects(rt: HostRuntime) -> Result<(), Fail> {
    assert!(rt; is_waited_for(&rt, rt.alloc(), TAKEN.0)?);
    Ok(())
}
