//! What the log takes.

use crate::streams::{CALL, REPLY};
use nfs_history::Event;
use nfs_tap::{NoteFault, TapLog};
use nfs3_types::FileHandle;
use std::alloc::{AllocError, Global};
use std::test::Fail;

pub(crate) fn new_log(alloc: Global) -> Result<TapLog, AllocError> {
    Ok(TapLog::new(alloc, FileHandle::from_slice(alloc, &[0])?))
}

/// What a log is told.
#[derive(Clone, Copy)]
enum Told {
    Call(u32, &'static [u8]),
    Reply(u32, &'static [u8]),
    Close(u32),
    Crash,
}

fn note(log: &mut TapLog, told: Told) -> Result<(), NoteFault> {
    match told {
        Told::Call(lane, message) => log.note_call(lane, message),
        Told::Reply(lane, message) => log.note_reply(lane, message),
        Told::Close(lane) => log.note_close(lane),
        Told::Crash => log.note_crash(),
    }
}

/// A call, a crash and a close, and what none of them lets follow.
const CALL_AND_CRASH: &[(Told, Result<(), NoteFault>)] = &[
    (Told::Call(1, CALL), Ok(())),
    (Told::Call(1, CALL), Err(NoteFault::XidInUse)),
    (Told::Reply(2, REPLY), Err(NoteFault::NoSuchCall)),
    (Told::Crash, Ok(())),
    (Told::Call(1, CALL), Err(NoteFault::LaneClosed)),
    (Told::Call(3, b""), Err(NoteFault::BadRpc)),
    (Told::Close(4), Ok(())),
];

/// A call and its reply, and a call and its lane's close.
const REPLY_AND_CLOSE: &[(Told, Result<(), NoteFault>)] = &[
    (Told::Reply(1, CALL), Err(NoteFault::BadRpc)),
    (Told::Call(1, CALL), Ok(())),
    (Told::Reply(1, REPLY), Ok(())),
    (Told::Reply(1, REPLY), Err(NoteFault::NoSuchCall)),
    (Told::Call(1, CALL), Ok(())),
    (Told::Close(1), Ok(())),
    (Told::Close(1), Err(NoteFault::LaneClosed)),
];

/// Whether a log has so many events, of which the first is the call on lane 1, and the root handle 0.
fn has(log: &TapLog, count: usize) -> bool {
    let is_call = match log.events().first() {
        Some(Event::Call { lane: 1, message }) => message.as_slice() == CALL,
        _ => false,
    };
    is_call && log.events().len() == count && log.root().as_slice() == [0].as_slice()
}

/// Whether each of these, told to a log one after the other, ends so, and it has so many events then.
fn notes(
    alloc: Global,
    steps: &[(Told, Result<(), NoteFault>)],
    count: usize,
) -> Result<bool, AllocError> {
    let mut log = new_log(alloc)?;
    for (told, want) in steps {
        if note(&mut log, *told) != *want {
            return Ok(false);
        }
    }
    Ok(has(&log, count))
}

#[test]
fn notes_what_may_follow_once(rt: HostRuntime) -> Result<(), Fail> {
    assert!(rt; notes(rt.alloc(), CALL_AND_CRASH, 3)? && notes(rt.alloc(), REPLY_AND_CLOSE, 4)?);
    Ok(())
}

#[test]
fn room_is_kept_for_closes(rt: HostRuntime) -> Result<(), Fail> {
    let log = new_log(rt.alloc())?;
    // The head takes 20 bytes, a record 12 more than its message, and a close 8.
    let most = 268_435_456 - (20 + 12 + 4_096 * 8);
    assert!(rt; log.has_room(most) && !log.has_room(most + 1));
    Ok(())
}

/// Notes an event, once more where a growth was refused, and says whether the log was left as it was then.
fn note_again(log: &mut TapLog, told: Told) -> Result<bool, NoteFault> {
    let count = log.events().len();
    let noted = note(log, told);
    if noted != Err(NoteFault::NoMemory) {
        noted?;
        return Ok(true);
    }
    let kept = log.events().len() == count;
    note(log, told)?;
    Ok(kept)
}

/// What is told at the n-th time: a call, its reply, a close and a crash on each of six lanes, and then a call on each of twenty.
fn told_at(number: u32) -> Told {
    let lane = number / 4;
    if number >= 24 {
        return Told::Call(number, CALL);
    }
    match number % 4 {
        0 => Told::Call(lane, CALL),
        1 => Told::Reply(lane, REPLY),
        2 => Told::Close(lane),
        _ => Told::Crash,
    }
}

/// Notes all of these, and says whether the log was left as it was at each refusal.
fn note_all(log: &mut TapLog) -> Result<bool, NoteFault> {
    let mut kept = true;
    for number in 0..44 {
        kept &= note_again(log, told_at(number))?;
    }
    Ok(kept)
}

// It passes as well where any one allocation is refused, as by `rt try --test --fail-alloc N`.
#[test]
fn a_refused_growth_leaves_the_log(rt: HostRuntime) -> Result<(), Fail> {
    let mut log = match new_log(rt.alloc()) {
        Ok(log) => log,
        Err(AllocError) => new_log(rt.alloc())?,
    };
    assert!(rt; note_all(&mut log)?);
    assert!(rt; log.events().len() == 44 && log.note_call(30, CALL) == Err(NoteFault::XidInUse));
    Ok(())
}
