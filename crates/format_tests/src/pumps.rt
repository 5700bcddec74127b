//! How pumps end, and what they have noted and written by then.

use crate::log::new_log;
use crate::streams::Then::{End, Fault, Zeros};
use crate::streams::{
    Broken, CALL, CALL_FRAME, Fragments, LONG_FRAME, PART_FRAME, REPLY_FRAME, Stream, Then,
};
use nfs_history::Event;
use nfs_tap::{NoteFault, PumpEnd, TapLog, pump_calls, pump_replies};
use std::alloc::{AllocError, Global};
use std::sync::{Mutex, Wait};
use std::test::Fail;

/// How many events are noted.
fn noted(rt: &impl Wait, log: &Mutex<TapLog>) -> usize {
    log.lock(rt).events().len()
}

/// Whether a pump of calls from a stream ends so, with so many events noted and these bytes written.
fn ends(
    rt: &impl Wait,
    alloc: Global,
    log: TapLog,
    mut stream: Stream<'_>,
    (want, events): (PumpEnd, usize),
    written: &[u8],
) -> bool {
    let log = Mutex::new(log);
    let mut out = Vec::new(alloc);
    let end = pump_calls(rt, alloc, &mut stream, &mut out, 2_000_000, &log);
    end == want && out.as_slice() == written && noted(rt, &log) == events
}

/// After so many interrupted reads, fragments come that end no record: the reads of both kinds are 1,000,000 together.
#[test]
fn a_pump_reads_a_million_times(rt: HostRuntime) -> Result<(), Fail> {
    for interrupted in [0, 400_000, 1_000_000] {
        let log = Mutex::new(new_log(rt.alloc())?);
        let mut stream = Fragments {
            interrupted,
            reads: 0,
        };
        let mut out = Vec::new(rt.alloc());
        let end = pump_calls(&rt, rt.alloc(), &mut stream, &mut out, 1, &log);
        assert!(rt; end == PumpEnd::Bound && stream.reads == 1_000_000);
    }
    Ok(())
}

const BAD_RPC: PumpEnd = PumpEnd::LogFault(NoteFault::BadRpc);

/// What a client sends, at most so many bytes at a time, and then does; how a pump of it ends with how many events, and what is written by then.
const PUMPED: &[(&[u8], usize, Then, PumpEnd, usize, &[u8])] = &[
    (CALL_FRAME, 4096, End, PumpEnd::End, 1, CALL_FRAME),
    (CALL_FRAME, 1, End, PumpEnd::End, 1, CALL_FRAME),
    // No call, and a part of a record.
    (REPLY_FRAME, 4096, End, BAD_RPC, 0, b""),
    (PART_FRAME, 4096, End, PumpEnd::End, 0, b""),
    (b"", 4096, Zeros, PumpEnd::Bound, 0, b""),
    (CALL_FRAME, 4096, Fault, PumpEnd::ReadFault, 1, CALL_FRAME),
    // A record that is too long after one that isn't.
    (LONG_FRAME, 4096, End, PumpEnd::RecordTooLong, 1, CALL_FRAME),
];

#[test]
fn what_is_noted_is_forwarded(rt: HostRuntime) -> Result<(), Fail> {
    for (bytes, most, then, end, events, written) in PUMPED {
        let log = new_log(rt.alloc())?;
        let stream = Stream(bytes, *most, *then);
        assert!(rt; ends(&rt, rt.alloc(), log, stream, (*end, *events), written));
    }
    Ok(())
}

/// The record of the call with zeros after it, of so many bytes.
fn long_frame(alloc: Global, length: u32) -> Result<Vec<u8>, AllocError> {
    let mut frame = Vec::new(alloc);
    let mark = length | 0x8000_0000;
    frame.extend_from_slice(mark.to_be_bytes().as_slice())?;
    frame.extend_from_slice(CALL)?;
    frame.resize(length as usize + 4, 0)?;
    Ok(frame)
}

/// Whether a pump notes and writes all of such a record, which comes in pieces of so many bytes.
fn is_pumped(
    rt: &impl Wait,
    alloc: Global,
    length: u32,
    at_once: usize,
) -> Result<bool, AllocError> {
    let frame = long_frame(alloc, length)?;
    let stream = Stream(frame.as_slice(), at_once, End);
    let log = new_log(alloc)?;
    Ok(ends(rt, alloc, log, stream, (PumpEnd::End, 1), frame.as_slice()))
}

/// A record of nearly two megabytes, and one in forty thousand pieces.
#[test]
fn long_records_are_forwarded(rt: HostRuntime) -> Result<(), Fail> {
    assert!(rt; is_pumped(&rt, rt.alloc(), 2_097_148, 65_536)?);
    assert!(rt; is_pumped(&rt, rt.alloc(), 40_000, 1)?);
    Ok(())
}

#[test]
fn a_record_of_a_failed_write_is_noted(rt: HostRuntime) -> Result<(), Fail> {
    let log = Mutex::new(new_log(rt.alloc())?);
    let mut frame = CALL_FRAME;
    let end = pump_calls(&rt, rt.alloc(), &mut frame, &mut Broken, 1, &log);
    assert!(rt; end == PumpEnd::WriteFault && noted(&rt, &log) == 1);
    Ok(())
}

/// Whether the last event is a reply on lane 1.
fn ends_with_a_reply(rt: &impl Wait, log: &Mutex<TapLog>) -> bool {
    matches!(
        log.lock(rt).events().last(),
        Some(Event::Reply { lane: 1, .. })
    )
}

/// Whether a reply to the call is forwarded, and noted as one.
fn is_replied(rt: &impl Wait, alloc: Global) -> Result<bool, NoteFault> {
    let mut log = new_log(alloc)?;
    log.note_call(1, CALL)?;
    let log = Mutex::new(log);
    let mut frame = REPLY_FRAME;
    let mut out = Vec::new(alloc);
    let end = pump_replies(rt, alloc, &mut frame, &mut out, 1, &log);
    Ok(end == PumpEnd::End && out.as_slice() == REPLY_FRAME && ends_with_a_reply(rt, &log))
}

#[test]
fn a_reply_is_noted_as_one(rt: HostRuntime) -> Result<(), Fail> {
    assert!(rt; is_replied(&rt, rt.alloc())?);
    Ok(())
}

/// A log with no room for a call: so many closes leave none.
fn full_log(alloc: Global) -> Result<TapLog, NoteFault> {
    let mut log = new_log(alloc)?;
    for lane in 0..995_904 {
        log.note_close(lane)?;
    }
    Ok(log)
}

#[test]
fn a_full_log_ends_a_pump(rt: HostRuntime) -> Result<(), Fail> {
    let log = full_log(rt.alloc())?;
    let stream = Stream(CALL_FRAME, 4096, End);
    let want = (PumpEnd::LogFull, 995_904);
    assert!(rt; ends(&rt, rt.alloc(), log, stream, want, b""));
    Ok(())
}
