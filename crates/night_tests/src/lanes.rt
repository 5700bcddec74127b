//! What no clause says: that a call goes out and its reply comes in, what is counted, and the words of a trouble.

use crate::server::handle_of;
use nfs_tap::TapLog;
use nfs3_types::{Answer, Failure, NfsCall, NfsReply, Procedure};
use night_lanes::{
    Arrival, Counts, Lane, OpenCall, Quota, Trouble, TroubleKind, hear, note_heard, receive,
};
use rpc_client::{Credential, Refusal};
use std::alloc::{AllocError, Global};
use std::test::Fail;

/// Has a GETATTR of the root noted and sent on a lane. How many bytes were sent.
fn ask(alloc: Global, log: &mut TapLog, lane: &mut Lane) -> Option<usize> {
    let call = NfsCall::GetAttr(handle_of(alloc, 0).ok()?);
    let xid = lane.pending.next_xid().ok()??;
    let who = Credential { uid: 7, gid: 9 };
    lane.put_call(log, xid, who, &call).ok()?;
    let opened = OpenCall {
        xid,
        number: 0,
        call,
        since: 0,
    };
    lane.pending.open(opened).ok()?;
    let mut sent = Vec::new(alloc);
    lane.outgoing.send(&mut sent).ok()?;
    Some(sent.len())
}

/// What is told where a GETATTR is answered so, and how many events are noted.
fn hears(alloc: Global, mut stream: &[u8]) -> Option<(Option<Trouble>, usize)> {
    let mut log = TapLog::new(alloc, handle_of(alloc, 0).ok()?);
    let quota = Quota {
        calls: 1,
        until: None,
    };
    let mut lane = Lane::new(alloc, 1, 0, 5, quota).ok()?;
    if ask(alloc, &mut log, &mut lane)? != 80 {
        return None;
    }
    let mut buffer = [0u8; 64];
    if !matches!(
        receive(&mut stream, &mut buffer, &mut lane.feed),
        Arrival::Piece
    ) {
        return None;
    }
    let record = lane.feed.take()?;
    let heard = hear(alloc, &lane.pending, record.as_slice()).ok()?;
    note_heard(&mut log, lane.number, &heard, record.as_slice()).ok()?;
    Some((lane.trouble_in(&heard), log.events().len()))
}

/// NFS3ERR_STALE, as a reply to this transaction number (RFC 5531, section 9, and RFC 1813, section 2.6).
const STALE: &[u8] = b"\x80\0\0\x1c\0\0\0\x01\0\0\0\x01\0\0\0\0\0\0\0\0\0\0\0\0\0\0\0\0\0\0\0\x46";

/// The same to transaction number 999.
const STRAY: &[u8] =
    b"\x80\0\0\x1c\0\0\x03\xe7\0\0\0\x01\0\0\0\0\0\0\0\0\0\0\0\0\0\0\0\0\0\0\0\x46";

#[test]
fn a_call_and_its_reply(rt: HostRuntime) {
    let alloc = rt.alloc();
    let stray = Trouble {
        client: Some(5),
        lane: Some(1),
        xid: Some(999),
        call: None,
        kind: TroubleKind::UnknownReply,
    };
    assert!(rt; hears(alloc, STALE) == Some((None, 2)));
    assert!(rt; hears(alloc, STRAY) == Some((Some(stray), 1)));
}

/// Calls, replies, denials and too weak credentials, where one of two GETATTR is answered NFS3ERR_ACCES, the other refused.
fn counted(alloc: Global) -> Result<(u64, u64, u64, u64), AllocError> {
    let mut lane = Counts::new(alloc)?;
    lane.count_call(Procedure::GetAttr);
    lane.count_call(Procedure::GetAttr);
    lane.count_reply(Procedure::GetAttr);
    lane.count_reply(Procedure::GetAttr);
    lane.count_result(&NfsReply::GetAttr(Answer::Failed(Failure::Access, ())))?;
    lane.count_refusal(Refusal::AuthError(5));
    let mut all = Counts::new(alloc)?;
    all.add(&lane)?;
    Ok((all.calls(), all.replies(), all.denied(), all.too_weak()))
}

#[test]
fn calls_are_counted_and_troubles_have_words(rt: HostRuntime) -> Result<(), Fail> {
    let trouble = Trouble {
        client: Some(5),
        lane: Some(1),
        xid: Some(3),
        call: Some(2),
        kind: TroubleKind::Refused(Refusal::AuthError(5)),
    };
    let words =
        "client 5: lane 1: transaction 3: call 2: RPC refused the call: AUTH_ERROR, reason 5";
    assert!(rt; trouble.to_string(rt.alloc())?.as_str() == words);
    assert!(rt; counted(rt.alloc()) == Ok((2, 2, 1, 1)));
    Ok(())
}
