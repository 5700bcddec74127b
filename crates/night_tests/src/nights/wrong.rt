//! Servers that misbehave, and what is told of them.

use super::{calls, run_new};
use crate::calls::clients_of;
use crate::server::{Answer, RIGHT, Server, manner_of};
use nfs_tap::NoteFault;
use nfs3_msgs::Kind;
use night_calls::Mix;
use night_clients::{ClientsRuntime, EraEnd, Night};
use night_lanes::{Trouble, TroubleKind};
use rpc_client::Refusal;
use rpc_reader::RpcFault;
use std::net::{TcpListener, TcpStream};

/// The troubles of a night, if there are so many: the first and the last.
fn troubles_in<R: ClientsRuntime>(
    rt: &R,
    night: &Night,
    count: usize,
) -> Option<(Trouble, Trouble)> {
    let troubles = night.troubles().lock(rt);
    if troubles.kept().len() != count || troubles.more() != 0 {
        return None;
    }
    Some((*troubles.kept().first()?, *troubles.kept().last()?))
}

/// The transaction number of a trouble, and its call.
type Place = (Option<u32>, Option<u32>);

/// A trouble of client 0.
fn trouble(lane: Option<u32>, place: Place, kind: TroubleKind) -> Trouble {
    Trouble {
        client: Some(0),
        lane,
        xid: place.0,
        call: place.1,
        kind,
    }
}

const NOWHERE: Place = (None, None);

/// The third call.
const CALL: Place = (Some(3), Some(2));

/// The header of a record of 2,097,153 bytes.
const LONG: Answer = Answer::Ends(b"\x80\x20\0\x01");

/// A status that is none of RFC 1813.
const BAD_STATUS: Answer = Answer::Words(&[1, 0, 0, 0, 0, 3]);

const NO_REPLY: TroubleKind = TroubleKind::NotRpc(RpcFault::NotReply);

const BAD_RESULT: TroubleKind = TroubleKind::BadResult(0, Kind::BadEnum);

/// How the third of five calls of a client is treated, the trouble of that, and how many calls are made in all.
const WRONG: [(Answer, Place, TroubleKind, u64); 7] = [
    (Answer::Silence, CALL, TroubleKind::NoReply, 3),
    (Answer::Ends(b""), CALL, TroubleKind::Ended, 3),
    (Answer::Twice, (Some(3), None), TroubleKind::SecondReply, 5),
    (
        Answer::Unasked,
        (Some(999), None),
        TroubleKind::UnknownReply,
        5,
    ),
    (LONG, NOWHERE, TroubleKind::RecordTooLong, 3),
    (Answer::Call, NOWHERE, NO_REPLY, 5),
    (BAD_STATUS, CALL, BAD_RESULT, 5),
];

/// The same of replies that refuse the call: five calls are made (RFC 5531, section 9).
const REFUSED: [(&[u32], TroubleKind); 3] = [
    (
        &[1, 0, 0, 0, 1],
        TroubleKind::Refused(Refusal::ProgramUnavailable),
    ),
    (&[1, 0, 0, 0, 5], TroubleKind::Refused(Refusal::SystemError)),
    (&[1, 1, 1, 5], TroubleKind::Refused(Refusal::AuthError(5))),
];

/// The one trouble of a night whose third call is treated so, and how many calls were made.
fn trouble_of<R: ClientsRuntime>(rt: &R, answer: Answer) -> Option<(Trouble, u64)> {
    let server = Server::new(rt, 1)?;
    let past = run_new(rt, &server, 1, calls(5), manner_of(answer, 3, 3))?;
    if past.end != EraEnd::Finished {
        return None;
    }
    let (trouble, _) = troubles_in(rt, &server.night, 1)?;
    Some((trouble, server.night.counts().lock(rt).calls()))
}

#[test]
fn each_trouble_is_told(rt: HostRuntime) {
    let _listener: Option<TcpListener> = None;
    let _stream: Option<TcpStream> = None;
    for (answer, place, kind, count) in WRONG {
        let wanted = trouble(Some(1), place, kind);
        assert!(rt; trouble_of(&rt, answer) == Some((wanted, count)));
    }
    for (words, kind) in REFUSED {
        let wanted = trouble(Some(1), CALL, kind);
        assert!(rt; trouble_of(&rt, Answer::Words(words)) == Some((wanted, 5)));
    }
}

/// The troubles of a night whose log has a close of lane 1 already, and how many calls the server was sent.
fn refused_by_the_log<R: ClientsRuntime>(rt: &R) -> Option<(Trouble, Trouble, usize)> {
    let server = Server::new(rt, 2)?;
    server.night.log().lock(rt).note_close(1).ok()?;
    let past = run_new(rt, &server, 1, calls(5), RIGHT)?;
    let sent = past.seen.first()?.calls.len();
    let (call, close) = troubles_in(rt, &server.night, 2)?;
    Some((call, close, sent))
}

/// The trouble of a night whose server doesn't listen.
fn no_connection<R: ClientsRuntime>(rt: &R) -> Option<Trouble> {
    let night = Server::new(rt, 2)?.into_night();
    let mut clients = clients_of(rt.alloc(), 7, Mix::Turns, 1).ok()?;
    if night.run_era(rt, clients.as_mut_slice(), calls(5)) != EraEnd::Finished {
        return None;
    }
    let (trouble, _) = troubles_in(rt, &night, 1)?;
    Some(trouble)
}

#[test]
fn what_is_not_sent_is_told(rt: HostRuntime) {
    let _listener: Option<TcpListener> = None;
    let _stream: Option<TcpStream> = None;
    let kind = TroubleKind::LogRefuses(NoteFault::LaneClosed);
    let call = trouble(Some(1), (Some(1), Some(0)), kind);
    let close = trouble(Some(1), NOWHERE, kind);
    assert!(rt; refused_by_the_log(&rt) == Some((call, close, 0)));
    let wanted = trouble(None, NOWHERE, TroubleKind::CannotConnect);
    assert!(rt; no_connection(&rt) == Some(wanted));
}
