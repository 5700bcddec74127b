//! The walk of an export over sockets, whose server may hinder it.

use super::{DENIED, LATE, is_tree};
use crate::server::{Answer, COMMON, Habits, Manner, SMALL, Server, begin, handle_of, manner_of};
use export_walk::{WalkEnd, WalkedExport, walk_export};
use nfs3_types::Procedure;
use night_clients::ClientsRuntime;
use night_start::Settings;
use rpc_client::Credential;
use rpc_reader::read_call;
use std::net::{TcpListener, TcpStream};
use std::thread;
use std::time::Duration;

const WHO: Credential = Credential { uid: 7, gid: 9 };

/// How the walk of a server of this manner ends, which has a second for each reply.
fn end_at<R: ClientsRuntime>(rt: &R, manner: Manner) -> Option<Result<WalkedExport, WalkEnd>> {
    let server = Server::new(rt, 1)?;
    let root = handle_of(rt.alloc(), 0).ok()?;
    let patience = Duration::from_secs(1);
    thread::scope(thread::scope_env(), rt, |scope| {
        let served = begin(scope, rt, &server, manner)?;
        let found = walk_export(rt, &server.address, root, WHO, Settings::COMMON, patience);
        drop(served.join(rt));
        Some(found)
    })
}

/// A server that gives handles with its lists or not, and treats the calls from the first to the last so.
fn listing(lists_handles: bool, answer: Answer, first: usize, last: usize) -> Manner {
    let habits = Habits {
        lists_handles,
        ..COMMON
    };
    Manner {
        objects: SMALL,
        habits,
        ..manner_of(answer, first, last)
    }
}

/// How many of the calls that are noted are of this procedure.
fn noted(walked: &WalkedExport, procedure: Procedure) -> usize {
    let mut count = 0usize;
    for exchange in walked.noted.as_slice() {
        match read_call(exchange.call.as_slice()) {
            Ok(head) if head.procedure == procedure.number() => count = count.saturating_add(1),
            _ => {}
        }
    }
    count
}

/// The transaction number of the first call that is noted, if the numbers rise from it on.
fn rises_from(walked: &WalkedExport) -> Option<u32> {
    let mut first = None;
    let mut last = 0u32;
    for exchange in walked.noted.as_slice() {
        let xid = read_call(exchange.call.as_slice()).ok()?.xid;
        if xid <= last {
            return None;
        }
        first = first.or(Some(xid));
        last = xid;
    }
    first
}

/// How many LOOKUPs, how many READDIRPLUSes and how many exchanges in all are noted of a walk that found the tree, how many calls were made, and the first
/// transaction number that is noted.
fn walked_at<R: ClientsRuntime>(
    rt: &R,
    manner: Manner,
) -> Option<((usize, usize, usize), u64, u32)> {
    let walked = end_at(rt, manner)?.ok()?;
    if !is_tree(&walked.start, SMALL) {
        return None;
    }
    let lookups = noted(&walked, Procedure::Lookup);
    let lists = noted(&walked, Procedure::ReadDirPlus);
    let first = rises_from(&walked)?;
    Some(((lookups, lists, walked.noted.len()), walked.calls, first))
}

/// Whether a server gives handles with its lists, up to which of its calls from the second on it needs more time, and what is noted of its walk:
/// GETATTR of the root, three lists, a READ, and GETATTR of the four objects, and three LOOKUPs if there are no handles. A server may take a call whose
/// number came before for that call once more, and answer as it did: so one that is made again has a number of its own.
const WALKED: [(bool, usize, ((usize, usize, usize), u64, u32)); 3] = [
    (true, 1, ((0, 3, 3), 9, 2)),
    (false, 1, ((3, 3, 6), 12, 2)),
    (true, 3, ((0, 3, 3), 9, 4)),
];

#[test]
fn trees_are_walked(rt: HostRuntime) {
    let _listener: Option<TcpListener> = None;
    let _stream: Option<TcpStream> = None;
    for (lists_handles, last, walked) in WALKED {
        let manner = listing(lists_handles, Answer::Status(10_008), 2, last);
        assert!(rt; walked_at(&rt, manner) == Some(walked));
    }
}

/// Whether a walk ends so.
fn is_told<R: ClientsRuntime>(rt: &R, manner: Manner, wanted: &str) -> bool {
    match end_at(rt, manner) {
        Some(Err(end)) => match end.to_string(rt.alloc()) {
            Ok(text) => text.as_str() == wanted,
            Err(_) => false,
        },
        _ => false,
    }
}

/// How the calls of a walk are treated from one on, and what is told then.
const TOLD: [(Answer, usize, &str); 9] = [
    (Answer::Status(10_008), 2, LATE),
    (
        Answer::Ends(b""),
        4,
        "NFS: the server ended the connection: look at its log",
    ),
    (
        Answer::Silence,
        3,
        "NFS: no reply came in time: look at the server's log, or wait longer for a reply",
    ),
    (
        Answer::Numbered(7_777),
        2,
        "NFS: the reply has the transaction number 7777, which wasn't asked: the server's reply is wrong",
    ),
    (
        Answer::Words(&[1, 1, 1, 5]),
        1,
        "AUTH_TOOWEAK: the server wants a port below 1024: allow ports above 1023 (`insecure` in /etc/exports, `PrivilegedPort = false` in nfs-ganesha)",
    ),
    (
        Answer::Words(&[1, 0, 0, 0, 1]),
        1,
        "the program at this port isn't NFS: say the port of nfsd by --port",
    ),
    (
        Answer::Words(&[1, 0, 0, 0, 2, 4, 4]),
        1,
        "the server doesn't serve NFS version 3, but versions 4 to 4: have it serve version 3",
    ),
    (
        Answer::Words(&[1, 0, 0, 0, 0, 3]),
        2,
        "a result isn't in the grammar of RFC 1813, at byte 0: a word is outside its list: the server's reply is wrong",
    ),
    (Answer::Status(13), 2, DENIED),
];

#[test]
fn hindered_walks_are_told(rt: HostRuntime) {
    let _listener: Option<TcpListener> = None;
    let _stream: Option<TcpStream> = None;
    for (answer, first, words) in TOLD {
        let manner = listing(true, answer, first, usize::MAX);
        assert!(rt; is_told(&rt, manner, words));
    }
}
