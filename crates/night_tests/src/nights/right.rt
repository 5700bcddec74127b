//! Right servers.

use super::{are_noted, calls, ends, is_untroubled, run_new};
use crate::server::{Answer, Manner, RIGHT, Server, begin, manner_of};
use nfs3_types::{Failure, Procedure};
use night_clients::{ClientsRuntime, EraEnd, Night, is_up_within};
use night_lanes::Quota;
use std::net::{TcpListener, TcpStream};
use std::thread;
use std::time::{Duration, Instant};

/// How many calls of a night were made, and how many were answered.
fn counts_of<R: ClientsRuntime>(rt: &R, night: &Night) -> (u64, u64) {
    let counts = night.counts().lock(rt);
    (counts.calls(), counts.replies())
}

/// Whether so many clients, of this depth, make so many calls each at a server of this manner, which is right.
fn is_right<R: ClientsRuntime>(
    rt: &R,
    clients: u32,
    depth: u32,
    each: u64,
    manner: Manner,
) -> Option<bool> {
    let server = Server::new(rt, depth)?;
    let past = run_new(rt, &server, clients, calls(each), manner)?;
    let all = each.saturating_mul(u64::from(clients));
    Some(
        past.end == EraEnd::Finished
            && counts_of(rt, &server.night) == (all, all)
            && is_untroubled(rt, &server.night)
            && are_noted(rt, &server.night, &past, clients)
            && ends(rt, &server.night) == (clients as usize, 0),
    )
}

/// How many clients of which depth make how many calls each, and how the server treats which of these.
const NIGHTS: [(u32, u32, u64, Answer, usize, usize); 4] = [
    (4, 1, 60, Answer::Right, 1, 60),
    (4, 8, 60, Answer::Right, 1, 60),
    (2, 8, 64, Answer::Hold(8), 1, 1_000),
    (1, 1, 10, Answer::InPieces, 3, 6),
];

#[test]
fn all_calls_are_answered(rt: HostRuntime) {
    let _listener: Option<TcpListener> = None;
    let _stream: Option<TcpStream> = None;
    for (clients, depth, each, answer, first, last) in NIGHTS {
        let manner = manner_of(answer, first, last);
        assert!(rt; is_right(&rt, clients, depth, each, manner) == Some(true));
    }
}

/// How many calls a client makes in a fifth of a second, if nothing hinders it.
fn calls_in_time<R: ClientsRuntime>(rt: &R) -> Option<u64> {
    let server = Server::new(rt, 2)?;
    let until = Instant::now(rt)
        .ok()?
        .checked_add(Duration::from_millis(200))?;
    let quota = Quota {
        calls: u64::MAX,
        until: Some(until),
    };
    let past = run_new(rt, &server, 1, quota, RIGHT)?;
    let (calls, replies) = counts_of(rt, &server.night);
    if past.end == EraEnd::Finished && replies == calls && is_untroubled(rt, &server.night) {
        Some(calls)
    } else {
        None
    }
}

/// How many replies say that the user may not do it, how many are failures of that status, and how many successes and failures there are in all, if the
/// second of five calls is answered NFS3ERR_ACCES.
fn denied<R: ClientsRuntime>(rt: &R) -> Option<(u64, u64, u64)> {
    let server = Server::new(rt, 1)?;
    let past = run_new(
        rt,
        &server,
        1,
        calls(5),
        manner_of(Answer::Status(13), 2, 2),
    )?;
    if past.end != EraEnd::Finished {
        return None;
    }
    let counts = server.night.counts().lock(rt);
    let (mut access, mut all) = (0u64, 0u64);
    for number in 0..22 {
        let of = counts.of(Procedure::from_number(number)?)?;
        access = access.saturating_add(of.count_of(Failure::Access));
        all = all.saturating_add(of.done);
        for known in of.failed.as_slice() {
            all = all.saturating_add(known.count);
        }
    }
    Some((counts.denied(), access, all))
}

#[test]
fn calls_are_counted(rt: HostRuntime) {
    let _listener: Option<TcpListener> = None;
    let _stream: Option<TcpStream> = None;
    assert!(rt; calls_in_time(&rt).unwrap_or(0) > 0);
    assert!(rt; denied(&rt) == Some((1, 1, 5)));
}

/// Whether a server is found to be up, and found not to be once it listens no more.
fn comes_up<R: ClientsRuntime>(rt: &R) -> Option<(bool, bool)> {
    let server = Server::new(rt, 1)?;
    let address = server.address;
    let is_up = thread::scope(thread::scope_env(), rt, |scope| {
        let served = begin(scope, rt, &server, RIGHT)?;
        let is_up = is_up_within(rt, &address, Duration::from_secs(5));
        drop(served.join(rt));
        Some(is_up)
    })?;
    drop(server);
    Some((is_up, is_up_within(rt, &address, Duration::from_millis(50))))
}

#[test]
fn a_server_comes_up(rt: HostRuntime) {
    let _listener: Option<TcpListener> = None;
    let _stream: Option<TcpStream> = None;
    assert!(rt; comes_up(&rt) == Some((true, false)));
}
