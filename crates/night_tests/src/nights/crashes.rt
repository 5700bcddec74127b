//! Crashes of the server, what its clients do after them, and the orders between the eras.

use super::{are_noted, calls, ends, is_untroubled, run};
use crate::calls::clients_of;
use crate::server::{Answer, Manner, RIGHT, Server, begin, manner_of, wake};
use history_file::Event;
use night_calls::Mix;
use night_clients::{ClientsRuntime, EraEnd, Night};
use night_eras::night_verdict::NightEnd;
use night_eras::{ErasPlan, Orders, run_eras};
use std::io::Eprint;
use std::net::{SocketAddr, TcpListener, TcpStream};
use std::thread;

/// The lowest and the highest lane of some events, of which there may be none.
type Lanes = (u32, u32);

/// With the lane of one more event.
fn with(lanes: Lanes, lane: u32) -> Lanes {
    (lanes.0.min(lane), lanes.1.max(lane))
}

/// The lanes of the events before the last crash, and of those after it.
fn lanes_around<R: ClientsRuntime>(rt: &R, night: &Night) -> (Lanes, Lanes) {
    let (mut before, mut after) = ((u32::MAX, 0), (u32::MAX, 0));
    let log = night.log().lock(rt);
    for event in log.events() {
        match event {
            Event::Call { lane, .. } => after = with(after, *lane),
            Event::Reply { lane, .. } => after = with(after, *lane),
            Event::Close { lane } => after = with(after, *lane),
            Event::Crash => {
                before = after;
                after = (u32::MAX, 0);
            }
        }
    }
    (before, after)
}

/// Whether two clients go through a crash, and call on, on other lanes. The server ends both connections at their tenth call, and dies then.
fn goes_on<R: ClientsRuntime>(rt: &R) -> Option<bool> {
    let server = Server::new(rt, 4)?;
    let mut clients = clients_of(rt.alloc(), 7, Mix::Turns, 2).ok()?;
    let dying = Manner {
        dies: true,
        ..manner_of(Answer::Ends(b""), 10, 10)
    };
    let first = run(rt, &server, clients.as_mut_slice(), calls(1_000_000), dying)?;
    for client in clients.iter_mut() {
        client.new_era();
    }
    let past = run(rt, &server, clients.as_mut_slice(), calls(20), RIGHT)?;
    Some(
        first.end == EraEnd::Crashed
            && past.end == EraEnd::Finished
            && is_untroubled(rt, &server.night)
            && are_noted(rt, &server.night, &past, 4)
            && ends(rt, &server.night) == (4, 1)
            && lanes_around(rt, &server.night) == ((1, 2), (3, 4)),
    )
}

/// Whether a crash between two eras is noted.
fn crashes_between<R: ClientsRuntime>(rt: &R) -> Option<bool> {
    let server = Server::new(rt, 1)?;
    let mut clients = clients_of(rt.alloc(), 7, Mix::Turns, 1).ok()?;
    let first = run(rt, &server, clients.as_mut_slice(), calls(3), RIGHT)?;
    let _ = server.night.crash(rt);
    let second = run(rt, &server, clients.as_mut_slice(), calls(3), RIGHT)?;
    Some(
        first.end == EraEnd::Finished
            && second.end == EraEnd::Finished
            && ends(rt, &server.night) == (2, 1)
            && lanes_around(rt, &server.night) == ((1, 1), (2, 2)),
    )
}

#[test]
fn clients_go_on_after_a_crash(rt: HostRuntime) {
    let _listener: Option<TcpListener> = None;
    let _stream: Option<TcpStream> = None;
    assert!(rt; goes_on(&rt) == Some(true));
    assert!(rt; crashes_between(&rt) == Some(true));
}

/// One crash, with an era of three calls before and after it.
fn plan_at(server: SocketAddr) -> ErasPlan {
    ErasPlan {
        server,
        rounds: 1,
        calls: 3,
        seconds: None,
        up_seconds: 1,
        is_quiet: true,
    }
}

const REFUSES: Answer = Answer::Refuses;

/// PROC_UNAVAIL (RFC 5531, section 9), to NULL too.
const REFUSES_NULL: Answer = Answer::Words(&[1, 0, 0, 0, 3]);

/// What these orders come to at a server. More may come later if there is none.
fn run_by_orders<R: ClientsRuntime + Eprint>(
    rt: &R,
    server: &Server,
    told: &[u8],
) -> Option<NightEnd> {
    let clients = clients_of(rt.alloc(), 7, Mix::Turns, 1).ok()?;
    let mut orders = Orders::new(rt.alloc(), told.is_empty(), Some(1)).ok()?;
    let mut input = told;
    let plan = plan_at(server.address);
    Some(run_eras(rt, &server.night, clients, &plan, &mut orders, &mut input).end)
}

/// How a night with these orders ends at a server that answers each call so, and ends its first connection at once or not, and how many crashes are noted
/// then.
fn ended<R: ClientsRuntime + Eprint>(
    rt: &R,
    told: &[u8],
    answer: Answer,
    drops_first: bool,
) -> Option<(NightEnd, usize)> {
    let server = Server::new(rt, 1)?;
    let manner = Manner {
        connections: usize::MAX,
        drops_first,
        ..manner_of(answer, 1, usize::MAX)
    };
    thread::scope(thread::scope_env(), rt, |scope| {
        let served = begin(scope, rt, &server, manner)?;
        let end = run_by_orders(rt, &server, told);
        wake(rt, &server);
        drop(served.join(rt));
        Some((end?, ends(rt, &server.night).1))
    })
}

/// The orders that are told, how the server answers, whether it ends its first connection as if it went down after it, how the night ends, and how many
/// crashes are noted then.
const ORDERED: [(&[u8], Answer, bool, NightEnd, usize); 8] = [
    (b"crash\nup\n", REFUSES, true, NightEnd::Whole, 1),
    (b"crash\n", REFUSES, true, NightEnd::OrdersEnded(1), 1),
    (b"crash", REFUSES, true, NightEnd::OrdersEnded(1), 0),
    (b"up\n", REFUSES, true, NightEnd::OtherOrder(1), 0),
    (
        b"crash\nup\ncrash\n",
        REFUSES,
        true,
        NightEnd::MoreOrders(1),
        1,
    ),
    (b"", REFUSES, true, NightEnd::NoOrder(1, 1), 0),
    (b"crash\nup\n", REFUSES_NULL, true, NightEnd::NotUp(1, 1), 1),
    (b"crash\nup\n", REFUSES, false, NightEnd::NotDown(1), 1),
];

#[test]
fn orders_come_to_an_end(rt: HostRuntime) {
    // The prover knows the types that a function names.
    let _listener: Option<TcpListener> = None;
    let _stream: Option<TcpStream> = None;
    for (told, answer, drops_first, end, crashes) in ORDERED {
        assert!(rt; ended(&rt, told, answer, drops_first) == Some((end, crashes)));
    }
}
