//! Nights over sockets: clients call the little server, which answers, or doesn't.

mod crashes;
mod right;
mod wrong;

use crate::calls::clients_of;
use crate::server::{Manner, Seen, Server, begin};
use history_file::Event;
use night_calls::{Client, Mix};
use night_clients::{ClientsRuntime, EraEnd, Night};
use night_lanes::Quota;
use std::thread;

/// So many calls.
fn calls(count: u64) -> Quota {
    Quota {
        calls: count,
        until: None,
    }
}

/// What the connections of an era saw, and how the era ended.
#[derive(Drop)]
struct Past {
    end: EraEnd,
    seen: Vec<Seen>,
}

/// Runs an era, each of whose clients has a connection that is served in this manner.
fn run<R: ClientsRuntime>(
    rt: &R,
    server: &Server,
    clients: &mut [Client],
    quota: Quota,
    manner: Manner,
) -> Option<Past> {
    let manner = Manner {
        connections: clients.len(),
        ..manner
    };
    thread::scope(thread::scope_env(), rt, |scope| {
        let served = begin(scope, rt, server, manner)?;
        let end = server.night.run_era(rt, clients, quota);
        let seen = served.join(rt)?;
        Some(Past { end, seen })
    })
}

/// The same of so many new clients.
fn run_new<R: ClientsRuntime>(
    rt: &R,
    server: &Server,
    clients: u32,
    quota: Quota,
    manner: Manner,
) -> Option<Past> {
    let mut all = clients_of(rt.alloc(), 7, Mix::Turns, clients).ok()?;
    run(rt, server, all.as_mut_slice(), quota, manner)
}

/// Whether a lane's calls, or else its replies, are these messages, in order.
fn are_of_lane(events: &[Event], number: u32, are_calls: bool, messages: &[Vec<u8>]) -> bool {
    let mut place = 0usize;
    for event in events {
        let message = match event {
            Event::Call { lane, message } if *lane == number && are_calls => message,
            Event::Reply { lane, message } if *lane == number && !are_calls => message,
            _ => continue,
        };
        match messages.get(place) {
            Some(other) if other.as_slice() == message.as_slice() => {}
            _ => return false,
        }
        place = place.saturating_add(1);
    }
    place == messages.len()
}

/// Whether each connection saw what one of these lanes has, was sent each call after its note, and no reply was noted before its end.
fn are_noted<R: ClientsRuntime>(rt: &R, night: &Night, past: &Past, lanes: u32) -> bool {
    let log = night.log().lock(rt);
    for seen in past.seen.as_slice() {
        let mut is_lane = false;
        for number in 1..=lanes {
            is_lane = is_lane
                || are_of_lane(log.events(), number, true, seen.calls.as_slice())
                    && are_of_lane(log.events(), number, false, seen.replies.as_slice());
        }
        if !is_lane || !seen.is_in_order {
            return false;
        }
    }
    true
}

/// How many closes, and how many crashes, the log of a night holds.
fn ends<R: ClientsRuntime>(rt: &R, night: &Night) -> (usize, usize) {
    let log = night.log().lock(rt);
    let mut ends = (0usize, 0usize);
    for event in log.events() {
        match event {
            Event::Close { .. } => ends.0 = ends.0.saturating_add(1),
            Event::Crash => ends.1 = ends.1.saturating_add(1),
            _ => {}
        }
    }
    ends
}

/// Whether nothing hindered a night.
fn is_untroubled<R: ClientsRuntime>(rt: &R, night: &Night) -> bool {
    let troubles = night.troubles().lock(rt);
    troubles.kept().is_empty() && troubles.more() == 0
}
