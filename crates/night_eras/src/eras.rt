//! The eras of a night.

use crate::orders::Orders;
use nfs_relay::Order;
use night_calls::Client;
use night_clients::{ClientsRuntime, Night, OldConnection, is_up_within};
use night_lanes::{Quota, TroubleKind};
use night_verdict::NightEnd;
use program_streams::Input;
use std::io::Eprint;
use std::net::SocketAddr;
use std::thread::{self, JoinHandle, Scope};
use std::time::{Duration, Instant};

/// How a night goes.
#[derive(Clone, Copy)]
pub struct ErasPlan {
    pub server: SocketAddr,
    /// How many crashes there are; there is one era more.
    pub rounds: u32,
    /// How many calls each client makes in an era.
    pub calls: u64,
    /// After how many seconds of an era no call is made, if that is limited.
    pub seconds: Option<u32>,
    /// How many seconds the server may take to come up after a crash.
    pub up_seconds: u32,
    /// Whether nothing is told on standard error.
    pub is_quiet: bool,
}

impl ErasPlan {
    /// How much each client calls in the era that begins now.
    fn quota<R: ClientsRuntime>(&self, rt: &R) -> Quota {
        let until = match (self.seconds, Instant::now(rt)) {
            (Some(seconds), Ok(now)) => now.checked_add(Duration::from_secs(u64::from(seconds))),
            _ => None,
        };
        Quota {
            calls: self.calls,
            until,
        }
    }

    fn tell<R: Eprint>(&self, rt: &R, crash: u32, what: &str) {
        if !self.is_quiet {
            let _ = eprintln!(rt; "crash {crash}: {what}");
        }
    }
}

/// How the eras of a night ended.
#[derive(Clone, Copy)]
pub struct ErasEnd {
    /// Whether each of them came about.
    pub end: NightEnd,
    /// How many objects and names that clients knew before the last crash they didn't look at behind it.
    pub unread: u64,
}

/// How many objects and names these clients still have to look at.
fn unread_by(clients: &[Client]) -> u64 {
    let mut count = 0u64;
    for client in clients {
        count = count.saturating_add(client.unread());
    }
    count
}

/// Has clients call in an era that has begun, and gives them back.
fn run_owned<R: ClientsRuntime>(
    rt: &R,
    night: &Night,
    clients: Vec<Client>,
    era: u64,
    quota: Quota,
) -> Vec<Client> {
    let mut clients = clients;
    night.run_begun(rt, clients.as_mut_slice(), era, quota);
    clients
}

/// Begins an era, whose clients call in a thread of its own. From then on a crash is one of this era.
fn begin_era<'s, E, R: ClientsRuntime>(
    scope: &Scope<'s, E>,
    rt: &'s R,
    night: &'s Night,
    clients: Vec<Client>,
    quota: Quota,
) -> Option<JoinHandle<Vec<Client>>> {
    let era = night.begin(rt, clients.len());
    scope
        .spawn(move || run_owned(rt, night, clients, era, quota))
        .ok()
}

/// Notes a crash. Where memory runs out it can't be noted, and what comes after it would be judged without it: so the night ends.
fn crash<R: ClientsRuntime>(rt: &R, night: &Night) -> Result<(), NightEnd> {
    match night.crash(rt) {
        Err(TroubleKind::NoMemory) => Err(NightEnd::NoMemory),
        _ => Ok(()),
    }
}

/// Has the clients call until the word of a crash comes, and notes it. Where another word comes, or none, they make their calls.
fn run_to_crash<R: ClientsRuntime, I: Input>(
    rt: &R,
    night: &Night,
    clients: Vec<Client>,
    quota: Quota,
    orders: &mut Orders,
    input: &mut I,
    number: u32,
) -> Result<Vec<Client>, NightEnd> {
    thread::scope(thread::scope_env(), rt, |scope| {
        let Some(era) = begin_era(scope, rt, night, clients, quota) else {
            return Err(NightEnd::NoThread);
        };
        let noted = match orders.await_order(rt, input, Order::Crash, number) {
            Ok(()) => crash(rt, night),
            Err(end) => Err(end),
        };
        let clients = era.join(rt);
        match noted {
            Ok(()) => Ok(clients),
            Err(end) => Err(end),
        }
    })
}

/// Waits for the word that the server was started again, sees whether it had been killed, and waits for it. One that was stopped answers on its
/// old connection when it goes on, so that is asked once more.
fn await_return<R: ClientsRuntime + Eprint, I: Input>(
    rt: &R,
    plan: &ErasPlan,
    orders: &mut Orders,
    input: &mut I,
    old: &mut OldConnection,
    crash: u32,
) -> Result<(), NightEnd> {
    plan.tell(rt, crash, "noted");
    orders.await_order(rt, input, Order::Up, crash)?;
    if old.is_answered(rt.alloc()) {
        return Err(NightEnd::NotDown(crash));
    }
    let limit = Duration::from_secs(u64::from(plan.up_seconds));
    if !is_up_within(rt, &plan.server, limit) {
        return Err(NightEnd::NotUp(crash, plan.up_seconds));
    }
    if old.is_answered(rt.alloc()) {
        return Err(NightEnd::NotDown(crash));
    }
    plan.tell(rt, crash, "the server is up");
    Ok(())
}

/// One era, the crash at its end, and the server's return.
fn run_round<R: ClientsRuntime + Eprint, I: Input>(
    rt: &R,
    night: &Night,
    clients: Vec<Client>,
    plan: &ErasPlan,
    orders: &mut Orders,
    input: &mut I,
    crash: u32,
) -> Result<Vec<Client>, NightEnd> {
    let mut old = OldConnection::open(rt, &plan.server);
    let quota = plan.quota(rt);
    let mut clients = run_to_crash(rt, night, clients, quota, orders, input, crash)?;
    await_return(rt, plan, orders, input, &mut old, crash)?;
    for client in clients.iter_mut() {
        client.new_era();
    }
    Ok(clients)
}

/// Has the clients of a night call over its crashes, and says how that ended.
pub fn run_eras<R: ClientsRuntime + Eprint, I: Input>(
    rt: &R,
    night: &Night,
    clients: Vec<Client>,
    plan: &ErasPlan,
    orders: &mut Orders,
    input: &mut I,
) -> ErasEnd {
    let mut clients = clients;
    for crash in 1..plan.rounds.saturating_add(1) {
        match run_round(rt, night, clients, plan, orders, input, crash) {
            Ok(same) => clients = same,
            Err(end) => return ErasEnd { end, unread: 0 },
        }
    }
    let era = night.begin(rt, clients.len());
    let clients = run_owned(rt, night, clients, era, plan.quota(rt));
    ErasEnd {
        end: orders.end_after(input, plan.rounds),
        unread: unread_by(clients.as_slice()),
    }
}
