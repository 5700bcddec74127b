//! A server that threads call at random, over crashes and a device that may fail. It has to explain what it did.

mod asking;
mod client;
mod gate;
mod known;

use crate::command::Command;
use crate::opening::{device_of, start_of};
use crate::random::Random;
use crate::servers::close_after;
use anyhow::{Context, Result, bail, ensure};
use asking::Asker;
use client::{Ran, run_client};
use gate::{Jitter, SoakServer};
use journal_server::{Closed, CrashFault, Pass, Profile, Server};
use known::Known;
use nfs_history::RecordedCall;
use std::alloc::Global;
use std::io::Write;
use std::sync::Wait;
use std::sync::atomic::{AtomicU64, Ordering};
use std::thread::{self, Threads};
use std::time::{Clock, Duration};
use witness_check::{Verdict, check};

/// How many clients call.
const CLIENTS: usize = 8;

/// How often there is a crash at most.
const CRASHES: u32 = 2000;

/// Of so many answered calls some overlapped. Where a device is lost early there may be fewer.
const MANY: u64 = 100;

/// What servers did: how many there were, how many of them began with objects, and were strict; calls that clients made, that are in
/// histories, and that were answered; crashes; and answered calls beside which another one began.
pub type Figures = [u64; 8];

/// What all threads of a server share.
#[derive(Drop)]
struct Shared<'k> {
    /// What each client begins with, but for its chance.
    asker: Asker<'k>,
    /// What chance begins with.
    seed: u64,
    /// How many clients are done.
    done: AtomicU64,
    /// How many calls they made.
    made: AtomicU64,
}

// Adds the passes of a thread, if nothing was wrong.
fn add_passes(all: &mut Vec<Pass>, ran: Ran) -> Result<()> {
    match ran {
        Ok(passes) => {
            for pass in passes {
                all.push(pass).context("memory ran out")?;
            }
        }
        Err(wrong) => bail!("{wrong}"),
    }
    Ok(())
}

impl<'k> Shared<'k> {
    // One client.
    fn run_client<R: Wait + Clock>(
        &self,
        rt: &R,
        server: &SoakServer<'_, R>,
        number: usize,
    ) -> Ran {
        let mut asker = self.asker;
        asker.random = Random::new(self.seed.wrapping_mul(16).wrapping_add(number as u64));
        let ran = run_client(rt, server, &mut asker);
        self.made.fetch_add(u64::from(asker.xid), Ordering::SeqCst);
        self.done.fetch_add(1, Ordering::SeqCst);
        ran
    }

    // Crashes until all clients are done.
    fn run_crashes<R: Wait + Clock>(&self, rt: &R, server: &SoakServer<'_, R>) -> Ran {
        let mut random = Random::new(self.seed);
        for _ in 0..CRASHES {
            if self.done.load(Ordering::SeqCst) >= CLIENTS as u64 {
                break;
            }
            thread::sleep(rt, Duration::from_millis(2 + random.below(6)));
            match server.crash(rt, random.below(4)) {
                Ok(()) => {}
                Err(CrashFault::NoMemory) => return Err("memory ran out at a crash"),
                Err(_) if self.asker.device_fails => {}
                Err(_) => return Err("a crash failed over a device that never fails"),
            }
        }
        Ok(Vec::new(self.asker.alloc))
    }

    // The passes of all threads.
    fn run<R: Wait + Clock + Threads + Sync>(
        &self,
        rt: &R,
        server: &SoakServer<'_, R>,
    ) -> Result<Vec<Pass>> {
        let threads = thread::map_indices(
            rt,
            self.asker.alloc,
            CLIENTS + 1,
            &|number| {
                if number < CLIENTS {
                    self.run_client(rt, server, number)
                } else {
                    self.run_crashes(rt, server)
                }
            },
        );
        let mut all = Vec::new(self.asker.alloc);
        for ran in threads.context("memory ran out")? {
            add_passes(&mut all, ran)?;
        }
        Ok(all)
    }
}

// How many calls were answered, and how many of them were still waiting for that when the next one began.
fn count_answers(calls: &[RecordedCall]) -> (u64, u64) {
    let (mut answered, mut overlapped) = (0u64, 0u64);
    for (index, call) in calls.iter().enumerate() {
        let Some(end) = call.end else {
            continue;
        };
        answered = answered.saturating_add(1);
        if let Some(next) = calls.get(index.wrapping_add(1)) {
            if next.begin < end && next.lane != call.lane {
                overlapped = overlapped.saturating_add(1);
            }
        }
    }
    (answered, overlapped)
}

// What a server did that explained it, to which so many calls were made.
fn judge(alloc: Global, closed: &Closed, made: u64) -> Result<Figures> {
    let history = &closed.history;
    if let Verdict::No(fault) = check(alloc, history, &closed.certificate)? {
        bail!("the certificate is no witness: {fault}");
    }
    let calls = history.recorded_calls();
    let (answered, overlapped) = count_answers(calls);
    ensure!(overlapped > 0 || answered < MANY, "no calls overlapped");
    Ok([
        1,
        !history.start().objects().is_empty() as u64,
        (history.profile() == Profile::Strict) as u64,
        made,
        calls.len() as u64,
        answered,
        history.eras().saturating_sub(1),
        overlapped,
    ])
}

// Lets clients call the server that a command makes on threads, over crashes.
fn live<R: Wait + Clock + Threads + Sync>(
    rt: &R,
    alloc: Global,
    command: Command<'_>,
) -> Result<Figures> {
    let [append, barrier, recover, seed] = command.numbers;
    let (profile, start) = start_of(alloc, command)?;
    let known = Known::new(alloc, start.objects())?;
    let shared = Shared {
        asker: Asker {
            alloc,
            known: &known,
            random: Random::new(seed),
            xid: 0,
            device_fails: append > 0 || barrier > 0 || recover > 0,
        },
        seed,
        done: AtomicU64::new(0),
        made: AtomicU64::new(0),
    };
    // Two in five don't listen.
    let gate = Jitter::new(rt, seed % 5 < 3);
    let server = Server::new_from(alloc, gate, device_of(alloc, command), profile, start)?;
    let passes = shared.run(rt, &server);
    let closed = close_after(alloc, server, passes)?;
    judge(alloc, &closed, shared.made.load(Ordering::SeqCst))
}

/// Lets clients call the server that a command makes, counts what it did, and prints `ok`, if it explained that.
pub fn run_soak<R: Wait + Clock + Threads + Sync, W: Write>(
    rt: &R,
    alloc: Global,
    output: &mut W,
    figures: &mut Figures,
    command: Command<'_>,
) -> Result<()> {
    let more = live(rt, alloc, command)?;
    for (figure, one) in figures.iter_mut().zip(more) {
        *figure = figure.saturating_add(one);
    }
    Ok(writeln!(output, "ok")?)
}

/// Prints what all servers did.
pub fn print_figures<W: Write>(output: &mut W, figures: Figures) -> Result<()> {
    for figure in figures {
        write!(output, "{figure} ")?;
    }
    Ok(writeln!(output)?)
}
