//! Workers over a history's calls, and sweeps over them.

ghost use Rattle.std.specs.Prelude.{◌≤◌};
ghost use Rattle.std.specs.Thread.{IsSync};
ghost use Rattle.seen_states.specs.Handles.{IsOf};

use crate::board::{Board, Branch};
use crate::gate::SearchGate;
use crate::telling::PassTeller;
use crate::ways::Ways;
use crate::worker::{Seat, Team, work};
use certificate::Certificate;
use crossbeam_deque::{Stealer, Worker};
use nfs_history::KnownCalls;
use search_problem::Problem;
use search_sweeps::plan_of;
use seen_states::{Claimer, SeenTable};
use std::alloc::{AllocError, Global};
use std::sync::Wait;
use std::thread::{Threads, join};
use std::time::Clock;

/// The table of seen states has at least 2^16 words, and at most 2^22.
const FEWEST_BITS: u32 = 16;

const MOST_BITS: u32 = 22;

/// How many branches a worker's own list has room for at first.
const FIRST_ROOM: usize = 256;

/// What a search needs of the runtime.
pub trait SearchRuntime: Threads + Wait + Clock + AllocGlobal + Sync {}

impl<R> SearchRuntime for R
where
    R: Threads + Wait + Clock + AllocGlobal + Sync,
{}

/// The seats of so many workers, and for each worker what others steal its branches by.
#[derive(Drop)]
struct Seats {
    seats: Vec<Seat>,
    stealers: Vec<Stealer<Branch>>,
}

impl Seats {
    /// For so many workers, of which the last has the first branch.
    fn new(alloc: Global, workers: u32) -> Result<Seats, AllocError> {
        let mut seats = Vec::new(alloc);
        let mut stealers = Vec::new(alloc);
        for number in 0..workers {
            let own = Worker::new_lifo(alloc, FIRST_ROOM)?;
            stealers.push(own.stealer()?)?;
            seats.push(Seat::new(number, own))?;
        }
        if let Some(seat) = seats.last_mut() {
            if seat.own.push(Branch::FIRST).is_err() {
                return Err(AllocError);
            }
        }
        Ok(Seats { seats, stealers })
    }
}

/// Has the last seat's worker and so many more work, each in a thread of its own.
fn work_all<R: Threads + Wait + Clock + Sync, G: SearchGate + Sync>(
    rt: &R,
    team: &Team<'_, '_, G>,
    table: &SeenTable,
    claimer: Claimer,
    seats: Vec<Seat>,
    more: u32,
)
    requires { IsOf claimer table.now }
{
    let mut seats = seats;
    let Some(seat) = seats.pop() else {
        return;
    };
    if more == 0 {
        work(rt, team, table, claimer, seat);
        return;
    }
    let fewer = more - 1;
    let mut claimer = claimer;
    let other = table.split(&mut claimer);
    join(
        rt,
        move ||
            requires { IsSync R.row × IsSync G.row × IsOf claimer table.now }
        { work(rt, team, table, claimer, seat) },
        move ||
            requires { IsSync R.row × IsSync G.row × IsOf other table.now }
        { work_all(rt, team, table, other, seats, fewer) },
    );
}

/// What workers lacked that found nothing.
#[derive(Clone, Copy)]
pub enum Lack {
    /// Branches: nothing more was left to try.
    Branches,
    /// Turns: one of them took as many branches as it may, and some were left then.
    Turns,
    /// Memory: a growth was refused.
    Memory,
}

/// What the workers came to: the plan that they found, and what they lacked else.
fn outcome_of<R: Wait>(rt: &R, board: &Board) -> (Option<Certificate>, Lack) {
    let found = board.take_found(rt);
    if board.lacked_memory() {
        return (found, Lack::Memory);
    }
    if board.left_branches() {
        return (found, Lack::Turns);
    }
    (found, Lack::Branches)
}

/// Of how many bits the number of a table's words is that has room for twice so many states.
fn bits_for(states: u64) -> u32
    ensures { result ≤ MOST_BITS }
{
    65u32
        .saturating_sub(states.leading_zeros())
        .max(FEWEST_BITS)
        .min(MOST_BITS)
}

/// Has so many workers search by branches, each of which takes so many at most, and gives the plan that they found, which nobody has
/// judged yet, and what they lacked else. A worker works in a thread of its own, or on the caller's where none can be made. Without a
/// worker nothing is tried.
pub fn run_workers<R: SearchRuntime, G: SearchGate + Sync>(
    rt: &R,
    known: &KnownCalls<'_>,
    workers: u32,
    turns: u64,
    gate: &G,
) -> Result<(Option<Certificate>, Lack), AllocError> {
    let alloc = rt.alloc();
    let problem = Problem::new(alloc, known)?;
    let Seats { seats, stealers } = Seats::new(alloc, workers)?;
    let bits = bits_for(turns.saturating_mul(u64::from(workers)));
    let (table, claimer) = SeenTable::new(alloc, bits)?;
    let board = Board::new();
    let ways = Ways::new(alloc, workers)?;
    let team = Team {
        alloc,
        problem: &problem,
        board: &board,
        ways: &ways,
        stealers: stealers.as_slice(),
        gate,
        turns,
        room: (1u64 << bits) / 4 * 3,
    };
    work_all(rt, &team, &table, claimer, seats, workers.saturating_sub(1));
    Ok(outcome_of(rt, &board))
}

/// The plan that at most so many sweeps over the history come to. Nobody has judged it yet.
pub fn sweep_over_calls<R: SearchRuntime, G: SearchGate>(
    rt: &R,
    known: &KnownCalls<'_>,
    turns: u64,
    gate: &G,
) -> Result<Option<Certificate>, AllocError> {
    let alloc = rt.alloc();
    let problem = Problem::new(alloc, known)?;
    let mut teller = PassTeller::new(rt, gate, known.count());
    plan_of(alloc, &problem, turns, &mut teller)
}
