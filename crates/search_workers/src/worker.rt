//! A worker: it takes branches, one by one.

ghost use Rattle.seen_states.specs.Handles.{IsOf};

use crate::board::{Board, Branch, Tally};
use crate::gate::SearchGate;
use crate::watch::Watch;
use crate::ways::Ways;
use crossbeam_deque::{Steal, Stealer, Worker};
use search_branches::State;
use search_problem::{Move, Problem};
use seen_states::{Claim, Claimer, SeenTable};
use std::alloc::{AllocError, Global};
use std::sync::Wait;
use std::thread;
use std::time::{Clock, Duration};
use witness_check::{Verdict, check_calls};

/// What all workers of a search use.
#[derive(Drop)]
pub(crate) struct Team<'s, 'a, G> {
    pub(crate) alloc: Global,
    pub(crate) problem: &'s Problem<'s, 'a>,
    pub(crate) board: &'s Board,
    pub(crate) ways: &'s Ways,
    pub(crate) stealers: &'s [Stealer<Branch>],
    pub(crate) gate: &'s G,
    /// How many branches each may take.
    pub(crate) turns: u64,
    /// How many states are claimed, at most. A table that is nearly full takes long to look through.
    pub(crate) room: u64,
}

/// A worker's own things.
#[derive(Drop)]
pub(crate) struct Seat {
    /// From 0 on.
    pub(crate) number: u32,
    pub(crate) own: Worker<Branch>,
    tally: Tally,
    /// Whether more states might be claimed when it last told what it counted.
    has_room: bool,
}

impl Seat {
    /// Of a worker with such branches of its own.
    pub(crate) fn new(number: u32, own: Worker<Branch>) -> Seat {
        Seat {
            number,
            own,
            tally: Tally::NONE,
            has_room: true,
        }
    }

    /// Tells what the worker counted.
    fn tell<G>(&mut self, team: &Team<'_, '_, G>) {
        team.board.count(self.tally);
        self.tally = Tally::NONE;
        self.has_room = team.board.has_room(team.room);
    }

    /// Counts a branch that the worker has taken, and now and then tells what it counted.
    fn count_turn<G>(&mut self, team: &Team<'_, '_, G>) {
        self.tally.turns = self.tally.turns.saturating_add(1);
        if self.tally.turns >= TOLD_AFTER {
            self.tell(team);
        }
    }
}

/// A branch that a worker is to take.
#[derive(Clone, Copy)]
enum Next {
    /// One of its own: it grows from the way that the worker has come.
    Own(Branch),
    /// One of another worker's.
    Stolen(Branch),
}

/// How many milliseconds a worker sleeps that finds no branch.
const PAUSE: u64 = 1;

/// How many branches a worker takes until it tells what it counted.
const TOLD_AFTER: u64 = 64;

/// How often a worker tries to steal from another one whose oldest branch is taken meanwhile.
const TRIES: u32 = 8;

/// How many first moves of a way the state has made.
fn common_depth(state: &State, way: &[Move]) -> usize {
    let mut depth = 0usize;
    for chosen in way {
        if state.move_at(depth) != Some(*chosen) {
            break;
        }
        depth = depth.saturating_add(1);
    }
    depth
}

/// Goes to where a stolen branch grows, by the moves from where the ways part. Says whether it got there.
fn walk_to<R: Wait, G>(
    rt: &R,
    team: &Team<'_, '_, G>,
    state: &mut State,
    branch: Branch,
) -> Result<bool, AllocError> {
    let way = team.ways.to(rt, branch.parent, branch.depth)?;
    let common = common_depth(state, way.as_slice());
    state.back_to(team.problem, common)?;
    for chosen in way.iter().skip(common) {
        if !state.make(team.problem, *chosen)? {
            return Ok(false);
        }
    }
    Ok(true)
}

/// Goes to where a branch grows, and gives the branch if it got there.
fn go_to<R: Wait, G>(
    rt: &R,
    team: &Team<'_, '_, G>,
    state: &mut State,
    next: Next,
) -> Result<Option<Branch>, AllocError> {
    match next {
        Next::Own(branch) => {
            state.back_to(team.problem, branch.depth)?;
            Ok(Some(branch))
        }
        Next::Stolen(branch) => {
            if walk_to(rt, team, state, branch)? {
                Ok(Some(branch))
            } else {
                Ok(None)
            }
        }
    }
}

/// Makes the first legal one of some moves, from a rank on, and gives it with its rank.
fn make_first(
    problem: &Problem<'_, '_>,
    state: &mut State,
    moves: &[Move],
    rank: usize,
) -> Result<Option<(usize, Move)>, AllocError> {
    for (place, chosen) in moves.iter().enumerate().skip(rank) {
        if state.make(problem, *chosen)? {
            return Ok(Some((place, *chosen)));
        }
    }
    Ok(None)
}

/// Puts a branch, where there is one, among the worker's own as the newest. It says whether there was room.
fn push_branch(seat: &mut Seat, branch: Option<Branch>) -> bool {
    match branch {
        Some(branch) => seat.own.push(branch).is_ok(),
        None => true,
    }
}

/// Has a whole plan judged, and keeps it where it is a witness.
fn judge_whole<R: Wait, G>(
    rt: &R,
    team: &Team<'_, '_, G>,
    state: &State,
) -> Result<(), AllocError> {
    let certificate = state.certificate(team.problem)?;
    if let Verdict::Yes = check_calls(team.alloc, team.problem.known(), &certificate)? {
        team.board.succeed(rt, certificate);
    }
    Ok(())
}

/// Claims a branch by its fingerprint, where there is room; 0 stands for no fingerprint, so one with that isn't claimed.
fn claim_state(table: &SeenTable, claimer: &mut Claimer, state: &State, has_room: bool) -> Claim
    requires { IsOf claimer.old table.now }
    ensures { IsOf claimer.new table.now }
{
    let fingerprint = state.fingerprint();
    if fingerprint == 0 || !has_room {
        return Claim::Full;
    }
    table.claim(claimer, fingerprint)
}

/// Counts a branch that was claimed, and says whether it is to be gone on with: nobody claimed one with its fingerprint, or there
/// was no room.
fn note_claim(seat: &mut Seat, claim: Claim, depth: usize) -> bool {
    seat.tally.depth = seat.tally.depth.max(depth);
    match claim {
        Claim::New => {
            seat.tally.states = seat.tally.states.saturating_add(1);
            true
        }
        Claim::Full => true,
        Claim::Seen => false,
    }
}

/// Pushes what may be tried in the place of a move, and what grows from it.
fn grow<G>(
    team: &Team<'_, '_, G>,
    seat: &mut Seat,
    rest: Option<Branch>,
    next: Option<Branch>,
) -> Result<(), AllocError> {
    team.board
        .open(u64::from(rest.is_some()) + u64::from(next.is_some()));
    let is_rest_pushed = push_branch(seat, rest);
    let is_next_pushed = push_branch(seat, next);
    if is_rest_pushed && is_next_pushed {
        return Ok(());
    }
    team.board
        .close(u64::from(!is_rest_pushed) + u64::from(!is_next_pushed));
    Err(AllocError)
}

/// Takes a branch: goes there, makes its move, claims where it leads to, and pushes what follows.
fn take_branch<R: Wait, G: SearchGate>(
    rt: &R,
    team: &Team<'_, '_, G>,
    table: &SeenTable,
    claimer: &mut Claimer,
    seat: &mut Seat,
    state: &mut State,
    next: Next,
) -> Result<(), AllocError>
    requires table { IsOf claimer.old table.now }
    ensures table { IsOf claimer.new table.now }
{
    let Some(branch) = go_to(rt, team, state, next)? else {
        return Ok(());
    };
    let moves = state.moves(team.problem)?;
    let made = make_first(team.problem, state, moves.as_slice(), branch.rank)?;
    let Some((rank, chosen)) = made else {
        return Ok(());
    };
    if state.is_whole(team.problem) {
        judge_whole(rt, team, state)?;
    }
    let is_last = rank.saturating_add(1) >= moves.len() || state.is_free(team.problem);
    let rest = rest_of(branch, rank, is_last);
    let depth = branch.depth.saturating_add(1);
    let claim = claim_state(table, claimer, state, seat.has_room);
    let mut grown = None;
    if note_claim(seat, claim, depth) {
        let parent = team.ways.add(rt, seat.number, branch.parent, chosen)?;
        grown = Some(Branch {
            parent,
            depth,
            rank: 0,
        });
    }
    grow(team, seat, rest, grown)
}

/// The oldest branch of a worker, if one is found.
fn steal_from(stealer: &Stealer<Branch>) -> Option<Branch> {
    for _ in 0..TRIES {
        match stealer.steal() {
            Steal::Success(branch) => return Some(branch),
            Steal::Empty => return None,
            Steal::Retry => {}
        }
    }
    None
}

/// Another worker's oldest branch, if one is found.
fn steal<G>(team: &Team<'_, '_, G>, number: u32) -> Option<Branch> {
    let first = (number as usize).saturating_add(1);
    for stealer in team.stealers.iter().skip(first) {
        if let Some(branch) = steal_from(stealer) {
            return Some(branch);
        }
    }
    for stealer in team.stealers.iter().take(number as usize) {
        if let Some(branch) = steal_from(stealer) {
            return Some(branch);
        }
    }
    None
}

/// The worker's newest branch, or another's oldest.
fn find_next<G>(team: &Team<'_, '_, G>, seat: &mut Seat) -> Option<Next> {
    if let Some(branch) = seat.own.pop() {
        return Some(Next::Own(branch));
    }
    match steal(team, seat.number) {
        Some(branch) => Some(Next::Stolen(branch)),
        None => None,
    }
}

/// What may be tried in the place of a branch's move, unless that is the last one.
fn rest_of(branch: Branch, rank: usize, is_last: bool) -> Option<Branch> {
    if is_last {
        return None;
    }
    Some(Branch {
        parent: branch.parent,
        depth: branch.depth,
        rank: rank.saturating_add(1),
    })
}

/// Takes a branch, and comes back from the gate. It says whether the worker may go on: it may not where memory ran out.
fn turn<R: Wait, G: SearchGate>(
    rt: &R,
    team: &Team<'_, '_, G>,
    table: &SeenTable,
    claimer: &mut Claimer,
    seat: &mut Seat,
    state: &mut State,
    next: Next,
) -> bool
    requires table { IsOf claimer.old table.now }
    ensures table { IsOf claimer.new table.now }
{
    match take_branch(rt, team, table, claimer, seat, state, next) {
        Ok(()) => {
            team.gate.at(seat.number);
            team.board.close(1);
            seat.count_turn(team);
            true
        }
        Err(AllocError) => {
            team.board.close(1);
            team.board.lack_memory();
            false
        }
    }
}

/// Has the first worker tell how far the search is, where it is time to.
fn tell_progress<R: Clock, G: SearchGate>(
    rt: &R,
    team: &Team<'_, '_, G>,
    number: u32,
    watch: &mut Watch,
) {
    if number != 0 || !watch.is_due(rt) {
        return;
    }
    let calls = team.problem.known().count();
    team.gate.tell(team.board.progress(calls));
}

/// Takes branches until a certificate is found, none is left, as many are taken as may be, or the gate says that it is over.
fn take_branches<R: Wait + Clock, G: SearchGate>(
    rt: &R,
    team: &Team<'_, '_, G>,
    table: &SeenTable,
    claimer: &mut Claimer,
    seat: &mut Seat,
    state: State,
)
    requires table { IsOf claimer.old table.now }
    ensures { IsOf claimer.new table.now }
{
    let mut state = state;
    let mut left = team.turns;
    let mut watch = Watch::new(rt);
    for _ in rt.forever() {
        tell_progress(rt, team, seat.number, &mut watch);
        if left == 0 || team.board.is_over() || team.gate.is_over() {
            break;
        }
        let Some(next) = find_next(team, seat) else {
            thread::sleep(rt, Duration::from_millis(PAUSE));
            continue;
        };
        left -= 1;
        if !turn(rt, team, table, claimer, seat, &mut state, next) {
            return;
        }
    }
    team.board.stop_worker();
}

/// Works until there is nothing more to do.
pub(crate) fn work<R: Wait + Clock, G: SearchGate>(
    rt: &R,
    team: &Team<'_, '_, G>,
    table: &SeenTable,
    claimer: Claimer,
    seat: Seat,
)
    requires { IsOf claimer table.now }
{
    let mut claimer = claimer;
    let mut seat = seat;
    match State::begin(team.alloc, team.problem) {
        Ok(state) => take_branches(rt, team, table, &mut claimer, &mut seat, state),
        Err(AllocError) => team.board.lack_memory(),
    }
    seat.tell(team);
}
