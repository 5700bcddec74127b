//! A branch with its tree.

use crate::branch_facts::{BranchFacts, Front, Step};
use crate::trial::Trial;
use nfs3_types::FileHandle;
use search_problem::{FoundCall, Move, Nature, Problem, find};
use seen_states::fingerprint;
use std::alloc::{AllocError, Global};
use tree_handles::Binds;
use tree_nodes::Nodes;

/// The branch that a worker is at. Where memory ran out in a step its tree is lost, and each later step fails.
pub struct State {
    trial: Option<Trial>,
    pub(crate) facts: BranchFacts,
}

impl Drop for State {
    fn drop(self) {
        let State { trial, facts } = self;
        drop(trial);
        drop(facts);
    }
}

/// The digest of a tree: that of its text.
fn digest_of(alloc: Global, trial: &Trial) -> Result<u64, AllocError> {
    let mut text = Vec::new(alloc);
    trial.print(&mut text)?;
    Ok(fingerprint(text.as_slice()))
}

/// The number of the call that a move places.
fn number_of(chosen: Move) -> u64 {
    match chosen {
        Move::Answer(number) | Move::Take(number) => number,
        Move::Cut(_) => 0,
    }
}

impl State {
    /// At the branch without a move.
    pub fn begin(alloc: Global, problem: &Problem<'_, '_>) -> Result<State, AllocError> {
        let trial = Trial::begin(alloc, problem.known())?;
        let digest = digest_of(alloc, &trial)?;
        Ok(State {
            trial: Some(trial),
            facts: BranchFacts::new(alloc, problem, true, digest)?,
        })
    }

    /// At the branch without a move, where no fingerprints are asked for. Where objects have one handle each, a call whose reply gives
    /// another one is no legal move.
    pub fn begin_plain(
        alloc: Global,
        problem: &Problem<'_, '_>,
        has_one_handle: bool,
    ) -> Result<State, AllocError> {
        let trial = Trial::begin(alloc, problem.known())?;
        let mut facts = BranchFacts::new(alloc, problem, false, 0)?;
        facts.has_one_handle = has_one_handle;
        Ok(State {
            trial: Some(trial),
            facts,
        })
    }

    /// Takes the tree out of the branch.
    fn take_trial(&mut self) -> Result<Trial, AllocError> {
        match self.trial.take() {
            Some(trial) => Ok(trial),
            None => Err(AllocError),
        }
    }

    /// Takes the step of a call on the tree, and says whether it is a legal one; else nothing changes.
    fn step(
        &mut self,
        problem: &Problem<'_, '_>,
        number: u64,
        found: &FoundCall,
    ) -> Result<bool, AllocError> {
        let mut trial = self.take_trial()?;
        let before = self.facts.front;
        let object = problem.object_of(number);
        self.facts.bind_given(trial.nodes(), object, found)?;
        let is_legal = trial.step(&self.facts.binds, object, &found.call, &found.outcome)?;
        self.trial = Some(trial);
        if !is_legal {
            self.facts.front = before;
            self.facts.unbind();
        }
        Ok(is_legal)
    }

    /// Places a call next, and says whether that is legal; else nothing changes.
    fn place(&mut self, problem: &Problem<'_, '_>, chosen: Move) -> Result<bool, AllocError> {
        let before = self.facts.front;
        let Some(found) = find(self.facts.alloc, problem.known(), chosen)? else {
            return Ok(false);
        };
        let number = number_of(chosen);
        if !self.step(problem, number, &found)? {
            return Ok(false);
        }
        self.facts.path.push(Step { chosen, before })?;
        let is_taken = matches!(chosen, Move::Take(_));
        self.facts.place(problem, number, is_taken)?;
        Ok(true)
    }

    /// Ends the era, and keeps so many of its places.
    fn cut(&mut self, problem: &Problem<'_, '_>, kept: usize) -> Result<(), AllocError> {
        let places = self.places();
        let trial = self.take_trial()?.back(places.saturating_sub(kept))?;
        let before = self.facts.front;
        self.facts.path.push(Step {
            chosen: Move::Cut(kept),
            before,
        })?;
        let digest = if self.facts.is_hashed {
            digest_of(self.facts.alloc, &trial)?
        } else {
            0
        };
        self.trial = Some(trial);
        self.facts.begin_era(problem, digest)?;
        Ok(())
    }

    /// Makes a move, and says whether it is a legal one; else nothing changes.
    pub fn make(&mut self, problem: &Problem<'_, '_>, chosen: Move) -> Result<bool, AllocError> {
        if let Move::Cut(kept) = chosen {
            self.cut(problem, kept)?;
            return Ok(true);
        }
        self.place(problem, chosen)
    }

    /// Takes the step of a move again.
    fn redo_once(&mut self, problem: &Problem<'_, '_>, chosen: Move) -> Result<(), AllocError> {
        if let Some(found) = find(self.facts.alloc, problem.known(), chosen)? {
            let object = problem.object_of(number_of(chosen));
            let mut trial = self.take_trial()?;
            trial.step(&self.facts.binds, object, &found.call, &found.outcome)?;
            self.trial = Some(trial);
        }
        Ok(())
    }

    /// The move on the way to the branch behind so many others, where there is one.
    pub fn move_at(&self, place: usize) -> Option<Move> {
        match self.facts.path.get(place) {
            Some(step) => Some(step.chosen),
            None => None,
        }
    }

    /// Takes the steps of the places past a cut again.
    fn redo(&mut self, problem: &Problem<'_, '_>, kept: usize) -> Result<(), AllocError> {
        let first = self.facts.front.era_start.saturating_add(kept);
        for place in first..self.facts.path.len() {
            if let Some(chosen) = self.move_at(place) {
                self.redo_once(problem, chosen)?;
            }
        }
        Ok(())
    }

    /// Takes the step of a call back that was placed last, before which the branch was so far.
    fn back_call(
        &mut self,
        problem: &Problem<'_, '_>,
        number: u64,
        before: Front,
    ) -> Result<(), AllocError> {
        let trial = self.take_trial()?.back(1)?;
        self.trial = Some(trial);
        self.facts.unplace(problem, number, before)
    }

    /// Goes back to the branch ahead of the last move, where there is one.
    fn back_once(&mut self, problem: &Problem<'_, '_>) -> Result<(), AllocError> {
        let Some(step) = self.facts.path.pop() else {
            return Ok(());
        };
        match step.chosen {
            Move::Answer(number) | Move::Take(number) => {
                self.back_call(problem, number, step.before)
            }
            Move::Cut(kept) => {
                self.facts.leave_era(problem, step.before)?;
                self.redo(problem, kept)
            }
        }
    }

    /// Goes back to where so many moves were made.
    pub fn back_to(&mut self, problem: &Problem<'_, '_>, depth: usize) -> Result<(), AllocError> {
        for _ in depth..self.facts.path.len() {
            self.back_once(problem)?;
        }
        Ok(())
    }

    /// Whether every era has its places.
    pub fn is_whole(&self, problem: &Problem<'_, '_>) -> bool {
        self.facts.is_era_done() && problem.is_last(self.facts.front.era)
    }

    /// How many moves led to the branch.
    pub fn depth(&self) -> usize {
        self.facts.path.len()
    }

    /// The nodes of the tree, where it isn't lost.
    pub fn nodes(&self) -> Option<&Nodes> {
        match &self.trial {
            Some(trial) => Some(trial.nodes()),
            None => None,
        }
    }

    /// Whether an object stands in the tree.
    pub fn stands(&self, object: u64) -> bool {
        match &self.trial {
            Some(trial) => trial.nodes().node(object).is_some(),
            None => false,
        }
    }

    /// Whether a handle names an object.
    pub fn is_named(&self, object: u64) -> bool {
        self.facts.is_named(object)
    }

    /// Whether one handle more may name an object.
    pub fn may_name(&self, object: u64) -> bool {
        self.facts.may_name(object)
    }

    /// What the handles name that are bound so far.
    pub fn binds(&self) -> &Binds {
        &self.facts.binds
    }

    /// The number of the era, from 0 on.
    pub fn era(&self) -> usize {
        self.facts.front.era
    }

    /// How many places the era has so far.
    pub fn places(&self) -> usize {
        self.facts
            .path
            .len()
            .saturating_sub(self.facts.front.era_start)
    }

    /// The move of a place of the era, counted from 0.
    pub fn place_at(&self, place: usize) -> Option<Move> {
        self.move_at(self.facts.front.era_start.saturating_add(place))
    }

    /// Whether the answered calls of the era are all placed, or given up.
    pub fn is_era_done(&self) -> bool {
        self.facts.is_era_done()
    }

    /// The answered calls that may come next, by their replies, from one of such a number on.
    pub fn open_calls(&self, from: u64) -> Result<Vec<u64>, AllocError> {
        self.facts.open_calls(from)
    }

    /// The calls to which no reply came that may come next, by their numbers.
    pub fn waiting_calls(&self) -> Result<Vec<u64>, AllocError> {
        self.facts.waiting_calls()
    }

    /// The answered call that may come next whose reply came first.
    pub fn due(&self) -> Option<u64> {
        self.facts.due()
    }

    /// Whether a call may come next.
    pub fn is_open(&self, problem: &Problem<'_, '_>, number: u64) -> bool {
        self.facts.is_open(problem, number)
    }

    /// The number of the first call that begins too late to come next.
    pub fn frontier(&self) -> u64 {
        self.facts.front.frontier
    }

    /// How many places of the era a crash can't take.
    pub fn least_cut(&self, problem: &Problem<'_, '_>) -> Result<usize, AllocError> {
        self.facts.least_cut(problem)
    }

    /// Goes on without a call, as if it were placed and did nothing. That isn't taken back.
    pub fn give_up(&mut self, problem: &Problem<'_, '_>, number: u64) -> Result<(), AllocError> {
        self.facts.give_up(problem, number)
    }

    /// Binds a handle to an object, unless it is bound. It is let go with the branch's last move.
    pub fn bind(&mut self, handle: &FileHandle, object: u64) -> Result<(), AllocError> {
        self.facts.bind(handle, object)
    }

    /// How many handles are bound.
    pub fn bound(&self) -> usize {
        self.facts.front.bound
    }

    /// Lets go the handles that were bound past so many.
    pub fn let_go(&mut self, bound: usize) {
        self.facts.front.bound = self.facts.front.bound.min(bound);
        self.facts.unbind();
    }

    /// Lets go the handles of an object for good: they aren't bound again where the branch is left.
    pub fn release(&mut self, object: u64) {
        self.facts.release(object);
    }

    /// The moves that may come next, the likeliest first.
    pub fn moves(&self, problem: &Problem<'_, '_>) -> Result<Vec<Move>, AllocError> {
        self.facts.moves(problem)
    }

    /// The branch's fingerprint: of the era, its placed calls, its changes in their order, the tree at its start and the binds.
    pub fn fingerprint(&self) -> u64 {
        self.facts.fingerprint()
    }

    /// Whether no other move needs to be tried in the place of the last one. A call that leaves the tree and is legal now can be
    /// moved here in each serial order, unless its reply binds a handle.
    pub fn is_free(&self, problem: &Problem<'_, '_>) -> bool {
        match self.facts.path.last() {
            Some(step) => match step.chosen {
                Move::Answer(number) => {
                    problem.nature(number) == Nature::Looking && self.facts.bound_nothing()
                }
                Move::Take(_) | Move::Cut(_) => false,
            },
            None => false,
        }
    }
}
