//! What is known of a branch beside its tree: its calls, its binds, and which calls may come next.

use crate::digest::Digest;
use nfs3_types::FileHandle;
use search_problem::{EraSpan, Move, Nature, Problem};
use std::alloc::{AllocError, Global};
use std::collections::BTreeMap;
use tree_handles::Binds;

/// How far a branch is. All of it is put back when the branch is left.
#[derive(Clone, Copy)]
pub(crate) struct Front {
    /// Counted from 0.
    pub(crate) era: usize,
    /// How many moves are ahead of the era.
    pub(crate) era_start: usize,
    /// Where the first reply stands, in the list of all, whose call may be unplaced.
    next_reply: usize,
    /// The number of the first call that begins too late to come next.
    pub(crate) frontier: u64,
    /// How many handles are bound.
    pub(crate) bound: usize,
    pub(crate) digest: Digest,
}

/// A move on the way to a branch.
#[derive(Clone, Copy)]
pub(crate) struct Step {
    pub(crate) chosen: Move,
    /// How far the branch ahead of it was.
    pub(crate) before: Front,
}

/// A handle that was bound.
#[derive(Drop)]
pub(crate) struct BoundHandle {
    pub(crate) handle: FileHandle,
    /// What it is bound to, where it wasn't let go for good.
    pub(crate) object: Option<u64>,
}

/// What is known of a branch beside its tree.
#[derive(Drop)]
pub(crate) struct BranchFacts {
    pub(crate) alloc: Global,
    /// Whether fingerprints are asked of the branch.
    pub(crate) is_hashed: bool,
    /// Whether no object has more than one handle.
    pub(crate) has_one_handle: bool,
    pub(crate) binds: Binds,
    /// The handles that are bound, in the order in which they were.
    pub(crate) bound: Vec<BoundHandle>,
    /// The objects that handles are bound to, each with how many.
    named: BTreeMap<u64, u64>,
    pub(crate) path: Vec<Step>,
    pub(crate) front: Front,
    /// By the call's number.
    placed: Vec<bool>,
    /// The answered calls that may come next, by the numbers of their replies' events.
    pub(crate) open: BTreeMap<u64, u64>,
    /// The unanswered calls that may come next and may have changed the tree, by their numbers.
    pub(crate) waiting: BTreeMap<u64, ()>,
}

impl BranchFacts {
    /// Of the branch without a move. The tree has this digest.
    pub(crate) fn new(
        alloc: Global,
        problem: &Problem<'_, '_>,
        is_hashed: bool,
        tree_digest: u64,
    ) -> Result<BranchFacts, AllocError> {
        let calls = problem.known().count().saturating_add(1);
        let mut facts = BranchFacts {
            alloc,
            is_hashed,
            has_one_handle: false,
            binds: Binds::of_root(alloc, problem.known().root().as_slice())?,
            bound: Vec::new(alloc),
            named: BTreeMap::new(alloc),
            path: Vec::new(alloc),
            front: Front {
                era: 0,
                era_start: 0,
                next_reply: 0,
                frontier: 1,
                bound: 0,
                digest: Digest::of_era(tree_digest, [0; 2]),
            },
            placed: vec![in alloc; false; calls]?,
            open: BTreeMap::new(alloc),
            waiting: BTreeMap::new(alloc),
        };
        facts.let_in(problem)?;
        Ok(facts)
    }

    /// The calls and replies of the era.
    pub(crate) fn span(&self, problem: &Problem<'_, '_>) -> EraSpan {
        problem.span(self.front.era)
    }

    /// Whether a call is placed.
    fn is_placed(&self, number: u64) -> bool {
        match self.placed.get(number as usize) {
            Some(placed) => *placed,
            None => true,
        }
    }

    /// Notes that a call is placed, or is no longer.
    fn mark(&mut self, number: u64, is_placed: bool) {
        if let Some(placed) = self.placed.get_mut(number as usize) {
            *placed = is_placed;
        }
    }

    /// The number of the event of the first reply of the era whose call isn't placed, or the greatest number.
    fn first_unplaced_end(&mut self, problem: &Problem<'_, '_>) -> u64 {
        let span = self.span(problem);
        for place in self.front.next_reply.max(span.first_reply)..span.end_reply {
            let Some(number) = problem.reply_at(place) else {
                break;
            };
            if !self.is_placed(number) {
                self.front.next_reply = place;
                return problem.known().end(number).unwrap_or(u64::MAX);
            }
        }
        self.front.next_reply = span.end_reply;
        u64::MAX
    }

    /// Lets in the calls that began ahead of the first reply whose call isn't placed.
    pub(crate) fn let_in(&mut self, problem: &Problem<'_, '_>) -> Result<(), AllocError> {
        let limit = self.first_unplaced_end(problem);
        let span = self.span(problem);
        let first = self.front.frontier.max(span.first_call);
        for number in first..span.end_call {
            if problem.known().begin(number) >= limit {
                self.front.frontier = number;
                return Ok(());
            }
            self.offer(problem, number)?;
        }
        self.front.frontier = span.end_call.max(first);
        Ok(())
    }

    /// Puts a call among those that may come next, if it can have a place and has none.
    fn offer(&mut self, problem: &Problem<'_, '_>, number: u64) -> Result<(), AllocError> {
        if self.is_placed(number) {
            return Ok(());
        }
        match problem.nature(number) {
            Nature::Looking | Nature::Changing => {
                if let Some(end) = problem.known().end(number) {
                    self.open.insert(end, number)?;
                }
            }
            Nature::Unanswered => {
                self.waiting.insert(number, ())?;
            }
            Nature::Unplaced => {}
        }
        Ok(())
    }

    /// Takes a call from among those that may come next.
    fn withdraw(&mut self, problem: &Problem<'_, '_>, number: u64) {
        if let Some(end) = problem.known().end(number) {
            self.open.remove(&end);
        }
        self.waiting.remove(&number);
    }

    /// Notes a call that is placed, and lets in those that may come next because of it.
    pub(crate) fn place(
        &mut self,
        problem: &Problem<'_, '_>,
        number: u64,
        is_taken: bool,
    ) -> Result<(), AllocError> {
        let changes = problem.nature(number) != Nature::Looking;
        self.withdraw(problem, number);
        self.mark(number, true);
        self.front.digest = self.front.digest.with_call(number, is_taken, changes);
        self.let_in(problem)
    }

    /// The answered calls that may come next, by their replies, from one of such a number on.
    pub(crate) fn open_calls(&self, from: u64) -> Result<Vec<u64>, AllocError> {
        let mut calls = Vec::new(self.alloc);
        for (_, number) in self.open.iter() {
            if *number >= from {
                calls.push(*number)?;
            }
        }
        Ok(calls)
    }

    /// The calls to which no reply came that may come next, by their numbers.
    pub(crate) fn waiting_calls(&self) -> Result<Vec<u64>, AllocError> {
        let mut calls = Vec::new(self.alloc);
        for (number, _) in self.waiting.iter() {
            calls.push(*number)?;
        }
        Ok(calls)
    }

    /// The answered call that may come next whose reply came first.
    pub(crate) fn due(&self) -> Option<u64> {
        self.open.iter().next().map(|(_, number)| *number)
    }

    /// Whether a call may come next.
    pub(crate) fn is_open(&self, problem: &Problem<'_, '_>, number: u64) -> bool {
        match problem.known().end(number) {
            Some(end) => self.open.contains_key(&end),
            None => self.waiting.contains_key(&number),
        }
    }

    /// Goes on without a call.
    pub(crate) fn give_up(
        &mut self,
        problem: &Problem<'_, '_>,
        number: u64,
    ) -> Result<(), AllocError> {
        self.withdraw(problem, number);
        self.mark(number, true);
        self.let_in(problem)
    }

    /// Puts back how far the branch was ahead of a call that was placed last.
    pub(crate) fn unplace(
        &mut self,
        problem: &Problem<'_, '_>,
        number: u64,
        before: Front,
    ) -> Result<(), AllocError> {
        for late in before.frontier..self.front.frontier {
            self.withdraw(problem, late);
        }
        self.mark(number, false);
        self.front = before;
        self.unbind();
        if number >= self.span(problem).first_call {
            self.offer(problem, number)?;
        }
        Ok(())
    }

    /// Notes that one handle more is bound to an object.
    fn note_named(&mut self, object: u64) -> Result<(), AllocError> {
        if let Some(handles) = self.named.get_mut(&object) {
            *handles = handles.saturating_add(1);
            return Ok(());
        }
        self.named.insert(object, 1)?;
        Ok(())
    }

    /// Notes that one handle fewer is bound to an object.
    fn note_unnamed(&mut self, object: u64) {
        if let Some(handles) = self.named.get_mut(&object) {
            *handles = handles.saturating_sub(1);
        }
    }

    /// Lets go the handles of an object, for good: going back doesn't bind them again.
    pub(crate) fn release(&mut self, object: u64) {
        for bind in self.bound.iter_mut() {
            if bind.object == Some(object) {
                self.binds.forget(bind.handle.as_slice());
                bind.object = None;
            }
        }
        self.named.remove(&object);
    }

    /// Whether one handle more may name an object.
    pub(crate) fn may_name(&self, object: u64) -> bool {
        !self.has_one_handle || !self.is_named(object)
    }

    /// Binds a handle to an object, unless it is bound, or no more than one may name that.
    pub(crate) fn bind(&mut self, handle: &FileHandle, object: u64) -> Result<(), AllocError> {
        let bytes = handle.as_slice();
        if bytes.is_empty() || self.binds.object(bytes).is_some() || !self.may_name(object) {
            return Ok(());
        }
        let kept = BoundHandle {
            handle: handle.clone()?,
            object: Some(object),
        };
        self.bound.push(kept)?;
        self.binds.push(bytes, object)?;
        self.note_named(object)?;
        self.front.bound = self.bound.len();
        if self.is_hashed {
            self.front.digest = self.front.digest.with_bind(bytes, object);
        }
        Ok(())
    }

    /// Lets go the handles that aren't bound as far as the branch is.
    pub(crate) fn unbind(&mut self) {
        for _ in self.front.bound..self.bound.len() {
            if let Some(bind) = self.bound.pop() {
                self.binds.forget(bind.handle.as_slice());
                if let Some(object) = bind.object {
                    self.note_unnamed(object);
                }
            }
        }
    }

    /// Whether a handle is bound to an object.
    pub(crate) fn is_named(&self, object: u64) -> bool {
        match self.named.get(&object) {
            Some(handles) => *handles > 0,
            None => false,
        }
    }

    /// Whether the last move bound no handle.
    pub(crate) fn bound_nothing(&self) -> bool {
        match self.path.last() {
            Some(step) => step.before.bound == self.front.bound,
            None => true,
        }
    }

    /// The branch's fingerprint.
    pub(crate) fn fingerprint(&self) -> u64 {
        self.front.digest.fingerprint(self.front.era as u64)
    }

    /// Goes on to the next era, whose tree has this digest.
    pub(crate) fn begin_era(
        &mut self,
        problem: &Problem<'_, '_>,
        tree_digest: u64,
    ) -> Result<(), AllocError> {
        self.waiting.clear();
        self.open.clear();
        self.front.era = self.front.era.saturating_add(1);
        self.front.era_start = self.path.len();
        self.front.digest = Digest::of_era(tree_digest, self.front.digest.binds());
        self.let_in(problem)
    }

    /// Goes back to the end of the era ahead of this one.
    pub(crate) fn leave_era(
        &mut self,
        problem: &Problem<'_, '_>,
        before: Front,
    ) -> Result<(), AllocError> {
        self.waiting.clear();
        self.open.clear();
        self.front = before;
        let span = self.span(problem);
        for number in span.first_call..span.end_call {
            if problem.nature(number) == Nature::Unanswered && !self.is_placed(number) {
                self.waiting.insert(number, ())?;
            }
        }
        Ok(())
    }
}
