//! A sweep over a history.

use crate::notes::{Notes, Placed};
use crate::watch::SweepWatch;
use search_branches::State;
use search_lessons::{Lessons, NamesGiven, found_of, is_stable, move_of};
use search_problem::{FoundCall, Move, Nature, Problem};
use std::alloc::{AllocError, Global};

/// How many calls sweeps may fail to place, beside one in eight of all.
const FEWEST_CONFLICTS: u64 = 200;

/// How many calls may go ahead of one another in a row.
const DEEPEST: u32 = 8;

/// A sweep: a branch, which grows call by call, and what was noted on the way.
#[derive(Drop)]
pub(crate) struct Sweep<'p, 's, 'a> {
    pub(crate) alloc: Global,
    pub(crate) problem: &'p Problem<'s, 'a>,
    pub(crate) names: &'p NamesGiven,
    pub(crate) state: State,
    pub(crate) lessons: Lessons,
    pub(crate) notes: Notes,
}

impl<'p, 's, 'a> Sweep<'p, 's, 'a> {
    /// At the history's start, with what was learned before, where no object has more than one handle or each may.
    pub(crate) fn begin(
        alloc: Global,
        problem: &'p Problem<'s, 'a>,
        names: &'p NamesGiven,
        lessons: Lessons,
        has_one_handle: bool,
    ) -> Result<Sweep<'p, 's, 'a>, AllocError> {
        let eras = problem.known().eras() as usize;
        Ok(Sweep {
            alloc,
            problem,
            names,
            state: State::begin_plain(alloc, problem, has_one_handle)?,
            lessons,
            notes: Notes::new(alloc, eras)?,
        })
    }

    /// Goes back to where so many moves were made.
    pub(crate) fn back_to(&mut self, depth: usize) -> Result<(), AllocError> {
        self.notes.back_to(depth);
        self.state.back_to(self.problem, depth)
    }

    /// Ends the era, and keeps so many of its places.
    pub(crate) fn cut(&mut self, kept: usize) -> Result<(), AllocError> {
        self.state.make(self.problem, Move::Cut(kept))?;
        Ok(())
    }

    /// Makes a call's move, and says whether it is a legal one; else nothing changes.
    fn make(&mut self, number: u64) -> Result<bool, AllocError> {
        self.state.make(self.problem, move_of(self.problem, number))
    }

    /// Whether a call may be placed now.
    pub(crate) fn is_legal(&mut self, number: u64) -> Result<bool, AllocError> {
        let depth = self.state.depth();
        let is_legal = self.make(number)?;
        self.state.back_to(self.problem, depth)?;
        Ok(is_legal)
    }

    /// What a call was that is placed last, if it may change the tree.
    fn found_changing(&self, number: u64) -> Result<Option<FoundCall>, AllocError> {
        if self.problem.nature(number) == Nature::Looking {
            return Ok(None);
        }
        found_of(self.alloc, self.problem, number)
    }

    /// How a call was placed last.
    fn placed(&self, number: u64) -> Placed {
        Placed {
            number,
            nature: self.problem.nature(number),
            era: self.state.era(),
            place: self.state.places().saturating_sub(1) as u64,
            depth: self.state.depth(),
        }
    }

    /// Notes a call that was placed last, if it may change the tree.
    fn note_placed(&mut self, number: u64) -> Result<(), AllocError> {
        let Some(found) = self.found_changing(number)? else {
            return Ok(());
        };
        let placed = self.placed(number);
        self.notes.place(placed, &found)
    }

    /// Places a call, and says whether that is legal; else nothing changes.
    pub(crate) fn place(&mut self, number: u64) -> Result<bool, AllocError> {
        if !self.make(number)? {
            return Ok(false);
        }
        self.note_placed(number)?;
        self.bind_made(number)?;
        Ok(true)
    }

    /// Binds the handle that an unanswered call is known to have made.
    fn bind_made(&mut self, number: u64) -> Result<(), AllocError> {
        let object = self.problem.object_of(number);
        if self.problem.nature(number) != Nature::Unanswered || !self.state.stands(object) {
            return Ok(());
        }
        match self.lessons.handle_of(number) {
            Some(handle) => self.state.bind(handle, object),
            None => Ok(()),
        }
    }

    /// Places a call, if it leaves the tree and is legal now.
    fn look_at(&mut self, number: u64) -> Result<(), AllocError> {
        if self.problem.nature(number) != Nature::Looking {
            return Ok(());
        }
        self.place(number)?;
        Ok(())
    }

    /// Places the calls that leave the tree and are legal now, of those with such a number and later ones.
    fn look_from(&mut self, from: u64) -> Result<(), AllocError> {
        let calls = self.state.open_calls(from)?;
        for number in calls.iter() {
            self.look_at(*number)?;
        }
        Ok(())
    }

    /// Places the calls that leave the tree and are legal now.
    pub(crate) fn look(&mut self) -> Result<(), AllocError> {
        let mut from = 0u64;
        for _ in 0..self.problem.known().count().saturating_add(1) {
            let frontier = self.state.frontier();
            self.look_from(from)?;
            if self.state.frontier() == frontier {
                break;
            }
            from = frontier;
        }
        Ok(())
    }

    /// The calls that may come next, those with a reply first.
    pub(crate) fn next_calls(&self) -> Result<Vec<u64>, AllocError> {
        let mut calls = self.state.open_calls(0)?;
        let waiting = self.state.waiting_calls()?;
        calls.extend_from_slice(waiting.as_slice())?;
        Ok(calls)
    }

    /// The calls that are known to go ahead of a call and may come next.
    fn first_ones(&self, number: u64) -> Result<Vec<u64>, AllocError> {
        let mut first_ones = Vec::new(self.alloc);
        for first in self.lessons.ahead_of(number) {
            if self.state.is_open(self.problem, *first) {
                first_ones.push(*first)?;
            }
        }
        Ok(first_ones)
    }

    /// Places a call, if it may come next and is legal.
    fn place_if_open(&mut self, number: u64) -> Result<(), AllocError> {
        if !self.state.is_open(self.problem, number) {
            return Ok(());
        }
        self.place(number)?;
        Ok(())
    }

    /// Places a call if it is legal, and first those that are known to go ahead of it.
    fn place_behind(&mut self, number: u64, deepest: u32) -> Result<(), AllocError> {
        if deepest == 0 {
            return self.place_if_open(number);
        }
        let first_ones = self.first_ones(number)?;
        for first in first_ones.iter() {
            self.place_behind(*first, deepest - 1)?;
        }
        self.place_if_open(number)
    }

    /// Whether no crash takes a call's place, as far as is known.
    fn is_safe(&self, number: u64) -> Result<bool, AllocError> {
        if self.lessons.is_kept(number) || self.lessons.committed.contains_key(&number) {
            return Ok(true);
        }
        match self.found_changing(number)? {
            Some(found) => Ok(is_stable(&found, self.problem.nature(number))),
            None => Ok(false),
        }
    }

    /// Places a call that no crash takes, as far as is known.
    fn place_if_safe(&mut self, number: u64) -> Result<(), AllocError> {
        if !self.is_safe(number)? {
            return Ok(());
        }
        self.place_behind(number, DEEPEST)
    }

    /// Places what no crash takes ahead of a call, if one took that.
    fn place_safe(&mut self, number: u64) -> Result<(), AllocError> {
        if !self.lessons.is_lost(number) {
            return Ok(());
        }
        let calls = self.next_calls()?;
        for other in calls.iter() {
            self.place_if_safe(*other)?;
        }
        Ok(())
    }

    /// Places the call whose reply came first, or goes on without it.
    fn place_due(&mut self, number: u64) -> Result<(), AllocError> {
        self.place_safe(number)?;
        self.place_behind(number, DEEPEST)?;
        self.unstick(number)?;
        self.look()
    }

    /// Whether it is to end, or more calls couldn't be placed than sweeps are likely to explain.
    pub(crate) fn is_hopeless(&self) -> bool {
        let calls = self.problem.known().count() as u64;
        self.notes.is_stopped || self.notes.conflicts > FEWEST_CONFLICTS.saturating_add(calls / 8)
    }

    /// Places the calls of the era, unless it is hopeless.
    pub(crate) fn run_era<W: SweepWatch>(&mut self, watch: &mut W) -> Result<(), AllocError> {
        self.look()?;
        for _ in 0..self.problem.known().count().saturating_add(1) {
            let Some(number) = self.state.due() else {
                break;
            };
            if self.is_hopeless() {
                break;
            }
            self.place_due(number)?;
            watch.at(self.state.depth());
            if watch.is_over() {
                self.notes.stop();
            }
        }
        Ok(())
    }
}
