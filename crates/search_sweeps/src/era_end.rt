//! The end of an era: which of its places are kept.

use crate::sweep::Sweep;
use nfs3_types::{CommitArguments, NfsCall, WriteArguments};
use search_lessons::{Kept, found_of, is_failed, is_stable};
use search_problem::{FoundCall, Move, Nature};
use std::alloc::AllocError;

/// An unstable WRITE of the era.
#[derive(Clone, Copy)]
struct Unstable {
    number: u64,
    object: u64,
    first: u64,
    end: u64,
}

/// The end of what a COMMIT commits.
fn end_of(offset: u64, count: u32) -> u64 {
    if count == 0 {
        u64::MAX
    } else {
        offset.saturating_add(u64::from(count))
    }
}

impl<'p, 's, 'a> Sweep<'p, 's, 'a> {
    /// Places an unanswered call, if it is known to have taken effect.
    fn place_if_kept(&mut self, number: u64) -> Result<(), AllocError> {
        if !self.lessons.is_kept(number) {
            return Ok(());
        }
        if self.place(number)? {
            return Ok(());
        }
        self.notes.count_conflict();
        Ok(())
    }

    /// Places the unanswered calls that are known to have taken effect.
    fn place_kept(&mut self) -> Result<(), AllocError> {
        let waiting = self.state.waiting_calls()?;
        for number in waiting.iter() {
            self.place_if_kept(*number)?;
        }
        Ok(())
    }

    /// The number of the call at a place of the era.
    fn number_at(&self, place: usize) -> u64 {
        match self.state.place_at(place) {
            Some(Move::Answer(number) | Move::Take(number)) => number,
            _ => 0,
        }
    }

    /// A call that no crash takes.
    fn kept_call(&self, number: u64, is_committed: bool) -> Kept {
        Kept {
            number,
            begin: self.problem.known().begin(number),
            is_committed,
        }
    }

    /// Puts the WRITEs that a COMMIT of these bytes keeps behind other calls.
    fn put_committed(
        &self,
        kept: &mut Vec<Kept>,
        unstable: &[Unstable],
        commit: &CommitArguments,
    ) -> Result<(), AllocError> {
        let object = self.state.binds().object(commit.file.as_slice());
        let end = end_of(commit.offset, commit.count);
        for write in unstable {
            if Some(write.object) == object && write.first < end && commit.offset < write.end {
                kept.push(self.kept_call(write.number, true))?;
            }
        }
        Ok(())
    }

    /// An unstable WRITE, where its handle names something.
    fn unstable_write(&self, number: u64, write: &WriteArguments) -> Option<Unstable> {
        let object = self.state.binds().object(write.file.as_slice())?;
        Some(Unstable {
            number,
            object,
            first: write.offset,
            end: write.offset.saturating_add(u64::from(write.count)),
        })
    }

    /// Puts what an answered call says of which calls are kept behind other calls; it may be an unstable WRITE itself.
    fn put_kept(
        &self,
        kept: &mut Vec<Kept>,
        unstable: &mut Vec<Unstable>,
        number: u64,
        found: &FoundCall,
    ) -> Result<(), AllocError> {
        if is_stable(found, self.problem.nature(number)) {
            kept.push(self.kept_call(number, false))?;
            return Ok(());
        }
        if is_failed(found) {
            return Ok(());
        }
        match &found.call {
            NfsCall::Write(write) => {
                if let Some(write) = self.unstable_write(number, write) {
                    unstable.push(write)?;
                }
                Ok(())
            }
            NfsCall::Commit(commit) => self.put_committed(kept, unstable.as_slice(), commit),
            _ => Ok(()),
        }
    }

    /// The calls of the era that no crash takes.
    fn kept_calls(&self) -> Result<Vec<Kept>, AllocError> {
        let mut kept = Vec::new(self.alloc);
        let mut unstable = Vec::new(self.alloc);
        for place in 0..self.state.places() {
            let number = self.number_at(place);
            if self.problem.nature(number) == Nature::Unanswered {
                continue;
            }
            if let Some(found) = found_of(self.alloc, self.problem, number)? {
                self.put_kept(&mut kept, &mut unstable, number, &found)?;
            }
        }
        Ok(kept)
    }

    /// The calls at the first places of the era.
    fn first_calls(&self, count: usize) -> Result<Vec<u64>, AllocError> {
        let mut calls = Vec::new(self.alloc);
        for place in 0..count {
            calls.push(self.number_at(place))?;
        }
        Ok(calls)
    }

    /// The first place of the era that is known to be lost, or how many there are.
    fn first_lost(&self) -> usize {
        let places = self.state.places();
        for place in 0..places {
            if self.lessons.is_lost(self.number_at(place)) {
                return place;
            }
        }
        places
    }

    /// The last place of the era with a call of its own that is known to be kept, if it stands past so many.
    fn last_kept(&self, past: usize) -> Option<usize> {
        let era = (self.state.era() as u64).saturating_add(1);
        for place in (past..self.state.places()).rev() {
            let number = self.number_at(place);
            if self.lessons.is_kept(number) && self.problem.known().era(number) == Some(era) {
                return Some(place);
            }
        }
        None
    }

    /// Takes back that a crash took one of so many places, if that was said.
    fn settle_needed(&mut self, needed: usize) -> Result<(), AllocError> {
        if self.first_lost() >= needed {
            return Ok(());
        }
        self.notes.count_conflict();
        let calls = self.first_calls(needed)?;
        self.lessons.keep_all_for_good(calls.as_slice())
    }

    /// Takes back that a crash took a place, or that one behind it was kept, if both was said; so many places are to be kept.
    fn settle_kept(&mut self, cut: usize) -> Result<(), AllocError> {
        let Some(kept) = self.last_kept(cut) else {
            return Ok(());
        };
        self.notes.count_conflict();
        let lost = self.number_at(cut);
        let kept = self.number_at(kept);
        self.lessons.settle_cut(lost, kept)
    }

    /// How many places are kept, by what was learned.
    fn choose_cut(&mut self) -> Result<usize, AllocError> {
        let needed = self.state.least_cut(self.problem)?;
        let cut = self.first_lost().max(needed);
        self.settle_needed(needed)?;
        self.settle_kept(cut)?;
        Ok(cut)
    }

    /// The unanswered calls of the era that aren't kept, each with whether it had a place.
    fn calls_left_out(&self, kept: usize) -> Result<Vec<(u64, bool)>, AllocError> {
        let mut calls = Vec::new(self.alloc);
        for place in kept..self.state.places() {
            let number = self.number_at(place);
            if self.problem.nature(number) == Nature::Unanswered {
                calls.push((number, true))?;
            }
        }
        let waiting = self.state.waiting_calls()?;
        for number in waiting.iter() {
            calls.push((*number, false))?;
        }
        Ok(calls)
    }

    /// Ends the era, and says whether another one follows.
    pub(crate) fn end_era(&mut self) -> Result<bool, AllocError> {
        self.place_kept()?;
        let era = self.state.era();
        if self.problem.is_last(era) {
            return Ok(false);
        }
        let sure = self.kept_calls()?;
        self.notes.marks.keep(era, sure.as_slice())?;
        let kept = self.choose_cut()?;
        let calls = self.calls_left_out(kept)?;
        self.notes
            .leave_out(self.alloc, self.problem, era, calls.as_slice())?;
        self.notes
            .end_era(era, kept, self.state.depth(), self.state.places());
        self.cut(kept)?;
        Ok(true)
    }
}
