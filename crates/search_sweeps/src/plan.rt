//! The plan that the sweeps come to.

use crate::sweep::Sweep;
use crate::watch::SweepWatch;
use certificate::Certificate;
use search_lessons::{Lessons, NamesGiven};
use search_problem::Problem;
use std::alloc::{AllocError, Global};

/// How many sweeps are made, at most.
const MOST_PASSES: u64 = 8;

impl<'p, 's, 'a> Sweep<'p, 's, 'a> {
    /// Places the calls of all eras, unless it is hopeless.
    fn run<W: SweepWatch>(&mut self, watch: &mut W) -> Result<(), AllocError> {
        for _ in 0..self.problem.known().eras() {
            self.run_era(watch)?;
            if self.is_hopeless() {
                break;
            }
            if !self.end_era()? {
                break;
            }
        }
        Ok(())
    }

    /// What was learned, for the next sweep.
    fn into_lessons(self) -> Lessons {
        let Sweep {
            alloc: _,
            problem: _,
            names: _,
            state,
            lessons,
            notes,
        } = self;
        drop(state);
        let mut lessons = lessons;
        lessons.committed = notes.into_committed();
        lessons
    }
}

/// A plan that so many sweeps come to, or eight, whichever are fewer, where no object has more than one handle or each may.
fn plan_with<W: SweepWatch>(
    alloc: Global,
    problem: &Problem<'_, '_>,
    names: &NamesGiven,
    turns: u64,
    has_one_handle: bool,
    watch: &mut W,
) -> Result<Option<Certificate>, AllocError> {
    let mut lessons = Lessons::new(alloc);
    for _ in 0..turns.min(MOST_PASSES) {
        let mut sweep = Sweep::begin(alloc, problem, names, lessons, has_one_handle)?;
        sweep.run(watch)?;
        if sweep.is_hopeless() {
            return Ok(None);
        }
        if sweep.notes.conflicts == 0 {
            return Ok(Some(sweep.state.certificate(problem)?));
        }
        lessons = sweep.into_lessons();
    }
    Ok(None)
}

/// A plan in which each call of a history has a place that was legal, where so many sweeps come to one, or sixteen, whichever are
/// fewer. That an object would have a second handle shows that a guess of an unanswered call was wrong; so the first eight allow none.
pub fn plan_of<W: SweepWatch>(
    alloc: Global,
    problem: &Problem<'_, '_>,
    turns: u64,
    watch: &mut W,
) -> Result<Option<Certificate>, AllocError> {
    let names = NamesGiven::of(alloc, problem)?;
    match plan_with(alloc, problem, &names, turns, true, watch)? {
        Some(plan) => Ok(Some(plan)),
        None => {
            let left = turns.saturating_sub(MOST_PASSES);
            plan_with(alloc, problem, &names, left, false, watch)
        }
    }
}
