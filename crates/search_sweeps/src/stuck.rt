//! A call that can't be placed where its reply came: others go ahead of it, it goes ahead of others, or the next sweep knows better.

use crate::sweep::Sweep;
use search_lessons::found_of;
use search_problem::{FoundCall, Nature};
use std::alloc::AllocError;

/// How many calls may go ahead of a call in a row.
const MOST_HELPERS: u32 = 64;

impl<'p, 's, 'a> Sweep<'p, 's, 'a> {
    /// Whether a call may go ahead of another one: nothing else is known to go ahead of it.
    fn may_help(&self, number: u64, helper: u64) -> bool {
        helper != number
            && self.problem.nature(helper) != Nature::Looking
            && !self.lessons.ahead_of(helper).iter().any(|first| *first != number
                && self.state.is_open(self.problem, *first))
    }

    /// The calls that may go ahead of a call and change the tree.
    fn helpers_of(&self, number: u64) -> Result<Vec<u64>, AllocError> {
        let calls = self.next_calls()?;
        let mut helpers = Vec::new(self.alloc);
        for helper in calls.iter() {
            if self.may_help(number, *helper) {
                helpers.push(*helper)?;
            }
        }
        Ok(helpers)
    }

    /// Has calls go ahead of a call until that may be placed, `blind` of them at most that bring a directory no nearer to what it shows, and
    /// `most` in all. It says whether it may be placed then; else nothing changes.
    pub(crate) fn help(
        &mut self,
        number: u64,
        found: &FoundCall,
        blind: u32,
        most: u32,
    ) -> Result<bool, AllocError> {
        if blind == 0 || most == 0 {
            return Ok(false);
        }
        let depth = self.state.depth();
        let helpers = self.helpers_of(number)?;
        for helper in helpers.iter() {
            if !self.place(*helper)? {
                continue;
            }
            if self.is_legal(number)? {
                return Ok(true);
            }
            let left = self.blind_left(found, *helper, blind)?;
            if self.help(number, found, left, most - 1)? {
                return Ok(true);
            }
            self.back_to(depth)?;
        }
        Ok(false)
    }

    /// Places a call behind others that may go ahead of it, and says whether it could be placed; else nothing changes.
    pub(crate) fn place_helped(&mut self, number: u64, blind: u32) -> Result<bool, AllocError> {
        let Some(found) = found_of(self.alloc, self.problem, number)? else {
            return Ok(false);
        };
        if !self.help(number, &found, blind, MOST_HELPERS)? {
            return Ok(false);
        }
        self.place(number)
    }

    /// Places a call that isn't legal now, by what stands beside it, and says whether it could be placed; else nothing changes.
    fn place_beside(&mut self, number: u64, found: &FoundCall) -> Result<bool, AllocError> {
        if self.place_helped(number, 1)? {
            return Ok(true);
        }
        if self.place_helped(number, 2)? {
            return Ok(true);
        }
        if self.place_with_maker(number, found)? {
            return Ok(true);
        }
        if self.place_earlier(number, false)? {
            return Ok(true);
        }
        self.place_earlier(number, true)
    }

    /// Places a call that wasn't legal when it was due, if it is still to come, or learns why it isn't and goes on without it.
    pub(crate) fn unstick(&mut self, number: u64) -> Result<(), AllocError> {
        if !self.state.is_open(self.problem, number) {
            return Ok(());
        }
        let Some(found) = found_of(self.alloc, self.problem, number)? else {
            return Ok(());
        };
        if self.place_beside(number, &found)? {
            return Ok(());
        }
        self.notes.count_conflict();
        self.explain(number, &found)?;
        if self.place(number)? {
            return Ok(());
        }
        self.state.give_up(self.problem, number)
    }
}
