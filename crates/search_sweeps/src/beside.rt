//! A call that goes ahead of others that were placed before.

use crate::sweep::Sweep;
use search_lessons::precedes;
use search_problem::{Move, Nature};
use std::alloc::AllocError;

/// The number of the call that a move places.
fn placed_by(chosen: Move) -> Option<u64> {
    match chosen {
        Move::Answer(number) | Move::Take(number) => Some(number),
        Move::Cut(_) => None,
    }
}

impl<'p, 's, 'a> Sweep<'p, 's, 'a> {
    /// The last call of the era, if another one may go ahead of it.
    fn last_beside(&self, number: u64) -> Option<u64> {
        let places = self.state.places();
        if places == 0 {
            return None;
        }
        match placed_by(self.state.place_at(places - 1)?) {
            Some(last) if !precedes(self.problem, last, number) => Some(last),
            _ => None,
        }
    }

    /// Places a call here, if it may be placed or, where help is taken, may be behind another one, and says whether it could be placed;
    /// else nothing changes.
    fn place_here(&mut self, number: u64, with_help: bool) -> Result<bool, AllocError> {
        if self.place(number)? {
            return Ok(true);
        }
        if with_help {
            return self.place_helped(number, 1);
        }
        Ok(false)
    }

    /// Places calls once more, the last of a list first, with others ahead of them where they need them, and says whether all could be
    /// placed.
    fn place_again(&mut self, calls: &[u64]) -> Result<bool, AllocError> {
        self.look()?;
        for number in calls.iter().rev() {
            if !self.state.is_open(self.problem, *number) {
                continue;
            }
            if !self.place_here(*number, true)? {
                return Ok(false);
            }
            self.look()?;
        }
        Ok(true)
    }

    /// Places a call as it was.
    fn restore_one(&mut self, number: u64) -> Result<(), AllocError> {
        if self.place(number)? {
            return Ok(());
        }
        self.notes.count_conflict();
        self.state.give_up(self.problem, number)
    }

    /// Places calls as they were, the last of a list first.
    fn restore(&mut self, calls: &[u64]) -> Result<(), AllocError> {
        for number in calls.iter().rev() {
            self.restore_one(*number)?;
        }
        Ok(())
    }

    /// Places a call here, and then others that were taken back, and says whether that could be done; else nothing changes.
    fn place_ahead(
        &mut self,
        number: u64,
        taken: &[u64],
        with_help: bool,
    ) -> Result<bool, AllocError> {
        let depth = self.state.depth();
        if !self.place_here(number, with_help)? {
            return Ok(false);
        }
        if self.place_again(taken)? {
            return Ok(true);
        }
        self.back_to(depth)?;
        Ok(false)
    }

    /// Goes back until a call may be placed, places it there, and then the others once more. It says whether that could be done; else
    /// nothing changes.
    pub(crate) fn place_earlier(
        &mut self,
        number: u64,
        with_help: bool,
    ) -> Result<bool, AllocError> {
        let mut taken = Vec::new(self.alloc);
        for _ in 0..self.state.places() {
            let Some(last) = self.last_beside(number) else {
                break;
            };
            let depth = self.state.depth().saturating_sub(1);
            self.back_to(depth)?;
            taken.push(last)?;
            if self.problem.nature(last) == Nature::Looking {
                continue;
            }
            if self.place_ahead(number, taken.as_slice(), with_help)? {
                return Ok(true);
            }
        }
        self.restore(taken.as_slice())?;
        Ok(false)
    }
}
