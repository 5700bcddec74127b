//! Which moves may follow a branch, the likeliest first.

use crate::branch_facts::BranchFacts;
use cut_check::Stability;
use nfs3_types::{Answer, NfsCall, NfsReply, Outcome};
use search_problem::{FoundCall, Move, Nature, Problem, find};
use std::alloc::AllocError;

/// Whether a call is a WRITE that was answered with bytes written.
fn is_write(found: &FoundCall) -> bool {
    match &found.outcome {
        Outcome::Received(NfsReply::Write(Answer::Done(success))) => success.count > 0,
        _ => false,
    }
}

impl BranchFacts {
    /// Whether the answered calls of the era are all placed.
    pub(crate) fn is_era_done(&self) -> bool {
        self.open.is_empty()
    }

    /// Puts the answered calls of a nature behind others, by their replies.
    fn put_answers(
        &self,
        problem: &Problem<'_, '_>,
        nature: Nature,
        moves: &mut Vec<Move>,
    ) -> Result<(), AllocError> {
        for (_, number) in self.open.iter() {
            if problem.nature(*number) == nature {
                moves.push(Move::Answer(*number))?;
            }
        }
        Ok(())
    }

    /// The moves that may come next: calls that leave the tree first, then those that change it, each by their replies; where all
    /// are placed the end of the era, with more places kept first; then calls to which no reply came. It takes n log n of them,
    /// and at the end of an era reads its calls.
    pub(crate) fn moves(&self, problem: &Problem<'_, '_>) -> Result<Vec<Move>, AllocError> {
        let mut moves = Vec::new(self.alloc);
        if self.is_era_done() && problem.is_last(self.front.era) {
            return Ok(moves);
        }
        self.put_answers(problem, Nature::Looking, &mut moves)?;
        self.put_answers(problem, Nature::Changing, &mut moves)?;
        if self.is_era_done() {
            self.put_cuts(problem, &mut moves)?;
        }
        for (number, _) in self.waiting.iter() {
            moves.push(Move::Take(*number))?;
        }
        Ok(moves)
    }

    /// Puts the ends of the era behind other moves.
    fn put_cuts(&self, problem: &Problem<'_, '_>, moves: &mut Vec<Move>) -> Result<(), AllocError> {
        let places = self.path.len().saturating_sub(self.front.era_start);
        let least = self.least_cut(problem)?;
        for fewer in 0..places.saturating_add(1) {
            let kept = places.saturating_sub(fewer);
            if kept < least {
                break;
            }
            moves.push(Move::Cut(kept))?;
        }
        Ok(())
    }

    /// How many places of the era a crash can't take: up to the last stable one, and where a later era shows the era's write
    /// verifier up to the last WRITE.
    pub(crate) fn least_cut(&self, problem: &Problem<'_, '_>) -> Result<usize, AllocError> {
        let is_shown_again = self.span(problem).is_shown_again;
        let mut stability = Stability::new(self.alloc);
        let mut last_write = 0;
        let mut position = 0usize;
        for step in self.path.iter().skip(self.front.era_start) {
            position = position.saturating_add(1);
            let Some(found) = find(self.alloc, problem.known(), step.chosen)? else {
                continue;
            };
            stability.note(self.object_of(&found.call), &found.call, &found.outcome)?;
            if is_shown_again && is_write(&found) {
                last_write = position;
            }
        }
        Ok(last_write.max(stability.needed() as usize))
    }

    /// The object that a WRITE's or a COMMIT's handle names.
    fn object_of(&self, call: &NfsCall) -> Option<u64> {
        match call {
            NfsCall::Write(write) => self.binds.object(write.file.as_slice()),
            NfsCall::Commit(commit) => self.binds.object(commit.file.as_slice()),
            _ => None,
        }
    }
}
