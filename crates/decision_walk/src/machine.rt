//! The machine of a history.

ghost use Rattle.std.specs.Prelude.{◌≡◌, refl};
ghost use Rattle.certificate.specs.declared.plan.Certificate.{Certificate};
ghost use Rattle.decision_core.specs.Eras.{EraState, is_placed};
ghost use Rattle.decision_core.proofs.ErasWalk.{eras_told};
ghost use Rattle.tree_nodes.specs.Tree.{Tree};
ghost use Rattle.tree_handles.specs.Binding.{Bindings};
ghost use Rattle.decision_law.specs.Laws.{binds_of};
ghost use Rattle.decision_law.specs.Machine.{Changes, Next, first_point};
ghost use Rattle.decision_walk.specs.Standing.{IsAt, hints_of, numbers_of};

use crate::walk_state::WalkState;
use crate::why::Why;
use decision_core::{Machine, Stop};
use decision_steps::State;
use nfs_history::History;
use std::alloc::Global;

/// The machine of a history: its plans are certificates, and its states are trees with handles. Calls may be marked that no crash takes away.
pub struct HistoryMachine<'h> {
    pub(crate) alloc: Global,
    /// The history.
    pub(crate) history: &'h History,
    /// For each call whether it is told to be lost in no crash.
    pub(crate) marks: Vec<bool>,
}

impl<'h> Drop for HistoryMachine<'h> {
    fn drop(self) {
        let HistoryMachine {
            alloc: _,
            history: _,
            marks,
        } = self;
        drop(marks);
    }
}

impl<'h> HistoryMachine<'h> {
    /// The machine of a history, of which these calls are marked.
    pub fn new(alloc: Global, history: &'h History, marks: Vec<bool>) -> HistoryMachine<'h>
        ensures history { result.history.now ≡ history.now }
        ensures marks { result.marks.items ≡ marks.items }
    {
        HistoryMachine {
            alloc,
            history,
            marks,
        }
    }
}

impl<'h> Machine for HistoryMachine<'h> {
    type State = WalkState;

    type Reason = Why;

    ghost Origin = { Tree × Bindings };

    ghost origin = { λ s. s.origin };

    ghost itself = { λ s. (s.tree, s.binds) };

    ghost Plan = { Certificate };

    ghost Point = { EraState Tree };

    ghost first = { λ machine _. first_point machine.history.now.known };

    ghost placed = { λ _. is_placed };

    ghost Next = { λ machine plan. Next machine.history.now.known (hints_of machine.marks.items) (binds_of machine.history.now.known plan) };

    ghost StandsFor = { λ machine. IsAt machine.history.now.known machine.marks.items };

    fn opening(&self) -> Result<WalkState, Stop<Why>> {
        let start = self.history.start().lend(self.alloc)?;
        let root = self.history.root().as_slice();
        let handles = self.handles()?;
        let stands = State::opening(self.alloc, root, &start, handles.as_slice())?;
        Ok(WalkState::opening(self.alloc, stands))
    }

    fn is_placed(&self, state: &WalkState, n: u64) -> bool {
        self.is_told(state, n)
    }

    fn step_each(&self, state: &WalkState, calls: &[u64]) -> Result<Vec<WalkState>, Stop<Why>> {
        self.step_calls(state, calls)
    }

    fn settle(&self, state: WalkState, calls: &[u64]) -> Result<WalkState, Stop<Why>> {
        self.settle_state(state, calls)
    }

    fn forget(&self, state: WalkState, n: u64) -> WalkState {
        let answered_to = self.answered_with(state.answered_to, n);
        state.without_call(n, answered_to)
    }

    fn is_worn(&self, state: &WalkState) -> bool {
        state.is_worn()
    }

    fn renew(&self, like: &WalkState, state: WalkState) -> Result<WalkState, Stop<Why>> {
        Ok(state.renewed(&like.stands)?)
    }

    fn renew_first(&self, state: WalkState) -> Result<WalkState, Stop<Why>> {
        let like = state.stands.copy()?;
        Ok(state.renewed(&like)?)
    }

    fn is_same(&self, state: &WalkState, other: &WalkState) -> bool {
        self.is_covered(state, other)
    }

    fn hash(&self, state: &WalkState) -> u64 {
        state.digest()
    }

    ghost told = { λ machine plan. eras_told (Changes machine.history.now.known (binds_of machine.history.now.known plan)) (numbers_of machine.history.now.known machine.marks.items) };

    ghost fresh = { λ _ _ _. refl };
}
