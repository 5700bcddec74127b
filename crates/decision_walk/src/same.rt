//! Whether one state stands for all that another one stands for.

ghost use Rattle.std.specs.Prelude.{◌≡◌, ◌∷◌, Bool, List, IfSome, IsTrue};
ghost use Rattle.nfs_history.specs.declared.knowing.KnownCalls.{KnownCalls};
ghost use Rattle.decision_core.specs.States.{Replaces};
ghost use Rattle.decision_walk.specs.declared.open_writes.OpenWrite.{OpenWrite};
ghost use Rattle.decision_walk.specs.Standing.{IsAt};
ghost use Rattle.decision_walk.specs.Resolving.{MayBeEmpty, Covers, HasBaseOf};

use crate::bars::has_bars;
use crate::call_lists::same_calls;
use crate::counting::names;
use crate::machine::HistoryMachine;
use crate::open_writes::{OpenWrite, is_same_write, open_at};
use crate::walk_state::WalkState;
use decision_steps::State;
use tree_starts::Profile;

impl<'h> HistoryMachine<'h> {
    /// Whether an open WRITE may have written nothing, and its handle is bound.
    fn may_be_empty(&self, stands: &State, one: OpenWrite) -> bool
        ensures { IsTrue result → MayBeEmpty self.now.history.now.known stands.now.binds one }
    {
        if self.history.profile() != Profile::Plain || one.least != 0 {
            return false;
        }
        let Some(write) = self.write_of(one.call) else {
            return false;
        };
        names(stands, &write.file, one.object)
    }

    /// The open WRITEs of a state that aren't found yet, after one of another state: the first is that one, or the state hasn't it, and it may have
    /// written nothing.
    fn left_after<'w>(
        &self,
        state: &WalkState,
        stands: &State,
        left: &'w [OpenWrite],
        one: OpenWrite,
    ) -> Option<&'w [OpenWrite]>
        ensures { IfSome result (λ rest. (others : List OpenWrite) → Covers self.now.history.now.known stands.now.binds state.now rest.now others
            → Covers self.now.history.now.known stands.now.binds state.now left.now (one ∷ others)) }
    {
        if let Some((first, rest)) = left.split_first() {
            if is_same_write(*first, one) {
                return Some(rest);
            }
        }
        if self.is_open_in(state, one.call) || open_at(left, one.object).is_some() {
            return None;
        }
        if self.may_be_empty(stands, one) {
            Some(left)
        } else {
            None
        }
    }

    /// Whether the second open WRITEs are the first ones, and others that may have written nothing.
    fn covers(
        &self,
        state: &WalkState,
        stands: &State,
        writes: &[OpenWrite],
        others: &[OpenWrite],
    ) -> bool
        ensures { IsTrue result → Covers self.now.history.now.known stands.now.binds state.now writes.now others.now }
    {
        let mut left = writes;
        for one in others {
            let Some(rest) = self.left_after(state, stands, left, *one) else {
                return false;
            };
            left = rest;
        }
        left.is_empty()
    }

    /// Whether a crash goes back to the same tree, with the same WRITEs open, but for some that may have written nothing. Both are compared by the same.
    fn has_base_of(&self, state: &WalkState, other: &WalkState) -> bool
        requires { state.now.origin ≡ other.now.origin }
        ensures { IsTrue result → HasBaseOf self.now.history.now.known other.now.binds state.now other.now.base }
    {
        match (&state.base, &other.base) {
            (None, None) => true,
            (Some(base), Some(another)) => {
                self.covers(
                    state,
                    &other.stands,
                    base.writes.as_slice(),
                    another.writes.as_slice(),
                ) && base.stands.has_tree_of(&another.stands)
            }
            _ => false,
        }
    }

    /// Whether the second state stands for all that the first stands for. Both are compared by the same.
    pub(crate) fn is_covered(&self, state: &WalkState, other: &WalkState) -> bool
        requires { state.now.origin ≡ other.now.origin }
        ensures { IsTrue result → Replaces (IsAt self.now.history.now.known self.now.marks.items) state.now other.now }
    {
        if state.era != other.era || state.past != other.past {
            return false;
        }
        if state.answered_to != other.answered_to {
            return false;
        }
        if !same_calls(state.placed.as_slice(), other.placed.as_slice()) {
            return false;
        }
        if !has_bars(state.barred.as_slice(), other.barred.as_slice()) {
            return false;
        }
        if !self.covers(
            state,
            &other.stands,
            state.writes.as_slice(),
            other.writes.as_slice(),
        ) {
            return false;
        }
        if !self.has_base_of(state, other) || !other.stands.agrees_with(&state.stands) {
            return false;
        }
        state.stands.has_tree_of(&other.stands)
    }
}
