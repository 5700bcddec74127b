//! Calls that a state places at once: those that leave the tree as it is, whatever a plan does before them; and calls of eras that are over.

ghost use Rattle.std.specs.Prelude.{◌≡◌, ◌∷◌, [], not, filter, IfOk, IfSome, IsTrue};
ghost use Rattle.decision_walk.specs.Settling.{may_change, sets_no_size, LeavesTree, MaySettle, SettlesAt};
ghost use Rattle.decision_walk.specs.Standing.{is_of_earlier};

use crate::machine::HistoryMachine;
use crate::unbound::is_guessed;
use crate::walk_state::WalkState;
use crate::why::Why;
use decision_core::Stop;
use decision_steps::is_failure;
use nfs_history::{Meaning, RecordedCall};
use nfs3_types::NfsCall;

/// Whether a call is one of a procedure that changes the tree where it succeeds.
pub(crate) fn may_change(call: &NfsCall) -> bool
    ensures { result ≡ may_change call.now }
{
    call.procedure().changes_the_tree()
}

/// Whether a call is a SETATTR that sets no size.
fn sets_no_size(call: &NfsCall) -> bool
    ensures { result ≡ sets_no_size call.now }
{
    match call {
        NfsCall::SetAttr(call) => call.attributes.size.is_none(),
        _ => false,
    }
}

/// Whether a call leaves each tree as it is, however it came out.
fn leaves_tree(recorded: &RecordedCall) -> bool
    ensures { IsTrue result → LeavesTree recorded.now }
{
    let Meaning::Judged(call) = &recorded.meaning else {
        return false;
    };
    if sets_no_size(call) {
        return true;
    }
    if recorded.end.is_none() {
        return false;
    }
    match &recorded.outcome {
        Some(outcome) => !may_change(call) || is_failure(outcome),
        None => false,
    }
}

impl<'h> HistoryMachine<'h> {
    /// The call, where it may be placed in a state without a change of the tree: one of the state's era that isn't placed.
    fn settling(&self, state: &WalkState, n: u64) -> Option<&RecordedCall>
        ensures { IfSome result (λ recorded. MaySettle self.now.history.now.known state.now n recorded.now) }
    {
        let recorded = self.history.find_call(n)?;
        if state.era > 0
            && recorded.era == state.era
            && leaves_tree(recorded)
            && !self.is_told(state, n)
        {
            Some(recorded)
        } else {
            None
        }
    }

    /// Whether such a call comes out so in a state, and gives no handle that isn't bound there, nor names one of which it would be told apart what it names.
    /// One without a reply may.
    fn fits_now(
        &self,
        state: &WalkState,
        n: u64,
        recorded: &RecordedCall,
    ) -> Result<bool, Stop<Why>> {
        let (Meaning::Judged(call), Some(outcome)) = (&recorded.meaning, &recorded.outcome) else {
            return Ok(recorded.end.is_none());
        };
        let Some(object) = self.object_made(n) else {
            return Ok(false);
        };
        if self.is_touched(state, n, call, outcome) || is_guessed(state, call) {
            return Ok(false);
        }
        let profile = self.history.profile();
        Ok(
            state
                .stands
                .is_left_by(self.alloc, profile, object, call, outcome)?,
        )
    }

    /// Places a call in a state, where it leaves the tree as it is and fits now.
    fn settle_one(&self, state: WalkState, n: u64) -> Result<WalkState, Stop<Why>>
        ensures settles { IfOk result (SettlesAt self.now.history.now.known self.now.marks.items (n ∷ []) state) }
        ensures origin { IfOk result (λ after. after.origin ≡ state.origin) }
    {
        let Some(recorded) = self.settling(&state, n) else {
            return Ok(state);
        };
        if !self.fits_now(&state, n, recorded)? {
            return Ok(state);
        }
        let settled = state.with_settled(n, recorded.end.is_some())?;
        Ok(settled)
    }

    /// The same for each of these calls.
    fn settle_each(&self, state: WalkState, calls: &[u64]) -> Result<WalkState, Stop<Why>>
        ensures settles { IfOk result (SettlesAt self.now.history.now.known self.now.marks.items calls.now state) }
        ensures origin { IfOk result (λ after. after.origin ≡ state.origin) }
    {
        let mut state = state;
        for call in calls {
            state = self.settle_one(state, *call)?;
        }
        Ok(state)
    }

    /// The calls of this era and of later ones.
    pub(crate) fn without_earlier(&self, calls: Vec<u64>, era: u64) -> Vec<u64>
        ensures { result.items ≡ filter (λ n. not (is_of_earlier self.now.history.now.known era n)) calls.items }
    {
        let mut calls = calls;
        calls.retain(|n| !self.is_of_earlier(era, *n));
        calls
    }

    /// The state, in which calls of earlier eras count as placed, and those of these calls are placed that leave the tree as it is and fit
    /// now.
    pub(crate) fn settle_state(
        &self,
        state: WalkState,
        calls: &[u64],
    ) -> Result<WalkState, Stop<Why>>
        ensures settles { IfOk result (SettlesAt self.now.history.now.known self.now.marks.items calls.now state) }
        ensures origin { IfOk result (λ after. after.origin ≡ state.origin) }
    {
        if state.past < state.era {
            self.settle_each(state.with_past_done(self), calls)
        } else {
            self.settle_each(state, calls)
        }
    }
}
