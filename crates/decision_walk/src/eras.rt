//! What a history says of the eras of calls and crashes, and of when calls were answered.

ghost use Rattle.std.specs.Prelude.{◌≡◌, ◌≤◌, IfSome, IsTrue, length};
ghost use Rattle.tree_starts.specs.Start.{object_made};
ghost use Rattle.decision_law.specs.Times.{era_of_number};
ghost use Rattle.decision_walk.specs.Standing.{EndsBy, EndsAfter, is_of_earlier, is_told};

use crate::call_lists::has_call;
use crate::machine::HistoryMachine;
use crate::walk_state::WalkState;
use crate::why::Why;
use decision_core::Stop;

/// That something isn't as it is in each history that can be read.
pub(crate) fn way_lost() -> Stop<Why> {
    Stop::NotCovered(Why::WayLost)
}

impl<'h> HistoryMachine<'h> {
    /// The number of the object that a call makes.
    pub(crate) fn object_made(&self, number: u64) -> Option<u64>
        ensures { IfSome result (λ object. object ≡ object_made (length self.now.history.now.known.head.start) number) }
    {
        let first = self.history.start().objects().len();
        number.checked_add(first as u64)
    }

    /// The era of a call, or of a crash; 0, where no call has the number.
    pub(crate) fn era_of(&self, n: u64) -> u64
        ensures { result ≡ era_of_number self.now.history.now.known n }
    {
        let calls = self.history.calls();
        if n > calls {
            return n - calls;
        }
        match self.history.find_call(n) {
            Some(recorded) => recorded.era,
            None => 0,
        }
    }

    /// Whether a number is that of a call, or of a crash, of an earlier era.
    pub(crate) fn is_of_earlier(&self, era: u64, n: u64) -> bool
        ensures { result ≡ is_of_earlier self.now.history.now.known era n }
    {
        self.era_of(n) < era
    }

    /// Whether a call or a crash is placed in a state, as far as it knows.
    pub(crate) fn is_told(&self, state: &WalkState, n: u64) -> bool
        ensures { result ≡ is_told self.now.history.now.known state.now n }
    {
        self.is_of_earlier(state.past, n) || has_call(state.placed.as_slice(), n)
    }

    /// The later of an event and of the reply to a call.
    pub(crate) fn answered_with(&self, event: u64, n: u64) -> u64
        ensures later { event ≤ result }
        ensures ends { EndsBy self.now.history.now.known n result }
    {
        let Some(recorded) = self.history.find_call(n) else {
            return event;
        };
        match recorded.end {
            Some(end) => event.max(end),
            None => event,
        }
    }

    /// Whether a call was answered after an event.
    pub(crate) fn is_answered_after(&self, event: u64, n: u64) -> bool
        ensures { IsTrue result → EndsAfter self.now.history.now.known n event }
    {
        let Some(recorded) = self.history.find_call(n) else {
            return false;
        };
        match recorded.end {
            Some(end) => event < end,
            None => false,
        }
    }

    /// How many calls there are up to the end of an era.
    pub(crate) fn calls_up_to(&self, era: u64) -> u64 {
        let mut low = 0;
        let mut high = self.history.calls();
        for _ in 0..u64::BITS {
            if low >= high {
                return low;
            }
            let middle = low + (high - low) / 2;
            if era < self.era_of(middle + 1) {
                high = middle;
            } else {
                low = middle + 1;
            }
        }
        low
    }
}
