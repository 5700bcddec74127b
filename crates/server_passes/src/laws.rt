//! What an exchange is: the law is the contract of a function that does nothing.

ghost use Rattle.std.specs.Prelude.{◌≡◌, ℕ, Some, IfSome};
ghost use Rattle.nfs_history.specs.declared.history.History.{History};
ghost use Rattle.nfs_history.specs.declared.recorded.RecordedCall.{RecordedCall};
ghost use Rattle.nfs_history.specs.History.{IsHistory, recording_of};
ghost use Rattle.nfs_history.specs.Precedence.{call_at};
ghost use Rattle.server_passes.specs.Matching.{exchange_of, WasRecorded};

/// An answered call of a history has its two events: an exchange has the messages of a call and of a reply on its lane.
pub fn an_exchange_was_recorded()
    ensures { (history : History) (number : ℕ) (call : RecordedCall) → IsHistory (recording_of history) history
        → call_at history.known.calls number ≡ Some call → IfSome (exchange_of history call) (WasRecorded history call) }
{}
