//! Calls that begin.

ghost use Rattle.std.specs.Prelude.{◌≡◌, ℕ, List, [], ◌∷◌, ◌++◌, false, None, IfOk, OnOk, OnErr, IfErr, length};
ghost use Rattle.history_file.specs.declared.event.Event.TheVariants as events;
ghost use Rattle.nfs_history.specs.Appending.{Follows};
ghost use Rattle.book_laws.specs.Steps.{IsRecordable, Begins};
ghost use Rattle.book_ledger.specs.Inside.{Goes, Holds, OnlyHistory};
ghost use Rattle.book_ledger.specs.Refusals.{BeginStops};
ghost use Rattle.history_file.specs.Owning.{all_happened};
ghost use Rattle.nfs_history.specs.Standing.{IsClosed};
ghost use Rattle.book_ledger.specs.Recordable.{TakeStops, stop_of};
ghost use Rattle.nfs_history.specs.History.{Asks};

use crate::calls::check_recordable;
use crate::fault::BeginFault;
use crate::ledger::Ledger;
use crate::placed::{CallState, Condition};
use crate::token::Token;
use nfs_history::{HistoryFault, LaneState, Message};
use nfs3_types::NfsCall;

/// Why a history didn't take a call that may begin.
fn stop_of(fault: HistoryFault) -> BeginFault
    ensures { result ≡ stop_of fault }
{
    match fault {
        HistoryFault::XidInUse(_) => BeginFault::XidInUse,
        _ => BeginFault::NoMemory,
    }
}

impl Ledger {
    /// Puts a call behind the other events of the history.
    fn take_call(&mut self, lane: u32, message: Message, call: NfsCall) -> Result<(), BeginFault>
        requires { Asks message call }
        ensures only { OnlyHistory self.old self.new }
        ensures taken { OnOk result (Follows self.old.history (events.Call lane message) self.new.history) }
        ensures fresh { OnOk result (self.new.calls.items ≡ self.old.calls.items ++ record { place = None; made = false } ∷ []) }
        ensures kept { OnErr result (self.new.history ≡ self.old.history) }
        ensures as_far { OnErr result (self.new.calls.items ≡ self.old.calls.items) }
        ensures fault { IfErr result (TakeStops self.old.history lane message) }
    {
        self.calls.reserve(1)?;
        match self.history.append_read_call(lane, message, call) {
            Ok(()) => {
                let state = CallState {
                    place: None,
                    made: false,
                };
                self.calls.push(state).unwrap();
                Ok(())
            }
            Err(fault) => Err(stop_of(fault)),
        }
    }

    /// Why no call may begin on a lane.
    fn check_open(&self, lane: u32) -> Result<(), BeginFault>
        ensures ok { OnOk result ((self.now.condition ≡ Condition.Running) × (¬ IsClosed lane (all_happened self.now.history.events))) }
        ensures refused { IfErr result (λ fault. (message : List ℕ) → Holds (λ book. BeginStops book lane message fault) self.now) }
    {
        match self.condition {
            Condition::Running => {}
            Condition::Down => return Err(BeginFault::Down),
            Condition::Dead => return Err(BeginFault::Down),
        }
        match self.history.lane(lane) {
            LaneState::Open => Ok(()),
            LaneState::EraOver => Err(BeginFault::EraOver(self.history.eras())),
            LaneState::Closed => Err(BeginFault::LaneClosed),
        }
    }

    /// Why a call may not begin, but for its transaction number.
    fn check_begin(&self, lane: u32, message: &[u8]) -> Result<NfsCall, BeginFault>
        ensures ok { IfOk result (λ call. (self.now.condition ≡ Condition.Running) × (¬ IsClosed lane (all_happened self.now.history.events)) × IsRecordable message.now call) }
        ensures refused { IfErr result (λ fault. Holds (λ book. BeginStops book lane message.now fault) self.now) }
    {
        match self.check_open(lane) {
            Ok(()) => check_recordable(self.alloc, message),
            Err(fault) => Err(fault),
        }
    }

    /// Begins a call that may begin, unless its transaction number is in use.
    fn begin_checked(
        &mut self,
        lane: u32,
        message: Message,
        call: NfsCall,
    ) -> Result<Token, BeginFault>
        requires running { self.old.condition ≡ Condition.Running }
        requires lane { ¬ IsClosed lane (all_happened self.old.history.events) }
        requires message { IsRecordable message call }
        ensures begun { IfOk result (λ token. Goes (λ old new. Begins old lane message new × (token.number ≡ length new.history.known.calls)) self.old self.new) }
        ensures refused { IfErr result (λ fault. Goes (λ old new. BeginStops old lane message fault × (new ≡ old)) self.old self.new) }
    {
        match self.take_call(lane, message, call) {
            Ok(()) => Ok(Token::new(self.history.calls())),
            Err(fault) => Err(fault),
        }
    }

    /// Begins a call that was read of its message.
    pub fn begin_read(
        &mut self,
        lane: u32,
        message: Message,
        call: NfsCall,
    ) -> Result<Token, BeginFault>
        requires { IsRecordable message call }
        ensures begun { IfOk result (λ token. Goes (λ old new. Begins old lane message new × (token.number ≡ length new.history.known.calls)) self.old self.new) }
        ensures refused { IfErr result (λ fault. Goes (λ old new. BeginStops old lane message fault × (new ≡ old)) self.old self.new) }
    {
        match self.check_open(lane) {
            Ok(()) => self.begin_checked(lane, message, call),
            Err(fault) => Err(fault),
        }
    }

    /// Begins a call.
    pub fn begin(&mut self, lane: u32, message: &[u8]) -> Result<Token, BeginFault>
        ensures begun { IfOk result (λ token. Goes (λ old new. Begins old lane message.now new × (token.number ≡ length new.history.known.calls)) self.old self.new) }
        ensures refused { IfErr result (λ fault. Goes (λ old new. BeginStops old lane message.now fault × (new ≡ old)) self.old self.new) }
    {
        let call = match self.check_begin(lane, message) {
            Ok(call) => call,
            Err(fault) => return Err(fault),
        };
        match Message::from_slice(self.alloc, message) {
            Ok(message) => self.begin_checked(lane, message, call),
            Err(_) => Err(BeginFault::NoMemory),
        }
    }
}
