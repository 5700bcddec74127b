//! What is looked up of a book's calls.

ghost use Rattle.std.specs.Prelude.{◌≡◌, ◌-◌, ◌<◌, ◌≤◌, ◌^◌, MatchOption, IfOk, OnOk, IfErr, Some, None, length, slice_get, option_map};
ghost use Rattle.history_file.specs.declared.event.Event.TheVariants as events;
ghost use Rattle.tree_starts.specs.Start.{object_made};
ghost use Rattle.nfs_history.specs.Precedence.{end_of};
ghost use Rattle.book_laws.specs.Book.Condition.{running};
ghost use Rattle.book_laws.specs.Steps.{IsUnplaced};
ghost use Rattle.book_ledger.specs.Inside.{IsTied, IsAsked, IsOneOf, StandsAt, Holds, asked_by};
ghost use Rattle.book_ledger.specs.Refusals.{IsNow};
ghost use Rattle.book_ledger.specs.Turns.{TokenStops, UnplacedStops, PlacedStops};

use crate::fault::TokenFault;
use crate::ledger::Ledger;
use crate::placed::Condition;
use nfs_history::{Event, History, LaneState, Meaning, RecordedCall};
use nfs3_types::NfsCall;

/// What a call asked, which is a judged one.
pub(crate) fn call_asked(history: &History, number: u64) -> &NfsCall
    requires { IsAsked history.now.known.calls number }
    ensures { result.now ≡ asked_by history.now.known.calls number }
{
    match &history.call(number).meaning {
        Meaning::Judged(call) => call,
        Meaning::Unjudged => unreachable!(),
    }
}

/// The number of the object that a call makes, if it makes one. A history has too few calls and starting objects for a sum past 64
/// bits.
pub(crate) fn object_made(history: &History, number: u64) -> Option<u64>
    ensures { MatchOption result (2 ^ 64 ≤ object_made (length history.now.known.head.start) number) (λ object. object ≡ object_made (length history.now.known.head.start) number) }
{
    journal::object_made(history.start().objects().len() as u64, number)
}

/// The same, where the sum has 64 bits.
pub(crate) fn object_of_call(history: &History, number: u64) -> u64
    requires { object_made (length history.now.known.head.start) number < 2 ^ 64 }
    ensures { result ≡ object_made (length history.now.known.head.start) number }
{
    match object_made(history, number) {
        Some(object) => object,
        None => unreachable!(),
    }
}

/// The message with which a call began.
pub(crate) fn message_of<'a>(history: &'a History, call: &RecordedCall) -> &'a [u8]
    requires { IsOneOf history.now.known.calls call.now }
    ensures { slice_get history.now.events (call.now.begin - 1) ≡ Some (events.Call call.now.lane result.now) }
{
    let Event::Call { lane: _, message } = &history.events()[call.begin as usize - 1] else {
        unreachable!();
    };
    message.as_slice()
}

impl Ledger {
    /// Where a call stands among those that were placed in its era.
    pub(crate) fn place_of(&self, number: u64) -> Option<usize>
        requires from_one { 1 ≤ number }
        requires within { number ≤ length self.now.calls.items }
        ensures { option_map (λ state. state.place) (slice_get self.now.calls.items (number - 1)) ≡ Some result }
    {
        self.calls[number as usize - 1].place
    }

    /// Whether the lane of a call of the era now is open, where the book is running.
    pub(crate) fn check_token(&self, number: u64) -> Result<(), TokenFault>
        ensures ok { OnOk result (Holds (λ book. (book.condition ≡ running) × IsNow book number) self.now) }
        ensures refused { IfErr result (λ fault. Holds (λ book. TokenStops book number fault) self.now) }
    {
        match self.condition {
            Condition::Running => {}
            Condition::Down => return Err(TokenFault::Down),
            Condition::Dead => return Err(TokenFault::Down),
        }
        let Some(call) = self.history.find_call(number) else {
            return Err(TokenFault::OutOfTurn);
        };
        let now = self.history.eras();
        if call.era != now {
            return Err(TokenFault::EraOver(now));
        }
        match self.history.lane(call.lane) {
            LaneState::Open => Ok(()),
            LaneState::EraOver => Err(TokenFault::EraOver(now)),
            LaneState::Closed => Err(TokenFault::LaneClosed),
        }
    }

    /// Whether a call may be placed, its reply aside.
    pub fn check_unplaced(&self, number: u64) -> Result<(), TokenFault>
        requires { IsTied self.now }
        ensures ok { OnOk result (Holds (λ book. (book.condition ≡ running) × IsNow book number × IsUnplaced book.placed number) self.now) }
        ensures refused { IfErr result (λ fault. Holds (λ book. UnplacedStops book number fault) self.now) }
    {
        match self.check_token(number) {
            Ok(()) => {}
            Err(fault) => return Err(fault),
        }
        match self.place_of(number) {
            Some(_) => Err(TokenFault::OutOfTurn),
            None => Ok(()),
        }
    }

    /// Whether a call of the era now has no reply, where the book is running.
    fn check_unanswered(&self, number: u64) -> Result<(), TokenFault>
        requires { IsTied self.now }
        ensures ok { OnOk result (Holds (λ book. (book.condition ≡ running) × IsNow book number × (end_of book.history.known.calls number ≡ None)) self.now) }
        ensures refused { IfErr result (λ fault. Holds (λ book. PlacedStops book number fault) self.now) }
    {
        match self.check_token(number) {
            Ok(()) => {}
            Err(fault) => return Err(fault),
        }
        match self.history.end(number) {
            Some(_) => Err(TokenFault::OutOfTurn),
            None => Ok(()),
        }
    }

    /// Where a call stands that may be answered, what its reply promises aside.
    pub(crate) fn check_placed(&self, number: u64) -> Result<usize, TokenFault>
        requires { IsTied self.now }
        ensures stands { IfOk result (λ place. StandsAt self.now number place) }
        ensures ok { OnOk result (Holds (λ book. (book.condition ≡ running) × IsNow book number × (end_of book.history.known.calls number ≡ None)) self.now) }
        ensures refused { IfErr result (λ fault. Holds (λ book. PlacedStops book number fault) self.now) }
    {
        match self.check_unanswered(number) {
            Ok(()) => {}
            Err(fault) => return Err(fault),
        }
        match self.place_of(number) {
            Some(place) => Ok(place),
            None => Err(TokenFault::OutOfTurn),
        }
    }
}
