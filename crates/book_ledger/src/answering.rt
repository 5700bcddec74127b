//! Replies that go out.

ghost use Rattle.std.specs.Prelude.{◌≡◌, ◌↔◌, ◌≤◌, Some, None, length, IfOk, OnOk, OnErr, IfErr, IsTrue};
ghost use Rattle.history_file.specs.declared.event.Event.TheVariants as events;
ghost use Rattle.nfs_history.specs.declared.recorded.RecordedCall.{RecordedCall};
ghost use Rattle.nfs_history.specs.Appending.{Follows};
ghost use Rattle.nfs_history.specs.Precedence.{call_at, end_of};
ghost use Rattle.book_laws.specs.Book.Condition.{running};
ghost use Rattle.book_laws.specs.Book.{records_kept};
ghost use Rattle.book_laws.specs.Steps.{Answers};
ghost use Rattle.book_ledger.specs.Inside.{IsTied, StandsAt, OnlyHistory, GoesAt, Holds};
ghost use Rattle.book_ledger.specs.Refusals.{IsNow, AnswerStops};
ghost use Rattle.book_ledger.specs.Sending.{IsSent};
ghost use Rattle.book_ledger.specs.Spelling.{IsSpelled, IsPlacedWith};
ghost use Rattle.book_ledger.specs.Turns.{IsDurableAt, AnswersAt};

use crate::calls::promises;
use crate::fault::AnswerFault;
use crate::ledger::Ledger;
use crate::lookups::call_asked;
use crate::spelled::SpelledReply;
use nfs3_types::Outcome;
use std::alloc::AllocError;

impl Ledger {
    /// Whether what the reply at this place promises is on stable storage, where so many records are.
    fn is_durable(&self, number: u64, place: usize, mark: u64) -> bool
        requires tied { IsTied self.now }
        requires stands { StandsAt self.now number place }
        ensures { Holds (λ book. IsTrue result ↔ IsDurableAt (records_kept book) mark book.placed place) self.now }
    {
        let placed = &self.placed[place];
        if placed.records <= mark {
            return true;
        }
        !promises(call_asked(&self.history, number), &placed.outcome)
    }

    /// The reply at this place, with its message.
    fn spelled_at(&self, number: u64, place: usize) -> Result<SpelledReply, AllocError>
        requires tied { IsTied self.now }
        requires stands { StandsAt self.now number place }
        ensures { IfOk result (AnswersAt self.now number place) }
    {
        let placed = &self.placed[place];
        let Outcome::Received(reply) = &placed.outcome else {
            unreachable!();
        };
        SpelledReply::new(self.alloc, self.history.call(number).xid, reply)
    }

    /// Puts a reply, of which this is the message, behind the other events of the history.
    fn put_spelled(&mut self, number: u64, spelled: SpelledReply) -> Result<Vec<u8>, AnswerFault>
        requires from_one { 1 ≤ number }
        requires known { number ≤ length self.old.history.known.calls }
        ensures only { OnlyHistory self.old self.new }
        ensures as_far { self.new.calls.items ≡ self.old.calls.items }
        ensures spelled { IfOk result (λ answer. IsSpelled spelled.xid spelled.reply answer.items) }
        ensures taken { IfOk result (λ answer. (call : RecordedCall) → call_at self.old.history.known.calls number ≡ Some call
            → Follows self.old.history (events.Reply call.lane answer.items) self.new.history) }
        ensures sent { IfOk result (λ answer. IsSent self.old.history answer.items self.new.history) }
        ensures kept { OnErr result (self.new.history ≡ self.old.history) }
        ensures memory { IfErr result (λ fault. fault ≡ AnswerFault.NoMemory) }
    {
        let lane = self.history.call(number).lane;
        let (reply, message, answer) = spelled.into_parts();
        match self.history.append_read_reply(lane, message, reply) {
            Ok(()) => Ok(answer),
            Err(_) => Err(AnswerFault::NoMemory),
        }
    }

    /// Answers a call that stands at this place and has no reply, with this one, where what it promises is on stable storage.
    fn answer_spelled_at(
        &mut self,
        number: u64,
        place: usize,
        mark: u64,
        spelled: SpelledReply,
    ) -> Result<Vec<u8>, AnswerFault>
        requires tied { IsTied self.old }
        requires stands { StandsAt self.old number place }
        requires ready { Holds (λ book. (book.condition ≡ running) × IsNow book number × (end_of book.history.known.calls number ≡ None)) self.old }
        requires given { AnswersAt self.old number place spelled }
        ensures answered { OnOk result (GoesAt mark (λ old new. Answers old number new) self.old self.new) }
        ensures sent { IfOk result (λ message. IsSent self.old.history message.items self.new.history) }
        ensures refused { IfErr result (λ fault. GoesAt mark (λ old new. AnswerStops old number fault × (new ≡ old)) self.old self.new) }
    {
        let durable = self.is_durable(number, place, mark);
        if durable {
            self.put_spelled(number, spelled)
        } else {
            Err(AnswerFault::NotDurable(mark))
        }
    }

    /// Answers a call that stands at this place and has no reply.
    fn answer_placed(
        &mut self,
        number: u64,
        place: usize,
        mark: u64,
    ) -> Result<Vec<u8>, AnswerFault>
        requires tied { IsTied self.old }
        requires stands { StandsAt self.old number place }
        requires ready { Holds (λ book. (book.condition ≡ running) × IsNow book number × (end_of book.history.known.calls number ≡ None)) self.old }
        ensures answered { OnOk result (GoesAt mark (λ old new. Answers old number new) self.old self.new) }
        ensures sent { IfOk result (λ message. IsSent self.old.history message.items self.new.history) }
        ensures refused { IfErr result (λ fault. GoesAt mark (λ old new. AnswerStops old number fault × (new ≡ old)) self.old self.new) }
    {
        let durable = self.is_durable(number, place, mark);
        if !durable {
            return Err(AnswerFault::NotDurable(mark));
        }
        match self.spelled_at(number, place) {
            Ok(spelled) => self.answer_spelled_at(number, place, mark, spelled),
            Err(_) => Err(AnswerFault::NoMemory),
        }
    }

    /// Answers a call that was placed with this reply. Its message isn't made again, where it is one to this call.
    pub fn answer_spelled(
        &mut self,
        number: u64,
        mark: u64,
        spelled: SpelledReply,
    ) -> Result<Vec<u8>, AnswerFault>
        requires tied { IsTied self.old }
        requires placed { Holds (λ book. IsPlacedWith book.placed number spelled.reply) self.old }
        ensures answered { OnOk result (GoesAt mark (λ old new. Answers old number new) self.old self.new) }
        ensures sent { IfOk result (λ message. IsSent self.old.history message.items self.new.history) }
        ensures refused { IfErr result (λ fault. GoesAt mark (λ old new. AnswerStops old number fault × (new ≡ old)) self.old self.new) }
    {
        let place = match self.check_placed(number) {
            Ok(place) => place,
            Err(fault) => return Err(AnswerFault::from(fault)),
        };
        if self.is_of_call(number, &spelled) {
            self.answer_spelled_at(number, place, mark, spelled)
        } else {
            self.answer_placed(number, place, mark)
        }
    }

    /// Answers a call that was placed.
    pub fn answer(&mut self, number: u64, mark: u64) -> Result<Vec<u8>, AnswerFault>
        requires { IsTied self.old }
        ensures answered { OnOk result (GoesAt mark (λ old new. Answers old number new) self.old self.new) }
        ensures sent { IfOk result (λ message. IsSent self.old.history message.items self.new.history) }
        ensures refused { IfErr result (λ fault. GoesAt mark (λ old new. AnswerStops old number fault × (new ≡ old)) self.old self.new) }
    {
        match self.check_placed(number) {
            Ok(place) => self.answer_placed(number, place, mark),
            Err(fault) => Err(AnswerFault::from(fault)),
        }
    }
}
