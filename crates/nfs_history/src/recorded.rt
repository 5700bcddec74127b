//! The calls of a history.

ghost use Rattle.std.specs.Prelude.{◌≡◌, Some};
ghost use Rattle.std.specs.Option.{option_copied};
ghost use Rattle.nfs_history.specs.Precedence.{call_at};
ghost use Rattle.nfs_history.specs.Reread.{failure_of};

use nfs3_types::{Failure, NfsCall, Outcome, Procedure};

/// What a call was.
#[derive(Drop)]
pub enum Meaning {
    /// A call of a judged procedure.
    Judged(NfsCall),
    /// A call that has no effect and no place in the serial order.
    Unjudged,
}

/// A call of a history.
pub struct RecordedCall {
    /// The lane that it was sent on.
    pub lane: u32,
    /// The transaction number.
    pub xid: u32,
    /// What it asked for, where it is judged.
    pub meaning: Meaning,
    /// The number of its event.
    pub begin: u64,
    /// The number of the event of its reply, where one came.
    pub end: Option<u64>,
    /// The era in which it began, counted from 1.
    pub era: u64,
    /// Of an answered judged call.
    pub outcome: Option<Outcome>,
}

/// What a call is for a plan.
#[derive(Clone, Copy)]
pub enum CallKind {
    /// It has no effect and no place in the serial order.
    Unjudged,
    /// A judged call of this procedure, to which no reply came.
    Unanswered(Procedure),
    /// A judged call of this procedure, and how it failed if it did.
    Answered(Procedure, Option<Failure>),
}

/// The status of an outcome that is a failure.
fn failure_of(outcome: &Outcome) -> Option<Failure>
    ensures { result ≡ failure_of outcome.now }
{
    match outcome {
        Outcome::Received(reply) => reply.failure(),
        Outcome::Taken(_) => None,
    }
}

impl RecordedCall {
    ghost use Rattle.std.specs.Prelude.{◌≡◌, Some};
    ghost use Rattle.nfs_history.specs.Reread.{call_kind, judged_in};

    /// What it is for a plan.
    pub fn kind(&self) -> CallKind
        ensures { result ≡ call_kind self.now }
    {
        let Meaning::Judged(call) = &self.meaning else {
            return CallKind::Unjudged;
        };
        match &self.outcome {
            Some(outcome) => CallKind::Answered(call.procedure(), failure_of(outcome)),
            None => CallKind::Unanswered(call.procedure()),
        }
    }

    /// Takes in its outcome, and the number of the event of its reply.
    pub(crate) fn come_out(&mut self, number: u64, outcome: Option<Outcome>)
        ensures { self.new ≡ record self.old { «end» = Some number; outcome = outcome } }
    {
        self.end = Some(number);
        self.outcome = outcome;
    }

    /// The call, where it is a judged one, and how it came out.
    pub fn into_judged(self) -> Option<(NfsCall, Option<Outcome>)>
        ensures { result ≡ judged_in self }
    {
        let RecordedCall {
            lane: _,
            xid: _,
            meaning,
            begin: _,
            end: _,
            era: _,
            outcome,
        } = self;
        match meaning {
            Meaning::Judged(call) => Some((call, outcome)),
            Meaning::Unjudged => {
                drop(outcome);
                None
            }
        }
    }
}

impl Drop for RecordedCall {
    fn drop(self) {
        let RecordedCall {
            lane: _,
            xid: _,
            meaning,
            begin: _,
            end: _,
            era: _,
            outcome,
        } = self;
        drop(meaning);
        drop(outcome);
    }
}

/// Call n of a list of calls, from 1 on, where there is one.
pub fn find_call(calls: &[RecordedCall], number: u64) -> Option<&RecordedCall>
    ensures { option_copied result ≡ call_at calls.now number }
{
    if number == 0 {
        return None;
    }
    calls.get(number as usize - 1)
}
