//! Calls.

ghost use Rattle.std.specs.Prelude.{◌≡◌, ◌≢◌, IfOk, IfErr, OnErr};
ghost use Rattle.recorder.specs.book_laws_specs.Steps.{IsRecordable};
ghost use Rattle.journal_server.specs.Passing.{IsToRecord, IsNoted, IsAsBefore, IsAnswered, MayStop};

use crate::desk::Begun;
use crate::fault::CallFault;
use crate::gate::{Gate, Point};
use crate::server::Server;
use nfs_history::Message;
use nfs3_types::NfsCall;
use recorder::{JournalDevice, Token, Undo};
use server_passes::{Exchange, Pass};
use server_requests::{Request, read_request};
use std::sync::Wait;

/// A reply, and a copy of it.
pub(crate) struct Told {
    reply: Vec<u8>,
    copy: Vec<u8>,
    ghost same: { copy.items ≡ reply.items },
}

impl Drop for Told {
    fn drop(self) {
        let Told { reply, copy } = self;
        drop(reply);
        drop(copy);
    }
}

impl Told {
    /// The reply, and its copy.
    fn into_parts(self) -> (Vec<u8>, Vec<u8>)
        ensures { result.1.items ≡ result.0.items }
    {
        let Told { reply, copy } = self;
        (reply, copy)
    }
}

impl<G: Gate, D: JournalDevice> Server<G, D> {
    /// Begins a call that was read of its message. The copies that the book keeps are made ahead of its lock.
    fn begin<R: Wait>(
        &self,
        rt: &R,
        lane: u32,
        message: &[u8],
        call: &NfsCall,
    ) -> Result<Begun, CallFault>
        requires { IsRecordable message.now call.now }
        ensures { IfErr result (λ fault. fault ≢ CallFault.BadRecord) }
    {
        let message = Message::from_slice(self.alloc, message)?;
        let call = call.copy()?;
        self.lock_desk(rt).begin(lane, message, call)
    }

    /// Puts so many records on stable storage. What is given up is dropped after the book's lock.
    fn flush<R: Wait>(&self, rt: &R, records: u64) -> Result<(), CallFault>
        ensures { IfErr result (λ fault. fault ≢ CallFault.BadRecord) }
    {
        let given = self.lock_desk(rt).flush(self.alloc, records)?;
        drop(given);
        Ok(())
    }

    /// Puts so many records on stable storage, and answers a call, at one hold of the book's lock. What is given up comes with the reply,
    /// to be dropped after the lock.
    fn flush_and_answer<R: Wait>(
        &self,
        rt: &R,
        token: Token,
        records: u64,
    ) -> Result<(Vec<u8>, Vec<Undo>), CallFault>
        ensures { IfErr result (λ fault. fault ≢ CallFault.BadRecord) }
    {
        let mut desk = self.lock_desk(rt);
        let given = desk.flush(self.alloc, records)?;
        let reply = desk.answer(token)?;
        Ok((reply, given))
    }

    /// Answers a call, once so many records are on stable storage.
    fn answer_safe<R: Wait>(
        &self,
        rt: &R,
        lane: u32,
        begun: Begun,
        records: u64,
    ) -> Result<Vec<u8>, CallFault>
        ensures { IfErr result (λ fault. fault ≢ CallFault.BadRecord) }
    {
        if self.gate.listens() {
            self.flush(rt, records)?;
            self.gate.at(lane, Point::Flushed);
            return self.lock_desk(rt).answer(begun.token);
        }
        let (reply, given) = self.flush_and_answer(rt, begun.token, records)?;
        drop(given);
        self.gate.at(lane, Point::Flushed);
        Ok(reply)
    }

    /// Answers a call that was placed.
    fn answer<R: Wait>(
        &self,
        rt: &R,
        lane: u32,
        begun: Begun,
        records: Option<u64>,
    ) -> Result<Vec<u8>, CallFault>
        ensures { IfErr result (λ fault. fault ≢ CallFault.BadRecord) }
    {
        if let Some(records) = records {
            return self.answer_safe(rt, lane, begun, records);
        }
        self.gate.at(lane, Point::Flushed);
        self.lock_desk(rt).answer(begun.token)
    }

    /// Takes a call from its begin to its answer. A copy of the reply is put into the room that was made for it.
    fn run<R: Wait>(
        &self,
        rt: &R,
        lane: u32,
        message: &[u8],
        call: &NfsCall,
    ) -> Result<Told, CallFault>
        requires { IsRecordable message.now call.now }
        ensures { IfErr result (λ fault. fault ≢ CallFault.BadRecord) }
    {
        let begun = self.begin(rt, lane, message, call)?;
        self.gate.at(lane, Point::Begun);
        let (records, room, answered) = self.place(rt, lane, begun, call)?.into_parts();
        self.gate.at(lane, Point::Placed);
        let reply = match answered {
            Some(reply) => reply,
            None => self.answer(rt, lane, begun, records)?,
        };
        let mut copy = room;
        copy.extend_from_slice(reply.as_slice())?;
        Ok(Told { reply, copy })
    }

    /// Answers a call that is recorded, and notes it in the pass. All room that the pass needs is made ahead, so that what was answered
    /// is noted.
    fn call_recorded<R: Wait>(
        &self,
        rt: &R,
        pass: &mut Pass,
        message: &[u8],
        call: &NfsCall,
    ) -> Result<Vec<u8>, CallFault>
        requires { IsRecordable message.now call.now }
        ensures noted { IfOk result (λ reply. IsNoted pass.old message.now reply.items pass.new) }
        ensures kept { OnErr result (IsAsBefore pass.old pass.new) }
        ensures fault { IfErr result (λ fault. fault ≢ CallFault.BadRecord) }
    {
        pass.reserve()?;
        let asked = Vec::from_slice(self.alloc, message)?;
        let (reply, copy) = self.run(rt, pass.lane(), message, call)?.into_parts();
        pass.push_reserved(Exchange::new(asked, copy));
        Ok(reply)
    }

    /// Answers a message of a client, without record marking. A call that isn't recorded gets the reply that the server gives by itself
    /// (docs/SERVER.md); any other goes through the book.
    pub fn call<R: Wait>(
        &self,
        rt: &R,
        pass: &mut Pass,
        message: &[u8],
    ) -> Result<Vec<u8>, CallFault>
        ensures answered { IfOk result (λ reply. IsAnswered pass.old message.now reply.items pass.new) }
        ensures kept { OnErr result (IsAsBefore pass.old pass.new) }
        ensures refused { IfErr result (MayStop message.now) }
    {
        match read_request(self.alloc, message)? {
            Request::Unreadable => Err(CallFault::BadRecord),
            Request::Answered(reply) => Ok(reply),
            Request::Recorded(call) => self.call_recorded(rt, pass, message, &call),
        }
    }
}
