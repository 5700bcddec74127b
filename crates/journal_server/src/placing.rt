//! How a call gets its place in the serial order.

ghost use Rattle.std.specs.Prelude.{◌≡◌, ◌≢◌, [], IfErr};

use crate::desk::{Begun, promises};
use crate::fault::CallFault;
use crate::gate::{Gate, Point};
use crate::server::Server;
use nfs3_types::{NfsCall, NfsReply};
use object_store::{Held, ObjectTable, Targets};
use recorder::{JournalDevice, SpelledReply};
use std::alloc::AllocError;
use std::sync::Wait;
use store_replies::{Decision, Prepared, Scene, Site, decide};

/// A call that was placed.
pub(crate) struct Placed {
    /// So many records have to be on stable storage when it is answered.
    pub records: Option<u64>,
    /// Room for a copy of its reply.
    pub room: Vec<u8>,
    /// The message of its reply, where it was answered at once.
    pub answer: Option<Vec<u8>>,
    ghost empty: { room.items ≡ [] },
}

impl Drop for Placed {
    fn drop(self) {
        let Placed {
            records: _,
            room,
            answer,
        } = self;
        drop(room);
        drop(answer);
    }
}

impl Placed {
    /// The call, where it was answered at once: then its reply goes out, whatever becomes of the objects.
    fn if_answered(self) -> Result<Placed, CallFault>
        ensures { IfErr result (λ fault. fault ≢ CallFault.BadRecord) }
    {
        if self.answer.is_some() {
            Ok(self)
        } else {
            Err(CallFault::Down)
        }
    }

    /// How many records have to be on stable storage, the room, and the message.
    pub(crate) fn into_parts(self) -> (Option<u64>, Vec<u8>, Option<Vec<u8>>)
        ensures { result.1.items ≡ [] }
    {
        let Placed {
            records,
            room,
            answer,
        } = self;
        (records, room, answer)
    }
}

impl<G: Gate, D: JournalDevice> Server<G, D> {
    /// Gives a call its place with a reply whose message was made ahead. Behind it stay so many records that have to be on stable storage
    /// ahead of its answer, if any, or the message, where it is answered at the same hold of the book's lock.
    fn put_reply<R: Wait>(
        &self,
        rt: &R,
        begun: Begun,
        reply: NfsReply,
        spelled: SpelledReply,
    ) -> Result<(Option<u64>, Option<Vec<u8>>), CallFault>
        requires { spelled.reply ≡ reply }
        ensures { IfErr result (λ fault. fault ≢ CallFault.BadRecord) }
    {
        let promises = promises(&reply);
        if !promises && !self.gate.listens() {
            let answer = self.lock_desk(rt).reply(begun.token, reply, spelled)?;
            return Ok((None, answer));
        }
        let records = self.lock_desk(rt).place(begun.token, reply, &spelled)?;
        Ok((promises.then_some(records), None))
    }

    /// Gives a call its place. The message of its reply is made ahead of the book's lock, and so is room for a copy of it.
    fn place_reply<R: Wait>(
        &self,
        rt: &R,
        begun: Begun,
        reply: NfsReply,
    ) -> Result<Placed, CallFault>
        ensures { IfErr result (λ fault. fault ≢ CallFault.BadRecord) }
    {
        let spelled = SpelledReply::new(self.alloc, begun.xid, &reply)?;
        let room = Vec::with_capacity(self.alloc, spelled.answer().len())?;
        let (records, answer) = self.put_reply(rt, begun, reply, spelled)?;
        Ok(Placed {
            records,
            room,
            answer,
        })
    }

    /// Says that the objects are lost.
    fn lose<R: Wait>(&self, rt: &R) {
        self.lock_desk(rt).lose();
    }

    /// Gives a call its place where its change is prepared, and makes the change.
    fn place_prepared<R: Wait>(
        &self,
        rt: &R,
        begun: Begun,
        decision: Decision<'_>,
        site: Site<'_>,
        held: &mut Held,
        prepared: Prepared,
    ) -> Result<Placed, CallFault>
        ensures { IfErr result (λ fault. fault ≢ CallFault.BadRecord) }
    {
        let (reply, change) = decision.into_parts();
        match self.place_reply(rt, begun, reply) {
            Ok(placed) => {
                if site.make(rt, held, &change, prepared).is_err() {
                    self.lose(rt);
                    return placed.if_answered();
                }
                Ok(placed)
            }
            Err(fault) => {
                site.take_back(rt, held, &change);
                Err(fault)
            }
        }
    }

    /// The reply to a call, and what it changes.
    fn decide<'a>(
        &self,
        begun: Begun,
        call: &'a NfsCall,
        held: &Held,
    ) -> Result<Decision<'a>, AllocError> {
        let scene = Scene {
            alloc: self.alloc,
            held,
            object: begun.object,
            era: begun.era,
            profile: self.profile,
        };
        decide(&scene, call)
    }

    /// Works out the reply to a call from its objects, and gives it its place.
    fn place_with<R: Wait>(
        &self,
        rt: &R,
        begun: Begun,
        call: &NfsCall,
        objects: &ObjectTable,
        held: &mut Held,
    ) -> Result<Placed, CallFault>
        ensures { IfErr result (λ fault. fault ≢ CallFault.BadRecord) }
    {
        let decision = self.decide(begun, call, held)?;
        let site = Site {
            table: objects,
            object: begun.object,
        };
        match site.prepare(rt, self.alloc, held, &decision.change) {
            Ok(prepared) => self.place_prepared(rt, begun, decision, site, held, prepared),
            Err(_) => {
                site.take_back(rt, held, &decision.change);
                Err(CallFault::NoMemory)
            }
        }
    }

    /// Gives a call its place in the serial order: takes its objects, works out its reply, and gives the objects back.
    pub(crate) fn place<R: Wait>(
        &self,
        rt: &R,
        lane: u32,
        begun: Begun,
        call: &NfsCall,
    ) -> Result<Placed, CallFault>
        ensures { IfErr result (λ fault. fault ≢ CallFault.BadRecord) }
    {
        let objects = self.objects.read(rt);
        let mut held = objects.hold(rt, self.alloc, &Targets::of_call(call))?;
        self.gate.at(lane, Point::Locked);
        let placed = self.place_with(rt, begun, call, &objects, &mut held);
        objects.give_back(rt, held);
        placed
    }
}
