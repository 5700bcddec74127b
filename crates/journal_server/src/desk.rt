//! What stands under the book's lock.

ghost use Rattle.std.specs.Prelude.{◌≡◌, ◌≢◌, [], Some, IsSome, IfSome, IfOk, OnOk, IfErr, length, true};
ghost use Rattle.recorder.specs.book_laws_specs.Book.{tree_of};
ghost use Rattle.recorder.specs.book_laws_specs.Book.Condition.{running};
ghost use Rattle.recorder.specs.book_laws_specs.Steps.{opening_book, IsRecordable, Begins, Places, Answers, Closes, Crashes};
ghost use Rattle.recorder.specs.book_ledger_specs.Sending.{IsSent};
ghost use Rattle.journal_server.specs.Desks.{BeginRefused, PlaceRefused, HasReplied, IsSettled, FlushRefused, AnswerRefused, CloseRefused, kept_of, CrashRefused};

use crate::fault::{CallFault, CrashFault, JoinFault};
use file_tree::FileTree;
use nfs_history::Message;
use nfs3_types::{Answer, NfsCall, NfsReply, StableHow};
use object_store::{ObjectTable, objects_of};
use recorder::{Book, JournalDevice, Profile, SpelledReply, Start, Token, Undo};
use server_passes::Pass;
use std::alloc::{AllocError, Global};

/// How many passes a server gives out.
const MOST_LANES: u32 = 65_535;

/// What stands under the book's lock. A server calls the functions below while it holds the lock, so that the book takes the steps that
/// their clauses name, or none but what a refusal leaves.
pub struct Desk<D: JournalDevice> {
    /// The book.
    pub book: Book<D>,
    /// How many lanes were given out.
    lanes: u32,
    /// The objects are lost, and no call can be worked out any more.
    pub lost: bool,
}

impl<D: JournalDevice> Drop for Desk<D> {
    fn drop(self) {
        let Desk {
            book,
            lanes: _,
            lost: _,
        } = self;
        drop(book);
    }
}

/// A call that has begun.
#[derive(Clone, Copy)]
pub struct Begun {
    /// What names it to the book.
    pub token: Token,
    /// In this era, from 1 on.
    pub era: u64,
    /// The number that an object which it makes gets.
    pub object: u64,
    /// Its transaction number.
    pub xid: u32,
}

/// Whether a reply may go out only once its records are on stable storage (RFC 1813, sections 4.7 and 4.8).
pub(crate) fn promises(reply: &NfsReply) -> bool {
    match reply {
        NfsReply::Write(Answer::Done(success)) => success.level != StableHow::Unstable,
        NfsReply::GetAttr(_)
        | NfsReply::Lookup(_)
        | NfsReply::ReadLink(_)
        | NfsReply::Read(_)
        | NfsReply::ReadDir(_)
        | NfsReply::ReadDirPlus(_) => false,
        _ => reply.failure().is_none(),
    }
}

impl<D: JournalDevice> Desk<D> {
    /// The book alone.
    pub fn into_book(self) -> Book<D>
        ensures { result ≡ self.book }
    {
        let Desk {
            book,
            lanes: _,
            lost: _,
        } = self;
        book
    }

    /// A desk ahead of its first call, of a server that holds these objects, whose replies are judged so strictly.
    pub fn new_from(
        alloc: Global,
        device: D,
        profile: Profile,
        start: Start,
    ) -> Result<Desk<D>, AllocError>
        requires records { (D.device device).records ≡ [] }
        requires mark { (D.device device).mark ≡ 0 }
        ensures { IfOk result (λ desk. desk.book ≡ opening_book profile start (D.device device).faults) }
    {
        Ok(Desk {
            book: Book::new_from(alloc, device, profile, start)?,
            lanes: 0,
            lost: false,
        })
    }

    /// The pass of the next lane.
    pub(crate) fn join(&mut self, alloc: Global) -> Result<Pass, JoinFault>
        ensures book { self.new.book ≡ self.old.book }
        ensures empty { IfOk result (λ pass. pass.exchanges ≡ []) }
    {
        if self.lanes >= MOST_LANES {
            return Err(JoinFault::TooManyLanes);
        }
        self.lanes += 1;
        Ok(Pass::new(alloc, self.lanes))
    }

    /// What is known of a call that has begun.
    fn begun(&self, token: Token) -> Begun
        ensures { result.token ≡ token }
    {
        let history = self.book.history();
        let first = history.start().objects().len() as u64;
        Begun {
            token,
            era: history.eras(),
            object: first.saturating_add(token.number()),
            xid: history.find_call(token.number()).map_or(0, |call| call.xid),
        }
    }

    /// Begins a call that was read of its message.
    pub fn begin(&mut self, lane: u32, message: Message, call: NfsCall) -> Result<Begun, CallFault>
        requires { IsRecordable message call }
        ensures begun { IfOk result (λ begun. Begins self.old.book lane message self.new.book × (begun.token.number ≡ length self.new.book.history.known.calls)) }
        ensures refused { IfErr result (λ told. BeginRefused self.old.lost self.old.book lane message told self.new.book) }
        ensures fault { IfErr result (λ fault. fault ≢ CallFault.BadRecord) }
    {
        if self.lost {
            return Err(CallFault::Down);
        }
        match self.book.begin_read(lane, message, call) {
            Ok(token) => Ok(self.begun(token)),
            Err(fault) => Err(CallFault::from(fault)),
        }
    }

    /// Places a call with this reply, whose message was made ahead, and gives how many records the journal has then.
    pub fn place(
        &mut self,
        token: Token,
        reply: NfsReply,
        spelled: &SpelledReply,
    ) -> Result<u64, CallFault>
        requires { spelled.now.reply ≡ reply }
        ensures placed { IfOk result (λ records. Places self.old.book token.number reply self.new.book × (records ≡ length self.new.book.device.records)) }
        ensures refused { IfErr result (λ told. PlaceRefused self.old.book token.number reply told self.new.book) }
        ensures fault { IfErr result (λ fault. fault ≢ CallFault.BadRecord) }
    {
        match self.book.place_spelled(token, reply, spelled) {
            Ok(()) => Ok(self.book.device().len()),
            Err(fault) => Err(CallFault::from(fault)),
        }
    }

    /// Places a call with this reply, whose message was made ahead, and answers it. Where it can't be answered as yet, since its records
    /// have to be on stable storage first or memory ran out, it stays placed and there is no message.
    pub fn reply(
        &mut self,
        token: Token,
        reply: NfsReply,
        spelled: SpelledReply,
    ) -> Result<Option<Vec<u8>>, CallFault>
        requires { spelled.reply ≡ reply }
        ensures replied { IfOk result (HasReplied self.old.book token.number reply self.new.book) }
        ensures refused { IfErr result (λ told. PlaceRefused self.old.book token.number reply told self.new.book) }
        ensures fault { IfErr result (λ fault. fault ≢ CallFault.BadRecord) }
    {
        match self.book.place_spelled(token, reply, &spelled) {
            Ok(()) => {}
            Err(fault) => return Err(CallFault::from(fault)),
        }
        match self.book.answer_spelled(token, spelled) {
            Ok(message) => Ok(Some(message)),
            Err(_) => Ok(None),
        }
    }

    /// Puts so many records on stable storage, if they aren't there, and gives what took their steps back, to be dropped after the lock.
    pub fn flush(&mut self, alloc: Global, records: u64) -> Result<Vec<Undo>, CallFault>
        ensures settled { OnOk result (IsSettled records self.old.book self.new.book) }
        ensures refused { IfErr result (λ told. FlushRefused records self.old.book told self.new.book) }
        ensures fault { IfErr result (λ fault. fault ≢ CallFault.BadRecord) }
    {
        if self.book.device().mark() >= records {
            return Ok(Vec::new(alloc));
        }
        match self.book.flush_giving() {
            Ok(given) => Ok(given),
            Err(fault) => Err(CallFault::from(fault)),
        }
    }

    /// Answers a call, with the message that was recorded.
    pub fn answer(&mut self, token: Token) -> Result<Vec<u8>, CallFault>
        ensures answered { OnOk result (Answers self.old.book token.number self.new.book) }
        ensures sent { IfOk result (λ message. IsSent self.old.book.history message.items self.new.book.history) }
        ensures refused { IfErr result (λ told. AnswerRefused self.old.book token.number told self.new.book) }
        ensures fault { IfErr result (λ fault. fault ≢ CallFault.BadRecord) }
    {
        match self.book.answer(token) {
            Ok(message) => Ok(message),
            Err(fault) => Err(CallFault::from(fault)),
        }
    }

    /// Closes a lane.
    pub fn leave(&mut self, lane: u32) -> Result<(), CallFault>
        ensures closed { OnOk result (Closes self.old.book lane self.new.book) }
        ensures refused { IfErr result (λ told. CloseRefused self.old.book lane told self.new.book) }
    {
        match self.book.close_lane(lane) {
            Ok(()) => Ok(()),
            Err(fault) => Err(CallFault::from(fault)),
        }
    }

    /// Gives the objects up. No call is begun any more.
    pub fn lose(&mut self)
        ensures book { self.new.book ≡ self.old.book }
        ensures lost { self.new.lost ≡ true }
    {
        self.lost = true;
    }

    /// The book's tree, which there is while the book is running.
    pub fn tree(&self) -> Option<&FileTree>
        ensures tree { IfSome result (λ tree. tree_of self.now.book ≡ Some tree.now) }
        ensures stands { self.now.book.condition ≡ running → IsSome result }
    {
        self.book.tree()
    }

    /// The objects of the book's tree, for a server that begins or comes up again.
    pub(crate) fn objects(&self, alloc: Global) -> Result<ObjectTable, AllocError> {
        match self.tree() {
            Some(tree) => objects_of(alloc, tree.nodes()),
            None => Err(AllocError),
        }
    }

    /// How many records a crash keeps: those on stable storage, and at most so many more.
    fn keep(&self, extra: u64) -> u64
        ensures { result ≡ kept_of self.now.book extra }
    {
        let device = self.book.device();
        device.mark().saturating_add(extra).min(device.len())
    }

    /// Crashes: the records on stable storage outlive it, and at most so many more.
    pub fn crash(&mut self, extra: u64) -> Result<(), CrashFault>
        ensures crashed { OnOk result (Crashes self.old.book (kept_of self.old.book extra) self.new.book) }
        ensures refused { IfErr result (λ told. CrashRefused self.old.lost self.old.book extra told self.new.book) }
        ensures lost { self.new.lost ≡ self.old.lost }
    {
        if self.lost {
            return Err(CrashFault::Down);
        }
        let keep = self.keep(extra);
        match self.book.crash(keep) {
            Ok(()) => Ok(()),
            Err(fault) => Err(CrashFault::from(fault)),
        }
    }
}
