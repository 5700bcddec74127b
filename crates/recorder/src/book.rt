//! The book of a journal server.

ghost use Rattle.std.specs.Prelude.{◌≡◌, ◌++◌, [], Some, IsSome, IfSome, IfOk, OnOk, OnErr, length, IfErr};
ghost use Rattle.journal.specs.Device.{Device, Leaves};
ghost use Rattle.nfs3_types.specs.declared.replies.NfsReply.{NfsReply};
ghost use Rattle.nfs3_types.specs.declared.replies.Outcome.TheVariants.{Received};
ghost use Rattle.tree_starts.specs.declared.profile.Profile.TheVariants.{Plain};
ghost use Rattle.tree_nodes.specs.Printed.{tree_text};
ghost use Rattle.tree_nodes.specs.Tree.{Tree};
ghost use Rattle.book_ledger.specs.book_laws_specs.Book.{Book, tree_of};
ghost use Rattle.book_ledger.specs.book_laws_specs.Plan.{plan_of};
ghost use Rattle.book_ledger.specs.book_laws_specs.Book.Condition.{running};
ghost use Rattle.book_ledger.specs.book_laws_specs.Steps.{opening_book, IsUnplaced, IsRecordable, Begins, Places, Flushes, Answers, Closes, Crashes};
ghost use Rattle.book_ledger.specs.PlaceSteps.{entry_put, IsReceived, IsLeft};
ghost use Rattle.certificate.specs.CertificateText.{IsCertificate};
ghost use Rattle.witness_check.specs.Witness.{IsWitness};
ghost use Rattle.book_ledger.specs.book_laws_specs.ServedPlan.{EachServed};
ghost use Rattle.book_ledger.specs.Sending.{IsSent};
ghost use Rattle.book_ledger.specs.Spelling.{IsSpelledTo, IsPlacedWith};
ghost use Rattle.book_ledger.specs.Refusals.{IsNow, PlaceStops, BeginRefused, PlaceRefused, FlushRefused, AnswerRefused, CloseRefused, CrashRefused};

use book_ledger::{
    AnswerFault, BeginFault, CloseFault, Condition, CrashFault, FlushFault, Ledger, PlaceFault,
    SpelledReply, Token,
};
use certificate::Certificate;
use file_tree::{FileTree, Profile, Start, Undo};
use journal::{DevFault, JournalDevice};
use nfs_history::{History, Message};
use nfs3_types::{NfsCall, NfsReply, Outcome};
use std::alloc::{AllocError, Global};
use std::marker::Model;

/// What a journal server records, over its device. A contract sees it as a `Book`. Each call is to be made under one lock.
pub struct Book<D: JournalDevice> {
    ledger: Ledger,
    device: D,
}

impl<D: JournalDevice> Model for Book<D> {
    ghost use Rattle.book_ledger.specs.book_laws_specs.Book as machine;
    ghost use Rattle.book_ledger.specs.Inside.{book_of, AreTied};

    ghost Value = { machine.Book };

    ghost view = { λ b. book_of b.ledger (D.device b.device) };

    // A run of steps leads to it, and its parts belong together.
    ghost invariant = { λ b. AreTied b.ledger (D.device b.device) };
}

impl<D: JournalDevice> Drop for Book<D> {
    fn drop(self) {
        let Book { ledger, device } = self;
        drop(ledger);
        drop(device);
    }
}

/// Puts a record into the journal, where there is one.
fn put_entry<D: JournalDevice>(device: &mut D, entry: &Option<Vec<u8>>) -> Result<(), DevFault>
    ensures { Leaves (D.device device.old) (entry_put entry.now (D.device device.old)) result (D.device device.new) }
{
    match entry {
        Some(bytes) => device.append(bytes.as_slice()),
        None => Ok(()),
    }
}

impl<D: JournalDevice> Book<D> {
    /// A book ahead of its first step, of a server that holds these objects, whose replies are judged so strictly.
    pub fn new_from(
        alloc: Global,
        device: D,
        profile: Profile,
        start: Start,
    ) -> Result<Book<D>, AllocError>
        // The device is empty.
        requires records { (D.device device).records ≡ [] }
        requires mark { (D.device device).mark ≡ 0 }
        ensures { IfOk result (λ book. book ≡ opening_book profile start (D.device device).faults) }
    {
        Ok(Book {
            ledger: Ledger::new_from(alloc, profile, start)?,
            device,
        })
    }

    /// The same of a server with an empty root directory. Attributes in its replies aren't judged.
    pub fn new(alloc: Global, device: D) -> Result<Book<D>, AllocError>
        // The device is empty.
        requires records { (D.device device).records ≡ [] }
        requires mark { (D.device device).mark ≡ 0 }
        ensures { IfOk result (λ book. book ≡ opening_book Plain [] (D.device device).faults) }
    {
        Book::new_from(alloc, device, Profile::Plain, Start::empty(alloc))
    }

    /// Begins a call on a lane, and returns the token that names it: the history has the call now. An `Err` is the first refusal that
    /// applies (`docs/BOOK.md` has their order), and leaves the book as it was.
    pub fn begin(&mut self, lane: u32, message: &[u8]) -> Result<Token, BeginFault>
        ensures begun { IfOk result (λ token. Begins self.old lane message.now self.new × (token.number ≡ length self.new.history.known.calls)) }
        ensures refused { BeginRefused self.old lane message.now result self.new }
    {
        self.ledger.begin(lane, message)
    }

    /// The same, of a call that was read of its message: nothing is read again.
    pub fn begin_read(
        &mut self,
        lane: u32,
        message: Message,
        call: NfsCall,
    ) -> Result<Token, BeginFault>
        requires { IsRecordable message call }
        ensures begun { IfOk result (λ token. Begins self.old lane message self.new × (token.number ≡ length self.new.history.known.calls)) }
        ensures refused { BeginRefused self.old lane message result self.new }
    {
        self.ledger.begin_read(lane, message, call)
    }

    /// Places a call whose turn it is, with the reply of which this is the message.
    fn put_place(&mut self, number: u64, outcome: Outcome, answer: &[u8]) -> Result<(), PlaceFault>
        requires running { self.old.condition ≡ running }
        requires now { IsNow self.old number }
        requires unplaced { IsUnplaced self.old.placed number }
        requires received { IsReceived outcome }
        requires spelled { IsSpelledTo self.old.history.known.calls number outcome answer.now }
        ensures placed { OnOk result ((reply : NfsReply) → outcome ≡ Received reply → Places self.old number reply self.new) }
        ensures refused { IfErr result (λ fault. (reply : NfsReply) → outcome ≡ Received reply → PlaceStops self.old number reply fault × IsLeft self.old fault self.new) }
    {
        let entry = self.ledger.prepare_place(number, &outcome, answer)?;
        let step = self.ledger.step(number, &outcome)?;
        match put_entry(&mut self.device, &entry) {
            Ok(()) => {
                let records = self.device.len();
                self.ledger
                    .note_place(number, outcome, step, entry.is_some(), records);
                Ok(())
            }
            Err(fault) => {
                self.ledger.lose_step(number, step);
                Err(PlaceFault::from(fault))
            }
        }
    }

    /// Places a call whose turn it is.
    fn put_reply(&mut self, number: u64, reply: NfsReply) -> Result<(), PlaceFault>
        requires running { self.old.condition ≡ running }
        requires now { IsNow self.old number }
        requires unplaced { IsUnplaced self.old.placed number }
        ensures placed { OnOk result (Places self.old number reply self.new) }
        ensures refused { IfErr result (λ fault. PlaceStops self.old number reply fault × IsLeft self.old fault self.new) }
    {
        match self.ledger.spell(number, &reply) {
            Ok(answer) => self.put_place(number, Outcome::Received(reply), answer.as_slice()),
            Err(_) => Err(PlaceFault::NoMemory),
        }
    }

    /// Places a call whose turn it is, with a reply that was spelled ahead. Where it was spelled to another call its message is made
    /// again.
    fn put_spelled(
        &mut self,
        number: u64,
        reply: NfsReply,
        spelled: &SpelledReply,
    ) -> Result<(), PlaceFault>
        requires running { self.old.condition ≡ running }
        requires now { IsNow self.old number }
        requires unplaced { IsUnplaced self.old.placed number }
        requires same { spelled.now.reply ≡ reply }
        ensures placed { OnOk result (Places self.old number reply self.new) }
        ensures refused { IfErr result (λ fault. PlaceStops self.old number reply fault × IsLeft self.old fault self.new) }
    {
        if self.ledger.is_of_call(number, spelled) {
            self.put_place(number, Outcome::Received(reply), spelled.answer())
        } else {
            self.put_reply(number, reply)
        }
    }

    /// Gives a call the next place in the serial order, with its reply, and appends its record to the journal. An `Err` is the first
    /// refusal that applies. After `NotLegal`, `DeviceFault` and `NoMemory` the book is down until a crash; after the others it is as
    /// it was.
    pub fn place(&mut self, token: Token, reply: NfsReply) -> Result<(), PlaceFault>
        ensures placed { OnOk result (Places self.old token.number reply self.new) }
        ensures refused { PlaceRefused self.old token.number reply result self.new }
    {
        self.ledger.check_unplaced(token.number())?;
        match self.put_reply(token.number(), reply) {
            Ok(()) => Ok(()),
            Err(fault) => {
                self.ledger.go_down();
                Err(fault)
            }
        }
    }

    /// The same, with a reply whose message was made ahead: it isn't made again.
    pub fn place_spelled(
        &mut self,
        token: Token,
        reply: NfsReply,
        spelled: &SpelledReply,
    ) -> Result<(), PlaceFault>
        requires { spelled.now.reply ≡ reply }
        ensures placed { OnOk result (Places self.old token.number reply self.new) }
        ensures refused { PlaceRefused self.old token.number reply result self.new }
    {
        self.ledger.check_unplaced(token.number())?;
        match self.put_spelled(token.number(), reply, spelled) {
            Ok(()) => Ok(()),
            Err(fault) => {
                self.ledger.go_down();
                Err(fault)
            }
        }
    }

    /// Puts all records on stable storage, and gives what took their steps back, which nothing needs any more: who holds a lock drops it
    /// after the lock.
    pub fn flush_giving(&mut self) -> Result<Vec<Undo>, FlushFault>
        ensures flushed { OnOk result (Flushes self.old self.new) }
        ensures refused { FlushRefused self.old result self.new }
    {
        match self.ledger.condition {
            Condition::Running => {}
            Condition::Down => return Err(FlushFault::Down),
            Condition::Dead => return Err(FlushFault::Down),
        }
        match self.device.barrier() {
            Ok(()) => Ok(self.ledger.settle()),
            Err(_) => {
                self.ledger.go_down();
                Err(FlushFault::DeviceFault)
            }
        }
    }

    /// Puts all records on stable storage. `Err(Down)`: the book was down already, and is as it was. `Err(DeviceFault)`: it is down now.
    pub fn flush(&mut self) -> Result<(), FlushFault>
        ensures flushed { OnOk result (Flushes self.old self.new) }
        ensures refused { FlushRefused self.old result self.new }
    {
        match self.flush_giving() {
            Ok(given) => {
                drop(given);
                Ok(())
            }
            Err(fault) => Err(fault),
        }
    }

    /// Records that a call is answered with the reply that it was placed with, and returns the message to send. `Err(NotDurable)`: the
    /// reply promises what isn't on stable storage. Each `Err` leaves the book as it was.
    pub fn answer(&mut self, token: Token) -> Result<Vec<u8>, AnswerFault>
        ensures answered { OnOk result (Answers self.old token.number self.new) }
        // The message is the one that was recorded.
        ensures sent { IfOk result (λ message. IsSent self.old.history message.items self.new.history) }
        ensures refused { AnswerRefused self.old token.number result self.new }
    {
        self.ledger.answer(token.number(), self.device.mark())
    }

    /// The same, of a call that was placed with this reply, whose message was made ahead: it isn't made again.
    pub fn answer_spelled(
        &mut self,
        token: Token,
        spelled: SpelledReply,
    ) -> Result<Vec<u8>, AnswerFault>
        requires { IsPlacedWith self.old.placed token.number spelled.reply }
        ensures answered { OnOk result (Answers self.old token.number self.new) }
        ensures sent { IfOk result (λ message. IsSent self.old.history message.items self.new.history) }
        ensures refused { AnswerRefused self.old token.number result self.new }
    {
        self.ledger
            .answer_spelled(token.number(), self.device.mark(), spelled)
    }

    /// Closes a lane: no more calls come on it. Each `Err` leaves the book as it was.
    pub fn close_lane(&mut self, lane: u32) -> Result<(), CloseFault>
        ensures closed { OnOk result (Closes self.old lane self.new) }
        ensures refused { CloseRefused self.old lane result self.new }
    {
        self.ledger.close_lane(lane)
    }

    /// Goes on after a crash that the first `keep` records outlived: a new era begins, and the book runs. `Err(KeepTooSmall)` and
    /// `Err(KeepTooLarge)` leave it as it was; after `DeviceFault` and `NoMemory` no crash brings it up again.
    pub fn crash(&mut self, keep: u64) -> Result<(), CrashFault>
        ensures crashed { OnOk result (Crashes self.old keep self.new) }
        ensures refused { CrashRefused self.old keep result self.new }
    {
        if self.ledger.condition == Condition::Dead {
            return Err(CrashFault::Down);
        }
        let (mark, len) = (self.device.mark(), self.device.len());
        if keep < mark {
            return Err(CrashFault::KeepTooSmall(mark));
        }
        if len < keep {
            return Err(CrashFault::KeepTooLarge(len));
        }
        let Ok(tree) = self.ledger.prepare_crash(keep, len - keep) else {
            self.ledger.die();
            return Err(CrashFault::NoMemory);
        };
        match self.device.recover(keep) {
            Ok(()) => {
                self.ledger.end_era(keep, tree);
                Ok(())
            }
            Err(_) => {
                self.ledger.die();
                Err(CrashFault::DeviceFault)
            }
        }
    }

    /// What it recorded.
    pub fn history(&self) -> &History
        ensures { (result.now.known ≡ self.now.history.known) × (result.now.events ≡ self.now.history.events) }
    {
        &self.ledger.history
    }

    /// The history alone.
    pub fn into_history(self) -> History
        ensures { (result.known ≡ self.history.known) × (result.events ≡ self.history.events) }
    {
        let Book { ledger, device } = self;
        drop(device);
        ledger.into_history()
    }

    /// Its own commit order, which explains what it recorded.
    pub fn certificate(&self) -> Result<Certificate, AllocError>
        ensures plan { IfOk result (λ certificate. certificate ≡ plan_of self.now) }
        // Whatever the book has been through, it is a witness of its history.
        ensures explains { IfOk result (λ certificate. IsWitness self.now.history.known certificate) }
        // Each reply that it recorded is as full as can be, in the tree ahead of its place.
        ensures serves { IfOk result (λ certificate. EachServed self.now.history.known certificate) }
        // It can be written as a text, and is read back.
        ensures written { IfOk result IsCertificate }
    {
        self.ledger.certificate()
    }

    /// Its tree, which it has while it is running. It has none if memory ran out while a step was taken back.
    pub fn tree(&self) -> Option<&FileTree>
        ensures tree { IfSome result (λ tree. tree_of self.now ≡ Some tree.now) }
        ensures stands { self.now.condition ≡ running → IsSome result }
    {
        self.ledger.tree()
    }

    /// Appends the bytes of its tree, as `docs/FORMATS.md` says.
    pub fn print_tree(&self, out: &mut Vec<u8>) -> Result<(), AllocError>
        ensures ok { OnOk result ((tree : Tree) × (tree_of self.now ≡ Some tree) × (out.new.items ≡ out.old.items ++ tree_text tree)) }
        ensures err { OnErr result (out.new.items ≡ out.old.items) }
    {
        self.ledger.print_tree(out)
    }

    /// Its device.
    pub fn device(&self) -> &D
        ensures { D.device result.now ≡ self.now.device }
    {
        &self.device
    }
}
