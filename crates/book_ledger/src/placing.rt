//! Calls that are placed in the serial order.

ghost use Rattle.std.specs.Prelude.{◌≡◌, ◌≢◌, ◌+◌, ◌-◌, ◌<◌, ◌≤◌, length, slice_set, vec_len, vec_capacity, Some, None, Err, IfOk, IfErr, OnOk, OnErr, IsSome, MatchBool, is_some, true};
ghost use Rattle.xdr_records.specs.Record.{record_limit};
ghost use Rattle.nfs3_types.specs.declared.replies.Outcome.TheVariants.{Received};
ghost use Rattle.tree_nodes.specs.Tree.{entry_of};
ghost use Rattle.tree_handles.specs.Binding.{object_of};
ghost use Rattle.file_tree.specs.Setting.{under};
ghost use Rattle.book_laws.specs.Book.{handle_of};
ghost use Rattle.book_laws.specs.Steps.{reply_message, journal_record};
ghost use Rattle.book_ledger.specs.Inside.{IsAsked, IsTied, Goes, asked_by, object_in};
ghost use Rattle.book_ledger.specs.Recordable.{may_make};
ghost use Rattle.book_ledger.specs.PlaceSteps.{with_own, without_own, bound_if, HasRoom, IsSame, HasLost, NameAlike, TakesStep, HasStepped, HasNoStep, HasStayed, IsReceived, IsNumbered, ShowsNow, MayGive, GivesAllowed, StopsWhere, IsShortAnswer, IsSayable, IsEntry, HasPlaced};
ghost use Rattle.book_ledger.specs.Spelling.{IsSpelled, IsSpelledTo, IsOfCall};

use crate::calls::{is_recorded, may_make};
use crate::fault::PlaceFault;
use crate::ledger::Ledger;
use crate::lookups::{call_asked, message_of, object_made, object_of_call};
use crate::placed::{CallState, Condition, PlacedCall};
use crate::served::is_served;
use crate::spelled::SpelledReply;
use cut_check::shown_verifier;
use file_tree::{Binds, FileTree, Profile, Undo};
use journal::put_record;
use nfs3_msgs::put_result;
use nfs3_types::{NfsCall, NfsReply, Outcome};
use replay_law::StepFault;
use rpc_reader::{ReplyBody, put_reply};
use std::alloc::{AllocError, Global};
use xdr_records::RECORD_LIMIT;

/// Room for the results of most replies: those without data and entries have at most 232 bytes.
const MOST_RESULTS: usize = 240;

/// The bytes of a reply's head (RFC 5531, section 9).
const REPLY_HEAD: usize = 24;

/// The bytes of a record beside its messages: a number, two lengths and their padding.
const RECORD_HEAD: usize = 24;

/// A step that a call took in the tree.
#[derive(Drop)]
pub struct TreeStep {
    /// What takes it back.
    pub undo: Undo,
    /// Whether the call's object is there.
    pub made: bool,
}

/// The reply to a call, as a message.
pub(crate) fn reply_message(
    alloc: Global,
    xid: u32,
    reply: &NfsReply,
) -> Result<Vec<u8>, AllocError>
    ensures { IfOk result (λ m. IsSpelled xid reply.now m.items) }
{
    let mut results = Vec::with_capacity(alloc, MOST_RESULTS)?;
    put_result(&mut results, reply)?;
    let mut message = Vec::with_capacity(alloc, results.len().saturating_add(REPLY_HEAD))?;
    put_reply(&mut message, xid, &ReplyBody::Success(results.as_slice()))?;
    Ok(message)
}

/// The journal's record of a call.
fn record_of(
    alloc: Global,
    number: u64,
    message: &[u8],
    answer: &[u8],
) -> Result<Vec<u8>, AllocError>
    requires message { length message.now ≤ record_limit }
    requires answer { length answer.now ≤ record_limit }
    ensures { IfOk result (λ bytes. bytes.items ≡ journal_record number message.now answer.now) }
{
    let mut bytes = Vec::with_capacity(alloc, message.len() + answer.len() + RECORD_HEAD)?;
    put_record(&mut bytes, number, message, answer)?;
    Ok(bytes)
}

/// Whether a node stands in the tree.
fn stands(tree: &FileTree, object: u64) -> bool
    ensures { result ≡ is_some (entry_of tree.now object) }
{
    tree.nodes().node(object).is_some()
}

/// Binds the handle of an object.
fn bind_own(binds: &mut Binds, number: u64) -> Result<(), AllocError>
    ensures ok { OnOk result (binds.new ≡ with_own number binds.old) }
    ensures err { OnErr result (binds.new ≡ binds.old) }
{
    binds.push(number.to_be_bytes().as_slice(), number)
}

/// Lets the handle of an object go.
fn forget_own(binds: &mut Binds, number: u64)
    ensures { binds.new ≡ without_own number binds.old }
{
    binds.forget(number.to_be_bytes().as_slice());
}

/// Takes the step of a call, with its own handle bound where it may make an object. The handle stays bound where the object is
/// there.
fn step_with_handle(
    profile: Profile,
    tree: &mut FileTree,
    binds: &mut Binds,
    object: u64,
    call: &NfsCall,
    outcome: &Outcome,
) -> Result<TreeStep, StepFault>
    requires { object_of binds.old (handle_of object) ≡ None }
    ensures taken { IfOk result (TakesStep profile true binds.old tree.old object call.now outcome.now binds.new tree.new) }
    ensures refused { result ≡ Err StepFault.NotAllowed → under profile (with_own object binds.old) tree.old object call.now outcome.now ≡ None }
    ensures tree { OnErr result (tree.new ≡ tree.old) }
    ensures binds { OnErr result (NameAlike binds.new binds.old) }
{
    bind_own(binds, object)?;
    match tree.step_under(profile, binds, object, call, outcome) {
        Ok(undo) => {
            let made = stands(tree, object);
            if !made {
                forget_own(binds, object);
            }
            Ok(TreeStep { undo, made })
        }
        Err(fault) => {
            forget_own(binds, object);
            Err(fault)
        }
    }
}

/// Takes the step of a call.
fn take_step(
    profile: Profile,
    tree: &mut FileTree,
    binds: &mut Binds,
    object: u64,
    call: &NfsCall,
    outcome: &Outcome,
) -> Result<TreeStep, StepFault>
    requires { object_of binds.old (handle_of object) ≡ None }
    ensures taken { IfOk result (TakesStep profile (may_make call.now) binds.old tree.old object call.now outcome.now binds.new tree.new) }
    ensures refused { result ≡ Err StepFault.NotAllowed → under profile (bound_if (may_make call.now) object binds.old) tree.old object call.now outcome.now ≡ None }
    ensures tree { OnErr result (tree.new ≡ tree.old) }
    ensures binds { OnErr result (NameAlike binds.new binds.old) }
{
    if may_make(call) {
        return step_with_handle(profile, tree, binds, object, call, outcome);
    }
    let undo = tree.step_under(profile, binds, object, call, outcome)?;
    Ok(TreeStep { undo, made: false })
}

/// Notes where a call was placed.
fn note_state(calls: &mut [CallState], number: u64, place: usize, made: bool)
    requires from_one { 1 ≤ number }
    requires within { number ≤ length calls.old }
    ensures { calls.new ≡ slice_set calls.old (number - 1) (record { place = Some place; made = made }) }
{
    calls[number as usize - 1] = CallState {
        place: Some(place),
        made,
    };
}

impl Ledger {
    /// Whether a reply shows no other write verifier than this era's.
    fn shows_now(&self, number: u64, outcome: &Outcome) -> bool
        requires { IsAsked self.now.history.known.calls number }
        ensures { MatchBool result (ShowsNow self.now number outcome.now) (¬ ShowsNow self.now number outcome.now) }
    {
        match shown_verifier(call_asked(&self.history, number), outcome) {
            Some(verifier) => verifier == self.history.eras(),
            None => true,
        }
    }

    /// Whether the server may give this reply, where the tree allows it.
    fn check_reply(&self, number: u64, outcome: &Outcome) -> Result<(), PlaceFault>
        requires asked { IsAsked self.now.history.known.calls number }
        requires received { IsReceived outcome.now }
        requires stands { IsSome self.now.tree }
        ensures fits { OnOk result (IsNumbered self.now number × ShowsNow self.now number outcome.now × GivesAllowed self.now number outcome.now) }
        ensures refused { IfErr result (StopsWhere (¬ (IsNumbered self.now number × ShowsNow self.now number outcome.now × MayGive self.now number outcome.now))) }
    {
        let Some(object) = object_made(&self.history, number) else {
            return Err(PlaceFault::NotLegal);
        };
        if !self.shows_now(number, outcome) {
            return Err(PlaceFault::NotLegal);
        }
        let call = call_asked(&self.history, number);
        let (Some(tree), Outcome::Received(reply)) = (&self.tree, outcome) else {
            unreachable!();
        };
        if is_served(&self.binds, tree, object, call, reply)? {
            Ok(())
        } else {
            Err(PlaceFault::NotLegal)
        }
    }

    /// The message of a reply to a call.
    pub fn spell(&self, number: u64, reply: &NfsReply) -> Result<Vec<u8>, AllocError>
        requires { IsAsked self.now.history.known.calls number }
        ensures { IfOk result (λ answer. IsSpelledTo self.now.history.known.calls number (Received reply.now) answer.items) }
    {
        reply_message(self.alloc, self.history.call(number).xid, reply)
    }

    /// Whether a reply was spelled to this call.
    pub fn is_of_call(&self, number: u64, spelled: &SpelledReply) -> bool
        requires { IsAsked self.now.history.known.calls number }
        ensures { result ≡ true → IsOfCall self.now.history.known.calls number spelled.now.xid }
    {
        self.history.call(number).xid == spelled.xid()
    }

    /// The journal's record of a call with its reply, of which this is the message, where it has one.
    fn entry_of(
        &self,
        number: u64,
        outcome: &Outcome,
        answer: &[u8],
    ) -> Result<Option<Vec<u8>>, PlaceFault>
        requires tied { IsTied self.now }
        requires asked { IsAsked self.now.history.known.calls number }
        requires received { IsReceived outcome.now }
        requires spelled { IsSpelledTo self.now.history.known.calls number outcome.now answer.now }
        ensures entry { IfOk result (IsEntry self.now number outcome.now) }
        ensures fits { OnOk result (IsShortAnswer self.now number outcome.now) }
        ensures said { OnOk result (IsSayable self.now number outcome.now) }
        ensures refused { IfErr result (StopsWhere (¬ IsShortAnswer self.now number outcome.now)) }
    {
        let asked = self.history.call(number);
        if answer.len() > RECORD_LIMIT {
            return Err(PlaceFault::NotLegal);
        }
        if !is_recorded(call_asked(&self.history, number), outcome) {
            return Ok(None);
        }
        let message = message_of(&self.history, asked);
        let bytes = record_of(self.alloc, number, message, answer)?;
        Ok(Some(bytes))
    }

    /// What a call with this outcome puts into the journal, where it may be placed and the tree allows it. `answer` is the message of its
    /// reply. Room is set aside for its place.
    pub fn prepare_place(
        &mut self,
        number: u64,
        outcome: &Outcome,
        answer: &[u8],
    ) -> Result<Option<Vec<u8>>, PlaceFault>
        requires tied { IsTied self.old }
        requires asked { IsAsked self.old.history.known.calls number }
        requires received { IsReceived outcome.now }
        requires spelled { IsSpelledTo self.old.history.known.calls number outcome.now answer.now }
        requires stands { IsSome self.old.tree }
        ensures same { IsSame self.old self.new }
        ensures room { OnOk result (HasRoom self.new) }
        ensures entry { IfOk result (IsEntry self.new number outcome.now) }
        ensures fits { OnOk result (IsNumbered self.new number × ShowsNow self.new number outcome.now × GivesAllowed self.new number outcome.now × IsShortAnswer self.new number outcome.now × IsSayable self.new number outcome.now) }
        ensures refused { IfErr result (StopsWhere (¬ (IsNumbered self.new number × ShowsNow self.new number outcome.now × MayGive self.new number outcome.now × IsShortAnswer self.new number outcome.now))) }
    {
        self.check_reply(number, outcome)?;
        let entry = self.entry_of(number, outcome, answer)?;
        self.placed.reserve(1)?;
        self.undos.reserve(1)?;
        Ok(entry)
    }

    /// Takes the step of a call in the tree.
    pub fn step(&mut self, number: u64, outcome: &Outcome) -> Result<TreeStep, StepFault>
        requires asked { IsAsked self.old.history.known.calls number }
        requires stands { IsSome self.old.tree }
        requires numbered { IsNumbered self.old number }
        requires free { object_of self.old.binds (handle_of (object_in self.old number)) ≡ None }
        ensures taken { IfOk result (λ step. HasStepped self.old number outcome.now step self.new) }
        ensures refused { result ≡ Err StepFault.NotAllowed → HasNoStep self.old number outcome.now }
        ensures kept { OnErr result (HasStayed self.old self.new) }
    {
        let Some(tree) = &mut self.tree else {
            unreachable!();
        };
        let object = object_of_call(&self.history, number);
        let call = call_asked(&self.history, number);
        let profile = self.history.profile();
        take_step(profile, tree, &mut self.binds, object, call, outcome)
    }

    /// Places a call that took its step, behind which there are so many records. Room is set aside for it.
    pub fn note_place(
        &mut self,
        number: u64,
        outcome: Outcome,
        step: TreeStep,
        recorded: bool,
        records: u64,
    )
        requires room { HasRoom self.old }
        requires from_one { 1 ≤ number }
        requires within { number ≤ length self.old.calls.items }
        ensures { HasPlaced self.old number outcome step recorded records self.new }
    {
        let TreeStep { undo, made } = step;
        if recorded {
            self.undos.push(undo).unwrap();
        } else {
            drop(undo);
        }
        note_state(&mut self.calls, number, self.placed.len(), made);
        let placed = PlacedCall {
            number,
            outcome,
            records,
        };
        self.placed.push(placed).unwrap();
    }

    /// Lets the tree go that a call took its step in, which isn't placed. The book is down from then on.
    pub fn lose_step(&mut self, number: u64, step: TreeStep)
        requires numbered { IsNumbered self.old number }
        ensures { HasLost self.old number step.made self.new }
    {
        let TreeStep { undo, made } = step;
        drop(undo);
        if made {
            let object = object_of_call(&self.history, number);
            forget_own(&mut self.binds, object);
        }
        drop(self.tree.take());
        self.undos.clear();
        self.condition = Condition::Down;
    }
}
