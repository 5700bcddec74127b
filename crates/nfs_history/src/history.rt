//! What a history means: its calls, with what each one was, when it began and ended, and how it came out.

ghost use Rattle.std.specs.Prelude.{◌≡◌, ◌+◌, ◌≤◌, ◌<◌, ◌^◌, [], ◌∷◌, ◌++◌, length, slice_get, slice_set, vec_len, vec_capacity, true, IfOk, IfErr, IsOk, OnOk, OnErr, Some, option_map, option_and_then};
ghost use Rattle.std.specs.Option.{option_copied};
ghost use Rattle.history_file.specs.tree_starts_specs.Head.{plain_head};
ghost use Rattle.history_file.specs.Event.Event.{call, reply, crash};
ghost use Rattle.history_file.specs.Owning.{happened, all_happened};
ghost use Rattle.history_file.specs.declared.event.Event.TheVariants as events;
ghost use Rattle.nfs_history.specs.declared.fault.HistoryFault.{HistoryFault};
ghost use Rattle.nfs_history.specs.declared.history.History.{History};
ghost use Rattle.nfs_history.specs.Precedence.{call_at, begin_of, end_of};
ghost use Rattle.nfs_history.specs.History.{recording_of, Asks, Returns, AreRecorded, AreCallsOf, IsHistory};
ghost use Rattle.nfs_history.specs.FirstFault.{FirstFaultOf};
ghost use Rattle.nfs_history.specs.Answers.{IsFineOrNoMemory, IsErrorOf, IsThatOrNoMemory};
ghost use Rattle.nfs_history.specs.Appending.{with_event, unanswered, IsReadOf, IsQuiet, IsBegun, IsAnswered, IsPlaceFor, ComesOut, IsAnsweredSo, Follows, Appends};
ghost use Rattle.nfs_history.specs.Calls.{calls_of};
ghost use Rattle.nfs_history.specs.CallFaults.{FirstCallFault};
ghost use Rattle.nfs_history.specs.Checking.{KnowsOneMore, KnowsAsMuch};
ghost use Rattle.nfs_history.specs.EventFaults.{IsAtFault};
ghost use Rattle.nfs_history.specs.Judging.{IsStopFor};
ghost use Rattle.nfs_history.specs.Matching.{seen_call};
ghost use Rattle.nfs_history.specs.Standing.{CanBeCall, CanBeReply, IsLaneState, MayFollow, EachMayFollow};

use crate::checking::{LaneState, OpenCalls, follow_all};
use crate::fault::{EventFault, HistoryFault};
use crate::head::{LentHead, OwnedHead};
use crate::judging::{Stop, judged_call};
use crate::knowing::KnownCalls;
use crate::limits::outside_model;
use crate::matching::{SeenCall, SeenReply, transaction};
use crate::recorded::{Meaning, RecordedCall, find_call};
use history_file::tree_starts::{Profile, Start};
use history_file::{Event, Message, lend_events};
use nfs3_types::{FileHandle, NfsCall, NfsReply, Outcome};
use std::alloc::{AllocError, Global};
use std::marker::Model;

/// What is read of events: the calls, and what the events leave open.
struct ReadCalls {
    calls: Vec<RecordedCall>,
    open_calls: OpenCalls,
}

/// A history without a fault.
pub struct History {
    /// What it begins with.
    head: OwnedHead,
    calls: Vec<RecordedCall>,
    events: Vec<Event>,
    /// What of the events decides whether another may follow.
    open_calls: OpenCalls,
    /// For how many events room is set aside.
    spare: usize,
}

impl Drop for History {
    fn drop(self) {
        let History {
            head,
            calls,
            events,
            open_calls,
            spare: _,
        } = self;
        drop(head);
        drop(calls);
        drop(events);
        drop(open_calls);
    }
}

impl Model for History {
    ghost use Rattle.nfs_history.specs.HistoryValue.{HistoryValue};

    ghost Value = { HistoryValue };

    ghost use Rattle.nfs_history.specs.Inside.{value_of, IsKept};

    ghost view = { value_of };

    // It is the history of its events, and it is known what may come next.
    ghost invariant = { IsKept };
}

/// What is known of the calls among these events.
fn calls_among<'a>(
    alloc: Global,
    head: LentHead<'a>,
    events: &'a [Event],
) -> Result<KnownCalls<'a>, HistoryFault>
    ensures found { IfOk result (AreCallsOf (record { head = head.entry; events = all_happened events.now })) }
    ensures fault { IsErrorOf (FirstFaultOf (all_happened events.now)) result }
{
    let seen = lend_events(alloc, events)?;
    KnownCalls::of_events(alloc, head, seen)
}

/// The calls, each read from its messages.
fn all_calls(alloc: Global, known: &KnownCalls<'_>) -> Result<Vec<RecordedCall>, AllocError>
    ensures { IfOk result (λ v. v.items ≡ known.now.calls) }
{
    let count = known.count();
    let mut calls = Vec::with_capacity(alloc, count)?;
    for index in 0..count {
        let Some(call) = known.call(alloc, index as u64 + 1)? else {
            unreachable!();
        };
        calls.push(call)?;
    }
    Ok(calls)
}

/// The calls among these events, read, and what the events leave open.
fn read_among<'a>(
    alloc: Global,
    head: &'a OwnedHead,
    events: &'a [Event],
) -> Result<ReadCalls, HistoryFault>
    ensures found { IfOk result (IsReadOf head.now (all_happened events.now)) }
    ensures fault { IsErrorOf (FirstFaultOf (all_happened events.now)) result }
{
    let seen = lend_events(alloc, events)?;
    let open_calls = follow_all(alloc, seen.as_slice())?;
    let known = KnownCalls::of_followed(alloc, head.lend(alloc)?, seen)?;
    Ok(ReadCalls {
        calls: all_calls(alloc, &known)?,
        open_calls,
    })
}

/// Puts an event behind the others, and takes in what it opens and closes.
fn put_event(
    events: &mut Vec<Event>,
    open_calls: &mut OpenCalls,
    event: Event,
) -> Result<(), AllocError>
    requires { open_calls.old.era + 1 < 2 ^ 64 }
    ensures put { OnOk result (events.new.items ≡ events.old.items ++ event ∷ []) }
    ensures knows { OnOk result (KnowsOneMore open_calls.old open_calls.new (happened event)) }
    ensures kept { OnErr result (events.new.items ≡ events.old.items) }
    ensures as_much { OnErr result (KnowsAsMuch open_calls.old open_calls.new) }
    ensures len { OnErr result (vec_len events.new ≡ vec_len events.old) }
    ensures capacity { vec_capacity events.old ≤ vec_capacity events.new }
    // A crash needs no more than a place.
    ensures crashed { vec_len events.old + 1 ≤ vec_capacity events.old → happened event ≡ crash → IsOk result }
{
    events.reserve(1)?;
    open_calls.follow(&event.as_seen())?;
    events.push(event).unwrap();
    Ok(())
}

impl History {
    /// The history of these events of a server that held nothing, whose attributes aren't judged. The first fault is named: those of
    /// the events, then those of the calls.
    pub fn build(
        alloc: Global,
        root: FileHandle,
        events: Vec<Event>,
    ) -> Result<History, HistoryFault>
        ensures found { IfOk result (IsHistory (record { head = plain_head root; events = all_happened events.items })) }
        // What is a history is built, memory aside.
        ensures only { (history : History) → IsHistory (record { head = plain_head root; events = all_happened events.items }) history
            → IsFineOrNoMemory result }
        ensures fault { IsErrorOf (FirstFaultOf (all_happened events.items)) result }
        // The first fault is named, memory aside.
        ensures named { (fault : HistoryFault) → FirstFaultOf (all_happened events.items) fault
            → IsThatOrNoMemory fault result }
        // No room is set aside.
        ensures bare { IfOk result (λ history. history.spare ≡ 0) }
    {
        History::build_from(alloc, root, Profile::Plain, Start::empty(alloc), events)
    }

    /// The history of a start and these events. The first fault is named: those of the events, then those of the calls.
    pub fn build_from(
        alloc: Global,
        root: FileHandle,
        profile: Profile,
        start: Start,
        events: Vec<Event>,
    ) -> Result<History, HistoryFault>
        ensures found { IfOk result (IsHistory (record { head = record { root = root; start = start; profile = profile }; events = all_happened events.items })) }
        // What is a history is built, memory aside.
        ensures only { (history : History) → IsHistory (record { head = record { root = root; start = start; profile = profile }; events = all_happened events.items }) history
            → IsFineOrNoMemory result }
        ensures fault { IsErrorOf (FirstFaultOf (all_happened events.items)) result }
        // The first fault is named, memory aside.
        ensures named { (fault : HistoryFault) → FirstFaultOf (all_happened events.items) fault
            → IsThatOrNoMemory fault result }
        // No room is set aside.
        ensures bare { IfOk result (λ history. history.spare ≡ 0) }
    {
        let head = OwnedHead::new(root, start, profile);
        let known = read_among(alloc, &head, events.as_slice())?;
        let ReadCalls { calls, open_calls } = known;
        Ok(History {
            head,
            calls,
            events,
            open_calls,
            spare: 0,
        })
    }

    // Why an event may not come next.
    fn check_next(&self, event: &Event) -> Result<(), EventFault>
        ensures all { EachMayFollow [] (all_happened self.now.events) }
        ensures follows { OnOk result (MayFollow (all_happened self.now.events) (happened event.now)) }
        ensures fault { IfErr result (IsAtFault (length (all_happened self.now.events) + 1) (all_happened self.now.events) (happened event.now)) }
    {
        let number = self.events.len() as u64 + 1;
        match self.open_calls.fault_of(number, &event.as_seen()) {
            Some(fault) => Err(fault),
            None => Ok(()),
        }
    }

    // Why a call whose message was read already may not come next.
    fn check_read_call(&self, lane: u32, message: &[u8]) -> Result<(), EventFault>
        requires { CanBeCall message.now }
        ensures all { EachMayFollow [] (all_happened self.now.events) }
        ensures follows { OnOk result (MayFollow (all_happened self.now.events) (call lane message.now)) }
        ensures fault { IfErr result (IsAtFault (length (all_happened self.now.events) + 1) (all_happened self.now.events) (call lane message.now)) }
    {
        let number = self.events.len() as u64 + 1;
        if let Some(fault) = self.open_calls.fault_of_read_call(number, lane, message) {
            return Err(fault);
        }
        Ok(())
    }

    // The call that comes next, without a reply.
    fn begun_call(&self, lane: u32, message: &[u8]) -> Result<RecordedCall, Stop>
        requires { MayFollow (all_happened self.now.events) (call lane message.now) }
        ensures found { IfOk result (IsBegun self.now lane message.now) }
        ensures fault { IsStopFor (FirstCallFault 1 (calls_of (all_happened self.now.events ++ call lane message.now ∷ []))) result }
    {
        let seen = SeenCall {
            lane,
            message,
            begin: self.events.len() as u64 + 1,
            era: self.open_calls.era(),
            answer: None,
        };
        judged_call(*self.events.allocator(), self.calls.len() as u64 + 1, &seen)
    }

    // The call that comes next, without a reply, whose message was read already.
    fn asked_call(&self, lane: u32, message: &[u8], call: NfsCall) -> RecordedCall
        requires { Asks message.now call }
        ensures { IsBegun self.now lane message.now result }
    {
        let begin = self.events.len() as u64 + 1;
        RecordedCall {
            lane,
            xid: transaction(message),
            meaning: Meaning::Judged(call),
            begin,
            end: None,
            era: self.open_calls.era(),
            outcome: None,
        }
    }

    // A call, from 0 on, where its message stands, without a reply.
    fn seen_at(&self, place: usize) -> SeenCall<'_>
        requires { place < length self.now.known.calls }
        ensures { Some (seen_call result) ≡ option_map unanswered (slice_get (calls_of (all_happened self.now.events)) place) }
    {
        let asked = &self.calls[place];
        let Event::Call { lane, message } = &self.events[asked.begin as usize - 1] else {
            unreachable!();
        };
        SeenCall {
            lane: *lane,
            message: message.as_slice(),
            begin: asked.begin,
            era: asked.era,
            answer: None,
        }
    }

    // The call, and its place, that the reply answers which comes next.
    fn answered_call(&self, lane: u32, message: &[u8]) -> Result<(usize, RecordedCall), Stop>
        requires { MayFollow (all_happened self.now.events) (reply lane message.now) }
        ensures found { IfOk result (λ found. IsAnswered self.now lane message.now found.0 found.1) }
        ensures fault { IsStopFor (FirstCallFault 1 (calls_of (all_happened self.now.events ++ reply lane message.now ∷ []))) result }
    {
        let Some(place) = self.open_calls.place_of(lane, message) else {
            unreachable!();
        };
        let number = self.events.len() as u64 + 1;
        let asked = self.seen_at(place as usize);
        let seen = SeenCall {
            lane: asked.lane,
            message: asked.message,
            begin: asked.begin,
            era: asked.era,
            answer: Some(SeenReply { number, message }),
        };
        let call = judged_call(*self.events.allocator(), place + 1, &seen)?;
        Ok((place as usize, call))
    }

    // The place of the call that a reply answers, or why it may not come next. Its message was read already.
    fn place_answered(&self, lane: u32, message: &[u8]) -> Result<usize, EventFault>
        requires { CanBeReply message.now }
        ensures all { EachMayFollow [] (all_happened self.now.events) }
        ensures follows { OnOk result (MayFollow (all_happened self.now.events) (reply lane message.now)) }
        ensures place { IfOk result (IsPlaceFor self.now lane message.now) }
        ensures fault { IfErr result (IsAtFault (length (all_happened self.now.events) + 1) (all_happened self.now.events) (reply lane message.now)) }
    {
        let number = self.events.len() as u64 + 1;
        if let Some(fault) = self.open_calls.fault_of_read_reply(number, lane, message) {
            return Err(fault);
        }
        let Some(place) = self.open_calls.place_of(lane, message) else {
            unreachable!();
        };
        Ok(place as usize)
    }

    // Whether the call at a place can come out so, inside the model.
    fn comes_out(&self, place: usize, outcome: &Option<Outcome>) -> bool
        requires { place < length self.now.known.calls }
        ensures { result ≡ true → ComesOut self.now place outcome.now }
    {
        let Meaning::Judged(call) = &self.calls[place].meaning else {
            return false;
        };
        let Some(Outcome::Received(reply)) = outcome else {
            return false;
        };
        if !call.is_answered_by(reply) {
            return false;
        }
        outside_model(call, outcome).is_none()
    }

    // Puts a call behind the other events.
    fn take_call(&mut self, event: Event, call: RecordedCall) -> Result<(), AllocError>
        requires follows { MayFollow (all_happened self.old.events) (happened event) }
        requires recorded { AreRecorded (calls_of (with_event self.old event).events) (self.old.known.calls ++ call ∷ []) }
        ensures taken { OnOk result (Follows self.old event self.new) }
        ensures kept { OnErr result (self.new ≡ self.old) }
    {
        self.calls.reserve(1)?;
        put_event(&mut self.events, &mut self.open_calls, event)?;
        self.calls.push(call).unwrap();
        self.spare = 0;
        Ok(())
    }

    // Puts a reply behind the other events, where the call at this place becomes this one.
    fn take_reply(
        &mut self,
        event: Event,
        place: usize,
        call: RecordedCall,
    ) -> Result<(), AllocError>
        requires follows { MayFollow (all_happened self.old.events) (happened event) }
        requires within { place < length self.old.known.calls }
        requires recorded { AreRecorded (calls_of (with_event self.old event).events) (slice_set self.old.known.calls place call) }
        ensures taken { OnOk result (Follows self.old event self.new) }
        ensures kept { OnErr result (self.new ≡ self.old) }
    {
        put_event(&mut self.events, &mut self.open_calls, event)?;
        self.calls[place] = call;
        self.spare = 0;
        Ok(())
    }

    // Puts a reply behind the other events, with which the call at this place comes out so.
    fn take_answer(
        &mut self,
        event: Event,
        place: usize,
        outcome: Option<Outcome>,
    ) -> Result<(), AllocError>
        requires follows { MayFollow (all_happened self.old.events) (happened event) }
        requires within { place < length self.old.known.calls }
        requires recorded { IsAnsweredSo self.old (happened event) place outcome }
        ensures taken { OnOk result (Follows self.old event self.new) }
        ensures kept { OnErr result (self.new ≡ self.old) }
    {
        let number = self.events.len() as u64 + 1;
        put_event(&mut self.events, &mut self.open_calls, event)?;
        self.calls[place].come_out(number, outcome);
        self.spare = 0;
        Ok(())
    }

    // Puts a close or a crash behind the other events.
    fn take_quiet(&mut self, event: Event) -> Result<(), AllocError>
        requires follows { MayFollow (all_happened self.old.events) (happened event) }
        requires quiet { IsQuiet (happened event) }
        ensures taken { OnOk result (Follows self.old event self.new) }
        ensures kept { OnErr result (self.new ≡ self.old) }
        ensures crashed { 1 ≤ self.old.spare → happened event ≡ crash → IsOk result }
    {
        put_event(&mut self.events, &mut self.open_calls, event)?;
        self.spare = 0;
        Ok(())
    }

    fn append_call(&mut self, lane: u32, message: Message) -> Result<(), HistoryFault>
        requires all { EachMayFollow [] (all_happened self.old.events) }
        requires follows { MayFollow (all_happened self.old.events) (call lane message) }
        ensures { Appends self.old (events.Call lane message) result self.new }
    {
        let call = self.begun_call(lane, message.as_slice())?;
        self.take_call(Event::Call { lane, message }, call)?;
        Ok(())
    }

    fn append_reply(&mut self, lane: u32, message: Message) -> Result<(), HistoryFault>
        requires all { EachMayFollow [] (all_happened self.old.events) }
        requires follows { MayFollow (all_happened self.old.events) (reply lane message) }
        ensures { Appends self.old (events.Reply lane message) result self.new }
    {
        let (place, call) = self.answered_call(lane, message.as_slice())?;
        self.take_reply(Event::Reply { lane, message }, place, call)?;
        Ok(())
    }

    // Puts a call behind the other events. Its message isn't read again.
    fn append_asked(
        &mut self,
        lane: u32,
        message: Message,
        call: NfsCall,
    ) -> Result<(), HistoryFault>
        requires { Asks message call }
        ensures { Appends self.old (events.Call lane message) result self.new }
    {
        self.check_read_call(lane, message.as_slice())?;
        let begun = self.asked_call(lane, message.as_slice(), call);
        self.take_call(Event::Call { lane, message }, begun)?;
        Ok(())
    }

    // Puts a reply behind the other events. Its message is read again where it is one to another procedure, or lies outside the model.
    fn append_answer(
        &mut self,
        lane: u32,
        message: Message,
        reply: NfsReply,
    ) -> Result<(), HistoryFault>
        requires { Returns message reply }
        ensures { Appends self.old (events.Reply lane message) result self.new }
    {
        let place = self.place_answered(lane, message.as_slice())?;
        let outcome = Some(Outcome::Received(reply));
        if !self.comes_out(place, &outcome) {
            return self.append_reply(lane, message);
        }
        self.take_answer(Event::Reply { lane, message }, place, outcome)?;
        Ok(())
    }

    fn append_quiet(&mut self, event: Event) -> Result<(), HistoryFault>
        requires follows { MayFollow (all_happened self.old.events) (happened event) }
        requires quiet { IsQuiet (happened event) }
        ensures { Appends self.old event result self.new }
    {
        self.take_quiet(event)?;
        Ok(())
    }

    fn append_next(&mut self, event: Event) -> Result<(), HistoryFault>
        ensures { Appends self.old event result self.new }
    {
        self.check_next(&event)?;
        match event {
            Event::Call { lane, message } => self.append_call(lane, message),
            Event::Reply { lane, message } => self.append_reply(lane, message),
            Event::Close { lane } => self.append_quiet(Event::Close { lane }),
            Event::Crash => self.append_quiet(Event::Crash),
        }
    }

    /// Puts an event behind the others, and answers as `build` does of all of them. What it costs doesn't grow with the events
    /// that there are: a call is found by its lane and transaction number.
    pub fn append(&mut self, event: Event) -> Result<(), HistoryFault>
        // It is the history of the events with this one behind them.
        ensures found { OnOk result (IsHistory (with_event self.old event) self.new) }
        ensures behind { OnOk result (self.new.events ≡ self.old.events ++ event ∷ []) }
        // Else it stays as it was.
        ensures kept { OnErr result (self.new ≡ self.old) }
        // Where the events are a history's, it is put there, memory aside.
        ensures only { (history : History) → IsHistory (with_event self.old event) history → IsFineOrNoMemory result }
        ensures fault { IsErrorOf (FirstFaultOf (with_event self.old event).events) result }
        // The first fault is named, memory aside.
        ensures named { (fault : HistoryFault) → FirstFaultOf (with_event self.old event).events fault
            → IsThatOrNoMemory fault result }
        // Where room is set aside, a crash needs no memory. It takes the room.
        ensures crashed { 1 ≤ self.old.spare → happened event ≡ crash → IsOk result }
        ensures taken { OnOk result (self.new.spare ≡ 0) }
    {
        self.append_next(event)
    }

    /// Puts a call behind the other events, and answers as `append` does. `call` is what its message was read to: nothing is read again.
    pub fn append_read_call(
        &mut self,
        lane: u32,
        message: Message,
        call: NfsCall,
    ) -> Result<(), HistoryFault>
        requires { Asks message call }
        // It is the history of the events with this one behind them.
        ensures found { OnOk result (IsHistory (with_event self.old (events.Call lane message)) self.new) }
        ensures behind { OnOk result (self.new.events ≡ self.old.events ++ events.Call lane message ∷ []) }
        // Else it stays as it was.
        ensures kept { OnErr result (self.new ≡ self.old) }
        // Where the events are a history's, it is put there, memory aside.
        ensures only { (history : History) → IsHistory (with_event self.old (events.Call lane message)) history → IsFineOrNoMemory result }
        ensures fault { IsErrorOf (FirstFaultOf (with_event self.old (events.Call lane message)).events) result }
        // The first fault is named, memory aside.
        ensures named { (fault : HistoryFault) → FirstFaultOf (with_event self.old (events.Call lane message)).events fault
            → IsThatOrNoMemory fault result }
        // It takes the room.
        ensures taken { OnOk result (self.new.spare ≡ 0) }
    {
        self.append_asked(lane, message, call)
    }

    /// Puts a reply behind the other events, and answers as `append` does. `reply` is what its message was read to. The message is read
    /// again only where it replies to another procedure than its call's, or where the call lies outside the model with it.
    pub fn append_read_reply(
        &mut self,
        lane: u32,
        message: Message,
        reply: NfsReply,
    ) -> Result<(), HistoryFault>
        requires { Returns message reply }
        // It is the history of the events with this one behind them.
        ensures found { OnOk result (IsHistory (with_event self.old (events.Reply lane message)) self.new) }
        ensures behind { OnOk result (self.new.events ≡ self.old.events ++ events.Reply lane message ∷ []) }
        // Else it stays as it was.
        ensures kept { OnErr result (self.new ≡ self.old) }
        // Where the events are a history's, it is put there, memory aside.
        ensures only { (history : History) → IsHistory (with_event self.old (events.Reply lane message)) history → IsFineOrNoMemory result }
        ensures fault { IsErrorOf (FirstFaultOf (with_event self.old (events.Reply lane message)).events) result }
        // The first fault is named, memory aside.
        ensures named { (fault : HistoryFault) → FirstFaultOf (with_event self.old (events.Reply lane message)).events fault
            → IsThatOrNoMemory fault result }
        // It takes the room.
        ensures taken { OnOk result (self.new.spare ≡ 0) }
    {
        self.append_answer(lane, message, reply)
    }

    /// Sets room aside for a crash, until the next event is put behind the others.
    pub fn reserve(&mut self) -> Result<(), AllocError>
        ensures room { OnOk result (1 ≤ self.new.spare) }
        ensures known { self.new.known ≡ self.old.known }
        ensures events { self.new.events ≡ self.old.events }
        // Else it stays as it was.
        ensures kept { OnErr result (self.new ≡ self.old) }
    {
        self.events.reserve(1)?;
        self.spare = 1;
        Ok(())
    }

    /// What it is judged by: its events are read again. They have no fault, so memory alone can be wanting.
    pub fn lend_calls(&self, alloc: Global) -> Result<KnownCalls<'_>, AllocError>
        ensures { IfOk result (λ known. known ≡ self.now.known) }
    {
        let head = self.head.lend(alloc)?;
        match calls_among(alloc, head, self.events()) {
            Ok(known) => Ok(known),
            Err(_) => Err(AllocError),
        }
    }

    /// The handle of the root directory.
    pub fn root(&self) -> &FileHandle
        ensures { result.now ≡ self.now.known.head.root }
    {
        self.head.root()
    }

    /// What the server held at first.
    pub fn start(&self) -> &Start
        ensures { result.now ≡ self.now.known.head.start }
    {
        self.head.start()
    }

    /// How strictly the replies are judged.
    pub fn profile(&self) -> Profile
        ensures { result ≡ self.now.known.head.profile }
    {
        self.head.profile()
    }

    /// What happened, in order, numbered from 1.
    pub fn events(&self) -> &[Event]
        ensures shown { result.now ≡ self.now.events }
        // The history is that of its events.
        ensures whole { IsHistory (recording_of self.now) self.now }
    {
        self.events.as_slice()
    }

    /// How many eras it has: one more than the server went down.
    pub fn eras(&self) -> u64
        ensures { result ≡ self.now.known.eras }
    {
        self.open_calls.era()
    }

    /// Whether events may still come on a lane. It is found in constant time.
    pub fn lane(&self, lane: u32) -> LaneState
        ensures { IsLaneState lane (all_happened self.now.events) result }
    {
        self.open_calls.lane(lane)
    }

    /// How many calls it has.
    pub fn calls(&self) -> u64
        ensures { result ≡ length self.now.known.calls }
    {
        self.recorded_calls().len() as u64
    }

    /// Its calls in the order in which they began: call n is the n-th.
    pub fn recorded_calls(&self) -> &[RecordedCall]
        ensures { result.now ≡ self.now.known.calls }
    {
        self.calls.as_slice()
    }

    /// Call `number`, from 1 on, where there is one.
    pub fn find_call(&self, number: u64) -> Option<&RecordedCall>
        ensures { option_copied result ≡ call_at self.now.known.calls number }
    {
        find_call(self.recorded_calls(), number)
    }

    /// Call `number`, from 1 on.
    pub fn call(&self, number: u64) -> &RecordedCall
        requires from_one { 1 ≤ number }
        requires known { number ≤ length self.now.known.calls }
        ensures { call_at self.now.known.calls number ≡ Some result.now }
    {
        &self.recorded_calls()[number as usize - 1]
    }

    /// The number of the event with which a call began.
    pub fn begin(&self, number: u64) -> u64
        requires from_one { 1 ≤ number }
        requires known { number ≤ length self.now.known.calls }
        ensures { result ≡ begin_of self.now.known.calls number }
    {
        self.call(number).begin
    }

    /// The number of the event of a call's reply, where one came.
    pub fn end(&self, number: u64) -> Option<u64>
        requires from_one { 1 ≤ number }
        requires known { number ≤ length self.now.known.calls }
        ensures { result ≡ end_of self.now.known.calls number }
    {
        self.call(number).end
    }

    /// The era of a call, from 1 on.
    pub fn era(&self, number: u64) -> u64
        requires from_one { 1 ≤ number }
        requires known { number ≤ length self.now.known.calls }
        ensures { option_map (λ call. call.era) (call_at self.now.known.calls number) ≡ Some result }
    {
        self.call(number).era
    }

    /// How an answered judged call came out.
    pub fn outcome(&self, number: u64) -> Option<&Outcome>
        requires from_one { 1 ≤ number }
        requires known { number ≤ length self.now.known.calls }
        ensures { option_copied result ≡ option_and_then (λ call. call.outcome) (call_at self.now.known.calls number) }
    {
        self.call(number).outcome.as_ref()
    }
}
