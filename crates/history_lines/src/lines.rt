//! A line for each starting object and each event of a history file.

ghost use Rattle.std.specs.Prelude.{◌≡◌, ℕ, List, IfOk, IfSome, MatchBool};
ghost use Rattle.history_file.specs.FileFaults.{IsFileFault, IsErrorOf};
ghost use Rattle.history_lines.specs.Printable.{IsLine};

use crate::events::{BegunFile, UnreadEvents};
use crate::look::{About, Look};
use crate::messages::{Asked, add_call, add_reply};
use crate::start_lines::StartLines;
use crate::text::{Line, Text};
use history_file::{FileFault, SeenEvent};
use indexmap::IndexMap;
use rpc_reader::{CallHead, ReplyHead, RpcFault, read_call, read_reply};
use std::alloc::{AllocError, Global};

/// The text of a line, as far as it is the same for each event.
fn begin_text<'a>(alloc: Global, look: &'a Look, number: u64) -> Text<'a> {
    let mut text = Text::of_look(alloc, look);
    text.add_decimal(number);
    text
}

/// Appends the connection of an event.
fn add_lane(text: &mut Text<'_>, lane: u32) {
    text.add_number(" lane ", u64::from(lane));
}

/// Appends what a verdict says of a call.
fn add_mark(text: &mut Text<'_>, look: &Look, call: u64) {
    if look.marks.fault == Some(call) {
        text.add_words(" <- the call at fault");
    } else if look.marks.other == Some(call) {
        text.add_words(" <- at fault with this one");
    }
}

/// Appends what the message of a call says.
fn add_call_message(
    alloc: Global,
    text: &mut Text<'_>,
    call: u64,
    message: &[u8],
    read: &Result<CallHead<'_>, RpcFault>,
) {
    match read {
        Ok(head) => {
            text.add_word(" xid 0x", head.xid);
            add_call(alloc, text, &Asked::of_head(call, head), head.args);
        }
        Err(_) => text.add_bytes(" no RPC call ", message),
    }
}

/// The text of a call, which is event `number`.
fn call_text<'a>(
    alloc: Global,
    look: &'a Look,
    number: u64,
    call: u64,
    lane: u32,
    message: &[u8],
    read: &Result<CallHead<'_>, RpcFault>,
) -> Text<'a> {
    let mut text = begin_text(alloc, look, number);
    text.add_number(" call ", call);
    add_lane(&mut text, lane);
    add_call_message(alloc, &mut text, call, message, read);
    add_mark(&mut text, look, call);
    text
}

/// Appends which call a reply answers.
fn add_answered(text: &mut Text<'_>, asked: Option<Asked>) {
    match asked {
        Some(asked) => text.add_number(" reply to call ", asked.number),
        None => text.add_words(" reply to no call"),
    }
}

/// Appends what the message of a reply says.
fn add_reply_message(
    alloc: Global,
    text: &mut Text<'_>,
    asked: Option<Asked>,
    message: &[u8],
    read: &Result<ReplyHead<'_>, RpcFault>,
) {
    match read {
        Ok(head) => {
            text.add_word(" xid 0x", head.xid);
            add_reply(alloc, text, asked, &head.body);
        }
        Err(_) => text.add_bytes(" no RPC reply ", message),
    }
}

/// The text of a reply, which is event `number`.
fn reply_text<'a>(
    alloc: Global,
    look: &'a Look,
    number: u64,
    asked: Option<Asked>,
    lane: u32,
    message: &[u8],
    read: &Result<ReplyHead<'_>, RpcFault>,
) -> Text<'a> {
    let mut text = begin_text(alloc, look, number);
    add_answered(&mut text, asked);
    add_lane(&mut text, lane);
    add_reply_message(alloc, &mut text, asked, message, read);
    text
}

fn close_line(alloc: Global, look: &Look, number: u64, lane: u32) -> Result<Line, AllocError>
    ensures { IfOk result IsLine }
{
    let mut text = begin_text(alloc, look, number);
    text.add_words(" close");
    add_lane(&mut text, lane);
    text.into_line()
}

fn crash_line(alloc: Global, look: &Look, number: u64) -> Result<Line, AllocError>
    ensures { IfOk result IsLine }
{
    let mut text = begin_text(alloc, look, number);
    text.add_words(" crash");
    text.into_line()
}

/// A call that is unanswered.
#[derive(Clone, Copy)]
struct Unanswered {
    asked: Asked,
    /// Whether its line names what is looked for.
    is_met: bool,
}

/// What makes lines of the events that are shown. Of the events so far it keeps the calls that are unanswered.
#[derive(Drop)]
struct LineMaker {
    alloc: Global,
    look: Look,
    /// The calls that are unanswered, by lane and transaction number.
    unanswered: IndexMap<(u32, u32), Unanswered>,
}

/// What a call is of.
fn about_call(call: u64, lane: u32, read: &Result<CallHead<'_>, RpcFault>) -> About {
    let procedure = match read {
        Ok(head) => Asked::of_head(call, head).procedure(),
        Err(_) => None,
    };
    About {
        call: Some(call),
        lane: Some(lane),
        procedure,
    }
}

/// What a reply is of.
fn about_reply(lane: u32, answered: Option<Unanswered>) -> About {
    About {
        call: answered.map(|call| call.asked.number),
        lane: Some(lane),
        procedure: match answered {
            Some(call) => call.asked.procedure(),
            None => None,
        },
    }
}

impl LineMaker {
    ghost use Rattle.history_lines.specs.Shown.{IsShownAs, is_nothing};

    /// Whether the text of a call names what is looked for, and its line, where that is shown.
    fn line_of_call(
        &self,
        number: u64,
        call: u64,
        lane: u32,
        message: &[u8],
        read: &Result<CallHead<'_>, RpcFault>,
    ) -> Result<(bool, Option<Line>), AllocError>
        ensures printable { IfOk result (λ shown. IfSome shown.1 IsLine) }
        ensures shown { IfOk result (λ shown. IsShownAs self.now.look number shown.1) }
    {
        let is_selected = self
            .look
            .selection
            .has(number, about_call(call, lane, read));
        if !is_selected && self.look.sought.is_nothing() {
            return Ok((false, None));
        }
        let text = call_text(self.alloc, &self.look, number, call, lane, message, read);
        let is_met = self.look.sought.is_met(text.found()?);
        if !is_selected || !is_met {
            return Ok((is_met, None));
        }
        Ok((true, Some(text.into_line()?)))
    }

    /// Takes in call `call`, which is event `number`, and gives its line where it is shown.
    fn take_call(
        &mut self,
        number: u64,
        call: u64,
        lane: u32,
        message: &[u8],
    ) -> Result<Option<Line>, AllocError>
        ensures printable { IfOk result (λ shown. IfSome shown IsLine) }
        ensures shown { IfOk result (IsShownAs self.old.look number) }
        ensures kept { self.new.look ≡ self.old.look }
    {
        let read = read_call(message);
        let (is_met, line) = self.line_of_call(number, call, lane, message, &read)?;
        if let Ok(head) = read {
            let asked = Asked::of_head(call, &head);
            self.unanswered
                .insert((lane, head.xid), Unanswered { asked, is_met })?;
        }
        Ok(line)
    }

    /// The call that a reply answers.
    fn answered(&self, lane: u32, read: &Result<ReplyHead<'_>, RpcFault>) -> Option<Unanswered> {
        match read {
            Ok(head) => self.unanswered.get(&(lane, head.xid)).copied(),
            Err(_) => None,
        }
    }

    /// The line of a reply, where it is shown.
    fn line_of_reply(
        &self,
        number: u64,
        lane: u32,
        message: &[u8],
        read: &Result<ReplyHead<'_>, RpcFault>,
    ) -> Result<Option<Line>, AllocError>
        ensures printable { IfOk result (λ shown. IfSome shown IsLine) }
        ensures shown { IfOk result (IsShownAs self.now.look number) }
    {
        let answered = self.answered(lane, read);
        if !self.look.selection.has(number, about_reply(lane, answered)) {
            return Ok(None);
        }
        let asked = answered.map(|call| call.asked);
        let text = reply_text(self.alloc, &self.look, number, asked, lane, message, read);
        let is_met_before = answered.map_or(false, |call| call.is_met);
        if !is_met_before && !self.look.sought.is_met(text.found()?) {
            return Ok(None);
        }
        Ok(Some(text.into_line()?))
    }

    /// Takes in a reply, which is event `number`, and gives its line where it is shown.
    fn take_reply(
        &mut self,
        number: u64,
        lane: u32,
        message: &[u8],
    ) -> Result<Option<Line>, AllocError>
        ensures printable { IfOk result (λ shown. IfSome shown IsLine) }
        ensures shown { IfOk result (IsShownAs self.old.look number) }
        ensures kept { self.new.look ≡ self.old.look }
    {
        let read = read_reply(message);
        let line = self.line_of_reply(number, lane, message, &read)?;
        if let Ok(head) = read {
            self.unanswered.swap_remove(&(lane, head.xid));
        }
        Ok(line)
    }

    /// The line of a close or a crash, where it is shown. A crash is of each lane.
    fn line_beside_calls(
        &self,
        number: u64,
        closed: Option<u32>,
    ) -> Result<Option<Line>, AllocError>
        ensures printable { IfOk result (λ shown. IfSome shown IsLine) }
        ensures shown { IfOk result (IsShownAs self.now.look number) }
    {
        let about = About {
            call: None,
            lane: closed.or(self.look.selection.lane),
            procedure: None,
        };
        if !self.look.selection.has(number, about) || !self.look.sought.is_nothing() {
            return Ok(None);
        }
        match closed {
            Some(lane) => Ok(Some(close_line(self.alloc, &self.look, number, lane)?)),
            None => Ok(Some(crash_line(self.alloc, &self.look, number)?)),
        }
    }

    /// Takes in event `number`, and gives its line where it is shown; a call is call `call`. At an error nothing is taken in.
    fn take_event(
        &mut self,
        number: u64,
        call: u64,
        event: &SeenEvent<'_>,
    ) -> Result<Option<Line>, AllocError>
        ensures printable { IfOk result (λ shown. IfSome shown IsLine) }
        ensures shown { IfOk result (IsShownAs self.old.look number) }
        ensures kept { self.new.look ≡ self.old.look }
    {
        match event {
            SeenEvent::Call { lane, message } => self.take_call(number, call, *lane, *message),
            SeenEvent::Reply { lane, message } => self.take_reply(number, *lane, *message),
            SeenEvent::Close { lane } => self.line_beside_calls(number, Some(*lane)),
            SeenEvent::Crash => self.line_beside_calls(number, None),
        }
    }
}

/// The lines of a history file's events, one an event.
#[derive(Drop)]
struct ShownEvents<'a> {
    maker: LineMaker,
    unread: UnreadEvents<'a>,
}

impl<'a> ShownEvents<'a> {
    ghost use Rattle.tree_starts.specs.declared.object.StartObject.{StartObject};
    ghost use Rattle.tree_starts.specs.declared.profile.Profile.{Profile};
    ghost use Rattle.history_lines.specs.Left.{IsLeft};
    ghost use Rattle.history_lines.specs.Lines.{IsWholeAtEnd, IsNextEvent};

    /// The line of the next event that is shown. Where none is left, the rest of the file is read too, so that its fault is
    /// named. After want of memory it goes on with the same event, and after a fault it names the fault again.
    fn next_line(&mut self) -> Result<Option<Line>, FileFault>
        ensures printable { IfOk result (λ shown. IfSome shown IsLine) }
        ensures shown { IsNextEvent self.old self.new result }
        ensures kept { self.new.maker.look ≡ self.old.maker.look }
        ensures goes_on { (bytes : List ℕ) (start : List StartObject) (profile : Profile) → IsLeft bytes start profile self.old.unread → IsLeft bytes start profile self.new.unread }
        ensures fault { (bytes : List ℕ) (start : List StartObject) (profile : Profile) → IsLeft bytes start profile self.old.unread → IsErrorOf (IsFileFault bytes) result }
        ensures ended { (bytes : List ℕ) (start : List StartObject) (profile : Profile) → IsLeft bytes start profile self.old.unread → IsWholeAtEnd bytes result }
    {
        while self.unread.left() > 0 {
            let mut unread = self.unread;
            let event = unread.next()?;
            let line = self
                .maker
                .take_event(unread.read(), unread.calls(), &event)?;
            self.unread = unread;
            if line.is_some() {
                return Ok(line);
            }
        }
        self.unread.ended()?;
        Ok(None)
    }
}

/// The lines of a history file: of its profile where it isn't plain, one a starting object, one an event.
pub struct EventLines<'a> {
    ahead: StartLines<'a>,
    behind: ShownEvents<'a>,
}

impl Drop for EventLines<'_> {
    fn drop(self) {
        let EventLines { ahead, behind } = self;
        drop(ahead);
        drop(behind);
    }
}

impl<'a> EventLines<'a> {
    ghost use Rattle.history_lines.specs.Lines.{AreLinesOf, IsWholeAtEnd, IsNextShown, look_of, last_read, starts_left, starts_asked};

    /// Before the first line of a file.
    pub fn new(alloc: Global, bytes: &'a [u8], look: Look) -> Result<EventLines<'a>, FileFault>
        ensures found { IfOk result (AreLinesOf bytes.now) }
        ensures first { IfOk result (λ lines. (look_of lines ≡ look) × (last_read lines ≡ 0)) }
        // The lines of the start that are asked for are all still to come.
        ensures starts { IfOk result (λ lines. starts_left lines ≡ starts_asked look lines) }
        ensures fault { IsErrorOf (IsFileFault bytes.now) result }
    {
        let BegunFile {
            start,
            profile,
            unread,
        } = BegunFile::of_file(alloc, bytes)?;
        let has_start = look.has_start();
        let maker = LineMaker {
            alloc,
            look,
            unanswered: IndexMap::new(alloc),
        };
        Ok(EventLines {
            ahead: StartLines::new(start, profile, has_start),
            behind: ShownEvents { maker, unread },
        })
    }

    /// The next line: of the start, while one is left, else of the next event that is shown. Where none is left, the rest of the file
    /// is read too, so that its fault is named. After want of memory it goes on with the same line, and after a fault it names the
    /// fault again.
    pub fn next_line(&mut self) -> Result<Option<Line>, FileFault>
        // Printable bytes, and one line feed, at the end.
        ensures printable { IfOk result (λ shown. IfSome shown IsLine) }

        // It is a line of the start, of which none is left out, or else that of an event between the two numbers, and where nothing
        // narrows the choice none of these is left out, whatever fails.
        ensures shown { IsNextShown self.old self.new result }
        ensures kept { look_of self.new ≡ look_of self.old }

        // Of a file they are its lines still, also where it is at fault, which is its first fault.
        ensures goes_on { (bytes : List ℕ) → AreLinesOf bytes self.old → AreLinesOf bytes self.new }
        ensures fault { (bytes : List ℕ) → AreLinesOf bytes self.old → IsErrorOf (IsFileFault bytes) result }
        // Where no line is left the file is whole.
        ensures ended { (bytes : List ℕ) → AreLinesOf bytes self.old → IsWholeAtEnd bytes result }
    {
        match self.ahead.next_line(self.behind.maker.alloc) {
            Ok(Some(line)) => Ok(Some(line)),
            Ok(None) => self.behind.next_line(),
            Err(_) => Err(FileFault::NoMemory),
        }
    }
}
