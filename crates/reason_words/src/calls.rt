//! Calls and their replies.

use crate::handles::{name_those_of_call, name_those_of_reply};
use crate::scene::{Scene, push_line};
use history_lines::{Text, procedure_name, push_arguments, push_result};
use nfs3_types::{NfsCall, NfsReply, Outcome};
use std::alloc::AllocError;

/// Appends when a call began and was answered. A front of a history doesn't tell that a call wasn't.
fn push_events(
    text: &mut Text<'_>,
    begun: u64,
    ended: Option<u64>,
    is_front: bool,
) -> Result<(), AllocError> {
    text.push_number("  begun by event ", begun)?;
    match ended {
        Some(event) => text.push_number(", answered by event ", event),
        None if is_front => Ok(()),
        None => text.push_words(", not answered"),
    }
}

/// A line of the events of a call.
pub(crate) fn push_span(
    lines: &mut Vec<u8>,
    scene: &Scene<'_, '_>,
    number: u64,
) -> Result<(), AllocError> {
    let mut text = Text::new(scene.alloc);
    push_events(
        &mut text,
        scene.history.begin(number),
        scene.history.end(number),
        scene.is_front,
    )?;
    push_line(lines, text)
}

/// A line of a call: its procedure with what it asks for.
pub(crate) fn push_call(
    lines: &mut Vec<u8>,
    scene: &Scene<'_, '_>,
    number: u64,
    call: &NfsCall,
) -> Result<(), AllocError> {
    let mut text = Text::new(scene.alloc);
    name_those_of_call(&mut text, scene, call)?;
    text.push_number("call ", number)?;
    text.push_words(" ")?;
    text.push_words(procedure_name(call.procedure()))?;
    push_arguments(&mut text, call)?;
    push_line(lines, text)
}

/// A line of a reply, behind words.
pub(crate) fn push_reply(
    lines: &mut Vec<u8>,
    scene: &Scene<'_, '_>,
    words: &str,
    reply: &NfsReply,
) -> Result<(), AllocError> {
    let mut text = Text::new(scene.alloc);
    name_those_of_reply(&mut text, scene, reply)?;
    text.push_words(words)?;
    push_result(&mut text, reply)?;
    push_line(lines, text)
}

/// A line of a call that is taken as done, of a WRITE with the count of its bytes that were written.
fn push_taken(
    lines: &mut Vec<u8>,
    scene: &Scene<'_, '_>,
    count: Option<u32>,
) -> Result<(), AllocError> {
    let mut text = Text::new(scene.alloc);
    text.push_words("  taken as done")?;
    if !scene.is_front {
        text.push_words(", without a reply")?;
    }
    if let Some(count) = count {
        text.push_number(", with so many bytes written: ", u64::from(count))?;
    }
    push_line(lines, text)
}

/// A line of how a call came out.
pub(crate) fn push_outcome(
    lines: &mut Vec<u8>,
    scene: &Scene<'_, '_>,
    outcome: &Outcome,
) -> Result<(), AllocError> {
    match outcome {
        Outcome::Received(reply) => push_reply(lines, scene, "  its reply:", reply),
        Outcome::Taken(count) => push_taken(lines, scene, *count),
    }
}

/// Lines of a judged call with its reply, where one came.
fn push_judged(
    lines: &mut Vec<u8>,
    scene: &Scene<'_, '_>,
    number: u64,
    call: &NfsCall,
    outcome: &Option<Outcome>,
) -> Result<(), AllocError> {
    push_call(lines, scene, number, call)?;
    match outcome {
        Some(outcome) => push_outcome(lines, scene, outcome),
        None => Ok(()),
    }
}

/// A line of a call that isn't judged.
fn push_unjudged(
    lines: &mut Vec<u8>,
    scene: &Scene<'_, '_>,
    number: u64,
) -> Result<(), AllocError> {
    let mut text = Text::new(scene.alloc);
    text.push_number("call ", number)?;
    text.push_words(" isn't judged: it has no effect and no place")?;
    push_line(lines, text)
}

/// Lines of a call as the history has it, where there is such a call.
pub(crate) fn push_recorded(
    lines: &mut Vec<u8>,
    scene: &Scene<'_, '_>,
    number: u64,
) -> Result<(), AllocError> {
    let Some(recorded) = scene.history.call(scene.alloc, number)? else {
        return Ok(());
    };
    match recorded.into_judged() {
        Some((call, outcome)) => push_judged(lines, scene, number, &call, &outcome)?,
        None => push_unjudged(lines, scene, number)?,
    }
    push_span(lines, scene, number)
}

/// Lines of a call whose reply no order explains.
pub(crate) fn push_unexplained(
    lines: &mut Vec<u8>,
    scene: &Scene<'_, '_>,
    number: u64,
) -> Result<(), AllocError> {
    push_recorded(lines, scene, number)?;
    let mut text = Text::new(scene.alloc);
    text.push_words("no order of the calls before it explains this reply")?;
    push_line(lines, text)
}
