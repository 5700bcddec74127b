//! What an object is, and where it comes from.

use crate::changes::{given_handle, is_done};
use crate::places::cut_places;
use crate::scene::Scene;
use certificate::{EraPlan, Place};
use fault_reasons::{Placed, placed_at};
use history_lines::Text;
use nfs_history::CallKind;
use nfs3_types::Procedure;
use std::alloc::AllocError;
use tree_nodes::{Content, Node, Nodes};

/// The call that makes an object, if any.
pub(crate) fn maker_of(scene: &Scene<'_, '_>, object: u64) -> Option<u64> {
    let starts = scene.history.start().count() as u64;
    match object.checked_sub(starts) {
        Some(call) if call > 0 => Some(call),
        _ => None,
    }
}

/// What became of an object that isn't in the tree at a place.
#[derive(Clone, Copy, PartialEq, Eq)]
enum Fate {
    /// No place ahead is that of the call that makes it.
    NotYet,
    /// The call that should make it made nothing, or found another object.
    NotMade,
    /// It was made, and is gone.
    Gone,
    /// A crash took away what made it.
    Lost,
}

/// Whether a procedure makes objects.
fn is_maker(procedure: Procedure) -> bool {
    matches!(
        procedure,
        Procedure::Create | Procedure::MkDir | Procedure::SymLink
    )
}

/// Whether a call that came out so made an object, as far as its reply tells.
fn is_made(scene: &Scene<'_, '_>, placed: &Placed, object: u64) -> bool {
    if !is_maker(placed.call.procedure()) || !is_done(&placed.outcome) {
        return false;
    }
    match given_handle(&placed.outcome) {
        Some(handle) => scene.binds.object(handle.as_slice()) == Some(object),
        None => true,
    }
}

/// What a call at a place made of its object.
fn fate_at(
    scene: &Scene<'_, '_>,
    place: Place,
    object: u64,
    fate: Fate,
) -> Result<Fate, AllocError> {
    match placed_at(scene.alloc, scene.history, place)? {
        Some(placed) if is_made(scene, &placed, object) => Ok(fate),
        _ => Ok(Fate::NotMade),
    }
}

/// What became of an object by the place of the call that makes it, where it is one of these.
fn fate_in(
    scene: &Scene<'_, '_>,
    places: &[Place],
    number: u64,
    object: u64,
    fate: Fate,
) -> Result<Fate, AllocError> {
    for place in places {
        if place.number() == number {
            return fate_at(scene, *place, object, fate);
        }
    }
    Ok(Fate::NotYet)
}

/// The same by the places of an era, of which the crash at its end took some away.
fn fate_in_era(
    scene: &Scene<'_, '_>,
    era: &EraPlan,
    number: u64,
    object: u64,
) -> Result<Fate, AllocError> {
    let (kept, lost) = cut_places(era);
    let fate = fate_in(scene, kept, number, object, Fate::Gone)?;
    if fate != Fate::NotYet {
        return Ok(fate);
    }
    fate_in(scene, lost, number, object, Fate::Lost)
}

/// What became of an object that isn't in the tree at a place.
fn fate_of(scene: &Scene<'_, '_>, object: u64) -> Result<Fate, AllocError> {
    let Some(number) = maker_of(scene, object) else {
        return Ok(Fate::Gone);
    };
    let fate = fate_in(scene, scene.front, number, object, Fate::Gone)?;
    if fate != Fate::NotYet {
        return Ok(fate);
    }
    for era in scene.ahead {
        let fate = fate_in_era(scene, era, number, object)?;
        if fate != Fate::NotYet {
            return Ok(fate);
        }
    }
    Ok(Fate::NotYet)
}

/// Whether the history has such a call, which makes an object where it succeeds.
fn may_make(scene: &Scene<'_, '_>, number: u64) -> bool {
    match scene.history.kind(number) {
        Some(CallKind::Unanswered(procedure) | CallKind::Answered(procedure, _)) => {
            is_maker(procedure)
        }
        _ => false,
    }
}

/// Appends where an object comes from: the start, or the call that made it.
pub(crate) fn push_origin(
    text: &mut Text<'_>,
    scene: &Scene<'_, '_>,
    object: u64,
) -> Result<(), AllocError> {
    match maker_of(scene, object) {
        Some(call) if may_make(scene, call) => text.push_number("made by call ", call),
        Some(call) => text.push_number("not made by call ", call),
        None => text.push_words("there from the start"),
    }
}

/// Appends where an object comes from that isn't in the tree, and what became of it.
pub(crate) fn push_fate(
    text: &mut Text<'_>,
    scene: &Scene<'_, '_>,
    object: u64,
) -> Result<(), AllocError> {
    match (fate_of(scene, object)?, maker_of(scene, object)) {
        (Fate::NotMade, Some(call)) => text.push_number("not made by call ", call),
        (Fate::Gone, _) => {
            push_origin(text, scene, object)?;
            text.push_words(", gone")
        }
        (Fate::Lost, _) => {
            push_origin(text, scene, object)?;
            text.push_words(", lost")
        }
        (Fate::NotYet | Fate::NotMade, _) => push_origin(text, scene, object),
    }
}

/// How many names a directory has.
fn count_names(nodes: &Nodes, directory: u64) -> u64 {
    let mut count: u64 = 0;
    if let Some(names) = nodes.names(directory) {
        for _ in names {
            count = count.saturating_add(1);
        }
    }
    count
}

/// Appends how many there are of something.
pub(crate) fn push_count(
    text: &mut Text<'_>,
    words: &str,
    count: u64,
    one: &str,
    more: &str,
) -> Result<(), AllocError> {
    text.push_number(words, count)?;
    text.push_words(if count == 1 { one } else { more })
}

/// Appends what an object is (RFC 1813, section 2.6, `ftype3`).
pub(crate) fn push_kind(text: &mut Text<'_>, nodes: &Nodes, node: &Node) -> Result<(), AllocError> {
    match &node.content {
        Content::Directory => {
            let count = count_names(nodes, node.object);
            push_count(text, " is a directory of ", count, " name", " names")
        }
        Content::File(file) => {
            let count = file.bytes.len();
            push_count(text, " is a file of ", count, " byte", " bytes")
        }
        Content::Link(target) => text.push_quoted(" is a link to ", target.as_slice()),
    }
}
