//! The words of a call that can't have come out so at its place.

use crate::calls::{push_call, push_outcome, push_reply, push_span};
use crate::claims::push_claim;
use crate::differences::push_differences;
use crate::scene::{Scene, push_line};
use crate::standing::push_standing;
use certificate::{EraPlan, Place};
use fault_reasons::IllegalPlace;
use history_lines::Text;
use nfs3_types::{Answer, NfsReply, Outcome};
use std::alloc::AllocError;
use tree_starts::Profile;

/// What is ahead of a position of an era: the eras ahead, and the places ahead in its own.
fn ahead_of(eras: &[EraPlan], era: u64, position: u64) -> Option<(&[EraPlan], &[Place])> {
    let index = era.checked_sub(1)?;
    let count = position.checked_sub(1)?;
    let (ahead, rest) = eras.split_at_checked(index as usize)?;
    let (own, _) = rest.split_first()?;
    let (front, _) = own.places.as_slice().split_at_checked(count as usize)?;
    Some((ahead, front))
}

/// A line of a place.
fn push_position(
    lines: &mut Vec<u8>,
    scene: &Scene<'_, '_>,
    era: u64,
    position: u64,
) -> Result<(), AllocError> {
    let mut text = Text::new(scene.alloc);
    text.push_number("  placed at position ", position)?;
    text.push_number(" of era ", era)?;
    push_line(lines, text)
}

/// What a right reply stands behind. Of some the tree judges a part alone, and the write verifier is the era's.
fn right_words(reply: &NfsReply) -> &'static str {
    match reply {
        NfsReply::GetAttr(Answer::Done(_)) => "  right there, with 0 for what isn't judged:",
        NfsReply::Write(Answer::Done(_)) | NfsReply::Commit(Answer::Done(_)) => {
            "  right there, with the era's verifier in place of 0:"
        }
        _ => "  right there:",
    }
}

/// A line of the reply that would be right.
fn push_right(
    lines: &mut Vec<u8>,
    scene: &Scene<'_, '_>,
    right: &Option<NfsReply>,
) -> Result<(), AllocError> {
    match right {
        Some(reply) => push_reply(lines, scene, right_words(reply), reply),
        None => {
            let mut text = Text::new(scene.alloc);
            text.push_words("  no right reply was found")?;
            push_line(lines, text)
        }
    }
}

/// A line that the attributes in a reply are judged, where they are: the words of a reply leave most of them out.
fn push_profile(
    lines: &mut Vec<u8>,
    scene: &Scene<'_, '_>,
    outcome: &Outcome,
) -> Result<(), AllocError> {
    match (scene.history.profile(), outcome) {
        (Profile::Strict, Outcome::Received(_)) => {
            let mut text = Text::new(scene.alloc);
            let words = "  the profile is strict: types and sizes in its attributes are judged too";
            text.push_words(words)?;
            push_line(lines, text)
        }
        _ => Ok(()),
    }
}

/// The lines of a call, with what is known where it is placed.
fn push_at(
    lines: &mut Vec<u8>,
    scene: &Scene<'_, '_>,
    told: &IllegalPlace,
) -> Result<(), AllocError> {
    push_call(lines, scene, told.number, &told.call)?;
    push_outcome(lines, scene, &told.outcome)?;
    push_span(lines, scene, told.number)?;
    push_position(lines, scene, told.era, told.position)?;
    if let Some(nodes) = scene.nodes {
        push_standing(lines, scene, nodes, &told.call)?;
        push_differences(lines, scene, nodes, &told.call, &told.outcome)?;
        push_claim(lines, scene, nodes, &told.call, &told.outcome)?;
    }
    push_profile(lines, scene, &told.outcome)?;
    push_right(lines, scene, &told.right)
}

/// The same with the tree there.
fn push_in_tree(
    lines: &mut Vec<u8>,
    scene: &Scene<'_, '_>,
    ahead: &[EraPlan],
    front: &[Place],
    told: &IllegalPlace,
) -> Result<(), AllocError> {
    let there = Scene {
        alloc: scene.alloc,
        history: scene.history,
        certificate: scene.certificate,
        binds: scene.binds,
        nodes: Some(told.tree.nodes()),
        ahead,
        front,
        is_front: scene.is_front,
    };
    push_at(lines, &there, told)
}

/// Lines of a call that can't have come out so at its place.
pub(crate) fn push_illegal(
    lines: &mut Vec<u8>,
    scene: &Scene<'_, '_>,
    told: &IllegalPlace,
) -> Result<(), AllocError> {
    let eras = scene.certificate.eras.as_slice();
    match ahead_of(eras, told.era, told.position) {
        Some((ahead, front)) => push_in_tree(lines, scene, ahead, front, told),
        None => push_at(lines, scene, told),
    }
}
