//! The words of write verifiers that differ in one era, or that hide a loss (RFC 1813, section 3.3.7).

use crate::objects::push_count;
use crate::places::{cut_places, push_placed};
use crate::scene::{Scene, push_line};
use certificate::{EraPlan, Place};
use cut_check::shown_verifier;
use fault_reasons::{Placed, placed_at};
use history_lines::Text;
use nfs3_types::{Answer, NfsReply, Outcome};
use std::alloc::AllocError;

/// A call that shows a write verifier.
#[derive(Clone, Copy)]
struct Shown {
    number: u64,
    verifier: u64,
}

/// Which verifier is looked for.
#[derive(Clone, Copy)]
enum Wanted {
    Any,
    Another(u64),
    This(u64),
}

/// Whether a verifier is looked for.
fn is_wanted(wanted: Wanted, verifier: u64) -> bool {
    match wanted {
        Wanted::Any => true,
        Wanted::Another(first) => verifier != first,
        Wanted::This(first) => verifier == first,
    }
}

/// What the call at a place shows.
fn shown_at(scene: &Scene<'_, '_>, place: Place) -> Result<Option<Shown>, AllocError> {
    let Some(placed) = placed_at(scene.alloc, scene.history, place)? else {
        return Ok(None);
    };
    match shown_verifier(&placed.call, &placed.outcome) {
        Some(verifier) => Ok(Some(Shown {
            number: placed.number,
            verifier,
        })),
        None => Ok(None),
    }
}

/// The first call of these places that shows a verifier which is looked for.
fn first_shown(
    scene: &Scene<'_, '_>,
    places: &[Place],
    wanted: Wanted,
) -> Result<Option<Shown>, AllocError> {
    for place in places {
        if let Some(shown) = shown_at(scene, *place)? {
            if is_wanted(wanted, shown.verifier) {
                return Ok(Some(shown));
            }
        }
    }
    Ok(None)
}

/// The first call of these eras that shows a verifier.
fn first_shown_behind(
    scene: &Scene<'_, '_>,
    eras: &[EraPlan],
    verifier: u64,
) -> Result<Option<Shown>, AllocError> {
    for era in eras {
        let found = first_shown(scene, era.places.as_slice(), Wanted::This(verifier))?;
        if found.is_some() {
            return Ok(found);
        }
    }
    Ok(None)
}

/// Whether it is a WRITE that was answered with at least one byte.
fn brought_bytes(placed: &Placed) -> bool {
    match &placed.outcome {
        Outcome::Received(NfsReply::Write(Answer::Done(success))) => success.count > 0,
        _ => false,
    }
}

/// The first WRITE of these places that was answered with at least one byte.
fn first_written(scene: &Scene<'_, '_>, places: &[Place]) -> Result<Option<u64>, AllocError> {
    for place in places {
        if let Some(placed) = placed_at(scene.alloc, scene.history, *place)? {
            if brought_bytes(&placed) {
                return Ok(Some(placed.number));
            }
        }
    }
    Ok(None)
}

/// Lines of two calls of an era that show two verifiers.
fn push_two(
    lines: &mut Vec<u8>,
    scene: &Scene<'_, '_>,
    era: u64,
    first: u64,
    other: u64,
) -> Result<(), AllocError> {
    push_placed(lines, scene, first)?;
    push_placed(lines, scene, other)?;
    let mut text = Text::new(scene.alloc);
    text.push_number("era ", era)?;
    text.push_words(" shows two write verifiers")?;
    push_line(lines, text)
}

/// Lines of a WRITE that an era's cut loses, and of a later call that shows its verifier.
fn push_hidden(
    lines: &mut Vec<u8>,
    scene: &Scene<'_, '_>,
    era: u64,
    kept: u64,
    lost: u64,
    later: u64,
) -> Result<(), AllocError> {
    push_placed(lines, scene, lost)?;
    push_placed(lines, scene, later)?;
    let mut text = Text::new(scene.alloc);
    text.push_number("the cut of era ", era)?;
    push_count(&mut text, " keeps ", kept, " place", " places")?;
    text.push_number(" and loses call ", lost)?;
    text.push_number(", and call ", later)?;
    text.push_words(" shows its write verifier")?;
    push_line(lines, text)
}

/// Lines of a loss of an era that shows one verifier, which a later era hides.
fn push_loss(
    lines: &mut Vec<u8>,
    scene: &Scene<'_, '_>,
    number: u64,
    era: &EraPlan,
    behind: &[EraPlan],
    verifier: u64,
) -> Result<(), AllocError> {
    let (kept, lost) = cut_places(era);
    let written = first_written(scene, lost)?;
    let later = first_shown_behind(scene, behind, verifier)?;
    match (written, later) {
        (Some(written), Some(later)) => {
            let count = kept.len() as u64;
            push_hidden(lines, scene, number, count, written, later.number)
        }
        _ => Ok(()),
    }
}

/// Lines of the calls by which an era's write verifier is at fault.
pub(crate) fn push_verifiers(
    lines: &mut Vec<u8>,
    scene: &Scene<'_, '_>,
    number: u64,
) -> Result<(), AllocError> {
    let eras = scene.certificate.eras.as_slice();
    let Some((_, rest)) = eras.split_at_checked(number.saturating_sub(1) as usize) else {
        return Ok(());
    };
    let Some((era, behind)) = rest.split_first() else {
        return Ok(());
    };
    let places = era.places.as_slice();
    let Some(first) = first_shown(scene, places, Wanted::Any)? else {
        return Ok(());
    };
    match first_shown(scene, places, Wanted::Another(first.verifier))? {
        Some(other) => push_two(lines, scene, number, first.number, other.number),
        None => push_loss(lines, scene, number, era, behind, first.verifier),
    }
}
