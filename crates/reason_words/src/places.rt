//! The places of a call in a plan.

use crate::calls::push_recorded;
use crate::scene::{Scene, push_line};
use certificate::{EraPlan, Place};
use history_lines::Text;
use std::alloc::AllocError;

/// A line of a place: as `place` or as `take` of a certificate (`docs/FORMATS.md`).
fn push_place(
    lines: &mut Vec<u8>,
    scene: &Scene<'_, '_>,
    place: Place,
    position: u64,
    era: u64,
) -> Result<(), AllocError> {
    let (words, count) = match place {
        Place::Answered(_) => ("  placed at position ", None),
        Place::Taken(_, count) => ("  taken as done at position ", count),
    };
    let mut text = Text::new(scene.alloc);
    text.push_number(words, position)?;
    text.push_number(" of era ", era)?;
    if let Some(count) = count {
        text.push_number(", with the count ", u64::from(count))?;
    }
    push_line(lines, text)
}

/// A line for each place of a call in an era.
fn push_places_in(
    lines: &mut Vec<u8>,
    scene: &Scene<'_, '_>,
    number: u64,
    index: u64,
    era: &EraPlan,
) -> Result<(), AllocError> {
    let mut position: u64 = 0;
    for place in era.places.as_slice() {
        position = position.saturating_add(1);
        if place.number() == number {
            push_place(lines, scene, *place, position, index)?;
        }
    }
    Ok(())
}

/// A line for each place of a call in a plan.
pub(crate) fn push_places(
    lines: &mut Vec<u8>,
    scene: &Scene<'_, '_>,
    number: u64,
) -> Result<(), AllocError> {
    let mut index: u64 = 0;
    for era in scene.certificate.eras.as_slice() {
        index = index.saturating_add(1);
        push_places_in(lines, scene, number, index, era)?;
    }
    Ok(())
}

/// Lines of a call and of all its places.
pub(crate) fn push_placed(
    lines: &mut Vec<u8>,
    scene: &Scene<'_, '_>,
    number: u64,
) -> Result<(), AllocError> {
    push_recorded(lines, scene, number)?;
    push_places(lines, scene, number)
}

/// The first place of a call in a plan.
pub(crate) fn first_place_of(scene: &Scene<'_, '_>, number: u64) -> Option<Place> {
    for era in scene.certificate.eras.as_slice() {
        for place in era.places.as_slice() {
            if place.number() == number {
                return Some(*place);
            }
        }
    }
    None
}

/// The places of an era that the crash at its end leaves, and those that it takes away.
pub(crate) fn cut_places(era: &EraPlan) -> (&[Place], &[Place]) {
    let places = era.places.as_slice();
    match era.cut {
        Some(cut) if (cut as usize) < places.len() => places.split_at(cut as usize),
        _ => places.split_at(places.len()),
    }
}
