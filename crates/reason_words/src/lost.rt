//! The words of a place that a cut loses.

use crate::calls::push_recorded;
use crate::objects::push_count;
use crate::scene::{Scene, push_line};
use certificate::Place;
use cut_check::Stability;
use fault_reasons::{LostPlace, placed_at};
use history_lines::Text;
use std::alloc::AllocError;
use tree_answers::first_handle;

/// The call of these places whose reply made the place at a position stable: its own, or a COMMIT behind it.
fn promise_in(
    scene: &Scene<'_, '_>,
    places: &[Place],
    position: u64,
) -> Result<Option<u64>, AllocError> {
    let mut stability = Stability::new(scene.alloc);
    for place in places {
        let Some(placed) = placed_at(scene.alloc, scene.history, *place)? else {
            return Ok(None);
        };
        let object = scene.binds.object(first_handle(&placed.call).as_slice());
        stability.note(object, &placed.call, &placed.outcome)?;
        if stability.needed() >= position {
            return Ok(Some(placed.number));
        }
    }
    Ok(None)
}

/// The call whose reply promised that a place survives.
fn promise_of(scene: &Scene<'_, '_>, told: LostPlace) -> Result<Option<u64>, AllocError> {
    let eras = scene.certificate.eras.as_slice();
    match eras.get(told.era.saturating_sub(1) as usize) {
        Some(era) => promise_in(scene, era.places.as_slice(), told.position),
        None => Ok(None),
    }
}

/// Appends whose reply promised that a call survives. Of another call there are lines first.
fn push_promise(
    lines: &mut Vec<u8>,
    scene: &Scene<'_, '_>,
    text: &mut Text<'_>,
    told: LostPlace,
) -> Result<(), AllocError> {
    match promise_of(scene, told)? {
        Some(number) if number != told.number => {
            push_recorded(lines, scene, number)?;
            text.push_number(", as the reply to call ", number)?;
            text.push_words(" promised")
        }
        Some(_) => text.push_words(", as its reply promised"),
        None => Ok(()),
    }
}

/// Lines of a place that has to survive, of the call that promised it, and of the cut that loses it.
pub(crate) fn push_lost(
    lines: &mut Vec<u8>,
    scene: &Scene<'_, '_>,
    told: LostPlace,
) -> Result<(), AllocError> {
    push_recorded(lines, scene, told.number)?;
    let mut text = Text::new(scene.alloc);
    text.push_number("call ", told.number)?;
    text.push_number(" has to survive the end of era ", told.era)?;
    push_promise(lines, scene, &mut text, told)?;
    text.push_number("; it is placed at position ", told.position)?;
    let words = ", and the cut keeps ";
    push_count(&mut text, words, told.cut, " place", " places")?;
    push_line(lines, text)
}
