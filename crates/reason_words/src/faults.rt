//! The words of faults of which no more is told: what the certificate has, and what the history has.

use crate::early::push_early;
use crate::objects::push_count;
use crate::places::{first_place_of, push_placed, push_places};
use crate::scene::{Scene, push_line};
use crate::verifiers::push_verifiers;
use certificate::Place;
use history_lines::Text;
use nfs3_types::{NfsCall, Outcome};
use std::alloc::AllocError;
use witness_check::Fault;

/// A line of two numbers behind words.
fn push_numbers(
    lines: &mut Vec<u8>,
    scene: &Scene<'_, '_>,
    first: (&str, u64),
    second: (&str, u64),
) -> Result<(), AllocError> {
    let mut text = Text::new(scene.alloc);
    text.push_number(first.0, first.1)?;
    text.push_number(second.0, second.1)?;
    push_line(lines, text)
}

/// A line of words.
fn push_words(lines: &mut Vec<u8>, scene: &Scene<'_, '_>, words: &str) -> Result<(), AllocError> {
    let mut text = Text::new(scene.alloc);
    text.push_words(words)?;
    push_line(lines, text)
}

/// Lines of a place of a call that isn't there.
fn push_unknown(lines: &mut Vec<u8>, scene: &Scene<'_, '_>, number: u64) -> Result<(), AllocError> {
    let first = ("there is no call ", number);
    let count = scene.history.count() as u64;
    push_numbers(lines, scene, first, ("; calls of the history: ", count))?;
    push_places(lines, scene, number)
}

/// Lines of a call, and of the era in which it began.
fn push_with_era(
    lines: &mut Vec<u8>,
    scene: &Scene<'_, '_>,
    number: u64,
    words: &str,
) -> Result<(), AllocError> {
    push_placed(lines, scene, number)?;
    let mut text = Text::new(scene.alloc);
    text.push_number(words, scene.history.era(number).unwrap_or(0))?;
    push_line(lines, text)
}

/// A line of a cut that keeps more places than its era has.
fn push_bad_cut(lines: &mut Vec<u8>, scene: &Scene<'_, '_>, era: u64) -> Result<(), AllocError> {
    let eras = scene.certificate.eras.as_slice();
    let Some(plan) = eras.get(era.saturating_sub(1) as usize) else {
        return Ok(());
    };
    let count = plan.places.as_slice().len() as u64;
    let mut text = Text::new(scene.alloc);
    text.push_number("era ", era)?;
    push_count(&mut text, " has ", count, " place", " places")?;
    text.push_number(", and its cut keeps ", plan.cut.unwrap_or(count))?;
    push_line(lines, text)
}

/// What is wrong with a place of a judged call.
fn wrong_place(place: Place, call: &NfsCall, outcome: &Option<Outcome>) -> &'static str {
    if outcome.is_some() {
        return "it was answered, so it is placed with its reply";
    }
    if !call.procedure().changes_the_tree() {
        return "it has no reply and changes nothing, so it has no place";
    }
    match (place, call) {
        (Place::Answered(_), _) => "it has no reply, so it is taken as done or has no place",
        (Place::Taken(_, _), NfsCall::Write(_)) => {
            "a WRITE is taken with a count, at most that of its bytes"
        }
        (Place::Taken(_, _), _) => "no call but a WRITE is taken with a count",
    }
}

/// Lines of a call that may not be placed so. Of one that isn't judged the first says why.
fn push_not_to_place(
    lines: &mut Vec<u8>,
    scene: &Scene<'_, '_>,
    number: u64,
) -> Result<(), AllocError> {
    push_placed(lines, scene, number)?;
    let Some(place) = first_place_of(scene, number) else {
        return Ok(());
    };
    let Some(recorded) = scene.history.call(scene.alloc, number)? else {
        return Ok(());
    };
    match recorded.into_judged() {
        Some((call, outcome)) => push_words(lines, scene, wrong_place(place, &call, &outcome)),
        None => Ok(()),
    }
}

/// Lines of a call that is at fault, and of what is wrong with it.
fn push_at_fault(
    lines: &mut Vec<u8>,
    scene: &Scene<'_, '_>,
    number: u64,
    words: &str,
) -> Result<(), AllocError> {
    push_placed(lines, scene, number)?;
    push_words(lines, scene, words)
}

/// Lines of a fault.
pub(crate) fn push_fault(
    lines: &mut Vec<u8>,
    scene: &Scene<'_, '_>,
    fault: Fault,
) -> Result<(), AllocError> {
    match fault {
        Fault::WrongEras => {
            let count = scene.certificate.eras.as_slice().len() as u64;
            let first = ("eras of the history: ", scene.history.eras());
            push_numbers(lines, scene, first, (", of the certificate: ", count))
        }
        Fault::Unknown(call) => push_unknown(lines, scene, call),
        Fault::WrongEra(call) => push_with_era(lines, scene, call, "it began in era "),
        Fault::Twice(call) => push_at_fault(lines, scene, call, "a call has one place"),
        Fault::NotToPlace(call) => push_not_to_place(lines, scene, call),
        Fault::Missing(call) => {
            let words = "it was answered and has no place: it has to have one in era ";
            push_with_era(lines, scene, call, words)
        }
        Fault::BadCut(era) => push_bad_cut(lines, scene, era),
        Fault::Illegal(call) => push_at_fault(
            lines,
            scene,
            call,
            "it can't have come out so there",
        ),
        Fault::Early { call, ended } => push_early(lines, scene, call, ended),
        Fault::ShortCut { era, needed } => {
            let first = ("places of era ", era);
            push_numbers(lines, scene, first, (" that have to be kept: ", needed))
        }
        Fault::Verifier(era) => push_verifiers(lines, scene, era),
    }
}
