//! Whether a plan has the shape that a history asks for.

ghost use Rattle.std.specs.Prelude.{◌≡◌, ◌<◌, ◌≤◌, ◌+◌, ◌&&◌, not, false, slice_index_or, length, None, option_map, All, IfOk, OnOk};
ghost use Rattle.std.specs.Option.{option_copied};
ghost use Rattle.order_check.specs.Places.{number_of, passes, is_wanted, is_known, is_of_era, is_placeable};
ghost use Rattle.nfs_history.specs.Precedence.{call_at};
ghost use Rattle.order_check.specs.Shape.{HasShape};
ghost use Rattle.order_check.specs.declared.fault.ShapeFault.TheVariants.{Missing, BadCut};
ghost use Rattle.order_check.specs.FirstFault.{failing, first_missing, first_bad_cut, first_repeat, shape_fault, shape_fault_of_order, Marks, IsCheck};

use crate::fault::ShapeFault;
use crate::places::{
    OrderedPlace, is_answered_call, names_call, serial_order, stands_in_era, stands_right,
};
use certificate::{Certificate, EraPlan};
use nfs_history::{History, LentCalls};
use std::alloc::{AllocError, Global};

/// The first place that names no call.
fn unknown<'a>(history: &LentCalls<'_, '_>, order: &'a [OrderedPlace]) -> Option<&'a OrderedPlace>
    ensures { option_copied result ≡ failing (is_known history.now.calls) order.now }
{
    order.iter().find(|place| !names_call(history, place))
}

/// The first place whose call is of another era.
fn wrong_era<'a>(history: &LentCalls<'_, '_>, order: &'a [OrderedPlace]) -> Option<&'a OrderedPlace>
    ensures { option_copied result ≡ failing (is_of_era history.now.calls) order.now }
{
    order.iter().find(|place| !stands_in_era(history, place))
}

/// The first place whose call may not be placed so.
fn not_to_place(
    alloc: Global,
    history: &LentCalls<'_, '_>,
    order: &[OrderedPlace],
) -> Result<Option<OrderedPlace>, AllocError>
    ensures { IfOk result (λ found. found ≡ failing (is_placeable history.now.calls) order.now) }
{
    for place in order {
        if !stands_right(alloc, history, place)? {
            return Ok(Some(*place));
        }
    }
    Ok(None)
}

/// Whether the call behind the first `index` ones is judged and answered, and isn't named.
fn is_missing(history: &LentCalls<'_, '_>, named: &[bool], index: usize) -> bool
    requires { index < length named.now }
    ensures { result ≡ (passes is_wanted (call_at history.now.calls (index + 1)) && not (slice_index_or named.now index false)) }
{
    is_answered_call(history, index as u64 + 1) && !named[index]
}

/// The first answered judged call that isn't named, where `named` tells of each call whether it is.
fn missing(
    history: &LentCalls<'_, '_>,
    order: &[OrderedPlace],
    named: &[bool],
) -> Option<ShapeFault>
    requires { Marks order.now named.now (length history.now.calls) }
    ensures { result ≡ option_map Missing (first_missing history.now.calls order.now) }
{
    let count = history.count();
    for index in 0..count {
        if is_missing(history, named, index) {
            return Some(ShapeFault::Missing(index as u64 + 1));
        }
    }
    None
}

/// The first era that keeps more places than it has.
fn bad_cut(eras: &[EraPlan]) -> Option<ShapeFault>
    ensures { result ≡ option_map BadCut (first_bad_cut eras.now) }
{
    for (index, era) in eras.iter().enumerate() {
        if (era.places.as_slice().len() as u64) < era.cut.unwrap_or(0) {
            return Some(ShapeFault::BadCut(index as u64 + 1));
        }
    }
    None
}

/// What goes over the places once: of each call, whether some place names it.
#[derive(Drop)]
struct Marking {
    named: Vec<bool>,
    /// The first place whose call a place before it names; the marks stop there.
    repeat: Option<OrderedPlace>,
}

fn mark_calls(alloc: Global, calls: usize, order: &[OrderedPlace]) -> Result<Marking, AllocError>
    requires { All (λ p. (0 < number_of p) × (number_of p ≤ calls)) order.now }
    ensures repeat { IfOk result (λ m. m.repeat ≡ first_repeat order.now) }
    ensures marks { IfOk result (λ m. m.repeat ≡ None → Marks order.now m.named.items calls) }
{
    let mut named = vec![in alloc; false; calls]?;
    for place in order {
        let index = place.number() as usize - 1;
        if named[index] {
            return Ok(Marking {
                named,
                repeat: Some(*place),
            });
        }
        named[index] = true;
    }
    Ok(Marking {
        named,
        repeat: None,
    })
}

/// The shape of an order whose plan has the right number of eras.
fn check_places(
    alloc: Global,
    history: &LentCalls<'_, '_>,
    eras: &[EraPlan],
    order: &[OrderedPlace],
) -> Result<(), ShapeFault>
    ensures { IsCheck result (shape_fault_of_order history.now.calls eras.now order.now) }
{
    if let Some(place) = unknown(history, order) {
        return Err(ShapeFault::Unknown(place.number()));
    }
    if let Some(place) = wrong_era(history, order) {
        return Err(ShapeFault::WrongEra(place.number()));
    }
    let marking = mark_calls(alloc, history.count(), order)?;
    if let Some(place) = marking.repeat {
        return Err(ShapeFault::Twice(place.number()));
    }
    if let Some(place) = not_to_place(alloc, history, order)? {
        return Err(ShapeFault::NotToPlace(place.number()));
    }
    if let Some(fault) = missing(history, order, marking.named.as_slice()) {
        return Err(fault);
    }
    match bad_cut(eras) {
        Some(fault) => Err(fault),
        None => Ok(()),
    }
}

/// Whether the plan has the shape that the history asks for.
pub fn check_shape(
    alloc: Global,
    history: &History,
    certificate: &Certificate,
) -> Result<(), ShapeFault>
    // The first fault.
    ensures exact { IsCheck result (shape_fault history.now.known.eras history.now.known.calls certificate.now.eras) }
    ensures ok { OnOk result (HasShape history.now.known.eras history.now.known.calls certificate.now.eras) }
    // A plan that has the shape is refused for want of memory alone.
    ensures only { HasShape history.now.known.eras history.now.known.calls certificate.now.eras → IsCheck result None }
{
    check_shape_of_calls(alloc, &history.lend(), certificate)
}

/// The same of a history whose calls these are.
pub fn check_shape_of_calls(
    alloc: Global,
    calls: &LentCalls<'_, '_>,
    certificate: &Certificate,
) -> Result<(), ShapeFault>
    // The first fault.
    ensures exact { IsCheck result (shape_fault calls.now.eras calls.now.calls certificate.now.eras) }
    ensures ok { OnOk result (HasShape calls.now.eras calls.now.calls certificate.now.eras) }
    // A plan that has the shape is refused for want of memory alone.
    ensures only { HasShape calls.now.eras calls.now.calls certificate.now.eras → IsCheck result None }
{
    let eras = certificate.eras.as_slice();
    if eras.len() as u64 != calls.eras() {
        return Err(ShapeFault::WrongEras);
    }
    let order = serial_order(alloc, eras)?;
    check_places(alloc, calls, eras, order.as_slice())
}
