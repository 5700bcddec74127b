//! What each order comes to.

use crate::binds::binds_with;
use crate::open::{OpenCall, open_calls, taken_by};
use crate::orders::{count_orders, orders_of};
use crate::plans::plan_with;
use certificate::{Bind, Certificate, TextFault, read_certificate};
use history_lines::Text;
use nfs_history::{HistoryFault, KnownCalls, read_calls};
use reason_words::{call_text, plan_text};
use std::alloc::{AllocError, Global};
use std::collections::BTreeSet;

/// How many orders are tried at most.
const MOST_ORDERS: usize = 16;

/// How many calls are placed at most over all orders.
const MOST_PLACED: usize = 1_000_000;

/// How many open calls are told at most.
const MOST_OPEN: usize = 10;

/// A history up to a reply, a certificate of what is ahead of that reply, and the call that got it.
#[derive(Clone, Copy)]
struct Scene<'s, 'a, 'w> {
    alloc: Global,
    history: &'s KnownCalls<'a>,
    /// The whole history, which has the later replies too.
    whole: &'s KnownCalls<'w>,
    plan: &'s Certificate,
    /// The binds of the plan, and of the handles that the reply gives.
    binds: &'s [Bind],
    call: u64,
    /// The plan takes the call as done: it stays at that place.
    stays: bool,
}

/// Appends a line of words and numbers.
fn push_line(lines: &mut Vec<u8>, text: Text<'_>) -> Result<(), AllocError> {
    let line = text.into_line()?;
    lines.extend_from_slice(line.as_slice())?;
    Ok(())
}

/// Appends a line of a number behind words.
fn push_number(
    lines: &mut Vec<u8>,
    scene: &Scene<'_, '_, '_>,
    words: &str,
    number: u64,
) -> Result<(), AllocError> {
    let mut text = Text::new(scene.alloc);
    text.push_number(words, number)?;
    push_line(lines, text)
}

/// Whether a call that a plan takes as done is one of the last era, and another one than that which is looked at.
fn is_done_already(scene: &Scene<'_, '_, '_>, number: u64) -> bool {
    number != scene.call && scene.history.era(number) == Some(scene.history.eras())
}

/// A line of the calls of the last era without a reply so far that the plan takes as done.
fn push_taken(
    lines: &mut Vec<u8>,
    scene: &Scene<'_, '_, '_>,
    taken: &BTreeSet<u64>,
) -> Result<(), AllocError> {
    let mut text = Text::new(scene.alloc);
    text.push_words("open calls that the order below has done already:")?;
    let mut count: usize = 0;
    for number in taken {
        if is_done_already(scene, *number) {
            count = count.saturating_add(1);
            if count <= MOST_OPEN {
                text.push_number(" ", *number)?;
            }
        }
    }
    match count.checked_sub(MOST_OPEN) {
        Some(more) if more > 0 => text.push_number(" and more: ", more as u64)?,
        _ => {}
    }
    if count == 0 {
        return Ok(());
    }
    push_line(lines, text)
}

/// Lines of the calls that are open.
fn push_open(
    lines: &mut Vec<u8>,
    scene: &Scene<'_, '_, '_>,
    open: &[OpenCall],
) -> Result<(), AllocError> {
    if open.is_empty() {
        return Ok(());
    }
    let words = "calls that were open then and may have been done: ";
    push_number(lines, scene, words, open.len() as u64)?;
    for call in open.iter().take(MOST_OPEN) {
        lines.extend_from_slice(call_text(scene.alloc, scene.whole, call.number)?.as_slice())?;
    }
    match open.len().checked_sub(MOST_OPEN) {
        Some(more) if more > 0 => push_number(lines, scene, "and more: ", more as u64),
        _ => Ok(()),
    }
}

/// Appends the calls that are done in an order.
fn push_done(
    text: &mut Text<'_>,
    first: OpenCall,
    others: &[OpenCall],
    stays: bool,
) -> Result<(), AllocError> {
    text.push_number("with call ", first.number)?;
    for call in others {
        text.push_number(", call ", call.number)?;
    }
    text.push_words(if stays {
        " done behind it:"
    } else {
        " done before it:"
    })
}

/// A line of the order that is tried.
fn push_order(
    lines: &mut Vec<u8>,
    scene: &Scene<'_, '_, '_>,
    open: &[OpenCall],
    order: &[OpenCall],
) -> Result<(), AllocError> {
    let mut text = Text::new(scene.alloc);
    match order {
        [] if open.is_empty() => text.push_words("in an order that explains all before it:")?,
        [] => text.push_words("in an order that explains all before it, with none of these done:")?,
        [first, others @ ..] => push_done(&mut text, *first, others, scene.stays)?,
    }
    push_line(lines, text)
}

/// Lines of what an order comes to.
fn push_tried(
    lines: &mut Vec<u8>,
    scene: &Scene<'_, '_, '_>,
    open: &[OpenCall],
    order: &[OpenCall],
) -> Result<(), AllocError> {
    push_order(lines, scene, open, order)?;
    let plan = plan_with(
        scene.alloc,
        scene.plan,
        scene.binds,
        order,
        scene.call,
        scene.stays,
    )?;
    let told = plan_text(scene.alloc, scene.history, &plan)?;
    if told.is_empty() {
        let mut text = Text::new(scene.alloc);
        text.push_words("  up to here this order is right: what came later rules it out")?;
        return push_line(lines, text);
    }
    lines.extend_from_slice(told.as_slice())
}

/// How many orders are tried.
fn most_orders(history: &KnownCalls<'_>) -> usize {
    let most = match MOST_PLACED.checked_div(history.count()) {
        Some(most) => most,
        None => MOST_ORDERS,
    };
    most.clamp(1, MOST_ORDERS)
}

/// Lines of what each order comes to that is tried, and of how many aren't.
fn push_orders(
    lines: &mut Vec<u8>,
    scene: &Scene<'_, '_, '_>,
    open: &[OpenCall],
) -> Result<(), AllocError> {
    let orders = orders_of(scene.alloc, open, most_orders(scene.history))?;
    for order in orders.iter() {
        push_tried(lines, scene, open, order.as_slice())?;
    }
    let all = count_orders(open.len());
    if all == u64::MAX {
        let mut text = Text::new(scene.alloc);
        text.push_words("orders of the open calls that aren't told: more than 10^18")?;
        return push_line(lines, text);
    }
    match all.saturating_sub(orders.len() as u64) {
        0 => Ok(()),
        left => push_number(
            lines,
            scene,
            "orders of the open calls that aren't told: ",
            left,
        ),
    }
}

/// The lines of a history that was read, with its open calls.
fn scene_text(
    scene: &Scene<'_, '_, '_>,
    taken: &BTreeSet<u64>,
    open: &[OpenCall],
) -> Result<Vec<u8>, AllocError> {
    let mut lines = Vec::new(scene.alloc);
    push_open(&mut lines, scene, open)?;
    push_taken(&mut lines, scene, taken)?;
    push_orders(&mut lines, scene, open)?;
    Ok(lines)
}

/// The same, where it is known what the handles name.
fn bound_text<'s>(
    alloc: Global,
    whole: &'s KnownCalls<'_>,
    history: &'s KnownCalls<'_>,
    plan: &'s Certificate,
    binds: &'s [Bind],
    call: u64,
    taken: &BTreeSet<u64>,
) -> Result<Vec<u8>, AllocError> {
    let open = open_calls(alloc, history, whole, taken, call)?;
    let scene = Scene {
        alloc,
        history,
        whole,
        plan,
        binds,
        call,
        stays: taken.contains(&call),
    };
    scene_text(&scene, taken, open.as_slice())
}

/// The lines of a history that was read, and of a certificate.
fn text_of(
    alloc: Global,
    whole: &KnownCalls<'_>,
    history: &KnownCalls<'_>,
    plan: &Certificate,
    call: u64,
) -> Result<Vec<u8>, AllocError> {
    let taken = taken_by(alloc, plan)?;
    let binds = binds_with(alloc, history, plan, call)?;
    bound_text(alloc, whole, history, plan, binds.as_slice(), call, &taken)
}

/// What the orders come to in which a call is placed that no order explains, as lines of printable bytes: over `history`, a file that ends
/// with the call's reply, and the text of a certificate of the events before. `whole` is the history with the later replies. Each open call
/// may be done before that call, in each order, up to 16 orders; of those that aren't told the number is. Nothing where either can't be read.
/// An `Err` means that memory ran out.
pub fn order_text(
    alloc: Global,
    whole: &KnownCalls<'_>,
    history: &[u8],
    certificate: &[u8],
    call: u64,
) -> Result<Vec<u8>, AllocError> {
    let history = match read_calls(alloc, history) {
        Ok(history) => history,
        Err(HistoryFault::NoMemory) => return Err(AllocError),
        Err(_) => return Ok(Vec::new(alloc)),
    };
    match read_certificate(alloc, certificate) {
        Ok(plan) => text_of(alloc, whole, &history, &plan, call),
        Err(TextFault::NoMemory) => Err(AllocError),
        Err(TextFault::BadLine(_)) => Ok(Vec::new(alloc)),
    }
}
