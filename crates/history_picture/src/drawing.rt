//! The picture: lanes from top to bottom, events from left to right, strip by strip.

use crate::fixed::Fixed;
use crate::layout::{Drawn, LABEL_BYTES, Layout, NAMES, STRIP, Strip, TOP};
use crate::pages::Page;
use crate::parts::{Bar, Mark, Picture};
use crate::shapes::{Class, Shape};
use std::alloc::AllocError;

/// How high a bar is.
const BAR: u64 = 18;
/// Every so many events their number is told.
const TOLD_EVENTS: u64 = 10;
/// So many events are as wide as the number of the first.
const FIRST_NUMBER: u64 = 5;
/// How wide the number of an event is at most.
const NUMBER: u64 = 160;
/// How far the number of an event is from that of the call at fault at least.
const NEAR: u64 = 40;
/// How wide a crash is to either side.
const CRASH: u64 = 2;
/// How many bytes stand for a line of `show` at most.
const LINE_BYTES: usize = 400;

/// How what belongs to a call looks.
pub fn class_of(mark: Mark) -> Class {
    match mark {
        Mark::Plain => Class::Plain,
        Mark::Asked => Class::Asked,
        Mark::AtFault => Class::Fault,
        Mark::Explains => Class::Explains,
    }
}

/// Appends the rows of the lanes, from one place on.
fn put_bands(page: &mut Page, layout: &Layout, left: u64, width: u64) -> Result<(), AllocError> {
    let mut class = Class::Lane;
    for band in layout.bands() {
        class = match class {
            Class::Odd => Class::Lane,
            _ => Class::Odd,
        };
        page.shape(Shape::Rect {
            class,
            x: left,
            y: band.top,
            width,
            height: band.height,
        })?;
    }
    Ok(())
}

/// Appends the names of the lanes, which stay where they are while the strips are scrolled.
fn put_names(page: &mut Page, picture: &Picture, layout: &Layout) -> Result<(), AllocError> {
    page.shape(Shape::Svg {
        class: Class::Names,
        left: 0,
        width: NAMES,
        height: layout.height,
    })?;
    page.fixed(Fixed::Names)?;
    put_bands(page, layout, 0, NAMES)?;
    for (band, lane) in layout.bands().iter().zip(picture.lanes.iter()) {
        page.shape(Shape::Text {
            class: Class::Lane,
            x: 6,
            y: band.top.saturating_add(17),
        })?;
        page.fixed(Fixed::Lane)?;
        page.number(u64::from(*lane))?;
        page.fixed(Fixed::EndLabel)?;
    }
    page.fixed(Fixed::EndGroup)?;
    page.fixed(Fixed::EndSvg)
}

/// Appends the number of an event above a line through all lanes.
fn put_tick(page: &mut Page, layout: &Layout, strip: Strip, event: u64) -> Result<(), AllocError> {
    let Some(x) = layout.column_of(event) else {
        return Ok(());
    };
    if !strip.shows(x, x.saturating_add(NUMBER)) {
        return Ok(());
    }
    page.shape(Shape::Upright {
        class: Class::Tick,
        x,
        top: TOP - 6,
        bottom: layout.height,
    })?;
    page.shape(Shape::Text {
        class: Class::Tick,
        x,
        y: TOP - 10,
    })?;
    page.number(event)?;
    page.fixed(Fixed::EndLabel)
}

/// The event of the call at fault, if there is one.
fn fault_event(picture: &Picture) -> Option<u64> {
    for bar in picture.bars.iter() {
        if bar.mark == Mark::AtFault {
            return Some(bar.first);
        }
    }
    None
}

/// Whether the number of an event would be too near to that of the call at fault.
fn is_near(layout: &Layout, fault: Option<u64>, event: u64) -> bool {
    let Some(fault) = fault else {
        return false;
    };
    match (layout.column_of(fault), layout.column_of(event)) {
        (Some(one), Some(other)) => one.max(other).saturating_sub(one.min(other)) < NEAR,
        _ => false,
    }
}

/// Whether the number of an event is told: of the first, of each tenth, and of the call at fault.
fn is_told(layout: &Layout, fault: Option<u64>, index: u64, event: u64) -> bool {
    if fault == Some(event) {
        return true;
    }
    let is_tenth = index >= FIRST_NUMBER && event % TOLD_EVENTS == 0;
    (index == 0 || is_tenth) && !is_near(layout, fault, event)
}

/// Appends the numbers of some events.
fn put_ticks(
    page: &mut Page,
    layout: &Layout,
    strip: Strip,
    fault: Option<u64>,
) -> Result<(), AllocError> {
    for index in 0..layout.span.count() {
        let event = layout.span.first.saturating_add(index);
        if is_told(layout, fault, index, event) {
            put_tick(page, layout, strip, event)?;
        }
    }
    Ok(())
}

/// Appends a crash as a line through all lanes.
fn put_crash(page: &mut Page, layout: &Layout, strip: Strip, event: u64) -> Result<(), AllocError> {
    let Some(x) = layout.column_of(event) else {
        return Ok(());
    };
    if !strip.shows(x.saturating_sub(CRASH), x.saturating_add(CRASH)) {
        return Ok(());
    }
    page.shape(Shape::Group(Class::Crash))?;
    page.fixed(Fixed::Title)?;
    page.fixed(Fixed::Crash)?;
    page.number(event)?;
    page.fixed(Fixed::EndTitle)?;
    page.shape(Shape::Upright {
        class: Class::Crash,
        x,
        top: TOP - 6,
        bottom: layout.height,
    })?;
    page.fixed(Fixed::EndGroup)
}

/// Appends what a call and its reply say, or in a later strip which call it is.
fn put_words(page: &mut Page, bar: &Bar, is_begun: bool) -> Result<(), AllocError> {
    page.fixed(Fixed::Title)?;
    if is_begun {
        page.fixed(Fixed::Call)?;
        page.number(bar.number)?;
        return page.fixed(Fixed::EndTitle);
    }
    page.front(bar.asked.as_slice(), LINE_BYTES)?;
    page.fixed(Fixed::LineFeed)?;
    page.front(bar.answered.as_slice(), LINE_BYTES)?;
    page.fixed(Fixed::EndTitle)
}

/// The outline of a call. One that began before the first event has no left edge, and ends at its reply or at a crash.
fn outline_of(bar: &Bar, drawn: &Drawn) -> Shape {
    let bottom = drawn.top.saturating_add(BAR);
    let class = match bar.last {
        Some(_) => Class::Cut,
        None => Class::Unanswered,
    };
    if drawn.is_open_left {
        return Shape::Open {
            class,
            free: drawn.left,
            top: drawn.top,
            closed: drawn.right,
            bottom,
        };
    }
    if drawn.is_open_right {
        return Shape::Open {
            class,
            free: drawn.right,
            top: drawn.top,
            closed: drawn.left,
            bottom,
        };
    }
    Shape::Rect {
        class: Class::Bar,
        x: drawn.left,
        y: drawn.top,
        width: drawn.right.saturating_sub(drawn.left),
        height: BAR,
    }
}

/// Appends the place, the procedure and the name of a call.
fn put_label(page: &mut Page, bar: &Bar, drawn: &Drawn) -> Result<(), AllocError> {
    page.shape(Shape::Text {
        class: Class::Label,
        x: drawn.label,
        y: drawn.top.saturating_add(13),
    })?;
    if let Some(place) = bar.place {
        page.fixed(Fixed::Place)?;
        page.number(place)?;
        page.fixed(Fixed::EndPlace)?;
    }
    page.text(bar.procedure.as_bytes())?;
    page.fixed(Fixed::Space)?;
    page.front(bar.name.as_slice(), LABEL_BYTES)?;
    page.fixed(Fixed::EndLabel)
}

/// Appends the hatching of a call that a crash took away.
fn put_hatching(page: &mut Page, drawn: &Drawn) -> Result<(), AllocError> {
    page.shape(Shape::Rect {
        class: Class::Lost,
        x: drawn.left,
        y: drawn.top,
        width: drawn.right.saturating_sub(drawn.left),
        height: BAR,
    })
}

/// Appends a call, if it is seen in a strip.
fn put_bar(page: &mut Page, strip: Strip, bar: &Bar, drawn: &Drawn) -> Result<(), AllocError> {
    if !strip.shows(drawn.left, drawn.right.max(drawn.label_end)) {
        return Ok(());
    }
    page.shape(Shape::Group(class_of(bar.mark)))?;
    put_words(page, bar, drawn.left < strip.left)?;
    page.shape(outline_of(bar, drawn))?;
    if bar.is_lost {
        put_hatching(page, drawn)?;
    }
    if strip.shows(drawn.label, drawn.label_end) {
        put_label(page, bar, drawn)?;
    }
    page.fixed(Fixed::EndGroup)
}

/// Appends the names of the lanes once more, which are seen in print.
fn put_names_again(page: &mut Page, layout: &Layout) -> Result<(), AllocError> {
    page.shape(Shape::Svg {
        class: Class::Again,
        left: 0,
        width: NAMES,
        height: layout.height,
    })?;
    page.fixed(Fixed::NamesAgain)?;
    page.fixed(Fixed::EndSvg)
}

/// Appends a strip.
fn put_strip(
    page: &mut Page,
    picture: &Picture,
    layout: &Layout,
    strip: Strip,
) -> Result<(), AllocError> {
    page.shape(Shape::Svg {
        class: Class::Strip,
        left: strip.left,
        width: STRIP,
        height: layout.height,
    })?;
    if strip.left == 0 {
        page.fixed(Fixed::Hatch)?;
    }
    put_bands(page, layout, strip.left, STRIP)?;
    put_ticks(page, layout, strip, fault_event(picture))?;
    for crash in picture.crashes.iter() {
        put_crash(page, layout, strip, *crash)?;
    }
    for (index, bar) in picture.bars.iter().enumerate() {
        if let Some(drawn) = layout.drawn(index, bar) {
            put_bar(page, strip, bar, &drawn)?;
        }
    }
    page.fixed(Fixed::EndSvg)
}

/// Appends the picture, up to the table.
pub fn put_picture(page: &mut Page, picture: &Picture, layout: &Layout) -> Result<(), AllocError> {
    put_names(page, picture, layout)?;
    for index in 0..layout.strips {
        let left = index.saturating_mul(STRIP);
        put_names_again(page, layout)?;
        put_strip(page, picture, layout, Strip { left })?;
    }
    Ok(())
}
