//! The table of the calls that are drawn.

use crate::drawing::class_of;
use crate::fixed::Fixed;
use crate::layout::Layout;
use crate::pages::Page;
use crate::parts::{Bar, Mark, Picture};
use crate::shapes::Shape;
use std::alloc::AllocError;

/// How many bytes stand for a name that is listed at most.
const LISTED_BYTES: usize = 160;

/// Appends the events of a call.
fn put_events(page: &mut Page, bar: &Bar) -> Result<(), AllocError> {
    page.number(bar.first)?;
    if let Some(last) = bar.last {
        page.fixed(Fixed::To)?;
        page.number(last)?;
    }
    page.fixed(Fixed::Cell)
}

/// Appends the reply to a call.
fn put_reply(page: &mut Page, bar: &Bar) -> Result<(), AllocError> {
    match bar.last {
        Some(_) => page.text(bar.reply.as_bytes())?,
        None => page.fixed(Fixed::NoReply)?,
    }
    page.fixed(Fixed::Cell)
}

/// Appends the place of a call.
fn put_place(page: &mut Page, bar: &Bar) -> Result<(), AllocError> {
    if let Some(place) = bar.place {
        page.number(place)?;
    }
    if bar.is_lost {
        page.fixed(Fixed::Lost)?;
    }
    page.fixed(Fixed::Cell)
}

/// Appends why a call is marked.
fn put_mark(page: &mut Page, bar: &Bar) -> Result<(), AllocError> {
    match bar.mark {
        Mark::Plain => Ok(()),
        Mark::Asked => page.fixed(Fixed::Asked),
        Mark::AtFault => page.fixed(Fixed::AtFault),
        Mark::Explains => page.fixed(Fixed::Explains),
    }
}

/// Appends the row of a call.
fn put_row(page: &mut Page, bar: &Bar) -> Result<(), AllocError> {
    page.shape(Shape::Row(class_of(bar.mark)))?;
    page.number(bar.number)?;
    page.fixed(Fixed::Cell)?;
    page.number(u64::from(bar.lane))?;
    page.fixed(Fixed::Cell)?;
    put_events(page, bar)?;
    page.text(bar.procedure.as_bytes())?;
    page.fixed(Fixed::Cell)?;
    page.front(bar.name.as_slice(), LISTED_BYTES)?;
    page.fixed(Fixed::Cell)?;
    put_reply(page, bar)?;
    put_place(page, bar)?;
    put_mark(page, bar)?;
    page.fixed(Fixed::EndRow)
}

/// Appends the table, up to the end of the page.
pub fn put_table(page: &mut Page, picture: &Picture, layout: &Layout) -> Result<(), AllocError> {
    page.fixed(Fixed::Table)?;
    for (index, bar) in picture.bars.iter().enumerate() {
        if layout.drawn(index, bar).is_some() {
            put_row(page, bar)?;
        }
    }
    page.fixed(Fixed::End)
}
