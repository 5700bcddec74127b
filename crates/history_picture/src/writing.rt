//! The whole page.

ghost use Rattle.std.specs.Prelude.{IfOk};
ghost use Rattle.history_picture.specs.Pages.{IsPage};

use crate::drawing::put_picture;
use crate::fixed::Fixed;
use crate::layout::Layout;
use crate::pages::Page;
use crate::parts::Picture;
use crate::span::Span;
use crate::table::put_table;
use std::alloc::{AllocError, Global};

/// Appends the first event that is drawn and the last, or that there are none.
fn put_ends(page: &mut Page, span: Span) -> Result<(), AllocError> {
    if span.count() == 0 {
        return page.number(0);
    }
    page.number(span.first)?;
    page.fixed(Fixed::To)?;
    page.number(span.last)
}

/// Appends which events are drawn, and which calls and events aren't.
fn put_range(page: &mut Page, picture: &Picture, span: Span) -> Result<(), AllocError> {
    page.fixed(Fixed::Range)?;
    put_ends(page, span)?;
    page.fixed(Fixed::Of)?;
    page.number(picture.events)?;
    if span.last < picture.last {
        page.fixed(Fixed::NotDrawn)?;
        page.number(picture.last)?;
    }
    if picture.left_out > 0 {
        page.fixed(Fixed::LeftOut)?;
        page.number(picture.left_out)?;
    }
    page.fixed(Fixed::EndRange)
}

/// A picture as a page of HTML, which loads nothing and runs nothing.
pub fn picture_page(alloc: Global, picture: &Picture) -> Result<Page, AllocError>
    ensures { IfOk result IsPage }
{
    let layout = Layout::of(alloc, picture)?;
    let mut page = Page::new(alloc);
    page.fixed(Fixed::Beginning)?;
    page.text(picture.caption.as_slice())?;
    page.fixed(Fixed::Style)?;
    page.text(picture.caption.as_slice())?;
    page.fixed(Fixed::Legend)?;
    put_range(&mut page, picture, layout.span)?;
    put_picture(&mut page, picture, &layout)?;
    put_table(&mut page, picture, &layout)?;
    Ok(page)
}
