//! Where each event and each call stands in a picture.

use crate::escaping::escape;
use crate::fronts::shown_front;
use crate::parts::{Bar, Picture};
use crate::span::Span;
use std::alloc::{AllocError, Global};

/// How wide the names of lanes are.
pub const NAMES: u64 = 96;
/// How wide a strip is. Beside names it is as wide as a sheet.
pub const STRIP: u64 = 1_104;
/// The numbers of events stand above this.
pub const TOP: u64 = 28;
/// How far two events are apart at least.
const STEP: u64 = 14;
/// How high a row is.
const ROW: u64 = 26;
/// How wide a character is.
const CHARACTER: u64 = 8;
/// How far two labels are apart at least.
const GAP: u64 = 12;
/// How far a label is from an edge.
const INSET: u64 = 5;
/// How many bytes stand in a bar for a name at most.
pub const LABEL_BYTES: usize = 32;

/// How many digits a number has.
fn digits_of(number: u64) -> u64 {
    match number.checked_ilog10() {
        Some(log) => u64::from(log) + 1,
        None => 1,
    }
}

/// How wide the label of a call is.
fn label_width(alloc: Global, bar: &Bar) -> Result<u64, AllocError> {
    let front = shown_front(alloc, bar.name.as_slice(), LABEL_BYTES)?;
    let name = escape(alloc, front)?;
    let mut characters = (bar.procedure.len() as u64).saturating_add(name.len() as u64);
    if let Some(place) = bar.place {
        characters = characters.saturating_add(digits_of(place));
    }
    Ok(characters.saturating_add(3).saturating_mul(CHARACTER))
}

/// Where a label that is so wide begins: in its bar if that is as wide, or else behind it.
fn label_of(left: u64, right: u64, width: u64) -> u64 {
    if right.saturating_sub(left) < width {
        right.saturating_add(INSET)
    } else {
        left.saturating_add(INSET)
    }
}

/// What an event is.
#[derive(Clone, Copy)]
enum Happening {
    /// None that is drawn.
    Nothing,
    /// The call of a bar.
    Call(usize),
    /// The reply of a bar.
    Reply(usize),
    /// A crash.
    Crash,
}

/// The rows of a lane. Two bars in a row don't overlap, nor do their labels.
#[derive(Drop)]
struct Rows {
    /// Where the next label of each row may begin.
    ends: Vec<u64>,
    /// The rows in which no call is under way.
    free: Vec<usize>,
}

/// A free row of a lane, and where its next label may begin.
#[derive(Clone, Copy)]
struct FreeRow {
    row: usize,
    end: u64,
}

impl Rows {
    /// Takes a free row, or makes one.
    fn take(&mut self) -> Result<FreeRow, AllocError> {
        if let Some(row) = self.free.pop() {
            let end = self.ends.get(row).copied().unwrap_or(0);
            return Ok(FreeRow { row, end });
        }
        let row = self.ends.len();
        self.ends.push(0)?;
        Ok(FreeRow { row, end: 0 })
    }

    /// Lets the next label of a row begin there.
    fn set_end(&mut self, row: usize, end: u64) {
        if let Some(place) = self.ends.get_mut(row) {
            *place = end;
        }
    }

    /// Gives a row back.
    fn give(&mut self, row: usize) -> Result<(), AllocError> {
        self.free.push(row)?;
        Ok(())
    }
}

/// Where a bar is drawn.
#[derive(Clone, Copy)]
struct Placing {
    /// The index of its lane.
    lane: usize,
    /// Its row in the lane.
    row: usize,
    /// Where its call stands, if that is drawn.
    left: Option<u64>,
    /// Where its reply stands, or the crash behind it, if that is drawn.
    right: Option<u64>,
    /// How wide its label is.
    width: u64,
}

/// Where the bar of this index is drawn, if it is.
fn placing_of(placings: &[Option<Placing>], index: usize) -> Option<Placing> {
    match placings.get(index) {
        Some(placing) => *placing,
        None => None,
    }
}

/// What goes over the events from left to right.
#[derive(Drop)]
struct Sweep {
    /// Where the last event stands.
    at: u64,
    lanes: Vec<Rows>,
    placings: Vec<Option<Placing>>,
    /// The bars without a reply since the last crash.
    unanswered: Vec<usize>,
    /// Where each event stands.
    columns: Vec<u64>,
}

impl Sweep {
    fn new(alloc: Global, lanes: usize, bars: usize) -> Result<Sweep, AllocError> {
        let mut sweep = Sweep {
            at: 0,
            lanes: Vec::with_capacity(alloc, lanes)?,
            placings: Vec::with_capacity(alloc, bars)?,
            unanswered: Vec::new(alloc),
            columns: Vec::new(alloc),
        };
        for _ in 0..lanes {
            sweep.lanes.push(Rows {
                ends: Vec::new(alloc),
                free: Vec::new(alloc),
            })?;
        }
        for _ in 0..bars {
            sweep.placings.push(None)?;
        }
        Ok(sweep)
    }

    /// The row in which the next bar of a lane is drawn. The label, which is so wide, begins here, or as far to the right as it has to.
    fn row_of(&mut self, lane: usize, width: u64) -> Result<Option<usize>, AllocError> {
        let at = self.at;
        let Some(rows) = self.lanes.get_mut(lane) else {
            return Ok(None);
        };
        let free = rows.take()?;
        let begin = at.max(free.end);
        rows.set_end(free.row, begin.saturating_add(width).saturating_add(GAP));
        self.at = begin;
        Ok(Some(free.row))
    }

    fn put(&mut self, index: usize, placing: Placing) {
        if let Some(place) = self.placings.get_mut(index) {
            *place = Some(placing);
        }
    }

    /// Draws a bar from here on. Its call is here, or before the first event.
    fn begin(
        &mut self,
        alloc: Global,
        picture: &Picture,
        index: usize,
        is_here: bool,
    ) -> Result<(), AllocError> {
        let Some(bar) = picture.bars.get(index) else {
            return Ok(());
        };
        let Ok(lane) = picture.lanes.as_slice().binary_search(&bar.lane) else {
            return Ok(());
        };
        let width = label_width(alloc, bar)?;
        let Some(row) = self.row_of(lane, width)? else {
            return Ok(());
        };
        let left = if is_here { Some(self.at) } else { None };
        let placing = Placing {
            lane,
            row,
            left,
            right: None,
            width,
        };
        self.put(index, placing);
        if bar.last.is_none() {
            self.unanswered.push(index)?;
        }
        Ok(())
    }

    /// Draws a bar up to here.
    fn end(&mut self, index: usize) -> Result<(), AllocError> {
        let Some(mut placing) = placing_of(self.placings.as_slice(), index) else {
            return Ok(());
        };
        placing.right = Some(self.at);
        self.put(index, placing);
        let label = label_of(placing.left.unwrap_or(0), self.at, placing.width);
        match self.lanes.get_mut(placing.lane) {
            Some(rows) => {
                let end = label.saturating_add(placing.width);
                rows.set_end(placing.row, end.saturating_add(GAP));
                rows.give(placing.row)
            }
            None => Ok(()),
        }
    }

    /// Draws the bars that have no reply up to here.
    fn crash(&mut self) -> Result<(), AllocError> {
        for _ in 0..self.unanswered.len() {
            if let Some(index) = self.unanswered.pop() {
                self.end(index)?;
            }
        }
        Ok(())
    }

    /// Goes on to the next event.
    fn step(
        &mut self,
        alloc: Global,
        picture: &Picture,
        happening: Happening,
    ) -> Result<(), AllocError> {
        self.at = self.at.saturating_add(STEP);
        match happening {
            Happening::Nothing => {}
            Happening::Call(index) => self.begin(alloc, picture, index, true)?,
            Happening::Reply(index) => self.end(index)?,
            Happening::Crash => self.crash()?,
        }
        self.columns.push(self.at)?;
        Ok(())
    }
}

fn note(happenings: &mut [Happening], index: Option<usize>, happening: Happening) {
    let Some(index) = index else {
        return;
    };
    if let Some(place) = happenings.get_mut(index) {
        *place = happening;
    }
}

/// What each event is that is drawn.
fn happenings_in(
    alloc: Global,
    picture: &Picture,
    span: Span,
) -> Result<Vec<Happening>, AllocError> {
    let mut happenings = Vec::new(alloc);
    for _ in 0..span.count() {
        happenings.push(Happening::Nothing)?;
    }
    for (index, bar) in picture.bars.iter().enumerate() {
        note(
            happenings.as_mut_slice(),
            span.index_of(bar.first),
            Happening::Call(index),
        );
        if let Some(last) = bar.last {
            note(
                happenings.as_mut_slice(),
                span.index_of(last),
                Happening::Reply(index),
            );
        }
    }
    for crash in picture.crashes.iter() {
        note(
            happenings.as_mut_slice(),
            span.index_of(*crash),
            Happening::Crash,
        );
    }
    Ok(happenings)
}

/// Whether a bar is under way at the first event, and began before it.
fn is_under_way(bar: &Bar, span: Span) -> bool {
    let goes_on = match bar.last {
        Some(last) => last >= span.first,
        None => true,
    };
    bar.first < span.first && goes_on
}

fn swept(alloc: Global, picture: &Picture, span: Span) -> Result<Sweep, AllocError> {
    let happenings = happenings_in(alloc, picture, span)?;
    let mut sweep = Sweep::new(alloc, picture.lanes.len(), picture.bars.len())?;
    for (index, bar) in picture.bars.iter().enumerate() {
        if is_under_way(bar, span) {
            sweep.begin(alloc, picture, index, false)?;
        }
    }
    for happening in happenings.iter() {
        sweep.step(alloc, picture, *happening)?;
    }
    Ok(sweep)
}

/// The rows of a lane, from above to below.
#[derive(Clone, Copy)]
pub struct Band {
    pub top: u64,
    pub height: u64,
}

/// Where the rows of each lane are.
fn bands_of(alloc: Global, lanes: &[Rows]) -> Result<Vec<Band>, AllocError> {
    let mut bands = Vec::with_capacity(alloc, lanes.len())?;
    let mut top = TOP;
    for rows in lanes {
        let count = rows.ends.len().max(1) as u64;
        let height = count.saturating_mul(ROW);
        bands.push(Band { top, height })?;
        top = top.saturating_add(height);
    }
    Ok(bands)
}

/// How far the labels go to the right.
fn labels_end(lanes: &[Rows]) -> u64 {
    let mut end = 0u64;
    for rows in lanes {
        for label in rows.ends.iter() {
            end = end.max(*label);
        }
    }
    end
}

/// A bar as it is drawn.
#[derive(Clone, Copy)]
pub struct Drawn {
    pub left: u64,
    pub right: u64,
    pub top: u64,
    /// Where its label begins.
    pub label: u64,
    /// Where its label ends.
    pub label_end: u64,
    /// Whether its call isn't drawn.
    pub is_open_left: bool,
    /// Whether its reply isn't drawn.
    pub is_open_right: bool,
}

/// A strip of a picture, from above to below. Strips stand side by side, and in print one below the other.
#[derive(Clone, Copy)]
pub struct Strip {
    pub left: u64,
}

impl Strip {
    /// Whether something is seen in it that reaches from one place to another.
    pub fn shows(self, from: u64, to: u64) -> bool {
        self.left <= to && from < self.left.saturating_add(STRIP)
    }
}

/// Where everything stands in a picture.
#[derive(Drop)]
pub struct Layout {
    pub span: Span,
    pub height: u64,
    /// How many strips there are.
    pub strips: u64,
    bands: Vec<Band>,
    columns: Vec<u64>,
    placings: Vec<Option<Placing>>,
    edge: u64,
}

impl Layout {
    /// The layout of a picture.
    pub fn of(alloc: Global, picture: &Picture) -> Result<Layout, AllocError> {
        let span = Span::of(picture.first, picture.last);
        let sweep = swept(alloc, picture, span)?;
        let bands = bands_of(alloc, sweep.lanes.as_slice())?;
        let edge = sweep.at.saturating_add(STEP);
        let Sweep {
            at: _,
            lanes,
            placings,
            unanswered,
            columns,
        } = sweep;
        drop(unanswered);
        let width = edge.max(labels_end(lanes.as_slice()));
        let strips = (width / STRIP).saturating_add(1);
        let height = match bands.last() {
            Some(band) => band.top.saturating_add(band.height),
            None => TOP,
        };
        Ok(Layout {
            span,
            height,
            strips,
            bands,
            columns,
            placings,
            edge,
        })
    }

    /// The rows of the lanes, from top to bottom.
    pub fn bands(&self) -> &[Band] {
        self.bands.as_slice()
    }

    /// Where an event stands, if it is drawn.
    pub fn column_of(&self, event: u64) -> Option<u64> {
        let index = self.span.index_of(event)?;
        self.columns.get(index).copied()
    }

    /// The bar of this index, if it is drawn.
    pub fn drawn(&self, index: usize, bar: &Bar) -> Option<Drawn> {
        let placing = placing_of(self.placings.as_slice(), index)?;
        let band = self.bands.get(placing.lane).copied()?;
        let below = (placing.row as u64).saturating_mul(ROW);
        let left = placing.left.unwrap_or(0);
        let right = match placing.right {
            Some(right) => right,
            None => self.edge.max(left.saturating_add(placing.width)),
        };
        let label = label_of(left, right, placing.width);
        Some(Drawn {
            left,
            right,
            top: band.top.saturating_add(below).saturating_add(4),
            label,
            label_end: label.saturating_add(placing.width),
            is_open_left: placing.left.is_none(),
            is_open_right: placing.right.is_none() || bar.last.is_none(),
        })
    }
}
