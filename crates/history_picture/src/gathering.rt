//! The picture of a history.

use crate::calls::{name_of, procedure_of, reply_to};
use crate::parts::{Bar, Mark, Picture};
use crate::show_words::put_show_words;
use crate::span::Span;
use crate::standings::Standings;
use certificate::Certificate;
use history_file::{FileFault, SeenEvent, read_file};
use nfs_history::KnownCalls;
use std::alloc::{AllocError, Global};

/// Which events are asked for.
#[derive(Clone, Copy)]
pub enum Window {
    /// Those from one to another.
    Events { first: u64, last: u64 },
    /// From so many before one call, to so many behind the reply to another, or behind that call if none came.
    Around { first: u64, last: u64, events: u64 },
    /// So many before a crash, counted from 1, and so many behind it; the last ones if there is no such crash.
    Crash { crash: u64, events: u64 },
}

/// What is asked for of a history.
#[derive(Clone, Copy)]
pub struct Request<'r> {
    /// What the picture is of.
    pub caption: &'r [u8],
    /// The events.
    pub window: Window,
    /// The call that is asked for, if one is.
    pub asked: Option<u64>,
    /// The call at fault, if there is one.
    pub fault: Option<u64>,
    /// The calls that explain the fault.
    pub explaining: &'r [u64],
}

/// A history as it was read.
#[derive(Clone, Copy)]
struct Source<'s, 'a> {
    known: &'s KnownCalls<'a>,
    events: &'s [SeenEvent<'a>],
}

/// The message of an event; empty if it has none.
fn message_in<'a>(event: &SeenEvent<'a>) -> &'a [u8] {
    match event {
        SeenEvent::Call { message, .. } => *message,
        SeenEvent::Reply { message, .. } => *message,
        SeenEvent::Close { .. } | SeenEvent::Crash => &[],
    }
}

impl<'s, 'a> Source<'s, 'a> {
    /// The message of an event; empty if it has none.
    fn message(self, event: u64) -> &'a [u8] {
        match self.events.get((event as usize).wrapping_sub(1)) {
            Some(event) => message_in(event),
            None => &[],
        }
    }

    /// The event of a crash, counted from 1; the last event if there is no such crash.
    fn crash_event(self, crash: u64) -> u64 {
        let mut seen_crashes = 0u64;
        let mut number = 0u64;
        for seen in self.events {
            number = number.saturating_add(1);
            if matches!(seen, SeenEvent::Crash) {
                seen_crashes = seen_crashes.saturating_add(1);
                if seen_crashes == crash {
                    return number;
                }
            }
        }
        number
    }

    /// The first and the last of the events that are asked for.
    fn ends(self, window: Window) -> (u64, u64) {
        match window {
            Window::Events { first, last } => (first, last),
            Window::Around {
                first,
                last,
                events,
            } => {
                let begin = self.known.begin(first);
                let end = self.known.end(last).unwrap_or(self.known.begin(last));
                (begin.saturating_sub(events), end.saturating_add(events))
            }
            Window::Crash { crash, events } => {
                let at = self.crash_event(crash);
                (at.saturating_sub(events), at.saturating_add(events))
            }
        }
    }

    /// In which era an event is, counted from 1.
    fn era_of(self, event: u64) -> u64 {
        let mut era = 1u64;
        let mut number = 0u64;
        for seen in self.events {
            number = number.saturating_add(1);
            if number < event && matches!(seen, SeenEvent::Crash) {
                era = era.saturating_add(1);
            }
        }
        era
    }

    /// The event of the crash at which an era ends; none of the last one.
    fn end_of_era(self, era: u64) -> Option<u64> {
        let event = self.crash_event(era);
        let index = event.checked_sub(1)?;
        match self.events.get(index as usize) {
            Some(SeenEvent::Crash) => Some(event),
            _ => None,
        }
    }

    /// The crashes among some events.
    fn crashes(self, alloc: Global, span: Span) -> Result<Vec<u64>, AllocError> {
        let mut crashes = Vec::new(alloc);
        let mut number = 0u64;
        for seen in self.events {
            number = number.saturating_add(1);
            if span.has(number) && matches!(seen, SeenEvent::Crash) {
                crashes.push(number)?;
            }
        }
        Ok(crashes)
    }

    /// A call as it is drawn, without the words of `show`.
    fn bar(self, alloc: Global, number: u64, standings: &Standings) -> Result<Bar, AllocError> {
        let first = self.known.begin(number);
        let last = self.known.end(number);
        let message = self.message(first);
        let reply = match last {
            Some(last) => reply_to(message, self.message(last)),
            None => "",
        };
        let standing = standings.of(number);
        Ok(Bar {
            number,
            lane: self.known.lane(number).unwrap_or(0),
            first,
            last,
            procedure: procedure_of(message),
            name: name_of(alloc, self.known, number)?,
            reply,
            asked: Vec::new(alloc),
            answered: Vec::new(alloc),
            place: standing.place,
            is_lost: standing.is_lost,
            mark: standing.mark,
        })
    }
}

/// How a call lies to the events that are drawn.
#[derive(Clone, Copy)]
enum Lying {
    /// Its event, or that at which it is over, is among them.
    Inside,
    /// It began before them, and wasn't over up to the last.
    Across,
    /// It is over before them, or begins behind them.
    Outside,
}

/// What is drawn of the calls of a history.
#[derive(Clone, Copy)]
struct Choice<'s, 'a> {
    source: Source<'s, 'a>,
    span: Span,
    /// The era of the first event that is drawn.
    era: u64,
    /// The event of the crash at its end, where there is one.
    crash: Option<u64>,
}

impl<'s, 'a> Choice<'s, 'a> {
    /// How a call lies to the events. One without a reply ends at the crash of its era.
    fn lying(self, number: u64) -> Lying {
        let known = self.source.known;
        let first = known.begin(number);
        let is_of_era = known.era(number) == Some(self.era);
        let last = match known.end(number) {
            Some(last) => last,
            None if is_of_era => self.crash.unwrap_or(u64::MAX),
            None => u64::MAX,
        };
        if self.span.has(first) || self.span.has(last) {
            return Lying::Inside;
        }
        if is_of_era && first < self.span.first && self.span.last < last {
            return Lying::Across;
        }
        Lying::Outside
    }

    /// How many calls aren't drawn that lie across the events.
    fn left_out(self) -> u64 {
        let mut left_out = 0u64;
        for index in 0..self.source.known.count() {
            let number = (index as u64).saturating_add(1);
            if matches!(self.lying(number), Lying::Across) {
                left_out = left_out.saturating_add(1);
            }
        }
        left_out
    }

    /// The calls that are drawn, without the words of `show`.
    fn bars(self, alloc: Global, standings: &Standings) -> Result<Vec<Bar>, AllocError> {
        let mut bars = Vec::new(alloc);
        for index in 0..self.source.known.count() {
            let number = (index as u64).saturating_add(1);
            if matches!(self.lying(number), Lying::Inside) {
                bars.push(self.source.bar(alloc, number, standings)?)?;
            }
        }
        Ok(bars)
    }
}

/// The lanes of some calls, in rising order.
fn lanes_of(alloc: Global, bars: &[Bar]) -> Result<Vec<u32>, AllocError> {
    let mut all = Vec::with_capacity(alloc, bars.len())?;
    for bar in bars {
        all.push(bar.lane)?;
    }
    all.sort()?;
    let mut lanes = Vec::new(alloc);
    let mut before = None;
    for lane in all.iter() {
        if before != Some(*lane) {
            lanes.push(*lane)?;
        }
        before = Some(*lane);
    }
    Ok(lanes)
}

/// Where the calls stand by a certificate, and which are marked.
fn standings_of(
    alloc: Global,
    calls: usize,
    certificate: Option<&Certificate>,
    request: &Request<'_>,
) -> Result<Standings, AllocError> {
    let mut standings = Standings::new(alloc, calls)?;
    if let Some(certificate) = certificate {
        standings.put_places(certificate);
    }
    if let Some(call) = request.asked {
        standings.mark(call, Mark::Asked);
    }
    for call in request.explaining {
        standings.mark(*call, Mark::Explains);
    }
    if let Some(call) = request.fault {
        standings.mark(call, Mark::AtFault);
    }
    Ok(standings)
}

/// The picture of some events, without the words of `show`.
fn bare_picture(
    alloc: Global,
    source: Source<'_, '_>,
    certificate: Option<&Certificate>,
    request: &Request<'_>,
) -> Result<Picture, AllocError> {
    let standings = standings_of(alloc, source.known.count(), certificate, request)?;
    let events = source.events.len() as u64;
    let (from, to) = source.ends(request.window);
    let (first, last) = (from.max(1), to.min(events));
    let span = Span::of(first, last);
    let era = source.era_of(span.first);
    let choice = Choice {
        source,
        span,
        era,
        crash: source.end_of_era(era),
    };
    let bars = choice.bars(alloc, &standings)?;
    let lanes = lanes_of(alloc, bars.as_slice())?;
    let crashes = source.crashes(alloc, span)?;
    let caption = Vec::from_slice(alloc, request.caption)?;
    Ok(Picture {
        caption,
        first,
        last,
        events,
        left_out: choice.left_out(),
        lanes,
        bars,
        crashes,
    })
}

/// The picture of a history file with these calls, and with the places of a certificate if there is one. Nothing in the certificate is
/// trusted: a place of a call that there isn't is passed over.
pub fn picture_of<'a>(
    alloc: Global,
    file: &'a [u8],
    known: &KnownCalls<'a>,
    certificate: Option<&Certificate>,
    request: &Request<'_>,
) -> Result<Picture, FileFault> {
    let recording = read_file(alloc, file)?;
    let source = Source {
        known,
        events: recording.events.as_slice(),
    };
    let mut picture = bare_picture(alloc, source, certificate, request)?;
    put_show_words(alloc, file, picture.bars.as_mut_slice())?;
    Ok(picture)
}
