//! The lines of a history file that are shown.

use crate::touched::{TouchedEvents, touched_events};
use history_file::FileFault;
use history_lines::{EventLines, Line, Look, Sought};
use std::alloc::Global;

/// The lines of a history file that a look is for.
#[derive(Drop)]
pub(crate) struct ShownLines<'a> {
    lines: EventLines<'a>,
    /// The events that touch the object that is looked for, where one is.
    touched: Option<TouchedEvents>,
}

impl<'a> ShownLines<'a> {
    /// Before the first line of a file. Lines that name a handle aren't all that touch its object: so the lines are those of a look for
    /// no handle, and of these the ones of events that touch the object.
    pub(crate) fn new(
        alloc: Global,
        bytes: &'a [u8],
        look: Look,
    ) -> Result<ShownLines<'a>, FileFault> {
        let Look {
            selection,
            sought,
            marks,
            has_short_handles,
        } = look;
        let Sought { handle, name } = sought;
        let rest = Look {
            selection,
            sought: Sought { handle: None, name },
            marks,
            has_short_handles,
        };
        let touched = match handle {
            Some(handle) => Some(touched_events(alloc, bytes, handle)?),
            None => None,
        };
        Ok(ShownLines {
            lines: EventLines::new(alloc, bytes, rest)?,
            touched,
        })
    }

    /// Whether a line is of an event that touches the object that is looked for, or none is.
    fn is_shown(&self, line: &[u8]) -> bool {
        match &self.touched {
            Some(events) => events.has_line(line),
            None => true,
        }
    }

    /// The next line.
    pub(crate) fn next_line(&mut self) -> Result<Option<Line>, FileFault> {
        for _ in 0..u64::MAX {
            match self.lines.next_line()? {
                Some(line) => {
                    if self.is_shown(line.as_slice()) {
                        return Ok(Some(line));
                    }
                }
                None => return Ok(None),
            }
        }
        Ok(None)
    }
}
