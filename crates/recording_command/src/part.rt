//! What was noted, on disk while a recording goes on: whatever ends the process, it can be read.

use crate::runtime::RecordingRuntime;
use crate::saving::{Beginning, SaveFault};
use history_mending::{part_head, part_head_from, put_next};
use nfs_relay::{Relay, RelayRuntime};
use program_streams::write_pieces;
use std::alloc::{AllocError, Global};
use std::fs::{self, File};
use std::rt::Files;
use std::time::Duration;
use std::{io, thread};

/// How many milliseconds are between two looks at the log.
const PAUSE: u64 = 100;

/// The path of the file that grows beside a history.
pub fn part_path(alloc: Global, history: &str) -> Result<String, AllocError> {
    format!(in alloc; "{history}.part")
}

/// The bytes that the file begins with.
fn head_of(
    alloc: Global,
    beginning: &Option<Beginning>,
    root: &[u8],
) -> Result<Vec<u8>, SaveFault> {
    let head = match beginning {
        None => part_head(alloc, root)?,
        Some(beginning) => part_head_from(alloc, root, beginning.profile, &beginning.start)?,
    };
    Ok(head)
}

/// A file that grows beside a recording: a history file but for its count of events, which is 0.
#[derive(Drop)]
pub struct Part {
    file: File,
    /// How many events it has.
    events: usize,
    /// The events that are written next.
    text: Vec<u8>,
}

impl Part {
    /// Makes the file, which begins with these bytes.
    pub fn make<R: Files<File = File> + AllocGlobal>(
        rt: &R,
        path: &str,
        head: &[u8],
    ) -> io::Result<Part> {
        let mut file = fs::create(rt, path)?;
        write_pieces(&mut file, head)?;
        Ok(Part {
            file,
            events: 0,
            text: Vec::new(rt.alloc()),
        })
    }

    /// How many events it has.
    pub fn events(&self) -> usize {
        self.events
    }

    /// Where the next events are put ([`history_mending::put_next`]).
    pub fn text(&mut self) -> &mut Vec<u8> {
        &mut self.text
    }

    /// Appends the events that were put, of which there are so many.
    pub fn append(&mut self, count: usize) -> io::Result<()> {
        write_pieces(&mut self.file, self.text.as_slice())?;
        self.events = self.events.saturating_add(count);
        Ok(())
    }

    /// Makes the file of a recording, with the beginning of a history.
    pub(crate) fn beside<R: RecordingRuntime>(
        rt: &R,
        relay: &Relay,
        beginning: &Option<Beginning>,
        path: &str,
    ) -> Result<Part, SaveFault> {
        let log = relay.log().lock(rt);
        let head = head_of(rt.alloc(), beginning, log.root().as_slice())?;
        drop(log);
        Ok(Part::make(rt, path, head.as_slice())?)
    }

    /// Takes the next events out of the log. How many they are.
    fn take<R: RelayRuntime>(&mut self, rt: &R, relay: &Relay) -> Result<usize, SaveFault> {
        let log = relay.log().lock(rt);
        Ok(put_next(&mut self.text, log.events(), self.events)?)
    }

    /// Appends what was noted since.
    fn catch_up<R: RelayRuntime>(&mut self, rt: &R, relay: &Relay) -> Result<(), SaveFault> {
        for _ in rt.forever() {
            let count = self.take(rt, relay)?;
            if count == 0 {
                break;
            }
            self.append(count)?;
        }
        Ok(())
    }

    /// Appends what is noted, until the relay has ended and each event is there. Where it can't, it is said, and the recording goes on.
    pub(crate) fn follow<R: RelayRuntime>(mut self, rt: &R, relay: &Relay) {
        for _ in rt.forever() {
            let is_last = relay.has_ended(rt);
            if self.catch_up(rt, relay).is_err() {
                let _ = eprintln!(rt; "what is noted isn't kept on disk any more: a write failed");
                return;
            }
            if is_last {
                return;
            }
            thread::sleep(rt, Duration::from_millis(PAUSE));
        }
    }
}
