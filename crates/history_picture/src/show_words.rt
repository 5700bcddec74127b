//! The words of `nfsbench show` for each call that is drawn.

use crate::parts::Bar;
use history_file::FileFault;
use history_lines::{EventLines, Line, Look, Selection};
use indexmap::IndexMap;
use std::alloc::{AllocError, Global};
use text_words::{number_of, split_at_byte};

/// Whose words a line has.
#[derive(Clone, Copy)]
struct Speaker {
    /// The index of the bar.
    bar: usize,
    /// Whether it is the reply.
    is_reply: bool,
}

/// The events of the bars.
#[derive(Drop)]
struct Speakers {
    by_event: IndexMap<u64, Speaker>,
    /// The first event.
    first: u64,
    /// The last event.
    last: u64,
}

impl Speakers {
    fn of(alloc: Global, bars: &[Bar]) -> Result<Speakers, AllocError> {
        let mut speakers = Speakers {
            by_event: IndexMap::new(alloc),
            first: u64::MAX,
            last: 0,
        };
        for (bar, shown) in bars.iter().enumerate() {
            let speaker = Speaker {
                bar,
                is_reply: false,
            };
            speakers.put(shown.first, speaker)?;
            if let Some(last) = shown.last {
                let speaker = Speaker {
                    bar,
                    is_reply: true,
                };
                speakers.put(last, speaker)?;
            }
        }
        Ok(speakers)
    }

    fn put(&mut self, event: u64, speaker: Speaker) -> Result<(), AllocError> {
        self.first = self.first.min(event);
        self.last = self.last.max(event);
        self.by_event.insert(event, speaker)?;
        Ok(())
    }

    /// Whose words a line has, which begins with the number of its event.
    fn speaker_of(&self, words: &[u8]) -> Option<Speaker> {
        let (digits, _) = split_at_byte(words, b' ')?;
        let event = number_of(digits)?;
        self.by_event.get(&event).copied()
    }
}

/// The words of a line, without its line feed.
fn words_of(alloc: Global, line: &Line) -> Result<Vec<u8>, AllocError> {
    let mut words = Vec::from_slice(alloc, line.as_slice())?;
    words.pop();
    Ok(words)
}

/// Gives a line to the bar whose words it has.
fn take_line(
    alloc: Global,
    speakers: &Speakers,
    bars: &mut [Bar],
    line: &Line,
) -> Result<(), AllocError> {
    let Some(speaker) = speakers.speaker_of(line.as_slice()) else {
        return Ok(());
    };
    let words = words_of(alloc, line)?;
    if let Some(bar) = bars.get_mut(speaker.bar) {
        if speaker.is_reply {
            bar.answered = words;
        } else {
            bar.asked = words;
        }
    }
    Ok(())
}

/// Gives each bar the lines of its call and its reply in a history file.
pub fn put_show_words(alloc: Global, file: &[u8], bars: &mut [Bar]) -> Result<(), FileFault> {
    let speakers = Speakers::of(alloc, bars)?;
    let mut selection = Selection::all();
    selection.from = speakers.first;
    selection.to = speakers.last;
    let mut lines = EventLines::new(alloc, file, Look::at(selection))?;
    for _ in 0..u64::MAX {
        let Some(line) = lines.next_line()? else {
            break;
        };
        take_line(alloc, &speakers, bars, &line)?;
    }
    Ok(())
}
