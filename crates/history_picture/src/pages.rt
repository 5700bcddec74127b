//! A page that is being written.

ghost use Rattle.std.specs.Prelude.{◌≡◌};
ghost use Rattle.history_picture.specs.Pages.{IsPage};
ghost use Rattle.history_picture.specs.Reading.{HasOwnTags};

use crate::escaping::escape;
use crate::fixed::Fixed;
use crate::fronts::shown_front;
use crate::shapes::Shape;
use itoa::Buffer;
use std::alloc::{AllocError, Global};
use std::marker::Model;

/// A page of HTML. What others wrote is in it as text alone.
#[derive(Drop)]
pub struct Page {
    alloc: Global,
    bytes: Vec<u8>,
}

impl Model for Page {
    ghost use Rattle.std.specs.Prelude.{List, ℕ};

    ghost Value = { List ℕ };

    ghost use Rattle.history_picture.specs.Pages.{IsPage};

    ghost view = { λ page. page.bytes.items };

    ghost invariant = { λ page. IsPage page.bytes.items };
}

impl Page {
    /// An empty page.
    pub(crate) fn new(alloc: Global) -> Page {
        Page {
            alloc,
            bytes: Vec::new(alloc),
        }
    }

    /// Appends text of the program's own.
    pub(crate) fn fixed(&mut self, fixed: Fixed) -> Result<(), AllocError> {
        self.bytes.extend_from_slice(fixed.words().as_bytes())
    }

    /// Appends a tag.
    pub(crate) fn shape(&mut self, shape: Shape) -> Result<(), AllocError> {
        let words = format!(in self.alloc; "{shape}")?;
        self.bytes.extend_from_slice(words.as_bytes())
    }

    /// Appends a number.
    pub(crate) fn number(&mut self, number: u64) -> Result<(), AllocError> {
        let mut buffer = Buffer::new();
        self.bytes
            .extend_from_slice(buffer.format(number).as_bytes())
    }

    /// Appends bytes that others wrote, as text.
    pub(crate) fn text(&mut self, bytes: &[u8]) -> Result<(), AllocError> {
        let shown = escape(self.alloc, bytes)?;
        self.bytes.extend_from_slice(shown.as_slice())
    }

    /// Appends bytes that others wrote as at most so many bytes of text. Two dots are behind what is cut.
    pub(crate) fn front(&mut self, bytes: &[u8], most: usize) -> Result<(), AllocError> {
        let front = shown_front(self.alloc, bytes, most)?;
        self.text(front)?;
        if front.len() < bytes.len() {
            self.fixed(Fixed::Dots)?;
        }
        Ok(())
    }

    /// Its bytes, in UTF-8.
    pub fn as_slice(&self) -> &[u8]
        ensures shown { result.now ≡ self.now }
        ensures page { IsPage self.now }
        ensures own_tags { HasOwnTags self.now }
    {
        self.bytes.as_slice()
    }
}
