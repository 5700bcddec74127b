//! The names in directories that an object has in the course of a history.

use indexmap::IndexSet;
use std::alloc::{AllocError, Global};

/// What an event says of names, each of which is known by its number.
#[derive(Clone, Copy)]
pub(crate) enum Change {
    /// Nothing.
    Nothing,
    /// The object has the name.
    Given(usize),
    /// What has the one name may have the other one from now on.
    MayMove { from: usize, to: usize },
    /// What had the one name has the other one.
    Moved { from: usize, to: usize },
    /// Nothing has the name.
    Removed(usize),
}

/// Whether the object has a name.
#[derive(Clone, Copy)]
enum Holding {
    Never,
    Before,
    Now,
}

/// Which names the object has, and which it had before.
#[derive(Drop)]
pub(crate) struct HeldNames {
    holdings: Vec<Holding>,
}

impl HeldNames {
    /// Whether the object has a name.
    fn is_held(&self, name: usize) -> bool {
        matches!(self.holdings.get(name), Some(Holding::Now))
    }

    /// Whether the object has a name, or had it before.
    pub(crate) fn was_ever_held(&self, name: Option<usize>) -> bool {
        match name {
            Some(name) => matches!(
                self.holdings.get(name),
                Some(Holding::Now | Holding::Before)
            ),
            None => false,
        }
    }

    fn set(&mut self, name: usize, holding: Holding) {
        if let Some(place) = self.holdings.get_mut(name) {
            *place = holding;
        }
    }

    fn lose(&mut self, name: usize) {
        if self.is_held(name) {
            self.set(name, Holding::Before);
        }
    }

    /// Takes in that a name moved, over what had the other one.
    fn take_move(&mut self, from: usize, to: usize) {
        if from == to {
            return;
        }
        if self.is_held(from) {
            self.lose(from);
            self.set(to, Holding::Now);
        } else {
            self.lose(to);
        }
    }

    fn take(&mut self, change: Change) {
        match change {
            Change::Nothing => {}
            Change::Given(name) => self.set(name, Holding::Now),
            Change::MayMove { from, to } => {
                if self.is_held(from) {
                    self.set(to, Holding::Now);
                }
            }
            Change::Moved { from, to } => self.take_move(from, to),
            Change::Removed(name) => self.lose(name),
        }
    }
}

/// Names in directories, each with a number, and what the events of a history say of them, in the order of the events.
#[derive(Drop)]
pub(crate) struct Names {
    alloc: Global,
    /// The handles of directories with the names in them.
    known: IndexSet<(Vec<u8>, Vec<u8>)>,
    changes: Vec<Change>,
}

impl Names {
    pub(crate) fn new(alloc: Global) -> Names {
        Names {
            alloc,
            known: IndexSet::new(alloc),
            changes: Vec::new(alloc),
        }
    }

    /// The number of a name in a directory.
    pub(crate) fn number_of(&mut self, directory: &[u8], name: &[u8]) -> Result<usize, AllocError> {
        let mut place = (Vec::new(self.alloc), Vec::new(self.alloc));
        place.0.extend_from_slice(directory)?;
        place.1.extend_from_slice(name)?;
        let (number, _) = self.known.insert_full(place)?;
        Ok(number)
    }

    /// Adds a change, and gives its index.
    pub(crate) fn add(&mut self, change: Change) -> Result<usize, AllocError> {
        let index = self.changes.len();
        self.changes.push(change)?;
        Ok(index)
    }

    /// Puts a change in the place of an earlier one.
    pub(crate) fn replace(&mut self, index: usize, change: Change) {
        if let Some(place) = self.changes.get_mut(index) {
            *place = change;
        }
    }

    /// Which names the object had, after all changes.
    pub(crate) fn held(&self) -> Result<HeldNames, AllocError> {
        let mut holdings = Vec::new(self.alloc);
        for _ in 0..self.known.len() {
            holdings.push(Holding::Never)?;
        }
        let mut held = HeldNames { holdings };
        for change in self.changes.as_slice() {
            held.take(*change);
        }
        Ok(held)
    }
}
