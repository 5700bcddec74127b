//! Where the handles of a table stand.

ghost use Rattle.std.specs.Prelude.{◌≡◌, None, Some, [], map, position, IsTrue, IfOk, OnErr};
ghost use Rattle.tree_handles.specs.Binding.{same_bytes};
ghost use Rattle.tree_handles.specs.Places.{place_of, TakesPlace};

use crate::short_handle::{SHORT_LIMIT, ShortHandle};
use indexmap::IndexSet;
use std::alloc::{AllocError, Global};
use std::marker::Model;

/// The handles that have a place. A short handle, as most are, stands in the index itself, so that to find it takes no step to the heap.
pub(crate) struct Places {
    short: IndexSet<ShortHandle>,
    long: IndexSet<Vec<u8>>,
}

impl Drop for Places {
    fn drop(self) {
        let Places { short, long } = self;
        drop(short);
        drop(long);
    }
}

impl Model for Places {
    ghost use Rattle.std.specs.Prelude.{map};
    ghost use Rattle.tree_handles.specs.Places.{Handles};

    ghost Value = { Handles };

    ghost view = { λ p. record { short = p.short.keys; long = map (λ key. key.items) p.long.keys } };
}

impl Clone for Places {
    ghost is_clone = { λ places copy. copy ≡ places };

    fn clone(&self) -> Result<Self, AllocError> {
        Ok(Places {
            short: self.short.clone()?,
            long: self.long.clone()?,
        })
    }
}

/// Whether a short handle stands at a place.
fn stands_short(short: &IndexSet<ShortHandle>, handle: &[u8], place: usize) -> bool
    ensures { IsTrue result → position (same_bytes handle.now) short.now.keys ≡ Some place }
{
    match short.as_slice().get(place) {
        Some(key) => key.as_slice() == handle,
        None => false,
    }
}

/// Whether a long handle stands at a place.
fn stands_long(long: &IndexSet<Vec<u8>>, handle: &[u8], place: usize) -> bool
    ensures { IsTrue result → position (λ key. same_bytes handle.now key.items) long.now.keys ≡ Some place }
{
    match long.as_slice().get(place) {
        Some(key) => key.as_slice() == handle,
        None => false,
    }
}

impl Places {
    /// No handles.
    pub(crate) fn new(alloc: Global) -> Places
        ensures { result ≡ record { short = []; long = [] } }
    {
        Places {
            short: IndexSet::new(alloc),
            long: IndexSet::new(alloc),
        }
    }

    /// How many handles there are.
    pub(crate) fn len(&self) -> usize {
        self.short.len().saturating_add(self.long.len())
    }

    /// The short handles, by their places.
    pub(crate) fn short(&self) -> &IndexSet<ShortHandle>
        ensures { result.now.keys ≡ self.now.short }
    {
        &self.short
    }

    /// The long handles, by their places.
    pub(crate) fn long(&self) -> &IndexSet<Vec<u8>>
        ensures { map (λ key. key.items) result.now.keys ≡ self.now.long }
    {
        &self.long
    }

    /// The place of a handle, among those of its kind.
    pub(crate) fn place(&self, handle: &[u8]) -> Option<usize>
        ensures { result ≡ place_of self.now handle.now }
    {
        if handle.len() <= SHORT_LIMIT {
            self.short.get_index_of(&ShortHandle::from_slice(handle))
        } else {
            self.long.get_index_of(handle)
        }
    }

    /// The same, with no hash where the handle stands at the place that is guessed.
    pub(crate) fn place_near(&self, handle: &[u8], guess: usize) -> Option<usize>
        ensures { result ≡ place_of self.now handle.now }
    {
        if handle.len() <= SHORT_LIMIT {
            if stands_short(&self.short, handle, guess) {
                return Some(guess);
            }
        } else if stands_long(&self.long, handle, guess) {
            return Some(guess);
        }
        self.place(handle)
    }

    /// Gives a handle that has no place the next one.
    pub(crate) fn add(&mut self, alloc: Global, handle: &[u8]) -> Result<usize, AllocError>
        requires { place_of self.old handle.now ≡ None }
        ensures ok { IfOk result (λ place. TakesPlace self.old self.new handle.now place) }
        ensures err { OnErr result (self.new ≡ self.old) }
    {
        if handle.len() <= SHORT_LIMIT {
            let (place, _) = self.short.insert_full(ShortHandle::from_slice(handle))?;
            Ok(place)
        } else {
            let (place, _) = self.long.insert_full(Vec::from_slice(alloc, handle)?)?;
            Ok(place)
        }
    }
}
