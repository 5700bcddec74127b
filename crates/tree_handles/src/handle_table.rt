//! The objects of handles that are found by a hash.

ghost use Rattle.std.specs.Prelude.{◌≡◌, ℕ, List, None, Some, get_or, IfOk, OnOk, OnErr};
ghost use Rattle.std.specs.Arc.{arc_value};
ghost use Rattle.tree_handles.specs.Places.{of_length, place_of, Rewrites, TakesPlace};
ghost use Rattle.tree_handles.specs.Finding.{first_of, object_at, tabled, Gains, Keeps, Lacks};

use crate::padded::{at, clear, put};
use crate::places::Places;
use crate::short_handle::SHORT_LIMIT;
use std::alloc::{AllocError, Global};
use std::sync::Arc;

/// The objects of handles. Where the handles stand is shared by the copies of a table, until one of them takes a handle more.
pub(crate) struct HandleTable {
    pub(crate) places: Arc<Places>,
    /// The objects of short handles, by their places.
    pub(crate) short: Vec<Option<u64>>,
    /// Those of long ones.
    pub(crate) long: Vec<Option<u64>>,
}

impl Drop for HandleTable {
    fn drop(self) {
        let HandleTable {
            places,
            short,
            long,
        } = self;
        drop(places);
        drop(short);
        drop(long);
    }
}

/// Gives a handle that has no place the next one. It copies the places if they are shared.
fn add_place(places: &mut Arc<Places>, alloc: Global, handle: &[u8]) -> Result<usize, AllocError>
    requires { place_of (arc_value places.old) handle.now ≡ None }
    ensures ok { IfOk result (λ place. TakesPlace (arc_value places.old) (arc_value places.new) handle.now place) }
    ensures err { OnErr result (arc_value places.new ≡ arc_value places.old) }
{
    Arc::make_mut(places)?.add(alloc, handle)
}

/// Gives a place its object, unless it has one.
fn fill(objects: &mut Vec<Option<u64>>, place: usize, object: u64) -> Result<(), AllocError>
    ensures ok { OnOk result (Rewrites None objects.old.items objects.new.items place (first_of (get_or objects.old.items place None) (Some object))) }
    ensures err { OnErr result (objects.new.items ≡ objects.old.items) }
{
    if at(objects.as_slice(), None, place).is_none() {
        put(objects, None, place, Some(object))
    } else {
        Ok(())
    }
}

/// The object at a place, if there is a place.
fn object_of(objects: &[Option<u64>], place: Option<usize>) -> Option<u64>
    ensures { result ≡ object_at objects.now place }
{
    match place {
        Some(place) => at(objects, None, place),
        None => None,
    }
}

impl HandleTable {
    /// No handles.
    pub(crate) fn new(alloc: Global) -> Result<HandleTable, AllocError>
        ensures { IfOk result (λ table. (handle : List ℕ) → tabled table handle ≡ None) }
    {
        Ok(HandleTable {
            places: Arc::new(alloc, Places::new(alloc))?,
            short: Vec::new(alloc),
            long: Vec::new(alloc),
        })
    }

    /// A table that shares the places.
    pub(crate) fn copy(&self, alloc: Global) -> Result<HandleTable, AllocError>
        ensures { IfOk result (λ copy. Keeps (tabled self.now) (tabled copy)) }
    {
        Ok(HandleTable {
            places: self.places.clone()?,
            short: Vec::from_slice(alloc, self.short.as_slice())?,
            long: Vec::from_slice(alloc, self.long.as_slice())?,
        })
    }

    /// How many handles have a place.
    pub(crate) fn len(&self) -> usize {
        self.places.len()
    }

    /// The place of a handle, which takes one if it has none.
    pub(crate) fn know(&mut self, alloc: Global, handle: &[u8]) -> Result<usize, AllocError>
        ensures ok { IfOk result (λ place. place_of (arc_value self.new.places) handle.now ≡ Some place) }
        ensures same { Keeps (tabled self.old) (tabled self.new) }
    {
        if let Some(place) = self.places.place(handle) {
            return Ok(place);
        }
        let place = add_place(&mut self.places, alloc, handle)?;
        // No object stands at a place that is new.
        if handle.len() <= SHORT_LIMIT {
            self.short.truncate(place);
        } else {
            self.long.truncate(place);
        }
        Ok(place)
    }

    /// Gives a handle its object, unless it has one.
    pub(crate) fn note(
        &mut self,
        alloc: Global,
        handle: &[u8],
        object: u64,
    ) -> Result<(), AllocError>
        ensures ok { OnOk result (Gains (tabled self.old) (tabled self.new) handle.now object) }
        ensures err { OnErr result (Keeps (tabled self.old) (tabled self.new)) }
    {
        let place = self.know(alloc, handle)?;
        if handle.len() <= SHORT_LIMIT {
            fill(&mut self.short, place, object)
        } else {
            fill(&mut self.long, place, object)
        }
    }

    /// Takes the object of a handle away, where it has one. Its place stays.
    pub(crate) fn lose(&mut self, handle: &[u8])
        ensures { Lacks (tabled self.old) (tabled self.new) handle.now }
    {
        let Some(place) = self.places.place(handle) else {
            return;
        };
        if handle.len() <= SHORT_LIMIT {
            clear(&mut self.short, None, place);
        } else {
            clear(&mut self.long, None, place);
        }
    }

    /// The object that a handle was given first.
    pub(crate) fn get(&self, handle: &[u8]) -> Option<u64>
        ensures { result ≡ tabled self.now handle.now }
    {
        self.object_there(handle, self.places.place(handle))
    }

    /// The same, with no hash where the handle has the place that is guessed.
    pub(crate) fn get_near(&self, handle: &[u8], guess: usize) -> Option<u64>
        ensures { result ≡ tabled self.now handle.now }
    {
        self.object_there(handle, self.places.place_near(handle, guess))
    }

    /// The object at a place of handles of this one's length.
    fn object_there(&self, handle: &[u8], place: Option<usize>) -> Option<u64>
        ensures { result ≡ object_at (of_length handle.now self.now.short.items self.now.long.items) place }
    {
        if handle.len() <= SHORT_LIMIT {
            object_of(self.short.as_slice(), place)
        } else {
            object_of(self.long.as_slice(), place)
        }
    }
}
