//! What the handles of a history name.

ghost use Rattle.std.specs.Prelude.{◌≡◌, ◌||◌, ℕ, List, Some, [], ◌∷◌, ◌++◌, map, IfOk, IsTrue, OnOk, OnErr};
ghost use Rattle.std.specs.List.{list_any};
ghost use Rattle.tree_handles.specs.Binding.{same_bytes, object_of, is_bound, is_named, pairs_without};

use crate::agreement::{all_long_agree, all_own_agree, all_short_agree, is_kept};
use crate::objects::Objects;
use crate::pairs::Pairs;
use crate::places::Places;
use crate::short_handle::ShortHandle;
use indexmap::IndexSet;
use std::alloc::{AllocError, Global};
use std::marker::Model;

/// The root's handle, and the objects of other handles.
pub struct Binds {
    alloc: Global,
    root: Vec<u8>,
    /// The object of each handle's first pair.
    objects: Objects,
    /// All pairs, also the later ones of a handle, for contracts.
    pairs: Pairs,
}

impl Drop for Binds {
    fn drop(self) {
        let Binds {
            alloc: _,
            root,
            objects,
            pairs,
        } = self;
        drop(root);
        drop(objects);
        drop(pairs);
    }
}

impl Model for Binds {
    ghost use Rattle.tree_handles.specs.Binding.{Bindings};
    ghost use Rattle.tree_handles.specs.Finding.{GivesFirst};

    ghost Value = { Bindings };

    ghost view = { λ b. record { root = b.root.items; pairs = b.pairs.all } };

    ghost invariant = { λ b. GivesFirst b.objects b.pairs.all };
}

impl Binds {
    /// The root's handle names object 0, whatever these pairs say of it. Each other handle names the object
    /// of its first pair.
    pub fn new(alloc: Global, root: &[u8], pairs: &[(Vec<u8>, u64)]) -> Result<Binds, AllocError>
        ensures { IfOk result (λ b. b ≡ record { root = root.now; pairs = map (λ p. (p.0.items, p.1)) pairs.now }) }
    {
        let mut binds = Binds::of_root(alloc, root)?;
        for (handle, object) in pairs {
            binds.push(handle.as_slice(), *object)?;
        }
        Ok(binds)
    }

    /// The root's handle alone.
    pub fn of_root(alloc: Global, root: &[u8]) -> Result<Binds, AllocError>
        ensures { IfOk result (λ b. b ≡ record { root = root.now; pairs = [] }) }
    {
        Ok(Binds {
            alloc,
            root: Vec::from_slice(alloc, root)?,
            objects: Objects::new(alloc)?,
            pairs: Pairs::new(),
        })
    }

    /// The same binds once more. It costs a few bytes for each handle, and hashes none: both share where handles stand.
    pub fn copy(&self) -> Result<Binds, AllocError>
        ensures { IfOk result (λ copy. copy ≡ self.now) }
    {
        Ok(Binds {
            alloc: self.alloc,
            root: Vec::from_slice(self.alloc, self.root.as_slice())?,
            objects: self.objects.copy(self.alloc)?,
            pairs: self.pairs.copy(),
        })
    }

    /// Makes room for a handle, so that a copy in which it is bound later goes on sharing where handles stand.
    pub fn know(&mut self, handle: &[u8]) -> Result<(), AllocError>
        ensures { self.new ≡ self.old }
    {
        self.objects.know(self.alloc, handle)
    }

    /// Adds a pair after the others.
    pub fn push(&mut self, handle: &[u8], object: u64) -> Result<(), AllocError>
        ensures ok { OnOk result (self.new ≡ record self.old { pairs = self.old.pairs ++ (handle.now, object) ∷ [] }) }
        ensures err { OnErr result (self.new ≡ self.old) }
    {
        self.objects.note(self.alloc, handle, object)?;
        self.pairs = self.pairs.then(handle, object);
        Ok(())
    }

    /// Lets a handle go, so that it names nothing, unless it is the root's.
    pub fn forget(&mut self, handle: &[u8])
        ensures { self.new ≡ record self.old { pairs = pairs_without handle.now self.old.pairs } }
    {
        self.objects.lose(handle);
        self.pairs = self.pairs.without(handle);
    }

    /// Whether a handle is the root's.
    fn is_root(&self, handle: &[u8]) -> bool
        ensures { result ≡ same_bytes handle.now self.now.root }
    {
        handle == self.root.as_slice()
    }

    /// The object that a handle names.
    pub fn object(&self, handle: &[u8]) -> Option<u64>
        ensures { result ≡ object_of self.now handle.now }
    {
        if self.is_root(handle) {
            return Some(0);
        }
        self.objects.get(handle)
    }
}

/// Whether these bytes are a handle that names the object.
fn names_it(binds: &Binds, handle: &[u8], object: u64) -> bool
    ensures { result ≡ is_bound binds.now handle.now object }
{
    match binds.object(handle) {
        Some(named) => named == object,
        None => false,
    }
}

/// Whether one of these short handles names the object.
fn any_short_names_it(binds: &Binds, short: &IndexSet<ShortHandle>, object: u64) -> bool
    ensures { result ≡ list_any (λ key. is_bound binds.now key object) short.now.keys }
{
    for handle in short.iter() {
        if names_it(binds, handle.as_slice(), object) {
            return true;
        }
    }
    false
}

/// Whether one of these long handles names the object.
fn any_long_names_it(binds: &Binds, long: &IndexSet<Vec<u8>>, object: u64) -> bool
    ensures { result ≡ list_any (λ key. is_bound binds.now key.items object) long.now.keys }
{
    for handle in long.iter() {
        if names_it(binds, handle.as_slice(), object) {
            return true;
        }
    }
    false
}

/// Whether one of these handles names the object.
fn any_names_it(binds: &Binds, places: &Places, object: u64) -> bool
    ensures { result ≡ (list_any (λ handle. is_bound binds.now handle object) places.now.short
        || list_any (λ handle. is_bound binds.now handle object) places.now.long) }
{
    any_short_names_it(binds, places.short(), object)
        || any_long_names_it(binds, places.long(), object)
}

impl Binds {
    /// Whether some handle names the object. It takes one look-up where the object's number in eight bytes, the
    /// first byte the greatest, is a handle of it, and none for the root; else it goes over all handles that have a
    /// place.
    pub fn names(&self, object: u64) -> bool
        ensures { result ≡ is_named self.now object }
    {
        if object == 0 {
            return true;
        }
        if names_it(self, object.to_be_bytes().as_slice(), object) {
            return true;
        }
        any_names_it(self, &self.objects.others.places, object)
    }

    /// The same as `object`, with no hash where the handle has the place that is guessed.
    pub(crate) fn object_near(&self, handle: &[u8], guess: usize) -> Option<u64>
        ensures { result ≡ object_of self.now handle.now }
    {
        if self.is_root(handle) {
            return Some(0);
        }
        self.objects.get_near(handle, guess)
    }

    /// Whether each handle that is bound here names the same object there. It hashes no handle that has the same place in
    /// both, as where one is a copy of the other, or both are of a third.
    pub fn agrees_with(&self, other: &Binds) -> bool
        ensures { IsTrue result → (handle : List ℕ) (object : ℕ) → object_of self.now handle ≡ Some object → object_of other.now handle ≡ Some object }
    {
        if !is_kept(Some(0), other.object(self.root.as_slice())) {
            return false;
        }
        if !all_own_agree(self, other, self.objects.own.as_slice()) {
            return false;
        }
        let table = &self.objects.others;
        if !all_short_agree(
            self,
            other,
            table.places.short().as_slice(),
            table.short.as_slice(),
        ) {
            return false;
        }
        all_long_agree(
            self,
            other,
            table.places.long().as_slice(),
            table.long.as_slice(),
        )
    }

    /// Adds a handle with its object to a list, if it is bound and not the root's. It is likely to stand at this place.
    fn list_one(
        &self,
        list: &mut Vec<(Vec<u8>, u64)>,
        handle: &[u8],
        place: usize,
    ) -> Result<(), AllocError> {
        if self.is_root(handle) {
            return Ok(());
        }
        let Some(object) = self.objects.get_near(handle, place) else {
            return Ok(());
        };
        let handle = Vec::from_slice(self.alloc, handle)?;
        list.push((handle, object))?;
        Ok(())
    }

    /// Adds the handles that have a place, but for those that are their objects' numbers.
    fn list_places(&self, list: &mut Vec<(Vec<u8>, u64)>) -> Result<(), AllocError> {
        let places = &*self.objects.others.places;
        let short = places.short().as_slice();
        for place in 0..short.len() {
            let handle = short[place].as_slice();
            if self.objects.own.get(handle).is_none() {
                self.list_one(list, handle, place)?;
            }
        }
        let long = places.long().as_slice();
        for place in 0..long.len() {
            self.list_one(list, long[place].as_slice(), place)?;
        }
        Ok(())
    }

    /// All handles that are bound, each once, with their objects, but for the root's.
    pub fn list(&self) -> Result<Vec<(Vec<u8>, u64)>, AllocError> {
        let mut list = Vec::new(self.alloc);
        let taken = self.objects.own.as_slice();
        for number in 0..taken.len() {
            if taken[number] {
                self.list_one(&mut list, (number as u64).to_be_bytes().as_slice(), 0)?;
            }
        }
        self.list_places(&mut list)?;
        Ok(list)
    }
}
