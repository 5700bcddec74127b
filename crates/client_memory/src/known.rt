//! The objects that a client knows of, and some of those that are gone.

use crate::facts::{Debt, Facts, Kind};
use crate::random::Random;
use call_making::{BASES, Base, Realm};
use nfs3_types::{DirectoryName, FileHandle, Name};
use std::alloc::{AllocError, Global};

/// How many objects are known at most.
const ROOM: usize = 48;

/// How many handles of objects that are gone are kept.
const GONE_ROOM: usize = 8;

/// How many names that calls changed are kept.
const PAST_ROOM: usize = 8;

/// An object, named by its handle.
#[derive(Clone, Copy)]
pub enum Target {
    /// The root.
    Root,
    /// The known object of this number.
    Known(usize),
    /// The object of this number among those that are gone.
    Gone(usize),
}

/// An object that a reply gave.
#[derive(Drop)]
pub struct KnownObject {
    /// What the reply gave.
    pub handle: FileHandle,
    /// The handle of the directory that it is in.
    pub directory: FileHandle,
    pub name: Name,
    /// What is believed of it.
    pub facts: Facts,
}

impl KnownObject {
    fn is_at(&self, directory: &[u8], name: &[u8]) -> bool {
        self.name.as_slice() == name && self.directory.as_slice() == directory
    }
}

/// What a client knows.
#[derive(Drop)]
pub struct Known {
    root: FileHandle,
    objects: Vec<KnownObject>,
    gone: Vec<FileHandle>,
    /// Names that calls may have given or taken, the last one last.
    past: Vec<DirectoryName>,
}

impl Known {
    /// Only the root.
    pub(crate) fn new(alloc: Global, root: FileHandle) -> Known {
        Known {
            root,
            objects: Vec::new(alloc),
            gone: Vec::new(alloc),
            past: Vec::new(alloc),
        }
    }

    /// The handle of what a call is on; the root's where nothing has this number.
    pub fn handle(&self, target: Target) -> &FileHandle {
        let found = match target {
            Target::Root => None,
            Target::Known(index) => self.object(index).map(|object| &object.handle),
            Target::Gone(index) => self.gone.get(index),
        };
        match found {
            Some(handle) => handle,
            None => &self.root,
        }
    }

    /// The object of this number.
    pub fn object(&self, index: usize) -> Option<&KnownObject> {
        self.objects.get(index)
    }

    /// What is believed of the object of this number.
    pub fn facts(&self, index: usize) -> Option<Facts> {
        match self.objects.get(index) {
            Some(object) => Some(object.facts),
            None => None,
        }
    }

    /// Whether this is the root's handle.
    pub(crate) fn is_root(&self, handle: &[u8]) -> bool {
        self.root.as_slice() == handle
    }

    /// The number of the object with this handle.
    pub(crate) fn index_of(&self, handle: &[u8]) -> Option<usize> {
        self.objects
            .iter()
            .position(|object| object.handle.as_slice() == handle)
    }

    /// The number of the object that has this name.
    pub(crate) fn index_at(&self, directory: &[u8], name: &[u8]) -> Option<usize> {
        self.objects
            .iter()
            .position(|object| object.is_at(directory, name))
    }

    /// What is believed of the object with this handle, to be changed.
    pub(crate) fn facts_mut(&mut self, handle: &[u8]) -> Option<&mut Facts> {
        let index = self.index_of(handle)?;
        self.facts_at(index)
    }

    /// What is believed of the object of this number, to be changed.
    pub(crate) fn facts_at(&mut self, index: usize) -> Option<&mut Facts> {
        match self.objects.get_mut(index) {
            Some(object) => Some(&mut object.facts),
            None => None,
        }
    }

    /// Adds an object. Where there is no room, the one that was added first goes, but never one that work is below.
    pub(crate) fn add(&mut self, object: KnownObject) -> Result<(), AllocError> {
        self.make_room();
        self.objects.push(object)?;
        Ok(())
    }

    fn make_room(&mut self) {
        if self.objects.len() < ROOM {
            return;
        }
        let oldest = self
            .objects
            .iter()
            .position(|object| object.facts.base.is_none());
        if let Some(index) = oldest
            && index < self.objects.len()
        {
            drop(self.objects.remove(index));
        }
    }

    /// Takes an object out, and keeps its handle among those of what is gone.
    pub(crate) fn lose(&mut self, index: usize) -> Result<(), AllocError> {
        if index >= self.objects.len() {
            return Ok(());
        }
        let KnownObject {
            handle,
            directory: _,
            name: _,
            facts: _,
        } = self.objects.remove(index);
        if self.gone.len() >= GONE_ROOM {
            drop(self.gone.remove(0));
        }
        self.gone.push(handle)?;
        Ok(())
    }

    /// Keeps a name that a call may have given or taken.
    pub(crate) fn note_past(&mut self, place: &DirectoryName) -> Result<(), AllocError> {
        let place = place.clone()?;
        if self.past.len() >= PAST_ROOM {
            drop(self.past.remove(0));
        }
        self.past.push(place)?;
        Ok(())
    }

    /// How many names are kept that calls may have given or taken.
    pub fn past_count(&self) -> usize {
        self.past.len()
    }

    /// One of the names that calls may have given or taken.
    pub fn past(&self, index: usize) -> Option<&DirectoryName> {
        self.past.get(index)
    }

    /// Gives an object another name.
    pub(crate) fn move_to(&mut self, index: usize, directory: FileHandle, name: Name) {
        if let Some(object) = self.objects.get_mut(index) {
            object.directory = directory;
            object.name = name;
        }
    }

    /// Each object has to be looked up again.
    pub(crate) fn doubt(&mut self) {
        for object in self.objects.iter_mut() {
            object.facts.debt = Debt::Name;
            object.facts.is_unread = true;
        }
    }

    /// How many objects are still to be looked up, or to be looked at, since the last crash.
    pub(crate) fn unread(&self) -> usize {
        let mut count = 0usize;
        for object in self.objects.iter() {
            if object.facts.is_unread && matches!(object.facts.debt, Debt::Name | Debt::Object) {
                count = count.saturating_add(1);
            }
        }
        count
    }

    /// What was written has to be looked at.
    pub(crate) fn doubt_writes(&mut self) {
        for object in self.objects.iter_mut() {
            if object.facts.written.is_some() && object.facts.debt == Debt::Paid {
                object.facts.debt = Debt::Object;
            }
        }
    }

    /// What was owed first is asked for now.
    pub(crate) fn pay(&mut self) {
        let Some(index) = self.owed() else {
            return;
        };
        if let Some(facts) = self.facts_at(index) {
            if facts.debt == Debt::Name {
                facts.debt = Debt::Asked;
            } else {
                facts.debt = Debt::Paid;
                facts.is_unread = false;
            }
        }
    }

    /// What is gone, by chance.
    pub fn lost(&self, random: &mut Random) -> Option<Target> {
        if self.gone.is_empty() {
            return None;
        }
        Some(Target::Gone(random.below(self.gone.len() as u64) as usize))
    }

    /// An object that passes a test, by chance.
    pub fn one<F: Fn(Facts) -> bool>(&self, random: &mut Random, test: F) -> Option<usize>
        requires { F.IsAlwaysCallable test }
    {
        let mut chosen = None;
        let mut met = 0u64;
        for (index, object) in self.objects.iter().enumerate() {
            if test(object.facts) {
                met = met.saturating_add(1);
                if random.once_in(met) {
                    chosen = Some(index);
                }
            }
        }
        chosen
    }

    /// How many directories are known below those of a realm in the root.
    pub fn directories(&self, realm: Realm) -> usize {
        let mut count = 0usize;
        for object in self.objects.iter() {
            if object.facts.kind == Kind::Directory && object.facts.realm == realm {
                count = count.saturating_add(1);
            }
        }
        count
    }

    /// Whether nothing is known in the object of this number.
    pub fn seems_empty(&self, index: usize) -> bool {
        match self.objects.get(index) {
            Some(directory) => {
                let handle = directory.handle.as_slice();
                !self
                    .objects
                    .iter()
                    .any(|object| object.directory.as_slice() == handle)
            }
            None => true,
        }
    }

    /// A directory that is known in the object of this number.
    pub fn directory_in(&self, index: usize) -> Option<usize> {
        let handle = self.objects.get(index)?.handle.as_slice();
        self.objects.iter().position(|object| object.facts.kind == Kind::Directory
            && object.directory.as_slice() == handle)
    }

    /// A directory in the root that a realm needs and that isn't known.
    pub fn missing(&self, realm: Realm) -> Option<Base> {
        for base in BASES {
            if base.realm() == realm && !self.has_base(base) {
                return Some(base);
            }
        }
        None
    }

    fn has_base(&self, base: Base) -> bool {
        self.objects.iter().any(|object| object.facts.base == Some(base)
            && object.facts.kind == Kind::Directory)
    }

    /// The first object of which something has to be looked at.
    pub fn owed(&self) -> Option<usize> {
        self.objects.iter().position(|object| object.facts.debt == Debt::Name
            || object.facts.debt == Debt::Object)
    }
}
