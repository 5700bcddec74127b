//! The objects that the server holds, and how names are given and taken.

use super::objects::{Habits, Object, What};
use nfs3_types::{
    CreateArguments, CreateMode, DirectoryName, Failure, FileHandle, RenameArguments, Verifier,
};
use std::alloc::{AllocError, Global};

/// An object that has a name. The root is object 0 and has none.
#[derive(Drop)]
pub(super) struct Node {
    pub(super) number: u32,
    pub(super) parent: u32,
    pub(super) name: Vec<u8>,
    pub(super) what: What,
    /// The verifier of the exclusive CREATE that made it.
    made_by: Option<Verifier>,
}

/// What has a name.
#[derive(Clone, Copy)]
pub(super) struct Found {
    index: usize,
    pub(super) number: u32,
    pub(super) what: What,
    made_by: Option<Verifier>,
}

/// What the server holds, and how it answers.
#[derive(Drop)]
pub(crate) struct Tree {
    pub(crate) alloc: Global,
    pub(super) nodes: Vec<Node>,
    /// How many objects of a table it held at first. Files that are made later have bytes of zero alone.
    pub(super) given: u32,
    /// How many objects were made.
    made: u32,
    /// Its write verifier.
    pub(crate) verifier: u64,
    pub(crate) habits: Habits,
    /// How often the root's attributes were asked.
    pub(super) asked: u32,
}

/// The handle of an object.
pub(crate) fn handle_of(alloc: Global, number: u32) -> Result<FileHandle, AllocError> {
    FileHandle::from_slice(alloc, number.to_be_bytes().as_slice())
}

/// The number of the object with this handle.
pub(super) fn number_in(handle: &FileHandle) -> u32 {
    match handle.as_slice() {
        [a, b, c, d] => u32::from_be_bytes([*a, *b, *c, *d]),
        _ => u32::MAX,
    }
}

/// Whether a CREATE keeps what has the name.
fn keeps(found: Found, mode: CreateMode) -> bool {
    match mode {
        CreateMode::Unchecked(_) => matches!(found.what, What::File(_)),
        CreateMode::Guarded(_) => false,
        CreateMode::Exclusive(verifier) => found.made_by == Some(verifier),
    }
}

impl Tree {
    /// A server that holds the objects of a table.
    pub(crate) fn new(
        alloc: Global,
        objects: &[Object],
        habits: Habits,
    ) -> Result<Tree, AllocError> {
        let mut tree = Tree {
            alloc,
            nodes: Vec::new(alloc),
            given: 0,
            made: 0,
            verifier: 1,
            habits,
            asked: 0,
        };
        for (parent, name, what) in objects {
            tree.given = tree.add(*parent, name, *what, None)?;
        }
        Ok(tree)
    }

    /// One object more, and its number.
    fn add(
        &mut self,
        parent: u32,
        name: &[u8],
        what: What,
        made_by: Option<Verifier>,
    ) -> Result<u32, AllocError> {
        self.made = self.made.saturating_add(1);
        let node = Node {
            number: self.made,
            parent,
            name: Vec::from_slice(self.alloc, name)?,
            what,
            made_by,
        };
        self.nodes.push(node)?;
        Ok(self.made)
    }

    /// What the object of a number is.
    pub(super) fn what(&self, number: u32) -> Result<What, Failure> {
        if number == 0 {
            return Ok(What::Directory);
        }
        for node in self.nodes.as_slice() {
            if node.number == number {
                return Ok(node.what);
            }
        }
        Err(Failure::Stale)
    }

    /// The number of a regular file, and its size.
    pub(super) fn file(&self, handle: &FileHandle) -> Result<(u32, u64), Failure> {
        let number = number_in(handle);
        match self.what(number)? {
            What::File(size) => Ok((number, size)),
            What::Directory | What::Link(_) => Err(Failure::Invalid),
        }
    }

    pub(super) fn set_size(&mut self, number: u32, size: u64) {
        for node in self.nodes.iter_mut() {
            if node.number == number {
                node.what = What::File(size);
            }
        }
    }

    /// The number of a directory.
    pub(super) fn directory(&self, handle: &FileHandle) -> Result<u32, Failure> {
        let number = number_in(handle);
        match self.what(number)? {
            What::Directory => Ok(number),
            What::File(_) | What::Link(_) => Err(Failure::NotDirectory),
        }
    }

    /// What has a name, if anything has it.
    fn find(&self, place: &DirectoryName) -> Result<Option<Found>, Failure> {
        let parent = self.directory(&place.directory)?;
        for (index, node) in self.nodes.iter().enumerate() {
            if node.parent == parent && node.name.as_slice() == place.name.as_slice() {
                return Ok(Some(Found {
                    index,
                    number: node.number,
                    what: node.what,
                    made_by: node.made_by,
                }));
            }
        }
        Ok(None)
    }

    /// What has a name.
    pub(super) fn found(&self, place: &DirectoryName) -> Result<Found, Failure> {
        self.find(place)?.ok_or(Failure::NoEntry)
    }

    fn has_below(&self, number: u32) -> bool {
        for node in self.nodes.as_slice() {
            if node.parent == number {
                return true;
            }
        }
        false
    }

    /// Makes an object if the name is absent, and gives its number.
    pub(super) fn make(
        &mut self,
        place: &DirectoryName,
        what: What,
        made_by: Option<Verifier>,
    ) -> Result<u32, Failure> {
        let parent = self.directory(&place.directory)?;
        if self.find(place)?.is_some() {
            return Err(Failure::Exists);
        }
        match self.add(parent, place.name.as_slice(), what, made_by) {
            Ok(number) => Ok(number),
            Err(AllocError) => Err(Failure::ServerFault),
        }
    }

    /// Makes a file, or keeps the one that is there, and gives its number.
    pub(super) fn create(&mut self, arguments: &CreateArguments) -> Result<u32, Failure> {
        let made_by = match arguments.mode {
            CreateMode::Exclusive(verifier) => Some(verifier),
            CreateMode::Unchecked(_) | CreateMode::Guarded(_) => None,
        };
        match self.find(&arguments.place)? {
            Some(found) if keeps(found, arguments.mode) => Ok(found.number),
            _ => self.make(&arguments.place, What::File(0), made_by),
        }
    }

    /// Takes an object away.
    fn take(&mut self, index: usize) {
        if index < self.nodes.len() {
            drop(self.nodes.remove(index));
        }
    }

    /// Removes a directory, or what is none.
    pub(super) fn remove(
        &mut self,
        place: &DirectoryName,
        takes_directories: bool,
    ) -> Result<(), Failure> {
        let found = self.found(place)?;
        if (found.what == What::Directory) != takes_directories {
            return Err(if takes_directories {
                Failure::NotDirectory
            } else {
                Failure::IsDirectory
            });
        }
        if self.has_below(found.number) {
            return Err(Failure::NotEmpty);
        }
        self.take(found.index);
        Ok(())
    }

    fn parent_of(&self, number: u32) -> u32 {
        for node in self.nodes.as_slice() {
            if node.number == number {
                return node.parent;
            }
        }
        0
    }

    /// Whether a directory is an object or below it.
    fn is_below(&self, directory: u32, number: u32) -> bool {
        let mut at = directory;
        for _ in 0..self.nodes.len() {
            if at == number {
                return true;
            }
            at = self.parent_of(at);
        }
        at == number
    }

    /// Whether an object may have another place, and what may have it already.
    fn check_move(&self, from: Found, target: Option<Found>, parent: u32) -> Result<(), Failure> {
        if self.is_below(parent, from.number) {
            return Err(Failure::Invalid);
        }
        let Some(target) = target else {
            return Ok(());
        };
        if (target.what == What::Directory) != (from.what == What::Directory) {
            return Err(Failure::Exists);
        }
        if self.has_below(target.number) {
            return Err(Failure::NotEmpty);
        }
        Ok(())
    }

    /// Gives an object another place. It keeps its name if memory runs out.
    fn put_at(&mut self, number: u32, parent: u32, name: &[u8]) {
        let alloc = self.alloc;
        for node in self.nodes.iter_mut() {
            if node.number == number {
                node.parent = parent;
                if let Ok(name) = Vec::from_slice(alloc, name) {
                    node.name = name;
                }
            }
        }
    }

    pub(super) fn rename(&mut self, arguments: &RenameArguments) -> Result<(), Failure> {
        let from = self.found(&arguments.from)?;
        let target = self.find(&arguments.to)?;
        let parent = self.directory(&arguments.to.directory)?;
        if let Some(same) = target
            && same.number == from.number
        {
            return Ok(());
        }
        self.check_move(from, target, parent)?;
        if let Some(target) = target {
            self.take(target.index);
        }
        self.put_at(from.number, parent, arguments.to.name.as_slice());
        Ok(())
    }
}
