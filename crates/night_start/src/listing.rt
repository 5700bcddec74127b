//! The list of a directory that is being read.

use indexmap::IndexMap;
use nfs3_types::{FileAttributes, FileHandle, Name};
use std::alloc::{AllocError, Global};

/// A name of a list, with what was told of its object so far.
#[derive(Drop)]
pub(crate) struct Entry {
    pub(crate) name: Name,
    pub(crate) handle: Option<FileHandle>,
    pub(crate) attributes: Option<FileAttributes>,
    /// The exchange that gave the handle, and the entry of it.
    pub(crate) named_by: usize,
    pub(crate) index: usize,
    /// A LOOKUP was asked of it.
    pub(crate) is_looked_up: bool,
}

/// The names of a directory's list, in its order.
pub(crate) struct List {
    /// All of them, `.` and `..` too.
    names: IndexMap<Vec<u8>, ()>,
    /// Those that are objects.
    pub(crate) entries: Vec<Entry>,
    /// How many of these have an account.
    pub(crate) settled: usize,
}

impl Drop for List {
    fn drop(self) {
        let List {
            names,
            entries,
            settled: _,
        } = self;
        drop(names);
        drop(entries);
    }
}

impl List {
    pub(crate) fn new(alloc: Global) -> List {
        List {
            names: IndexMap::new(alloc),
            entries: Vec::new(alloc),
            settled: 0,
        }
    }

    /// Whether the list gave this name before; it did from now on.
    pub(crate) fn gave(&mut self, alloc: Global, name: &[u8]) -> Result<bool, AllocError> {
        if self.names.contains_key(name) {
            return Ok(true);
        }
        let key = Vec::from_slice(alloc, name)?;
        self.names.insert(key, ())?;
        Ok(false)
    }

    /// The first name that has no account yet.
    pub(crate) fn next(&self) -> Option<&Entry> {
        self.entries.get(self.settled)
    }

    /// The same, to be changed.
    pub(crate) fn next_mut(&mut self) -> Option<&mut Entry> {
        self.entries.get_mut(self.settled)
    }
}
