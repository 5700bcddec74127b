//! Which directory each directory lies in.

use std::alloc::{AllocError, Global};
use std::collections::BTreeMap;

/// The number of the root directory's object.
const ROOT: u64 = 0;

/// The parent of each directory but the root's. It stands under one lock.
#[derive(Drop)]
pub struct Parents {
    parents: BTreeMap<u64, u64>,
}

impl Parents {
    /// The root alone.
    pub fn new(alloc: Global) -> Parents {
        Parents {
            parents: BTreeMap::new(alloc),
        }
    }

    /// The directory that a directory lies in. The root lies in itself (RFC 1813, section 3.3.3).
    pub fn parent(&self, directory: u64) -> u64 {
        if directory == ROOT {
            return ROOT;
        }
        self.parents.get(&directory).copied().unwrap_or(ROOT)
    }

    /// Puts a directory into another.
    pub fn put(&mut self, directory: u64, parent: u64) -> Result<(), AllocError> {
        self.parents.insert(directory, parent)?;
        Ok(())
    }

    /// Puts a directory that is known into another.
    pub fn move_to(&mut self, directory: u64, parent: u64) {
        if let Some(place) = self.parents.get_mut(&directory) {
            *place = parent;
        }
    }

    /// Forgets a directory.
    pub fn remove(&mut self, directory: u64) {
        let _ = self.parents.remove(&directory);
    }

    /// Whether a directory is another, or lies below it. It takes as many steps as it lies deep.
    pub fn is_within(&self, directory: u64, above: u64) -> bool {
        let mut at = directory;
        for _ in 0..=self.parents.len() {
            if at == above {
                return true;
            }
            if at == ROOT {
                return false;
            }
            at = self.parent(at);
        }
        false
    }
}
