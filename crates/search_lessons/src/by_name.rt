//! Calls by the names of the entries that they change.

use indexmap::IndexMap;
use std::alloc::{AllocError, Global};

/// Calls, in the order in which they were noted, by a name of an entry that they change, whatever its directory.
#[derive(Drop)]
pub struct CallsByName {
    alloc: Global,
    calls: IndexMap<Vec<u8>, Vec<u64>>,
    /// The names that were noted and may be taken back, each with how many moves led there.
    trail: Vec<(usize, Vec<u8>)>,
}

impl CallsByName {
    /// Without a call.
    pub fn new(alloc: Global) -> CallsByName {
        CallsByName {
            alloc,
            calls: IndexMap::new(alloc),
            trail: Vec::new(alloc),
        }
    }

    /// The calls of a name.
    pub fn of(&self, name: &[u8]) -> &[u64] {
        match self.calls.get(name) {
            Some(calls) => calls.as_slice(),
            None => &[],
        }
    }

    /// Notes a call for good.
    pub fn put(&mut self, name: &[u8], number: u64) -> Result<(), AllocError> {
        if let Some(calls) = self.calls.get_mut(name) {
            calls.push(number)?;
            return Ok(());
        }
        let mut calls = Vec::new(self.alloc);
        calls.push(number)?;
        let key = Vec::from_slice(self.alloc, name)?;
        self.calls.insert(key, calls)?;
        Ok(())
    }

    /// Notes a call that so many moves led to.
    pub fn place(&mut self, name: &[u8], number: u64, depth: usize) -> Result<(), AllocError> {
        self.put(name, number)?;
        let key = Vec::from_slice(self.alloc, name)?;
        self.trail.push((depth, key))?;
        Ok(())
    }

    /// Whether a call is noted that more moves than so many led to.
    fn is_past(&self, depth: usize) -> bool {
        match self.trail.last() {
            Some((last, _)) => *last > depth,
            None => false,
        }
    }

    /// Takes back what was noted past so many moves.
    pub fn back_to(&mut self, depth: usize) {
        for _ in 0..self.trail.len() {
            if !self.is_past(depth) {
                return;
            }
            if let Some((_, name)) = self.trail.pop() {
                if let Some(calls) = self.calls.get_mut(name.as_slice()) {
                    calls.pop();
                }
            }
        }
    }

    /// Ends an era: what is noted stays.
    pub fn end_era(&mut self) {
        self.trail.clear();
    }
}
