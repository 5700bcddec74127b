//! Handles that are the numbers of their objects.

ghost use Rattle.std.specs.Prelude.{true, ◌≡◌, ℕ, List, None, IfOk, OnOk, OnErr};
ghost use Rattle.std.specs.Int.{w64, to_be_bytes};
ghost use Rattle.tree_handles.specs.Finding.{number_of, own_object, Gains, Lacks};

use crate::padded::{at, clear, put};
use std::alloc::{AllocError, Global};
use std::marker::Model;

/// How far above the number of handles a number may lie, as a multiple: its bytes take no more than that many handles do that are
/// found by a hash.
const SPREAD: u64 = 64;

/// How many handles there are taken to be where there are none, so that the first numbers have room.
const ROOM: u64 = 1024;

/// The number that a handle is in eight bytes, the first byte the greatest.
fn number_of(handle: &[u8]) -> Option<u64>
    ensures { result ≡ number_of handle.now }
{
    match handle.try_into() {
        Ok(bytes) => Some(u64::from_be_bytes(bytes)),
        Err(_) => None,
    }
}

/// The objects whose handles are their numbers in eight bytes, as those of the bundled server are. Such a handle is found
/// without a hash, in one place of memory. A contract sees of each number whether it is a handle.
#[derive(Drop)]
pub(crate) struct OwnNumbers {
    taken: Vec<bool>,
    /// How many of them are handles.
    count: usize,
}

impl Model for OwnNumbers {
    ghost use Rattle.std.specs.Prelude.{Bool, List};

    ghost Value = { List Bool };

    ghost view = { λ o. o.taken.items };
}

impl OwnNumbers {
    /// No handles.
    pub(crate) fn new(alloc: Global) -> OwnNumbers
        ensures { (handle : List ℕ) → own_object result handle ≡ None }
    {
        OwnNumbers {
            taken: Vec::new(alloc),
            count: 0,
        }
    }

    /// The same handles once more.
    pub(crate) fn copy(&self, alloc: Global) -> Result<OwnNumbers, AllocError>
        ensures { IfOk result (λ copy. copy ≡ self.now) }
    {
        Ok(OwnNumbers {
            taken: Vec::from_slice(alloc, self.taken.as_slice())?,
            count: self.count,
        })
    }

    /// Of each number, whether it is a handle.
    pub(crate) fn as_slice(&self) -> &[bool]
        ensures { result.now ≡ self.now }
    {
        self.taken.as_slice()
    }

    /// Whether a handle is its object's number, and that isn't far above the number of handles, with the others that there are. A number
    /// takes a byte, and so does each lower one.
    pub(crate) fn takes(&self, handle: &[u8], object: u64, others: usize) -> bool
        ensures { result ≡ true → handle.now ≡ to_be_bytes w64 object }
    {
        let handles = self.count.saturating_add(others) as u64;
        (object / SPREAD).saturating_sub(ROOM) <= handles
            && handle == object.to_be_bytes().as_slice()
    }

    /// Gives an object its number as a handle.
    pub(crate) fn note(&mut self, object: u64) -> Result<(), AllocError>
        ensures ok { OnOk result (Gains (own_object self.old) (own_object self.new) (to_be_bytes w64 object) object) }
        ensures err { OnErr result (self.new ≡ self.old) }
    {
        let index = object as usize;
        if at(self.taken.as_slice(), false, index) {
            return Ok(());
        }
        put(&mut self.taken, false, index, true)?;
        self.count = self.count.saturating_add(1);
        Ok(())
    }

    /// Takes the object of a handle away, where it has one.
    pub(crate) fn lose(&mut self, handle: &[u8])
        ensures { Lacks (own_object self.old) (own_object self.new) handle.now }
    {
        let Some(number) = number_of(handle) else {
            return;
        };
        let index = number as usize;
        if at(self.taken.as_slice(), false, index) {
            clear(&mut self.taken, false, index);
            self.count = self.count.saturating_sub(1);
        }
    }

    /// The object of a handle.
    pub(crate) fn get(&self, handle: &[u8]) -> Option<u64>
        ensures { result ≡ own_object self.now handle.now }
    {
        let number = number_of(handle)?;
        if at(self.taken.as_slice(), false, number as usize) {
            Some(number)
        } else {
            None
        }
    }
}
