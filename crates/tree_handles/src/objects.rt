//! The objects of handles.

ghost use Rattle.std.specs.Prelude.{◌≡◌, ℕ, List, [], ◌∷◌, ◌++◌, IfOk, OnOk, OnErr};
ghost use Rattle.tree_handles.specs.Finding.{found, GivesFirst, Keeps};
ghost use Rattle.tree_handles.specs.Binding.{pairs_without};

use crate::handle_table::HandleTable;
use crate::own_numbers::OwnNumbers;
use std::alloc::{AllocError, Global};

/// The objects of handles. Where a handle stands in both, it was given its own number first.
#[derive(Drop)]
pub(crate) struct Objects {
    pub(crate) own: OwnNumbers,
    pub(crate) others: HandleTable,
}

impl Objects {
    /// No objects.
    pub(crate) fn new(alloc: Global) -> Result<Objects, AllocError>
        ensures { IfOk result (λ objects. GivesFirst objects []) }
    {
        Ok(Objects {
            own: OwnNumbers::new(alloc),
            others: HandleTable::new(alloc)?,
        })
    }

    /// The same objects once more, with the places of their handles shared.
    pub(crate) fn copy(&self, alloc: Global) -> Result<Objects, AllocError>
        ensures { IfOk result (λ copy. Keeps (found self.now) (found copy)) }
    {
        Ok(Objects {
            own: self.own.copy(alloc)?,
            others: self.others.copy(alloc)?,
        })
    }

    /// Gives a handle a place, unless it has one.
    pub(crate) fn know(&mut self, alloc: Global, handle: &[u8]) -> Result<(), AllocError>
        ensures { Keeps (found self.old) (found self.new) }
    {
        self.others.know(alloc, handle)?;
        Ok(())
    }

    /// Gives a handle its object, unless it has one.
    pub(crate) fn note(
        &mut self,
        alloc: Global,
        handle: &[u8],
        object: u64,
    ) -> Result<(), AllocError>
        ensures ok { OnOk result ((pairs : List (List ℕ × ℕ)) → GivesFirst self.old pairs → GivesFirst self.new (pairs ++ (handle.now, object) ∷ [])) }
        ensures err { OnErr result (Keeps (found self.old) (found self.new)) }
    {
        if self.own.takes(handle, object, self.others.len()) && self.others.get(handle).is_none() {
            self.own.note(object)
        } else {
            self.others.note(alloc, handle, object)
        }
    }

    /// Takes the object of a handle away, where it has one.
    pub(crate) fn lose(&mut self, handle: &[u8])
        ensures { (pairs : List (List ℕ × ℕ)) → GivesFirst self.old pairs → GivesFirst self.new (pairs_without handle.now pairs) }
    {
        self.own.lose(handle);
        self.others.lose(handle);
    }

    /// The object that a handle was given first.
    pub(crate) fn get(&self, handle: &[u8]) -> Option<u64>
        ensures { result ≡ found self.now handle.now }
    {
        match self.own.get(handle) {
            Some(object) => Some(object),
            None => self.others.get(handle),
        }
    }

    /// The same, with no hash where the handle has the place that is guessed.
    pub(crate) fn get_near(&self, handle: &[u8], guess: usize) -> Option<u64>
        ensures { result ≡ found self.now handle.now }
    {
        match self.own.get(handle) {
            Some(object) => Some(object),
            None => self.others.get_near(handle, guess),
        }
    }
}
