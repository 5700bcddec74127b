//! Values that copies share until one of them changes.

ghost use Rattle.std.specs.Prelude.{◌≡◌, IfOk};
ghost use Rattle.std.specs.Borrow.{LendsIfOk, sem};

use std::alloc::{AllocError, Global};
use std::marker::Model;
use std::sync::Arc;

/// Values of which there can be others that are the same.
pub trait Copied: Drop {
    /// The same value.
    fn copied(&self) -> Result<Self, AllocError>
        ensures { IfOk result (λ copy. copy ≡ self.now) };
}

/// A value that copies share until one of them changes. A contract sees the value.
pub struct Shared<T> {
    alloc: Global,
    value: Arc<T, Global>,
}

impl<T: Drop> Drop for Shared<T> {
    fn drop(self) {
        let Shared { alloc: _, value } = self;
        drop(value);
    }
}

impl<T> Model for Shared<T> {
    ghost use Rattle.std.specs.Arc.{arc_value};

    ghost Value = { T };

    ghost view = { λ s. arc_value s.value };
}

impl<T> Shared<T> {
    ghost use Rattle.tree_stores.specs.contracts.shared.Shared.{the_row};

    /// A value that nothing else has.
    pub fn new(alloc: Global, value: T) -> Result<Shared<T>, AllocError>
    where
        T: Drop,
        ensures { IfOk result (λ shared. shared ≡ value) }
    {
        Ok(Shared {
            alloc,
            value: Arc::new(alloc, value)?,
        })
    }

    /// The value.
    pub fn get(&self) -> &T
        ensures { result.now ≡ self.now }
    {
        &*self.value
    }

    /// The same value, shared.
    pub fn copy(&self) -> Result<Shared<T>, AllocError>
        ensures { IfOk result (λ copy. copy ≡ self.now) }
    {
        Ok(Shared {
            alloc: self.alloc,
            value: Arc::try_clone(&self.value)?,
        })
    }

    /// Sees that nothing else has the value.
    fn part(&mut self) -> Result<(), AllocError>
    where
        T: Copied,
        ensures { self.new ≡ self.old }
    {
        if Arc::strong_count(&self.value) != 1 {
            let copy = self.get().copied()?;
            self.value = Arc::new(self.alloc, copy)?;
        }
        Ok(())
    }

    /// The value, to be changed.
    pub fn get_mut(&mut self) -> Result<&mut T, AllocError>
    where
        T: Copied,
        ensures* writes_back { sem 𝓛 (LendsIfOk (the_row T.row) T.row self.entry result (λ value. value) self.entry.now) }
        ensures value { IfOk result (λ value. value.now ≡ self.old) }
    {
        self.part()?;
        match Arc::get_mut(&mut self.value) {
            Some(value) => Ok(value),
            None => Err(AllocError),
        }
    }

    /// The value, which is copied where others have it.
    pub fn into_inner(self) -> Result<T, AllocError>
    where
        T: Copied,
        ensures { IfOk result (λ value. value ≡ self) }
    {
        let Shared { alloc: _, value } = self;
        match Arc::try_unwrap(value) {
            Ok(value) => Ok(value),
            Err(shared) => shared.copied(),
        }
    }
}
