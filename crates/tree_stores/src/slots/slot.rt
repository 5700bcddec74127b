//! A slot for a value.

ghost use Rattle.std.specs.Prelude.{◌≡◌, option_copied};
ghost use Rattle.tree_stores.specs.Slots.{value_of};

use crate::shared::Copied;
use crate::slots::row::Blank;
use std::alloc::AllocError;

/// The value of a number, if it has one.
#[derive(Drop)]
pub(crate) enum Slot<V> {
    Empty,
    Filled(V),
}

impl<V> Slot<V> {
    pub(crate) fn value(&self) -> Option<&V>
        ensures { option_copied result ≡ value_of self.now }
    {
        match self {
            Slot::Filled(value) => Some(value),
            Slot::Empty => None,
        }
    }

    pub(crate) fn into_value(self) -> Option<V>
        ensures { result ≡ value_of self }
    {
        match self {
            Slot::Filled(value) => Some(value),
            Slot::Empty => None,
        }
    }
}

impl<V: Drop> Blank for Slot<V> {
    ghost use Rattle.tree_stores.specs.declared.slots.slot.Slot.TheVariants.{Empty};

    ghost blank = { Empty };

    fn blank() -> Slot<V> {
        Slot::Empty
    }

    fn is_blank(&self) -> bool {
        match self {
            Slot::Filled(_) => false,
            Slot::Empty => true,
        }
    }
}

impl<V: Copied> Copied for Slot<V> {
    fn copied(&self) -> Result<Slot<V>, AllocError> {
        match self {
            Slot::Filled(value) => Ok(Slot::Filled(value.copied()?)),
            Slot::Empty => Ok(Slot::Empty),
        }
    }
}
