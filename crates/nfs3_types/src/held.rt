//! Values on the heap, so that what is large or may be absent takes little room in a message's value.

ghost use Rattle.std.specs.Prelude.{◌≡◌, IfOk, Some, None};
ghost use Rattle.std.specs.Option.{option_copied};

use std::alloc::{AllocError, Global};
use std::marker::Model;
use std::ops::Deref;

/// A value that stands on the heap. A contract sees the value.
pub struct Held<T> {
    place: Box<T>,
}

impl<T> Model for Held<T> {
    ghost Value = { T };

    ghost view = { λ h. h.place.value };
}

impl<T> Held<T> {
    /// This value, moved to the heap.
    pub fn new(alloc: Global, value: T) -> Result<Held<T>, AllocError>
    where
        T: Drop,
        ensures { IfOk result (λ h. h ≡ value) }
    {
        Ok(Held {
            place: Box::new(alloc, value)?,
        })
    }
}

impl<T> Deref for Held<T> {
    type Target = T;

    ghost deref_gives = { λ h x. x ≡ h };

    fn deref(&self) -> &T
        ensures { result.now ≡ self.now }
    {
        self.place.as_ref()
    }
}

impl<T: Drop> Drop for Held<T> {
    fn drop(self) {
        let Held { place } = self;
        drop(place);
    }
}

impl<T: Clone + Drop> Clone for Held<T> {
    ghost is_clone = { λ a b. T.is_clone a b };

    fn clone(&self) -> Result<Held<T>, AllocError> {
        let value = self.place.as_ref().clone()?;
        Held::new(*Box::allocator(&self.place), value)
    }
}

/// A value that may be absent, and stands on the heap where it is there. A contract sees the option.
pub struct Optional<T> {
    place: Option<Box<T>>,
}

impl<T> Model for Optional<T> {
    ghost use Rattle.std.specs.Prelude.{Option, option_map};

    ghost Value = { Option T };

    ghost view = { λ o. option_map (λ b. b.value) o.place };
}

impl<T> Optional<T> {
    /// Nothing.
    pub fn none() -> Optional<T>
        ensures { result ≡ None }
    {
        Optional { place: None }
    }

    /// This value, moved to the heap.
    pub fn some(alloc: Global, value: T) -> Result<Optional<T>, AllocError>
    where
        T: Drop,
        ensures { IfOk result (λ o. o ≡ Some value) }
    {
        Ok(Optional {
            place: Some(Box::new(alloc, value)?),
        })
    }

    /// What is there.
    pub fn as_ref(&self) -> Option<&T>
        ensures { option_copied result ≡ self.now }
    {
        match &self.place {
            Some(place) => Some(place.as_ref()),
            None => None,
        }
    }
}

impl<T: Drop> Drop for Optional<T> {
    fn drop(self) {
        let Optional { place } = self;
        drop(place);
    }
}

impl<T: Copy + Drop> Clone for Optional<T> {
    ghost is_clone = { λ x y. y ≡ x };

    fn clone(&self) -> Result<Optional<T>, AllocError> {
        match &self.place {
            Some(place) => Optional::some(*Box::allocator(place), *place.as_ref()),
            None => Ok(Optional::none()),
        }
    }
}
