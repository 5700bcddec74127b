//! The handles that were bound so far, which contracts speak of and no code keeps.

ghost use Rattle.std.specs.Prelude.{◌≡◌, ℕ, List, [], ◌∷◌, ◌++◌};
ghost use base.Fml.{ftrue};
ghost use Rattle.tree_handles.specs.Binding.{pairs_without};

use std::marker::Model;

/// Each handle that was bound, with its object, in order. They stand in proofs alone and take no memory: what
/// they have to do with the objects that are kept is the invariant of `Binds`.
#[derive(Drop)]
pub(crate) struct Pairs {
    pub(crate) ghost all: { List (List ℕ × ℕ) },
}

impl Model for Pairs {
    ghost also_owns = { λ _. ftrue };
}

// They own nothing, so any thread may have them or look at them.
unsafe impl Send for Pairs {}

unsafe impl Sync for Pairs {}

impl Pairs {
    /// None so far.
    pub(crate) fn new() -> Pairs
        ensures { result.all ≡ [] }
    {
        Pairs {}
    }

    /// These once more.
    pub(crate) fn copy(&self) -> Pairs
        ensures { result.all ≡ self.now.all }
    {
        Pairs {}
    }

    /// These, with one more after them.
    pub(crate) fn then(&self, _handle: &[u8], _object: u64) -> Pairs
        ensures { result.all ≡ self.now.all ++ (_handle.now, _object) ∷ [] }
    {
        Pairs {}
    }

    /// These, without those of a handle.
    pub(crate) fn without(&self, _handle: &[u8]) -> Pairs
        ensures { result.all ≡ pairs_without _handle.now self.now.all }
    {
        Pairs {}
    }
}
