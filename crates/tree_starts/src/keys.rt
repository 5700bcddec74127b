//! The directories and names of objects.

ghost use Rattle.std.specs.Prelude.{◌≡◌, ◌∷◌, ◌++◌, [], true, OnOk, OnErr};
ghost use Rattle.tree_starts.specs.Start.{Key, is_parent, is_free};

use indexmap::IndexMap;
use std::alloc::{AllocError, Global};
use std::marker::Model;

/// The directories and names of objects, in their order. Contracts see it as the list of the objects' keys.
pub struct Keys<'a> {
    // By directory and name, whether the object is a directory.
    objects: IndexMap<(u64, &'a [u8]), bool>,
}

impl<'a> Model for Keys<'a> {
    ghost use Rattle.std.specs.Prelude.{List, map};
    ghost use Rattle.tree_starts.specs.Start.{Key};

    ghost Value = { List Key };

    ghost view = { λ t. map (λ e. record { parent = e.0.0; name = e.0.1.now; is_directory = e.1 }) t.objects.entries };
}

impl Drop for Keys<'_> {
    fn drop(self) {
        let Keys { objects } = self;
        drop(objects);
    }
}

impl<'a> Keys<'a> {
    /// Of no objects.
    pub fn new(alloc: Global) -> Keys<'a>
        ensures { result ≡ [] }
    {
        Keys {
            objects: IndexMap::new(alloc),
        }
    }

    /// Whether an object may lie in this one: in the root, 0, or in a directory that is there.
    pub fn is_parent(&self, parent: u64) -> bool
        ensures { result ≡ is_parent self.now parent }
    {
        if parent == 0 {
            return true;
        }
        match self.objects.get_index(parent as usize - 1) {
            Some((_, is_directory)) => *is_directory,
            None => false,
        }
    }

    /// Whether no object has this name in this directory.
    pub fn is_free(&self, parent: u64, name: &'a [u8]) -> bool
        ensures { result ≡ is_free self.now parent name.now }
    {
        !self.objects.contains_key(&(parent, name))
    }

    /// Puts an object after the others.
    pub fn push(
        &mut self,
        parent: u64,
        name: &'a [u8],
        is_directory: bool,
    ) -> Result<(), AllocError>
        requires { is_free self.old parent name.now ≡ true }
        ensures ok { OnOk result (self.new ≡ self.old ++ record { parent = parent; name = name.now; is_directory = is_directory } ∷ []) }
        ensures err { OnErr result (self.new ≡ self.old) }
    {
        self.objects.insert((parent, name), is_directory)?;
        Ok(())
    }
}
