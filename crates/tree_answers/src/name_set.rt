//! Names in their order, with a sorted set of them: whether a name is among them takes no walk over all of them.

ghost use Rattle.std.specs.Prelude.{◌≡◌, ◌<◌, ◌^◌, ◌++◌, ◌∷◌, [], length, IfOk, IsSome};
ghost use Rattle.tree_handles.specs.tree_nodes_specs.Place.{path_of};
ghost use Rattle.tree_handles.specs.Standing.{place_of};
ghost use Rattle.tree_answers.specs.Listing.{are_all_listed, are_distinct};

use std::alloc::{AllocError, Global};
use std::collections::BTreeSet;
use std::marker::Model;
use tree_handles::tree_nodes::{Bytes, Nodes};

/// Names in their order. A contract sees the list of them.
#[derive(Drop)]
pub(crate) struct Names {
    list: Vec<Bytes>,
    set: BTreeSet<Bytes>,
    no_repeat: bool,
}

impl Model for Names {
    ghost use Rattle.std.specs.Prelude.{◌≡◌, List, ℕ};
    ghost use Rattle.tree_answers.specs.Held.{HasNames};
    ghost use Rattle.tree_answers.specs.Listing.{are_distinct};

    ghost Value = { List (List ℕ) };

    ghost view = { λ n. n.list.items };

    ghost invariant = { λ n. HasNames n.set n.list.items × (n.no_repeat ≡ are_distinct n.list.items) };
}

impl Names {
    /// None yet.
    pub(crate) fn new(alloc: Global) -> Names
        ensures { result ≡ [] }
    {
        Names {
            list: Vec::new(alloc),
            set: BTreeSet::new(alloc),
            no_repeat: true,
        }
    }

    /// These names, and one more behind them.
    pub(crate) fn with(self, alloc: Global, name: &[u8]) -> Result<Names, AllocError>
        requires { length name.now < 2 ^ 32 }
        ensures { IfOk result (λ names. names ≡ self ++ name.now ∷ []) }
    {
        let Names {
            mut list,
            mut set,
            no_repeat,
        } = self;
        let is_new = set.insert(Bytes::from_slice(alloc, name)?)?;
        list.push(Bytes::from_slice(alloc, name)?)?;
        Ok(Names {
            list,
            set,
            no_repeat: no_repeat && is_new,
        })
    }

    /// The names.
    pub(crate) fn as_slice(&self) -> &[Bytes]
        ensures { result.now ≡ self.now }
    {
        self.list.as_slice()
    }

    /// Whether each entry of a directory is among them.
    pub(crate) fn hold_all_of(&self, nodes: &Nodes, directory: u64) -> bool
        requires { IsSome (path_of nodes.now directory) }
        ensures { result ≡ are_all_listed nodes.now (place_of nodes.now directory) self.now }
    {
        nodes.lists_all(directory, &self.set)
    }

    /// Whether no name stands twice.
    pub(crate) fn are_distinct(&self) -> bool
        ensures { result ≡ are_distinct self.now }
    {
        self.no_repeat
    }
}
