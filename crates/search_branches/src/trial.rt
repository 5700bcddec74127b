//! A tree that calls are tried on.

use file_tree::{FileTree, Profile};
use nfs_history::KnownCalls;
use nfs3_types::{NfsCall, Outcome};
use replay_law::{Replayable, StepFault};
use std::alloc::{AllocError, Global};
use std::marker::Model;
use tree_handles::Binds;
use tree_nodes::{Nodes, Undo};

/// A tree behind steps, each of which can be taken back. A contract sees how many there are.
pub(crate) struct Trial {
    tree: FileTree,
    profile: Profile,
    undos: Vec<Undo>,
}

impl Drop for Trial {
    fn drop(self) {
        let Trial {
            tree,
            profile: _,
            undos,
        } = self;
        drop(tree);
        drop(undos);
    }
}

impl Model for Trial {
    ghost use Rattle.std.specs.Prelude.{ℕ, length};
    ghost use Rattle.search_branches.specs.Reversible.{HasBase};

    ghost Value = { ℕ };

    ghost view = { λ t. length t.undos.items };

    ghost invariant = { λ t. HasBase t.undos.items t.tree };
}

impl Trial {
    /// Before any step of a history.
    pub(crate) fn begin(alloc: Global, known: &KnownCalls<'_>) -> Result<Trial, AllocError> {
        let tree = FileTree::of_start(alloc, known.start())?;
        Ok(Trial {
            tree,
            profile: known.profile(),
            undos: Vec::new(alloc),
        })
    }

    /// The nodes of the tree.
    pub(crate) fn nodes(&self) -> &Nodes {
        self.tree.nodes()
    }

    /// Takes a step, and says whether it is one that the call allows; else nothing changes. What the call makes, if anything, has this
    /// object's number.
    pub(crate) fn step(
        &mut self,
        binds: &Binds,
        object: u64,
        call: &NfsCall,
        outcome: &Outcome,
    ) -> Result<bool, AllocError> {
        self.undos.reserve(1)?;
        match self
            .tree
            .step_under(self.profile, binds, object, call, outcome)
        {
            Ok(undo) => {
                self.undos.push(undo).unwrap();
                Ok(true)
            }
            Err(StepFault::NotAllowed) => Ok(false),
            Err(StepFault::NoMemory) => Err(AllocError),
        }
    }

    /// Takes the last step back, where there is one.
    fn back_once(self) -> Result<Trial, AllocError> {
        let Trial {
            tree,
            profile,
            undos,
        } = self;
        let mut undos = undos;
        match undos.pop() {
            Some(undo) => Ok(Trial {
                tree: tree.undo(undo)?,
                profile,
                undos,
            }),
            None => Ok(Trial {
                tree,
                profile,
                undos,
            }),
        }
    }

    /// Takes so many steps back.
    pub(crate) fn back(self, count: usize) -> Result<Trial, AllocError> {
        let mut trial = self;
        for _ in 0..count {
            trial = trial.back_once()?;
        }
        Ok(trial)
    }

    /// Writes the tree's text behind a text.
    pub(crate) fn print(&self, text: &mut Vec<u8>) -> Result<(), AllocError> {
        self.tree.print_state(text)
    }
}
