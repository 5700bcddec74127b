//! A tree to which a crash goes back, with the WRITEs that are open in it.

ghost use Rattle.std.specs.Prelude.{◌≡◌, IfOk};
ghost use Rattle.decision_walk.specs.Placings.{narrowed_kept, renewed_kept};

use crate::open_writes::{OpenWrite, narrowed_writes};
use decision_steps::State;
use std::alloc::{AllocError, Global};
use std::marker::Model;

/// A tree with the WRITEs that are open in it. The handles that were bound then stand beside it.
pub(crate) struct KeptTree {
    pub(crate) alloc: Global,
    pub(crate) stands: State,
    pub(crate) writes: Vec<OpenWrite>,
}

impl Drop for KeptTree {
    fn drop(self) {
        let KeptTree {
            alloc: _,
            stands,
            writes,
        } = self;
        drop(stands);
        drop(writes);
    }
}

impl Model for KeptTree {
    ghost use Rattle.decision_walk.specs.View.{KeptView, kept_code};

    ghost Value = { KeptView };

    ghost coded = { kept_code };

    ghost view = { λ k. record { tree = k.stands.tree; writes = k.writes.items; origin = k.stands.origin } };
}

impl KeptTree {
    /// The same.
    pub(crate) fn copy(&self) -> Result<KeptTree, AllocError>
        ensures { IfOk result (λ copy. copy ≡ self.now) }
    {
        Ok(KeptTree {
            alloc: self.alloc,
            stands: self.stands.copy()?,
            writes: Vec::from_slice(self.alloc, self.writes.as_slice())?,
        })
    }

    /// The same, where this call wrote no fewer and no more bytes than these.
    pub(crate) fn narrowed(&self, call: u64, least: u32, most: u32) -> Result<KeptTree, AllocError>
        ensures { IfOk result (λ after. after ≡ narrowed_kept call least most self.now) }
    {
        Ok(KeptTree {
            alloc: self.alloc,
            stands: self.stands.copy()?,
            writes: narrowed_writes(self.alloc, self.writes.as_slice(), call, least, most)?,
        })
    }

    /// The same, compared by this state. Both were compared by the same.
    pub(crate) fn renewed(&self, like: &State) -> Result<KeptTree, AllocError>
        requires { self.now.origin ≡ like.now.origin }
        ensures { IfOk result (λ after. after ≡ renewed_kept (like.now.tree, like.now.binds) self.now) }
    {
        Ok(KeptTree {
            alloc: self.alloc,
            stands: self.stands.renewed(like)?,
            writes: Vec::from_slice(self.alloc, self.writes.as_slice())?,
        })
    }
}
