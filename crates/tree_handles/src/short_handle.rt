//! Handles that stand in the index of handles itself.

ghost use Rattle.std.specs.Prelude.{◌≡◌, ◌≤◌, ◌∷◌, [], length, nat_eq};
ghost use Rattle.std.specs.Cmp.{partial_equiv_from_equiv};
ghost use Rattle.std.specs.Cmp.Lexicographic.{pointwise, bytes_decides};
ghost use Rattle.std.proofs.Common.{ap};
ghost use Rattle.std.proofs.lemmas.Cmp.{nat_list_eq_equiv};

use std::alloc::AllocError;
use std::hash::{Hash, Hasher};
use std::marker::Model;

/// How many bytes of a handle a value has room for.
pub(crate) const SHORT_LIMIT: usize = 31;

/// A handle of at most 31 bytes, which stand in the value. A contract sees the list of its bytes.
#[derive(Drop)]
pub(crate) struct ShortHandle {
    /// How many bytes count; behind them stand zeros.
    count: u8,
    bytes: [u8; SHORT_LIMIT],
}

impl Model for ShortHandle {
    ghost use Rattle.std.specs.Prelude.{◌≤◌, List, ℕ, take};

    ghost Value = { List ℕ };

    ghost view = { λ h. take h.count h.bytes };

    ghost invariant = { λ h. h.count ≤ 31 };
}

impl ShortHandle {
    /// The handle of these bytes.
    pub(crate) fn from_slice(handle: &[u8]) -> ShortHandle
        requires { length handle.now ≤ 31 }
        ensures { result ≡ handle.now }
    {
        let mut bytes = [0; SHORT_LIMIT];
        bytes[..handle.len()].copy_from_slice(handle);
        ShortHandle {
            count: handle.len() as u8,
            bytes,
        }
    }

    /// Its bytes.
    pub(crate) fn as_slice(&self) -> &[u8]
        ensures { result.now ≡ self.now }
    {
        &self.bytes[..self.count as usize]
    }
}

impl Clone for ShortHandle {
    ghost is_clone = { λ handle copy. copy ≡ handle };

    fn clone(&self) -> Result<Self, AllocError> {
        Ok(ShortHandle {
            count: self.count,
            bytes: self.bytes,
        })
    }
}

impl PartialEq for ShortHandle {
    ghost eq = { λ a b. pointwise nat_eq a b };

    ghost laws = { partial_equiv_from_equiv nat_list_eq_equiv };

    fn eq(&self, other: &Self) -> bool {
        self.as_slice() == other.as_slice()
    }
}

impl Eq for ShortHandle {
    ghost laws = { nat_list_eq_equiv };
}

impl Hash for ShortHandle {
    // All bytes in one write, where a slice makes one for each.
    ghost hash_input = { λ h. h ∷ [] };

    ghost respects_eq = { λ a b same. ap (λ h. h ∷ []) ((bytes_decides a b).0 same) };

    fn hash<H: Hasher>(&self, state: &mut H) {
        state.write(self.as_slice());
    }
}
