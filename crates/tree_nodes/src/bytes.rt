//! Byte strings and paths. A contract sees a byte string as the list of its bytes, and a path as the list of
//! its names.

ghost use Rattle.std.specs.Prelude.{◌≡◌, ◌<◌, ◌^◌, IfOk, length, nat_eq, refl};
ghost use Rattle.std.specs.Ordering.{nat_cmp, as_partial_cmp};
ghost use Rattle.std.specs.Cmp.{partial_equiv_from_equiv, partial_order_from_agreeing_total};
ghost use Rattle.std.specs.Cmp.Lexicographic.{pointwise, slice_cmp, texts_ties, lists_ties};
ghost use Rattle.std.proofs.lemmas.Cmp.{nat_list_eq_equiv, nat_list_cmp_total, lists_equiv, lists_total};

use std::alloc::{AllocError, Global};
use std::cmp::Ordering;
use std::marker::Model;
use tree_stores::nfs3_types::ShortBytes;

/// Fewer than 2^32 bytes: a name or a link's text. Up to 23 of them stand in the value.
#[derive(Drop)]
pub struct Bytes {
    text: ShortBytes,
}

impl Model for Bytes {
    ghost use Rattle.std.specs.Prelude.{◌<◌, ◌^◌, List, ℕ, length};

    ghost Value = { List ℕ };

    ghost view = { λ b. b.text };

    ghost invariant = { λ b. length b.text < 2 ^ 32 };
}

impl Bytes {
    /// These bytes.
    pub fn from_vec(bytes: Vec<u8>) -> Bytes
        requires { length bytes.items < 2 ^ 32 }
        ensures { result ≡ bytes.items }
    {
        Bytes {
            text: ShortBytes::from_vec(bytes),
        }
    }

    /// A copy of these bytes.
    pub fn from_slice(alloc: Global, bytes: &[u8]) -> Result<Bytes, AllocError>
        requires { length bytes.now < 2 ^ 32 }
        ensures { IfOk result (λ b. b ≡ bytes.now) }
    {
        Ok(Bytes {
            text: ShortBytes::from_slice(alloc, bytes)?,
        })
    }

    /// The same bytes.
    pub fn copy(&self) -> Result<Bytes, AllocError>
        ensures { IfOk result (λ b. b ≡ self.now) }
    {
        Ok(Bytes {
            text: self.text.clone()?,
        })
    }

    /// The bytes.
    pub fn as_slice(&self) -> &[u8]
        ensures value { result.now ≡ self.now }
        ensures bound { length self.now < 2 ^ 32 }
    {
        self.text.as_slice()
    }
}

impl PartialEq for Bytes {
    ghost eq = { λ a b. pointwise nat_eq a b };

    ghost laws = { partial_equiv_from_equiv nat_list_eq_equiv };

    fn eq(&self, other: &Self) -> bool {
        self.as_slice() == other.as_slice()
    }
}

impl Eq for Bytes {
    ghost laws = { nat_list_eq_equiv };
}

impl PartialOrd for Bytes {
    ghost partial_cmp = { as_partial_cmp (slice_cmp nat_cmp) };

    ghost laws = { partial_order_from_agreeing_total (slice_cmp nat_cmp) nat_list_cmp_total (λ _ _. refl) texts_ties };

    fn partial_cmp(&self, other: &Self) -> Option<Ordering> {
        Some(self.cmp(other))
    }
}

impl Ord for Bytes {
    ghost cmp = { slice_cmp nat_cmp };

    ghost total = { nat_list_cmp_total };

    ghost matches_partial_cmp = { λ _ _. refl };

    ghost matches_eq = { texts_ties };

    fn cmp(&self, other: &Self) -> Ordering {
        self.as_slice().cmp(other.as_slice())
    }
}

/// The names from the root down to an object.
#[derive(Drop)]
pub(crate) struct Path {
    names: Vec<Bytes>,
}

impl Model for Path {
    ghost use Rattle.std.specs.Prelude.{List, ℕ};

    ghost Value = { List (List ℕ) };

    ghost view = { λ p. p.names.items };
}

impl Path {
    /// The path of these names.
    pub(crate) fn new(names: Vec<Bytes>) -> Path
        ensures { result ≡ names.items }
    {
        Path { names }
    }

    /// The names.
    pub(crate) fn names(&self) -> &[Bytes]
        ensures { result.now ≡ self.now }
    {
        self.names.as_slice()
    }
}

impl PartialEq for Path {
    ghost eq = { λ a b. pointwise (pointwise nat_eq) a b };

    ghost laws = { partial_equiv_from_equiv (lists_equiv nat_list_eq_equiv) };

    fn eq(&self, other: &Self) -> bool {
        self.names() == other.names()
    }
}

impl Eq for Path {
    ghost laws = { lists_equiv nat_list_eq_equiv };
}

impl PartialOrd for Path {
    ghost partial_cmp = { as_partial_cmp (slice_cmp (slice_cmp nat_cmp)) };

    ghost laws = { partial_order_from_agreeing_total (slice_cmp (slice_cmp nat_cmp)) (lists_total nat_list_cmp_total) (λ _ _. refl) (lists_ties (slice_cmp nat_cmp) texts_ties) };

    fn partial_cmp(&self, other: &Self) -> Option<Ordering> {
        Some(self.cmp(other))
    }
}

impl Ord for Path {
    ghost cmp = { slice_cmp (slice_cmp nat_cmp) };

    ghost total = { lists_total nat_list_cmp_total };

    ghost matches_partial_cmp = { λ _ _. refl };

    ghost matches_eq = { lists_ties (slice_cmp nat_cmp) texts_ties };

    fn cmp(&self, other: &Self) -> Ordering {
        self.names().cmp(other.names())
    }
}
