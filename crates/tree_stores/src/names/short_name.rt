//! Names that stand in the nodes of a tree themselves.

ghost use Rattle.std.specs.Prelude.{◌≡◌, ◌≤◌, take, drop, length, nat_eq, refl};
ghost use Rattle.std.specs.Ordering.{nat_cmp, as_partial_cmp};
ghost use Rattle.std.specs.Cmp.{partial_equiv_from_equiv, partial_order_from_agreeing_total};
ghost use Rattle.std.specs.Cmp.Lexicographic.{pointwise, slice_cmp, texts_ties};
ghost use Rattle.std.specs.Slice.Scan.{big_endian};
ghost use Rattle.std.proofs.lemmas.Cmp.{nat_list_eq_equiv, nat_list_cmp_total};

use std::alloc::AllocError;
use std::cmp::Ordering;
use std::marker::Model;

/// How many bytes of a name a value has room for.
pub(crate) const SHORT_LIMIT: usize = 23;

/// How many bytes a value has: those of a name, and one more.
const SIZE: usize = 24;

/// A name of at most 23 bytes, which stand in the value. A contract sees the list of its bytes.
#[derive(Drop)]
pub(crate) struct ShortName {
    /// The name, zeros behind it, and last how many bytes it has. So they lie as names do: zeros are the least bytes, and of two
    /// names that differ by zeros at the end alone the shorter one is first.
    bytes: [u8; SIZE],
}

impl Model for ShortName {
    ghost use Rattle.std.specs.Prelude.{List, ℕ};
    ghost use Rattle.tree_stores.specs.Padding.{name_in, IsPadded};

    ghost Value = { List ℕ };

    ghost view = { λ n. name_in n.bytes };

    ghost invariant = { λ n. IsPadded n.bytes };
}

/// The eight bytes from an index on as a number, in which the first counts most.
fn word(bytes: &[u8; SIZE], at: usize) -> u64
    requires { at ≤ 16 }
    ensures { result ≡ big_endian 0 (take 8 (drop at bytes.now)) }
{
    u64::from_be_bytes([
        bytes[at],
        bytes[at + 1],
        bytes[at + 2],
        bytes[at + 3],
        bytes[at + 4],
        bytes[at + 5],
        bytes[at + 6],
        bytes[at + 7],
    ])
}

/// Compares bytes, eight at a time.
fn order(one: &[u8; SIZE], other: &[u8; SIZE]) -> Ordering
    ensures { result ≡ slice_cmp nat_cmp one.now other.now }
{
    let (first, second) = (word(one, 0), word(other, 0));
    if first != second {
        return first.cmp(&second);
    }
    let (third, fourth) = (word(one, 8), word(other, 8));
    if third != fourth {
        return third.cmp(&fourth);
    }
    word(one, 16).cmp(&word(other, 16))
}

impl ShortName {
    /// The name of these bytes.
    pub(crate) fn from_slice(name: &[u8]) -> ShortName
        requires { length name.now ≤ 23 }
        ensures { result ≡ name.now }
    {
        let mut bytes = [0; SIZE];
        bytes[..name.len()].copy_from_slice(name);
        bytes[SHORT_LIMIT] = name.len() as u8;
        ShortName { bytes }
    }

    /// Its bytes.
    pub(crate) fn as_slice(&self) -> &[u8]
        ensures { result.now ≡ self.now }
    {
        &self.bytes[..self.bytes[SHORT_LIMIT] as usize]
    }
}

impl Clone for ShortName {
    ghost is_clone = { λ name copy. copy ≡ name };

    fn clone(&self) -> Result<ShortName, AllocError> {
        Ok(ShortName { bytes: self.bytes })
    }
}

impl PartialEq for ShortName {
    ghost eq = { λ a b. pointwise nat_eq a b };

    ghost laws = { partial_equiv_from_equiv nat_list_eq_equiv };

    fn eq(&self, other: &Self) -> bool {
        self.as_slice() == other.as_slice()
    }
}

impl Eq for ShortName {
    ghost laws = { nat_list_eq_equiv };
}

impl PartialOrd for ShortName {
    ghost partial_cmp = { as_partial_cmp (slice_cmp nat_cmp) };

    ghost laws = { partial_order_from_agreeing_total (slice_cmp nat_cmp) nat_list_cmp_total (λ _ _. refl) texts_ties };

    fn partial_cmp(&self, other: &Self) -> Option<Ordering> {
        Some(self.cmp(other))
    }
}

impl Ord for ShortName {
    ghost cmp = { slice_cmp nat_cmp };

    ghost total = { nat_list_cmp_total };

    ghost matches_partial_cmp = { λ _ _. refl };

    ghost matches_eq = { texts_ties };

    fn cmp(&self, other: &Self) -> Ordering {
        order(&self.bytes, &other.bytes)
    }
}
