//! Ranks of objects, by which most questions whether one lies below another end early.

ghost use Rattle.std.specs.Prelude.{◌≡◌, ◌≤◌, ℕ};
ghost use Rattle.tree_nodes.specs.Ranks.{rank_of};

use std::alloc::Global;

/// The rank of an object that has none of its own.
pub(crate) const TOP: u32 = u32::MAX;

/// How far below the first object that is given a rank another one can have one.
const BEHIND: u64 = 65_536;

/// The ranks of objects, by their numbers. A rank is more than that of each object that lies in its object, or `TOP`: so no
/// object of a rank below `TOP` lies above one of the same rank or a higher one.
#[derive(Drop)]
pub(crate) struct Ranks {
    /// The lowest number that can have a rank here.
    pub(crate) first: u64,
    pub(crate) ranks: Vec<u32>,
}

impl Ranks {
    /// No ranks.
    pub(crate) fn new(alloc: Global) -> Ranks
        ensures { (object : ℕ) → rank_of result object ≡ TOP }
    {
        Ranks {
            first: 0,
            ranks: Vec::new(alloc),
        }
    }

    /// No ranks, also later.
    pub(crate) fn never(alloc: Global) -> Ranks
        ensures { (object : ℕ) → rank_of result object ≡ TOP }
    {
        Ranks {
            first: u64::MAX,
            ranks: Vec::new(alloc),
        }
    }

    /// The rank of an object.
    pub(crate) fn get(&self, object: u64) -> u32
        ensures { result ≡ rank_of self.now object }
    {
        let Some(index) = object.checked_sub(self.first) else {
            return TOP;
        };
        match self.ranks.get(index as usize) {
            Some(rank) => *rank,
            None => TOP,
        }
    }

    /// Gives an object a rank. One that has no place here keeps `TOP`.
    pub(crate) fn set(&mut self, object: u64, rank: u32)
        ensures here { rank ≤ rank_of self.new object }
        ensures others { (other : ℕ) → (other ≡ object → ⊥) → rank_of self.new other ≡ rank_of self.old other }
    {
        let Some(index) = object.checked_sub(self.first) else {
            return;
        };
        if let Some(place) = self.ranks.get_mut(index as usize) {
            *place = rank;
        }
    }

    /// Makes a place for an object, where memory suffices.
    fn make_place(&mut self, object: u64)
        ensures { (other : ℕ) → rank_of self.new other ≡ rank_of self.old other }
    {
        if self.ranks.is_empty() {
            self.first = self.first.max(object.saturating_sub(BEHIND));
        }
        let Some(index) = object.checked_sub(self.first) else {
            return;
        };
        while self.ranks.len() as u64 <= index {
            let Ok(()) = self.ranks.push(TOP) else {
                return;
            };
        }
    }

    /// Gives an object that nothing lies in the lowest rank.
    pub(crate) fn begin(&mut self, object: u64)
        ensures { (other : ℕ) → (other ≡ object → ⊥) → rank_of self.new other ≡ rank_of self.old other }
    {
        self.make_place(object);
        self.set(object, 0);
    }

    /// Takes all ranks away. The numbers that had one get none again: so to forget ranks often costs no more than to give them.
    pub(crate) fn forget(&mut self)
        ensures { (object : ℕ) → rank_of self.new object ≡ TOP }
    {
        self.first = self.first.saturating_add(self.ranks.len() as u64);
        self.ranks.clear();
    }
}
