//! Tables and claimers are made, split and joined.
ghost use Rattle.std.specs.Prelude.{◌≡◌, ℕ, ◌≤◌, ◌^◌, IfOk};
ghost use Rattle.seen_states.specs.Seen.{fresh, times, together};
ghost use Rattle.seen_states.specs.Handles.{IsOf, known, word_count};

use crate::handles::{Claimer, SeenTable};
use crate::steps::{Beside, Compare, Together};
use atomic_table::Table;
use std::alloc::{AllocError, Global};

impl SeenTable {
    /// A table of 2^bits free words, and its first claimer. It takes 8 bytes a word, and as many again while it is made.
    pub fn new(alloc: Global, bits: u32) -> Result<(SeenTable, Claimer), AllocError>
        requires { bits ≤ 24 }
        ensures { IfOk result (λ made. (word_count made.0 ≡ 2 ^ bits) × IsOf made.1 made.0 × (known made.1 ≡ fresh)) }
    {
        let count = 2usize.pow(bits);
        let words = vec![in alloc; 0u64; count]?;
        let (table, seat) = Table::of_words(alloc, words.as_slice(), &count)?;
        Ok((SeenTable { table }, Claimer { seat }))
    }

    /// One more claimer, for another thread. It was told nothing.
    pub fn split(&self, claimer: &mut Claimer) -> Claimer
        requires { IsOf claimer.old self.now }
        ensures same { IsOf claimer.new self.now × (known claimer.new ≡ known claimer.old) }
        ensures fresh { IsOf result self.now × (known result ≡ fresh) }
    {
        let seat = self.table.shared.split_seat::<Beside>(&mut claimer.seat);
        Claimer { seat }
    }

    /// One claimer with what two were told.
    pub fn join(&self, mut first: Claimer, second: Claimer) -> Claimer
        requires { IsOf first self.now × IsOf second self.now }
        ensures of_this_table { IsOf result self.now }
        ensures both { known result ≡ together (known first) (known second) }
        ensures once { (x : ℕ) → times x (known result).new_answers ≤ 1 }
    {
        self.take_in(&mut first, second);
        first
    }

    /// Takes another claimer's answers in, and compares the words with all of them.
    fn take_in(&self, claimer: &mut Claimer, other: Claimer)
        requires { IsOf claimer.old self.now × IsOf other self.now }
        ensures of_this_table { IsOf claimer.new self.now }
        ensures both { known claimer.new ≡ together (known claimer.old) (known other) }
        ensures once { (x : ℕ) → times x (known claimer.new).new_answers ≤ 1 }
    {
        let Claimer { seat } = other;
        let shared = &self.table.shared;
        shared.join_seat::<Together>(&mut claimer.seat, seat);
        let _ = shared.load::<Compare>(&mut claimer.seat, 0);
    }
}
