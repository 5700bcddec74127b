//! Fingerprints are claimed.
ghost use Rattle.std.specs.Prelude.{◌≡◌, ◌≢◌, ℕ, ◌+◌, ◌<◌};
ghost use Rattle.seen_states.specs.Seen.{IsTold, word_at};
ghost use Rattle.seen_states.specs.Handles.{Adds, IsOf, known, word_count};
ghost use Rattle.seen_states.specs.Looks.{Probes};
ghost use Rattle.seen_states.specs.Steps.{MayLook};

use crate::handles::{Claim, Claimer, SeenTable};
use crate::steps::{Asked, Look, Take};
use std::marker::Brand;

impl SeenTable {
    /// Claims a fingerprint: looks at the words in its order until one holds it or is free, and takes a free one. At most two
    /// atomic steps a word, so that where the table is full it looks at all of them. It waits for nobody.
    pub fn claim(&self, claimer: &mut Claimer, fingerprint: u64) -> Claim
        requires of_this_table { IsOf claimer.old self.now }
        requires fingerprint { fingerprint ≢ 0 }
        ensures of_this_table { IsOf claimer.new self.now }
        ensures answer { Adds (word_count self.now) fingerprint (known claimer.old) result (known claimer.new) }
        ensures told { IsTold fingerprint (known claimer.old) → result ≡ Claim.Seen }
    {
        let count = self.table.word_count();
        let mut word = (fingerprint % count as u64) as usize;
        for place in 0..count {
            if let Some(answer) = self.probe::<Brand>(claimer, word, fingerprint, place) {
                return answer;
            }
            word = if word + 1 < count { word + 1 } else { 0 };
        }
        Claim::Full
    }

    /// Looks at a word, and takes it where it is free. None where it holds another fingerprint.
    fn probe<A: Asked>(
        &self,
        claimer: &mut Claimer,
        word: usize,
        fingerprint: u64,
        place: usize,
    ) -> Option<Claim>
        requires of_this_table { IsOf claimer.old self.now }
        requires may { MayLook (word_count self.now) fingerprint place (known claimer.old) }
        requires word { word ≡ word_at (word_count self.now) fingerprint place }
        requires asked { (A.fingerprint ≡ fingerprint) × (A.place ≡ place) × (A.count ≡ word_count self.now) }
        ensures of_this_table { IsOf claimer.new self.now }
        ensures found { Probes (word_count self.now) fingerprint place (known claimer.old) result (known claimer.new) }
    {
        let shared = &self.table.shared;
        let mut found = shared.load::<Look<A>>(&mut claimer.seat, word);
        if found == 0 {
            let before = shared.compare_exchange::<Take<A>>(
                &mut claimer.seat,
                word,
                0,
                fingerprint,
            );
            if before == 0 {
                return Some(Claim::New);
            }
            found = before;
        }
        if found == fingerprint {
            Some(Claim::Seen)
        } else {
            None
        }
    }
}
