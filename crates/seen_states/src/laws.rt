//! What the rule of a table comes to.
ghost use Rattle.std.specs.Prelude.{◌≡◌, ◌≢◌, ℕ, ◌<◌, ◌≤◌, List, slice_index};
ghost use mathlib.Core.Option.{some};
ghost use lib.ListN.{get_elem?};
ghost use Rattle.seen_states.specs.declared.view.View.{View};
ghost use Rattle.seen_states.specs.Seen.{times, times_new, IsSeenTable};
ghost use Rattle.seen_states.specs.Runs.{Moment, opening, Step, IsRun, AreRuled};

/// However the steps of any number of claimers follow one another, the rule holds between any two of them; and what stands stays.
#[tactic(auto, using(crate::proofs::StepLaws::run_keeps, crate::proofs::StepLaws::words_stay))]
pub fn every_run_keeps_the_rule()
    ensures rule { (n : ℕ) (moments : List Moment) → IsRun n (opening n) moments → AreRuled n moments }
    ensures words { (n : ℕ) (s t : Moment) → Step n s t → (i : ℕ) → slice_index s.words i ≢ 0 → slice_index t.words i ≡ slice_index s.words i }
{}

/// Where the rule holds, at most one claimer was told New of a fingerprint, and once; where one was told Seen of it, one was told
/// New; and where one has probed every word, none is free and none has its fingerprint.
#[tactic(auto, using(crate::proofs::SeenLaws::new_once))]
pub fn what_the_answers_mean()
    ensures new { (n : ℕ) (words : List ℕ) (views : List View) → IsSeenTable n words views → (x : ℕ) → times_new x views ≤ 1 }
    ensures seen { (n : ℕ) (words : List ℕ) (views : List View) (seat : ℕ) (v : View) → IsSeenTable n words views → get_elem? views seat ≡ some v → (x : ℕ) → 0 < times x v.seen_answers → times_new x views ≡ 1 }
    ensures full { (n : ℕ) (words : List ℕ) (views : List View) (seat : ℕ) (v : View) → IsSeenTable n words views → get_elem? views seat ≡ some v → v.probed ≡ n
        → (i : ℕ) → i < n → (slice_index words i ≢ 0) × (slice_index words i ≢ v.fingerprint) }
{}
