//! What the first illegal step of a run over crashes is. The functions do nothing: each one's contract is a law.
ghost use Rattle.std.specs.Prelude.{◌≡◌, ℕ, List};
ghost use Rattle.replay_law.specs.Run.{Era, EveryEraRuns, IsFirstIllegalInEras};

use crate::replay::Replayable;

/// Of the same eras no other step is the first illegal one.
pub fn the_first_illegal_step_is_one<R: Replayable>()
    ensures { (setting : R.Setting) (eras : List (Era R.Call R.Outcome)) (m n : ℕ)
        → IsFirstIllegalInEras (R.next setting) (R.start setting) eras m
        → IsFirstIllegalInEras (R.next setting) (R.start setting) eras n → m ≡ n }
{}

/// Where a step is the first illegal one, not every era runs.
pub fn no_run_has_an_illegal_step<R: Replayable>()
    ensures { (setting : R.Setting) (eras : List (Era R.Call R.Outcome)) (n : ℕ)
        → IsFirstIllegalInEras (R.next setting) (R.start setting) eras n
        → EveryEraRuns (R.next setting) (R.start setting) eras → ⊥ }
{}
