//! Runs of eras over one state, which is taken back at a crash.
ghost use Rattle.std.specs.Prelude.{◌≡◌, ℕ, List, [], ◌++◌, ◌⊎◌, map, take, Some, IsSome, IfOk, OnOk, IsErrOf, IsOkUnless};
ghost use Rattle.replay_law.specs.Run.{TakenStep, state_after, IsFirstIllegal, EveryEraRuns, IsFirstIllegalInEras};
ghost use Rattle.replay_law.specs.Standing.{StandsAfter};
ghost use Rattle.replay_law.specs.Steps.{taken_of};

use crate::replay::{Replayable, StepFault};
use crate::run::{EraRun, RunFault, Step};
use crate::stepping::Replay;
use std::alloc::Global;

/// Takes steps ahead of the cut.
fn run_kept<R: Replayable>(
    replay: &mut Replay<R>,
    setting: &R::Setting,
    steps: &[Step<R::Call, R::Outcome>],
) -> Result<(), RunFault>
    ensures ok { OnOk result ((kept : List (TakenStep R.Call R.Outcome))
        → StandsAfter R.undoes (R.next setting.now) (R.start setting.now) replay.old kept []
        → StandsAfter R.undoes (R.next setting.now) (R.start setting.now) replay.new (kept ++ map taken_of steps.now) []) }
    ensures illegal { (number : ℕ) → result ≡ Err (RunFault.Illegal number)
        → (kept : List (TakenStep R.Call R.Outcome)) (base : R) → state_after (R.next setting.now) (R.start setting.now) kept ≡ Some base
        → StandsAfter R.undoes (R.next setting.now) (R.start setting.now) replay.old kept []
        → IsFirstIllegal (R.next setting.now) base (map taken_of steps.now) number }
{
    for step in steps {
        match replay.step_kept(setting, step.number, &step.call, &step.outcome) {
            Ok(()) => {}
            Err(StepFault::NotAllowed) => return Err(RunFault::Illegal(step.number)),
            Err(StepFault::NoMemory) => return Err(RunFault::NoMemory),
        }
    }
    Ok(())
}

/// Takes steps past the cut.
fn run_lost<R: Replayable>(
    replay: &mut Replay<R>,
    setting: &R::Setting,
    steps: &[Step<R::Call, R::Outcome>],
) -> Result<(), RunFault>
    ensures ok { OnOk result ((kept : List (TakenStep R.Call R.Outcome))
        → StandsAfter R.undoes (R.next setting.now) (R.start setting.now) replay.old kept []
        → StandsAfter R.undoes (R.next setting.now) (R.start setting.now) replay.new kept (map taken_of steps.now)) }
    ensures illegal { (number : ℕ) → result ≡ Err (RunFault.Illegal number)
        → (kept : List (TakenStep R.Call R.Outcome)) (base : R) → state_after (R.next setting.now) (R.start setting.now) kept ≡ Some base
        → StandsAfter R.undoes (R.next setting.now) (R.start setting.now) replay.old kept []
        → IsFirstIllegal (R.next setting.now) base (map taken_of steps.now) number }
{
    for step in steps {
        match replay.step_lost(setting, step.number, &step.call, &step.outcome) {
            Ok(()) => {}
            Err(StepFault::NotAllowed) => return Err(RunFault::Illegal(step.number)),
            Err(StepFault::NoMemory) => return Err(RunFault::NoMemory),
        }
    }
    Ok(())
}

/// Runs an era and takes the crash at its end.
fn run_era<R: Replayable>(
    replay: Replay<R>,
    setting: &R::Setting,
    era: &EraRun<R::Call, R::Outcome>,
) -> Result<Replay<R>, RunFault>
    requires { (kept : List (TakenStep R.Call R.Outcome))
        × StandsAfter R.undoes (R.next setting.now) (R.start setting.now) replay kept [] }
    ensures runs { OnOk result ((kept : List (TakenStep R.Call R.Outcome))
        → StandsAfter R.undoes (R.next setting.now) (R.start setting.now) replay kept []
        → IsSome (state_after (R.next setting.now) (R.start setting.now) (kept ++ era.now.steps))) }
    ensures crashed { IfOk result (λ after. (kept : List (TakenStep R.Call R.Outcome))
        → StandsAfter R.undoes (R.next setting.now) (R.start setting.now) replay kept []
        → StandsAfter R.undoes (R.next setting.now) (R.start setting.now) after (kept ++ take era.now.kept era.now.steps) []) }
    ensures illegal { (number : ℕ) → result ≡ Err (RunFault.Illegal number)
        → (kept : List (TakenStep R.Call R.Outcome)) (base : R) → state_after (R.next setting.now) (R.start setting.now) kept ≡ Some base
        → StandsAfter R.undoes (R.next setting.now) (R.start setting.now) replay kept []
        → IsFirstIllegal (R.next setting.now) base era.now.steps number }
{
    let (kept, lost) = era.steps().split_at(era.kept());
    let mut replay = replay;
    run_kept(&mut replay, setting, kept)?;
    run_lost(&mut replay, setting, lost)?;
    let after = replay.crash()?;
    Ok(after)
}

/// Whether every era runs, the first one from the state before any step and each other one from what those ahead of it kept.
pub fn run_eras<R: Replayable>(
    alloc: Global,
    setting: &R::Setting,
    eras: &[EraRun<R::Call, R::Outcome>],
) -> Result<(), RunFault>
    ensures ok { OnOk result (EveryEraRuns (R.next setting.now) (R.start setting.now) eras.now) }
    // Where every era runs, nothing is refused, memory aside.
    ensures only { EveryEraRuns (R.next setting.now) (R.start setting.now) eras.now → IsOkUnless result RunFault.NoMemory }
    ensures illegal { (number : ℕ) → result ≡ Err (RunFault.Illegal number)
        → IsFirstIllegalInEras (R.next setting.now) (R.start setting.now) eras.now number }
    // The first illegal step is named, memory aside.
    ensures named { (number : ℕ) → IsFirstIllegalInEras (R.next setting.now) (R.start setting.now) eras.now number
        → IsErrOf result (RunFault.Illegal number) ⊎ IsErrOf result RunFault.NoMemory }
{
    let mut replay = Replay::<R>::begin(alloc, setting)?;
    let Some((last, ahead)) = eras.split_last() else {
        return Ok(());
    };
    for era in ahead {
        replay = run_era(replay, setting, era)?;
    }
    run_kept(&mut replay, setting, last.steps())
}
