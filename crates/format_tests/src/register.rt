//! Runs over a register, in one era and over a crash.

use replay_law::register::{Call, Outcome};
use replay_law::{EraRun, Register, Replayable, RunFault, Step, StepFault, run_eras};
use std::alloc::{AllocError, Global};
use std::test::Fail;

/// A step: its number, what is asked, and how it comes out.
type Taken = (u64, Call, Outcome);

/// The steps of an era, and how many of them are kept.
type EraSteps = (&'static [Taken], usize);

/// Step 1 writes 3.
const WRITE_3: Taken = (1, Call::Write(3), Outcome::Done);

/// Step 2 writes 4, or reads 3.
const WRITE_4: Taken = (2, Call::Write(4), Outcome::Done);

const READ_3: Taken = (2, Call::Read, Outcome::Value(3));

/// Eras that end at a crash: of two writes none is kept, one or both; of a write and a read none.
const NONE_KEPT: EraSteps = (&[WRITE_3, WRITE_4], 0);

const ONE_KEPT: EraSteps = (&[WRITE_3, WRITE_4], 1);

const BOTH_KEPT: EraSteps = (&[WRITE_3, WRITE_4], 2);

const WRITE_LOST: EraSteps = (&[WRITE_3, READ_3], 0);

/// Step 3, an era of its own, reads one of these.
const THEN_0: EraSteps = (&[(3, Call::Read, Outcome::Value(0))], 0);

const THEN_3: EraSteps = (&[(3, Call::Read, Outcome::Value(3))], 0);

const THEN_4: EraSteps = (&[(3, Call::Read, Outcome::Value(4))], 0);

/// Two illegal steps.
const ILLEGAL: &[Taken] = &[
    (7, Call::Read, Outcome::Value(3)),
    (8, Call::Read, Outcome::Done),
];

/// Runs, and how they end: in one era, and over a crash.
const RUNS: &[(&[EraSteps], Result<(), RunFault>)] = &[
    (&[WRITE_LOST], Ok(())),
    (&[(ILLEGAL, 0)], Err(RunFault::Illegal(7))),
    (&[NONE_KEPT, THEN_0], Ok(())),
    (&[NONE_KEPT, THEN_3], Err(RunFault::Illegal(3))),
    (&[ONE_KEPT, THEN_3], Ok(())),
    (&[ONE_KEPT, THEN_4], Err(RunFault::Illegal(3))),
    (&[BOTH_KEPT, THEN_4], Ok(())),
    (&[WRITE_LOST, THEN_0], Ok(())),
    (&[WRITE_LOST, THEN_3], Err(RunFault::Illegal(3))),
];

/// The run of an era.
fn era(alloc: Global, (taken, kept): EraSteps) -> Result<EraRun<Call, Outcome>, AllocError> {
    let mut steps = Vec::new(alloc);
    for (number, call, outcome) in taken {
        steps.push(Step {
            number: *number,
            call: *call,
            outcome: *outcome,
        })?;
    }
    let kept = kept.min(steps.len());
    Ok(EraRun::new(steps, kept))
}

/// Whether a run of these eras ends so.
fn ends(alloc: Global, run: &[EraSteps], want: Result<(), RunFault>) -> Result<bool, AllocError> {
    let mut eras = Vec::new(alloc);
    for steps in run {
        eras.push(era(alloc, *steps)?)?;
    }
    Ok(run_eras::<Register>(alloc, &(), eras.as_slice()) == want)
}

#[test]
fn a_crash_loses_what_is_not_kept(rt: HostRuntime) -> Result<(), Fail> {
    for (run, want) in RUNS {
        assert!(rt; ends(rt.alloc(), run, *want)?);
    }
    Ok(())
}

/// Whether a register that is set to 258 is printed so, and holds 0 once that is taken back.
fn is_taken_back(alloc: Global) -> Result<bool, StepFault> {
    let mut register = Register::opening(alloc, &())?;
    let undo = register.step(&(), 1, &Call::Write(258), &Outcome::Done)?;
    let mut out = Vec::new(alloc);
    register.print_state(&mut out)?;
    let printed = out.as_slice() == [0, 0, 0, 0, 0, 0, 1, 2].as_slice();
    Ok(printed && register.undo(undo)?.value == 0)
}

/// Whether a number that the register doesn't hold isn't read.
fn is_not_read(alloc: Global) -> Result<bool, AllocError> {
    let mut register = Register::opening(alloc, &())?;
    let refused = register.step(&(), 1, &Call::Read, &Outcome::Value(1));
    Ok(refused == Err(StepFault::NotAllowed))
}

#[test]
fn a_step_is_taken_back_and_another_number_not_read(rt: HostRuntime) -> Result<(), Fail> {
    assert!(rt; is_taken_back(rt.alloc())? && is_not_read(rt.alloc())?);
    Ok(())
}
