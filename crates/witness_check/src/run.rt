//! The run of a plan from the tree that stood at first: one tree, from which a crash takes back what came behind the cut.

ghost use Rattle.std.specs.Prelude.{◌≡◌, ℕ, List, [], ◌++◌, map, Err, IfOk, IfErr, IfSome, OnOk, OnErr, IsSome, length, option_map, take, drop};
ghost use Rattle.std.specs.Option.{option_to_list};
ghost use Rattle.certificate.specs.Plan.{cut_of};
ghost use Rattle.cut_check.specs.Places.{bindings_of};
ghost use Rattle.replay_law.specs.Run as run;
ghost use Rattle.replay_law.specs.Run.{EveryEraRuns};
ghost use Rattle.tree_starts.specs.Start.{object_made};
ghost use Rattle.nfs3_types.specs.declared.calls.NfsCall.{NfsCall};
ghost use Rattle.nfs3_types.specs.declared.replies.Outcome.{Outcome};
ghost use Rattle.witness_check.specs.Run.{step_of_call, step_at, steps_of, era_of, eras_of, next_of, base_of, Runs};
ghost use Rattle.witness_check.specs.Running.{outcome_at, found_step, found_steps, next_by, first_tree, Stands, tree_after, IsStuckAt, IsStopBehind, StopsAt, TellsEnd};

use crate::ahead::{BLOCK, look_ahead};
use crate::fault::{RunEnd, Stop};
use certificate::{Certificate, EraPlan, Place};
use cut_check::bindings_of_plan;
use file_tree::{FileTree, Start, TreeSetting};
use nfs3_types::{NfsCall, Outcome};
use order_check::nfs_history::{KnownCalls, RecordedCall, SeenStart};
use replay_law::{Replay, RunFault, StepFault};
use std::alloc::{AllocError, Global};

/// A call that is placed, and how it came out.
pub struct Found {
    /// The call's number, counted from 1.
    pub number: u64,
    /// The call.
    pub call: NfsCall,
    /// The reply that it got, or that it is taken as done.
    pub outcome: Outcome,
}

impl Drop for Found {
    fn drop(self) {
        let Found {
            number: _,
            call,
            outcome,
        } = self;
        drop(call);
        drop(outcome);
    }
}

/// What a plan's run is judged by: what handles name and how strictly replies are judged, and what stood at first, where it lies. A
/// step reads no start, so that of the setting is empty.
pub(crate) struct Rule<'h, 'a> {
    pub(crate) setting: TreeSetting,
    start: &'h SeenStart<'a>,
}

impl<'h, 'a> Drop for Rule<'h, 'a> {
    fn drop(self) {
        let Rule { setting, start: _ } = self;
        drop(setting);
    }
}

/// The number of the object that a call makes. A history has too few calls and starting objects for a sum past 64 bits.
fn object_made(rule: &Rule<'_, '_>, number: u64) -> Option<u64>
    ensures { IfSome result (λ object. object ≡ object_made (length rule.now.start.now) number) }
{
    number.checked_add(rule.start.count() as u64)
}

/// Drops what was found at a place, so that no other proof goes through its cases.
fn put_away(_found: Option<Found>) {}

/// The outcome at a place of a call that came out so, where it has one.
fn outcome_at(place: Place, received: Option<Outcome>) -> Option<Outcome>
    ensures { result ≡ outcome_at place received }
{
    match place {
        Place::Answered(_) => received,
        Place::Taken(_, count) => Some(Outcome::Taken(count)),
    }
}

/// The step of a call at a place, where it has one.
fn step_of_call(place: Place, recorded: RecordedCall) -> Option<Found>
    ensures { option_map found_step result ≡ step_of_call place recorded }
{
    let (Place::Answered(number) | Place::Taken(number, _)) = place;
    let (call, received) = recorded.into_judged()?;
    let outcome = outcome_at(place, received)?;
    Some(Found {
        number,
        call,
        outcome,
    })
}

/// The call at a place with its outcome, where it has one.
fn find_step(
    alloc: Global,
    history: &KnownCalls<'_>,
    place: Place,
) -> Result<Option<Found>, AllocError>
    ensures { IfOk result (λ found. option_map found_step found ≡ step_at history.now.calls place) }
{
    let (Place::Answered(number) | Place::Taken(number, _)) = place;
    match history.call(alloc, number)? {
        Some(recorded) => Ok(step_of_call(place, recorded)),
        None => Ok(None),
    }
}

/// Takes a step ahead of the cut, where there is one.
fn run_kept_step(
    replay: &mut Replay<FileTree>,
    rule: &Rule<'_, '_>,
    step: &Option<Found>,
) -> Result<(), RunFault>
    ensures ok { OnOk result ((kept : List (run.TakenStep NfsCall Outcome)) → Stands rule.now replay.old kept []
        → Stands rule.now replay.new (kept ++ option_to_list (option_map found_step step.now)) []) }
    ensures illegal { (number : ℕ) → result ≡ Err (RunFault.Illegal number)
        → (kept : List (run.TakenStep NfsCall Outcome)) → Stands rule.now replay.old kept []
        → IsStuckAt rule.now kept (option_map found_step step.now) number }
    ensures stays { OnErr result ((kept lost : List (run.TakenStep NfsCall Outcome)) → Stands rule.now replay.old kept lost → Stands rule.now replay.new kept lost) }
{
    let Some(found) = step else {
        return Ok(());
    };
    let Some(object) = object_made(rule, found.number) else {
        return Err(RunFault::NoMemory);
    };
    match replay.step_kept(&rule.setting, object, &found.call, &found.outcome) {
        Ok(()) => Ok(()),
        Err(StepFault::NotAllowed) => Err(RunFault::Illegal(found.number)),
        Err(StepFault::NoMemory) => Err(RunFault::NoMemory),
    }
}

/// Takes steps ahead of the cut.
fn run_kept_steps(
    replay: &mut Replay<FileTree>,
    rule: &Rule<'_, '_>,
    steps: &[Option<Found>],
) -> Result<(), RunFault>
    ensures ok { OnOk result ((kept : List (run.TakenStep NfsCall Outcome)) → Stands rule.now replay.old kept []
        → Stands rule.now replay.new (kept ++ found_steps steps.now) []) }
    ensures illegal { (number : ℕ) → result ≡ Err (RunFault.Illegal number)
        → (kept : List (run.TakenStep NfsCall Outcome)) → Stands rule.now replay.old kept []
        → IsStopBehind rule.now kept (found_steps steps.now) number replay.new.state }
{
    for step in steps {
        run_kept_step(replay, rule, step)?;
    }
    Ok(())
}

/// The calls at some places with their outcomes.
fn find_steps(
    alloc: Global,
    history: &KnownCalls<'_>,
    places: &[Place],
    steps: &mut Vec<Option<Found>>,
) -> Result<(), AllocError>
    ensures { OnOk result (found_steps steps.new.items ≡ steps_of history.now.calls places.now) }
{
    steps.clear();
    for place in places {
        let found = find_step(alloc, history, *place)?;
        steps.push(found)?;
    }
    Ok(())
}

/// Steps that are found together, and what was seen ahead of them.
#[derive(Drop)]
struct Block {
    steps: Vec<Option<Found>>,
    seen: Vec<u64>,
}

/// Takes the steps of a block of places ahead of the cut.
fn run_kept_block(
    alloc: Global,
    replay: &mut Replay<FileTree>,
    rule: &Rule<'_, '_>,
    history: &KnownCalls<'_>,
    places: &[Place],
    block: &mut Block,
) -> Result<(), RunFault>
    ensures ok { OnOk result ((kept : List (run.TakenStep NfsCall Outcome)) → Stands rule.now replay.old kept []
        → Stands rule.now replay.new (kept ++ steps_of history.now.calls places.now) []) }
    ensures illegal { (number : ℕ) → result ≡ Err (RunFault.Illegal number)
        → (kept : List (run.TakenStep NfsCall Outcome)) → Stands rule.now replay.old kept []
        → IsStopBehind rule.now kept (steps_of history.now.calls places.now) number replay.new.state }
{
    find_steps(alloc, history, places, &mut block.steps)?;
    let steps = block.steps.as_slice();
    look_ahead(
        replay.state().nodes(),
        &rule.setting.binds,
        steps,
        &mut block.seen,
    )?;
    run_kept_steps(replay, rule, steps)
}

/// Takes a step past the cut, where there is one.
fn run_lost_step(
    replay: &mut Replay<FileTree>,
    rule: &Rule<'_, '_>,
    step: &Option<Found>,
) -> Result<(), RunFault>
    ensures ok { OnOk result ((kept lost : List (run.TakenStep NfsCall Outcome)) → Stands rule.now replay.old kept lost
        → Stands rule.now replay.new kept (lost ++ option_to_list (option_map found_step step.now))) }
    ensures illegal { (number : ℕ) → result ≡ Err (RunFault.Illegal number)
        → (kept lost : List (run.TakenStep NfsCall Outcome)) → Stands rule.now replay.old kept lost
        → IsStuckAt rule.now (kept ++ lost) (option_map found_step step.now) number }
    ensures stays { OnErr result ((kept lost : List (run.TakenStep NfsCall Outcome)) → Stands rule.now replay.old kept lost → Stands rule.now replay.new kept lost) }
{
    let Some(found) = step else {
        return Ok(());
    };
    let Some(object) = object_made(rule, found.number) else {
        return Err(RunFault::NoMemory);
    };
    match replay.step_lost(&rule.setting, object, &found.call, &found.outcome) {
        Ok(()) => Ok(()),
        Err(StepFault::NotAllowed) => Err(RunFault::Illegal(found.number)),
        Err(StepFault::NoMemory) => Err(RunFault::NoMemory),
    }
}

/// Takes the step of a place past the cut.
fn run_lost_place(
    alloc: Global,
    replay: &mut Replay<FileTree>,
    rule: &Rule<'_, '_>,
    history: &KnownCalls<'_>,
    place: Place,
) -> Result<(), RunFault>
    ensures ok { OnOk result ((kept lost : List (run.TakenStep NfsCall Outcome)) → Stands rule.now replay.old kept lost
        → Stands rule.now replay.new kept (lost ++ option_to_list (step_at history.now.calls place))) }
    ensures illegal { (number : ℕ) → result ≡ Err (RunFault.Illegal number)
        → (kept lost : List (run.TakenStep NfsCall Outcome)) → Stands rule.now replay.old kept lost
        → IsStuckAt rule.now (kept ++ lost) (step_at history.now.calls place) number }
    ensures stays { OnErr result ((kept lost : List (run.TakenStep NfsCall Outcome)) → Stands rule.now replay.old kept lost → Stands rule.now replay.new kept lost) }
{
    let found = find_step(alloc, history, place)?;
    let step = run_lost_step(replay, rule, &found);
    put_away(found);
    step
}

/// Takes the steps of places ahead of the cut.
fn run_kept(
    alloc: Global,
    replay: &mut Replay<FileTree>,
    rule: &Rule<'_, '_>,
    history: &KnownCalls<'_>,
    places: &[Place],
    block: &mut Block,
) -> Result<(), RunFault>
    ensures ok { OnOk result ((kept : List (run.TakenStep NfsCall Outcome)) → Stands rule.now replay.old kept []
        → Stands rule.now replay.new (kept ++ steps_of history.now.calls places.now) []) }
    ensures illegal { (number : ℕ) → result ≡ Err (RunFault.Illegal number)
        → (kept : List (run.TakenStep NfsCall Outcome)) → Stands rule.now replay.old kept []
        → IsStopBehind rule.now kept (steps_of history.now.calls places.now) number replay.new.state }
{
    let mut rest = places;
    while !rest.is_empty() {
        let (next, behind) = rest.split_at(rest.len().min(BLOCK));
        run_kept_block(alloc, replay, rule, history, next, block)?;
        rest = behind;
    }
    Ok(())
}

/// Takes the steps of places past the cut.
fn run_lost(
    alloc: Global,
    replay: &mut Replay<FileTree>,
    rule: &Rule<'_, '_>,
    history: &KnownCalls<'_>,
    places: &[Place],
) -> Result<(), RunFault>
    ensures ok { OnOk result ((kept : List (run.TakenStep NfsCall Outcome)) → Stands rule.now replay.old kept []
        → Stands rule.now replay.new kept (steps_of history.now.calls places.now)) }
    ensures illegal { (number : ℕ) → result ≡ Err (RunFault.Illegal number)
        → (kept : List (run.TakenStep NfsCall Outcome)) → Stands rule.now replay.old kept []
        → IsStopBehind rule.now kept (steps_of history.now.calls places.now) number replay.new.state }
{
    for place in places {
        run_lost_place(alloc, replay, rule, history, *place)?;
    }
    Ok(())
}

/// The places of an era ahead of its cut, and those past it.
fn split_at_cut(era: &EraPlan) -> (&[Place], &[Place])
    ensures kept { result.0.now ≡ take (cut_of era.now) era.now.places }
    ensures lost { result.1.now ≡ drop (cut_of era.now) era.now.places }
{
    let places = era.places.as_slice();
    match era.cut {
        Some(cut) if (cut as usize) < places.len() => places.split_at(cut as usize),
        _ => places.split_at(places.len()),
    }
}

/// Takes the steps of an era, those past its cut last.
fn run_places(
    alloc: Global,
    replay: &mut Replay<FileTree>,
    rule: &Rule<'_, '_>,
    history: &KnownCalls<'_>,
    era: &EraPlan,
    block: &mut Block,
) -> Result<(), RunFault>
    ensures ok { OnOk result ((kept : List (run.TakenStep NfsCall Outcome)) → Stands rule.now replay.old kept []
        → Stands rule.now replay.new (kept ++ steps_of history.now.calls (take (cut_of era.now) era.now.places))
        (steps_of history.now.calls (drop (cut_of era.now) era.now.places))) }
    ensures illegal { (number : ℕ) → result ≡ Err (RunFault.Illegal number)
        → (kept : List (run.TakenStep NfsCall Outcome)) → Stands rule.now replay.old kept []
        → IsStopBehind rule.now kept (steps_of history.now.calls era.now.places) number replay.new.state }
{
    let (kept, lost) = split_at_cut(era);
    run_kept(alloc, replay, rule, history, kept, block)?;
    run_lost(alloc, replay, rule, history, lost)?;
    Ok(())
}

/// Runs an era, and takes the crash at its end.
fn run_era(
    alloc: Global,
    replay: Replay<FileTree>,
    rule: &Rule<'_, '_>,
    history: &KnownCalls<'_>,
    era: &EraPlan,
    block: &mut Block,
) -> Result<Replay<FileTree>, RunEnd>
    requires { (kept : List (run.TakenStep NfsCall Outcome)) × Stands rule.now replay kept [] }
    ensures runs { OnOk result ((kept : List (run.TakenStep NfsCall Outcome)) → Stands rule.now replay kept []
        → IsSome (tree_after rule.now (kept ++ steps_of history.now.calls era.now.places))) }
    ensures crashed { IfOk result (λ after. (kept : List (run.TakenStep NfsCall Outcome)) → Stands rule.now replay kept []
        → Stands rule.now after (kept ++ steps_of history.now.calls (take (cut_of era.now) era.now.places)) []) }
    ensures stopped { IfErr result (λ end. (kept : List (run.TakenStep NfsCall Outcome)) → Stands rule.now replay kept []
        → StopsAt rule.now kept (steps_of history.now.calls era.now.places) end) }
{
    let mut replay = replay;
    match run_places(alloc, &mut replay, rule, history, era, block) {
        Ok(()) => Ok(replay.crash()?),
        Err(RunFault::Illegal(number)) => Err(RunEnd::Stopped(Stop {
            number,
            tree: replay.into_state(),
        })),
        Err(RunFault::NoMemory) => Err(RunEnd::NoMemory),
    }
}

/// Whether every era runs, the first from the tree that stood at first and each other one from what those ahead of it kept.
fn run_plans(
    alloc: Global,
    rule: &Rule<'_, '_>,
    history: &KnownCalls<'_>,
    eras: &[EraPlan],
) -> Result<(), RunEnd>
    ensures ok { OnOk result (EveryEraRuns (next_by rule.now) (first_tree rule.now) (map (era_of history.now.calls) eras.now)) }
    ensures stopped { IfErr result (TellsEnd (next_by rule.now) (first_tree rule.now) (map (era_of history.now.calls) eras.now)) }
{
    let mut block = Block {
        steps: Vec::new(alloc),
        seen: Vec::new(alloc),
    };
    let tree = FileTree::of_start(alloc, rule.start)?;
    let mut replay = Replay::from_state(alloc, tree);
    for era in eras {
        replay = run_era(alloc, replay, rule, history, era, &mut block)?;
    }
    Ok(())
}

/// What a plan's run is judged by: the handles of its binds, and the history's start and profile.
pub(crate) fn rule_of<'h, 'a>(
    alloc: Global,
    history: &'h KnownCalls<'a>,
    plan: &Certificate,
) -> Result<Rule<'h, 'a>, AllocError>
    ensures binds { IfOk result (λ rule. rule.setting.binds ≡ bindings_of history.now.head.root plan.now.binds) }
    ensures profile { IfOk result (λ rule. rule.setting.profile ≡ history.now.head.profile) }
    ensures start { IfOk result (λ rule. rule.start.now ≡ history.now.head.start) }
{
    Ok(Rule {
        setting: TreeSetting {
            binds: bindings_of_plan(alloc, &history.lend(), plan)?,
            start: Start::empty(alloc),
            profile: history.profile(),
        },
        start: history.start(),
    })
}

/// Whether every era of a plan runs, by the rule that is the plan's.
pub(crate) fn run_plan(
    alloc: Global,
    history: &KnownCalls<'_>,
    rule: &Rule<'_, '_>,
    plan: &Certificate,
) -> Result<(), RunEnd>
    requires binds { rule.now.setting.binds ≡ bindings_of history.now.head.root plan.now.binds }
    requires profile { rule.now.setting.profile ≡ history.now.head.profile }
    requires start { rule.now.start.now ≡ history.now.head.start }
    ensures ok { OnOk result (Runs history.now plan.now) }
    ensures stopped { IfErr result (TellsEnd (next_of history.now plan.now) (base_of history.now) (eras_of history.now plan.now)) }
{
    run_plans(alloc, rule, history, plan.eras.as_slice())
}
