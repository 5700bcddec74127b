//! The run of a plan, with a look at the tree ahead of each failure.

ghost use Rattle.std.specs.Prelude.{OnOk, IfOk};
ghost use Rattle.failure_causes.specs.Standing.{HasKept, HasLost};

use crate::counting::CauseCounts;
use crate::placed::{Placed, placed_at};
use certificate::{Certificate, EraPlan, Place, TextFault, read_certificate};
use cut_check::bindings_of_plan;
use file_tree::{FileTree, Start, TreeSetting};
use nfs_history::{HistoryFault, KnownCalls, read_calls};
use nfs3_types::Outcome;
use replay_law::{Replay, StepFault};
use std::alloc::{AllocError, Global};
use tree_handles::View;

/// What a plan is run by.
#[derive(Clone, Copy)]
struct Rule<'h, 'a> {
    alloc: Global,
    history: &'h KnownCalls<'a>,
    setting: &'h TreeSetting,
    /// How many objects stood at first.
    first: u64,
}

/// Counts the causes of a call that failed, at the tree that it met.
fn note(replay: &Replay<FileTree>, rule: &Rule<'_, '_>, placed: &Placed, counts: &mut CauseCounts) {
    let Outcome::Received(reply) = &placed.outcome else {
        return;
    };
    let Some(failure) = reply.failure() else {
        return;
    };
    let view = View {
        binds: &rule.setting.binds,
        nodes: replay.state().nodes(),
    };
    counts.note(&view, &placed.call, failure);
}

/// Takes the step of a place ahead of the cut.
fn run_kept_place(
    replay: &mut Replay<FileTree>,
    rule: &Rule<'_, '_>,
    place: Place,
    counts: &mut CauseCounts,
) -> Result<(), StepFault>
    requires { HasKept rule.now.setting.now replay.old }
    ensures { OnOk result (HasKept rule.now.setting.now replay.new) }
{
    let Some(placed) = placed_at(rule.alloc, rule.history, place)? else {
        return Ok(());
    };
    note(replay, rule, &placed, counts);
    let object = place.number().saturating_add(rule.first);
    replay.step_kept(rule.setting, object, &placed.call, &placed.outcome)?;
    Ok(())
}

/// Takes the steps of places ahead of the cut.
fn run_kept(
    replay: &mut Replay<FileTree>,
    rule: &Rule<'_, '_>,
    places: &[Place],
    counts: &mut CauseCounts,
) -> Result<(), StepFault>
    requires { HasKept rule.now.setting.now replay.old }
    ensures { OnOk result (HasKept rule.now.setting.now replay.new) }
{
    for place in places {
        run_kept_place(replay, rule, *place, counts)?;
    }
    Ok(())
}

/// Takes the step of a place past the cut.
fn run_lost_place(
    replay: &mut Replay<FileTree>,
    rule: &Rule<'_, '_>,
    place: Place,
    counts: &mut CauseCounts,
) -> Result<(), StepFault>
    requires { HasLost rule.now.setting.now replay.old }
    ensures { OnOk result (HasLost rule.now.setting.now replay.new) }
{
    let Some(placed) = placed_at(rule.alloc, rule.history, place)? else {
        return Ok(());
    };
    note(replay, rule, &placed, counts);
    let object = place.number().saturating_add(rule.first);
    replay.step_lost(rule.setting, object, &placed.call, &placed.outcome)?;
    Ok(())
}

/// Takes the steps of places past the cut.
fn run_lost(
    replay: &mut Replay<FileTree>,
    rule: &Rule<'_, '_>,
    places: &[Place],
    counts: &mut CauseCounts,
) -> Result<(), StepFault>
    requires { HasLost rule.now.setting.now replay.old }
    ensures { OnOk result (HasLost rule.now.setting.now replay.new) }
{
    for place in places {
        run_lost_place(replay, rule, *place, counts)?;
    }
    Ok(())
}

/// The places of an era ahead of its cut, and those past it.
fn split_at_cut(era: &EraPlan) -> (&[Place], &[Place]) {
    let places = era.places.as_slice();
    match era.cut {
        Some(cut) if (cut as usize) < places.len() => places.split_at(cut as usize),
        _ => places.split_at(places.len()),
    }
}

/// Runs an era, and takes the crash at its end.
fn run_era(
    replay: Replay<FileTree>,
    rule: &Rule<'_, '_>,
    era: &EraPlan,
    counts: &mut CauseCounts,
) -> Result<Replay<FileTree>, StepFault>
    requires { HasKept rule.now.setting.now replay }
    ensures { IfOk result (λ after. HasKept rule.now.setting.now after) }
{
    let (kept, lost) = split_at_cut(era);
    let mut replay = replay;
    run_kept(&mut replay, rule, kept, counts)?;
    run_lost(&mut replay, rule, lost, counts)?;
    let after = replay.crash()?;
    Ok(after)
}

/// Runs these eras.
fn run_eras(
    rule: &Rule<'_, '_>,
    eras: &[EraPlan],
    counts: &mut CauseCounts,
) -> Result<(), StepFault> {
    let tree = FileTree::of_start(rule.alloc, rule.history.start())?;
    let mut replay = Replay::from_state(rule.alloc, tree);
    for era in eras {
        replay = run_era(replay, rule, era, counts)?;
    }
    Ok(())
}

/// How often each cause held, by the plan of a certificate; nothing where it can't be run.
fn causes_of(
    alloc: Global,
    history: &KnownCalls<'_>,
    certificate: &Certificate,
) -> Result<Option<CauseCounts>, AllocError> {
    let setting = TreeSetting {
        binds: bindings_of_plan(alloc, &history.lend(), certificate)?,
        start: Start::empty(alloc),
        profile: history.profile(),
    };
    let rule = Rule {
        alloc,
        history,
        setting: &setting,
        first: history.start().count() as u64,
    };
    let mut counts = CauseCounts::none();
    match run_eras(&rule, certificate.eras.as_slice(), &mut counts) {
        Ok(()) => Ok(Some(counts)),
        Err(StepFault::NotAllowed) => Ok(None),
        Err(StepFault::NoMemory) => Err(AllocError),
    }
}

/// How often each cause held where a call of this history file failed, by the serial order of this certificate; nothing where one of them
/// isn't well formed, or the order can't be run. It takes as long as `check_files`, and no clause says what is counted. An `Err` means that
/// memory ran out.
pub fn count_causes(
    alloc: Global,
    history: &[u8],
    certificate: &[u8],
) -> Result<Option<CauseCounts>, AllocError> {
    let history = match read_calls(alloc, history) {
        Ok(history) => history,
        Err(HistoryFault::NoMemory) => return Err(AllocError),
        Err(_) => return Ok(None),
    };
    match read_certificate(alloc, certificate) {
        Ok(certificate) => causes_of(alloc, &history, &certificate),
        Err(TextFault::NoMemory) => Err(AllocError),
        Err(_) => Ok(None),
    }
}
