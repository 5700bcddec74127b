//! Which calls no crash takes away.

ghost use Rattle.std.specs.Prelude.{◌≡◌, None, IfOk, IsTrue};
ghost use Rattle.cut_check.specs.Effect.{is_synchronous, effect_of};
ghost use Rattle.cut_check.specs.declared.effect.Effect.TheVariants.{Lasting};
ghost use Rattle.decide.specs.Marking.{Lasts, IsSaved, IsKept, AreNeverLost};

use crate::saving::{as_commit, as_write, commits, shows_again};
use crate::verifiers::shown_by;
use nfs_history::{History, Meaning, RecordedCall, succeeded, write_success};
use nfs3_types::{FileHandle, NfsCall, Outcome, StableHow};
use std::alloc::{AllocError, Global};
use std::collections::BTreeMap;

/// Whether a call changes the tree or an object, and is no WRITE.
fn is_synchronous(call: &NfsCall) -> bool
    ensures { result ≡ is_synchronous call.now }
{
    matches!(
        call,
        NfsCall::SetAttr(_)
            | NfsCall::Create(_)
            | NfsCall::MkDir(_)
            | NfsCall::SymLink(_)
            | NfsCall::Remove(_)
            | NfsCall::RmDir(_)
            | NfsCall::Rename(_)
    )
}

/// Whether a call was a WRITE that was answered as synced.
fn is_synced(call: &NfsCall, outcome: &Outcome) -> bool
    ensures { IsTrue result → effect_of None call.now outcome.now ≡ Lasting }
{
    let NfsCall::Write(_write) = call else {
        return false;
    };
    let Some(success) = write_success(outcome) else {
        return false;
    };
    match success.level {
        StableHow::Unstable => false,
        StableHow::DataSync => true,
        StableHow::FileSync => true,
    }
}

/// Whether a call that came out so is on stable storage by itself.
fn is_lasting(call: &NfsCall, outcome: &Outcome) -> bool
    ensures { IsTrue result → effect_of None call.now outcome.now ≡ Lasting }
{
    if is_synchronous(call) {
        succeeded(call, outcome)
    } else {
        is_synced(call, outcome)
    }
}

/// Whether a call is.
fn lasts(recorded: &RecordedCall) -> bool
    ensures { IsTrue result → Lasts recorded.now }
{
    let Meaning::Judged(call) = &recorded.meaning else {
        return false;
    };
    let Some(outcome) = &recorded.outcome else {
        return false;
    };
    let Some(_at) = recorded.end else {
        return false;
    };
    is_lasting(call, outcome)
}

/// Where to look for what keeps a WRITE: in each era the last COMMIT with a handle, and the last call that shows a write verifier.
#[derive(Drop)]
struct Latest {
    commits: BTreeMap<Vec<u8>, u64>,
    verifiers: BTreeMap<u64, u64>,
}

/// An era and a handle as a key.
fn key_of(alloc: Global, era: u64, file: &FileHandle) -> Result<Vec<u8>, AllocError> {
    let mut key = Vec::from_slice(alloc, &era.to_be_bytes())?;
    key.extend_from_slice(file.as_slice())?;
    Ok(key)
}

/// Notes a call.
fn note(
    alloc: Global,
    latest: &mut Latest,
    recorded: &RecordedCall,
    number: u64,
) -> Result<(), AllocError> {
    if let Some(commit) = as_commit(recorded) {
        let key = key_of(alloc, recorded.era, &commit.call.file)?;
        latest.commits.insert(key, number)?;
    }
    if let Some(shown) = shown_by(recorded, number) {
        latest.verifiers.insert(shown.verifier, number)?;
    }
    Ok(())
}

/// Notes all calls.
fn note_all(alloc: Global, history: &History) -> Result<Latest, AllocError> {
    let mut latest = Latest {
        commits: BTreeMap::new(alloc),
        verifiers: BTreeMap::new(alloc),
    };
    for (place, recorded) in history.recorded_calls().iter().enumerate() {
        note(alloc, &mut latest, recorded, place as u64 + 1)?;
    }
    Ok(latest)
}

/// Whether a COMMIT keeps the call, a WRITE.
fn is_committed(
    alloc: Global,
    history: &History,
    latest: &Latest,
    recorded: &RecordedCall,
) -> Result<bool, AllocError>
    ensures { IfOk result (λ saved. IsTrue saved → IsSaved history.now.known.calls recorded.now) }
{
    let Some(write) = as_write(recorded) else {
        return Ok(false);
    };
    let key = key_of(alloc, recorded.era, &write.call.file)?;
    let Some(number) = latest.commits.get(&key).copied() else {
        return Ok(false);
    };
    let Some(later) = history.find_call(number) else {
        return Ok(false);
    };
    Ok(commits(recorded, later))
}

/// Whether a later era shows the verifier of the call, a WRITE.
fn is_shown_later(history: &History, latest: &Latest, recorded: &RecordedCall) -> bool
    ensures { IsTrue result → IsSaved history.now.known.calls recorded.now }
{
    let Some(write) = as_write(recorded) else {
        return false;
    };
    let Some(number) = latest.verifiers.get(&write.success.verifier.value).copied() else {
        return false;
    };
    let Some(later) = history.find_call(number) else {
        return false;
    };
    shows_again(recorded, later)
}

/// Whether a call is lost in no crash, in an era ahead of the last one.
fn is_kept(
    alloc: Global,
    history: &History,
    latest: &Latest,
    recorded: &RecordedCall,
) -> Result<bool, AllocError>
    ensures { IfOk result (λ kept. IsTrue kept → IsKept history.now.known.calls recorded.now) }
{
    if recorded.era >= history.eras() {
        return Ok(false);
    }
    if lasts(recorded) {
        return Ok(true);
    }
    if is_shown_later(history, latest, recorded) {
        return Ok(true);
    }
    is_committed(alloc, history, latest, recorded)
}

/// For each call whether it is one that no crash takes away, in the eras that a crash ends.
pub(crate) fn marks_of(alloc: Global, history: &History) -> Result<Vec<bool>, AllocError>
    ensures { IfOk result (λ marks. AreNeverLost history.now.known marks.items) }
{
    let latest = note_all(alloc, history)?;
    let mut marks = Vec::new(alloc);
    let calls = history.recorded_calls();
    for index in 0..calls.len() {
        marks.push(is_kept(alloc, history, &latest, &calls[index])?)?;
    }
    Ok(marks)
}
