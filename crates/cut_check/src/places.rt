//! The calls at an era's places, and what their handles name.

ghost use Rattle.std.specs.Prelude.{◌≡◌, IfOk};
ghost use Rattle.nfs_history.specs.Precedence.{call_at};
ghost use Rattle.nfs_history.specs.Storage.{storage_value};
ghost use Rattle.certificate.specs.Plan.{cut_of};
ghost use Rattle.cut_check.specs.Places.{bindings_of, effect_at};
ghost use Rattle.cut_check.specs.Stored.{effect_of_storage, effect_of_stored, effect_of_changing};
ghost use Rattle.cut_check.specs.Procedures.{procedure_answered, procedure_at};

use crate::effect::Effect;
use crate::procedures::{may_last, may_show_verifier};
use certificate::{Bind, Certificate, EraPlan, Place};
use nfs_history::{CallKind, LentCalls, StorageCall};
use nfs3_types::{Procedure, StableHow};
use std::alloc::{AllocError, Global};
use tree_handles::Binds;

/// What each handle names.
pub fn bindings(alloc: Global, root: &[u8], binds: &[Bind]) -> Result<Binds, AllocError>
    ensures { IfOk result (λ b. b ≡ bindings_of root.now binds.now) }
{
    let mut bindings = Binds::of_root(alloc, root)?;
    for bind in binds {
        bindings.push(bind.handle.as_slice(), bind.object)?;
    }
    Ok(bindings)
}

/// What the handles of a history name, as a plan has it.
pub fn bindings_of_plan(
    alloc: Global,
    calls: &LentCalls<'_, '_>,
    certificate: &Certificate,
) -> Result<Binds, AllocError>
    ensures { IfOk result (λ b. b ≡ bindings_of calls.now.head.root certificate.now.binds) }
{
    bindings(alloc, calls.root().as_slice(), certificate.binds.as_slice())
}

/// How many places of an era are kept.
pub fn cut_of(era: &EraPlan) -> u64
    ensures { result ≡ cut_of era.now }
{
    match era.cut {
        Some(cut) => cut,
        None => era.places.as_slice().len() as u64,
    }
}

/// The procedure that a kind of call has, where it was judged and answered.
fn procedure_answered(kind: CallKind) -> Option<Procedure>
    ensures { result ≡ procedure_answered kind }
{
    match kind {
        CallKind::Answered(procedure, _) => Some(procedure),
        CallKind::Unanswered(_) | CallKind::Unjudged => None,
    }
}

/// The procedure of the judged call at an answered place. The call isn't read.
pub fn procedure_at(calls: &LentCalls<'_, '_>, place: Place) -> Option<Procedure>
    ensures { result ≡ procedure_at calls.now.calls place }
{
    let Place::Answered(number) = place else {
        return None;
    };
    match calls.kind(number) {
        Some(kind) => procedure_answered(kind),
        None => None,
    }
}

/// What a WRITE or a COMMIT that succeeded means for stable storage, where its handle names this object.
fn effect_of_storage(object: Option<u64>, call: &StorageCall<'_>) -> Effect
    ensures { result ≡ effect_of_storage object (storage_value call.now) }
{
    let (offset, count) = (call.offset, call.count);
    match (call.level, object) {
        (Some(StableHow::DataSync | StableHow::FileSync), _) => Effect::Lasting,
        (_, None) => Effect::Nothing,
        (Some(StableHow::Unstable), Some(object)) => Effect::Unstable {
            object,
            offset,
            count,
        },
        (None, Some(object)) => Effect::Committed {
            object,
            offset,
            count,
        },
    }
}

/// What a WRITE or a COMMIT with this number means for stable storage.
fn effect_of_stored(
    alloc: Global,
    calls: &LentCalls<'_, '_>,
    binds: &Binds,
    number: u64,
) -> Result<Effect, AllocError>
    ensures { IfOk result (λ effect. effect ≡ effect_of_stored binds.now (call_at calls.now.calls number)) }
{
    match calls.storage(alloc, number)? {
        Some(call) => Ok(effect_of_storage(binds.object(call.file), &call)),
        None => Ok(Effect::Nothing),
    }
}

/// What another call with this number means for stable storage that changes the tree or an object.
fn effect_of_changing(
    alloc: Global,
    calls: &LentCalls<'_, '_>,
    number: u64,
) -> Result<Effect, AllocError>
    ensures { IfOk result (λ effect. effect ≡ effect_of_changing (call_at calls.now.calls number)) }
{
    if calls.succeeded(alloc, number)? {
        Ok(Effect::Lasting)
    } else {
        Ok(Effect::Nothing)
    }
}

/// What a place means for stable storage. A call that can't mean anything isn't read, and no call's bytes are copied.
pub fn effect_at(
    alloc: Global,
    calls: &LentCalls<'_, '_>,
    binds: &Binds,
    place: Place,
) -> Result<Effect, AllocError>
    ensures { IfOk result (λ effect. effect ≡ effect_at binds.now calls.now.calls place) }
{
    let Some(procedure) = procedure_at(calls, place) else {
        return Ok(Effect::Nothing);
    };
    let number = place.number();
    if may_show_verifier(procedure) {
        return effect_of_stored(alloc, calls, binds, number);
    }
    if may_last(procedure) {
        return effect_of_changing(alloc, calls, number);
    }
    Ok(Effect::Nothing)
}
