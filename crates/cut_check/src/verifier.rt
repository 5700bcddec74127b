//! Whether the write verifiers of a plan's eras agree.

ghost use Rattle.std.specs.Prelude.{◌≡◌, ◌↔◌, ◌⊎◌, ℕ, Err, IsTrue, false, IfOk, OnOk, MatchOption};
ghost use Rattle.std.specs.List.{list_any};
ghost use Rattle.cut_check.specs.declared.fault.VerifierFault.{VerifierFault};
ghost use Rattle.nfs_history.specs.Storage.{storage_value};
ghost use Rattle.cut_check.specs.Stored.{brought_bytes};
ghost use Rattle.cut_check.specs.Verifier.{verifier_of, verifier_at, writes_bytes_at, loses_write, VerifiersAgree};
ghost use Rattle.cut_check.specs.VerifierFault.{IsVerifierFault};
ghost use Rattle.cut_check.specs.Shown.{IsShown, IsShownWith, AddsSeen, AddsShown, IsAtFaultWith};
ghost use Rattle.cut_check.specs.FaultNamed.{HasNoVerifierFault};

use crate::fault::VerifierFault;
use crate::places::{cut_of, procedure_at};
use crate::procedures::{may_show_verifier, may_write};
use certificate::{Certificate, EraPlan, Place};
use nfs_history::{History, LentCalls, StorageCall, commit_success, write_success};
use nfs3_types::{NfsCall, Outcome};
use std::alloc::{AllocError, Global};
use std::collections::BTreeSet;

/// The write verifiers that places show.
#[derive(Clone, Copy)]
enum Shown {
    Nothing,
    One(u64),
    Several,
}

/// The write verifier that the reply to a call shows.
pub fn shown_verifier(call: &NfsCall, outcome: &Outcome) -> Option<u64>
    ensures { result ≡ verifier_of call.now outcome.now }
{
    match call {
        NfsCall::Write(_write) => match write_success(outcome) {
            Some(success) => Some(success.verifier.value),
            None => None,
        },
        NfsCall::Commit(_commit) => match commit_success(outcome) {
            Some(success) => Some(success.verifier.value),
            None => None,
        },
        _ => None,
    }
}

/// The verifier that a place shows. A call that can show none isn't read.
fn verifier_at(
    alloc: Global,
    calls: &LentCalls<'_, '_>,
    place: Place,
) -> Result<Option<u64>, AllocError>
    ensures { IfOk result (λ seen. seen ≡ verifier_at calls.now.calls place) }
{
    let Some(procedure) = procedure_at(calls, place) else {
        return Ok(None);
    };
    if !may_show_verifier(procedure) {
        return Ok(None);
    }
    match calls.storage(alloc, place.number())? {
        Some(call) => Ok(Some(call.verifier)),
        None => Ok(None),
    }
}

/// Whether a WRITE wrote at least one byte.
fn wrote_bytes(call: &StorageCall<'_>) -> bool
    ensures { result ≡ brought_bytes (storage_value call.now) }
{
    call.level.is_some() && 0 < call.count
}

/// Whether a place wrote at least one byte. A call that can't have isn't read.
fn writes_bytes_at(
    alloc: Global,
    calls: &LentCalls<'_, '_>,
    place: Place,
) -> Result<bool, AllocError>
    ensures { IfOk result (λ writes. writes ≡ writes_bytes_at calls.now.calls place) }
{
    let Some(procedure) = procedure_at(calls, place) else {
        return Ok(false);
    };
    if !may_write(procedure) {
        return Ok(false);
    }
    match calls.storage(alloc, place.number())? {
        Some(call) => Ok(wrote_bytes(&call)),
        None => Ok(false),
    }
}

/// What places show with one more.
fn shown_with(so_far: Shown, seen: Option<u64>) -> Shown
    ensures { IsShownWith so_far seen result }
{
    let Some(verifier) = seen else {
        return so_far;
    };
    match so_far {
        Shown::Nothing => Shown::One(verifier),
        Shown::One(one) => {
            if one == verifier {
                so_far
            } else {
                Shown::Several
            }
        }
        Shown::Several => Shown::Several,
    }
}

/// What places show.
fn shown_of(
    alloc: Global,
    history: &LentCalls<'_, '_>,
    places: &[Place],
) -> Result<Shown, AllocError>
    ensures { IfOk result (IsShown history.now.calls places.now) }
{
    let mut shown = Shown::Nothing;
    for place in places {
        let seen = verifier_at(alloc, history, *place)?;
        shown = shown_with(shown, seen);
    }
    Ok(shown)
}

/// Whether some place wrote at least one byte.
fn any_writes(
    alloc: Global,
    history: &LentCalls<'_, '_>,
    places: &[Place],
) -> Result<bool, AllocError>
    ensures { IfOk result (λ any. any ≡ list_any (writes_bytes_at history.now.calls) places.now) }
{
    for place in places {
        if writes_bytes_at(alloc, history, *place)? {
            return Ok(true);
        }
    }
    Ok(false)
}

/// Whether a place past an era's cut wrote at least one byte.
fn loses_write(
    alloc: Global,
    history: &LentCalls<'_, '_>,
    era: &EraPlan,
) -> Result<bool, AllocError>
    ensures { IfOk result (λ loses. loses ≡ loses_write history.now.calls era.now) }
{
    let places = era.places.as_slice();
    let cut = cut_of(era) as usize;
    if places.len() <= cut {
        return Ok(false);
    }
    any_writes(alloc, history, &places[cut..])
}

/// Adds to a set the verifier that a place shows, if any.
fn add_seen(set: &mut BTreeSet<u64>, seen: Option<u64>) -> Result<(), AllocError>
    ensures { IfOk result (λ _. AddsSeen seen set.old set.new) }
{
    if let Some(verifier) = seen {
        set.insert(verifier)?;
    }
    Ok(())
}

/// Adds to a set the verifiers that places show, where they show several.
fn add_each(
    alloc: Global,
    set: &mut BTreeSet<u64>,
    history: &LentCalls<'_, '_>,
    places: &[Place],
) -> Result<(), AllocError>
    ensures { IfOk result (λ _. AddsShown history.now.calls places.now set.old set.new) }
{
    for place in places {
        let seen = verifier_at(alloc, history, *place)?;
        add_seen(set, seen)?;
    }
    Ok(())
}

/// Adds to a set the verifiers that places show. They are gone through again where they show several.
fn add_shown(
    alloc: Global,
    set: &mut BTreeSet<u64>,
    history: &LentCalls<'_, '_>,
    places: &[Place],
    shown: Shown,
) -> Result<(), AllocError>
    requires { IsShown history.now.calls places.now shown }
    ensures { IfOk result (λ _. AddsShown history.now.calls places.now set.old set.new) }
{
    match shown {
        Shown::Nothing => Ok(()),
        Shown::One(verifier) => add_seen(set, Some(verifier)),
        Shown::Several => add_each(alloc, set, history, places),
    }
}

/// Whether an era is at fault that shows this, where the set has the verifiers that later eras show.
fn is_at_fault(
    alloc: Global,
    history: &LentCalls<'_, '_>,
    era: &EraPlan,
    shown: Shown,
    later: &BTreeSet<u64>,
) -> Result<bool, AllocError>
    requires { IsShown history.now.calls era.now.places shown }
    ensures { IfOk result (λ fault. IsTrue fault ↔ IsAtFaultWith history.now.calls era.now later.now) }
{
    match shown {
        Shown::Nothing => Ok(false),
        Shown::One(verifier) => {
            if later.contains(&verifier) {
                loses_write(alloc, history, era)
            } else {
                Ok(false)
            }
        }
        Shown::Several => Ok(true),
    }
}

/// The first era at fault.
fn first_at_fault(
    alloc: Global,
    history: &LentCalls<'_, '_>,
    eras: &[EraPlan],
) -> Result<Option<u64>, AllocError>
    ensures { IfOk result (λ found. MatchOption found (VerifiersAgree history.now.calls eras.now)
        (IsVerifierFault history.now.calls eras.now)) }
{
    let mut later = BTreeSet::new(alloc);
    let mut found = None;
    for index in (0..eras.len()).rev() {
        let era = &eras[index];
        let places = era.places.as_slice();
        let shown = shown_of(alloc, history, places)?;
        if is_at_fault(alloc, history, era, shown, &later)? {
            found = Some(index as u64 + 1);
        }
        add_shown(alloc, &mut later, history, places, shown)?;
    }
    Ok(found)
}

/// Whether each era shows one write verifier, and none that an era ahead of it had when it lost a WRITE.
pub fn check_verifiers(
    alloc: Global,
    history: &History,
    certificate: &Certificate,
) -> Result<(), VerifierFault>
    ensures ok { OnOk result (VerifiersAgree history.now.known.calls certificate.now.eras) }
    // A plan whose verifiers agree is refused for want of memory alone.
    ensures only { VerifiersAgree history.now.known.calls certificate.now.eras → HasNoVerifierFault result }
    // The fault that is told is the first, and the first is told.
    ensures fault { (e : ℕ) → result ≡ Err (VerifierFault.Verifier e) → IsVerifierFault history.now.known.calls certificate.now.eras e }
    ensures named { (e : ℕ) → IsVerifierFault history.now.known.calls certificate.now.eras e
        → (result ≡ Err (VerifierFault.Verifier e)) ⊎ (result ≡ Err VerifierFault.NoMemory) }
{
    check_verifiers_of_calls(alloc, &history.lend(), certificate)
}

/// The same of a history whose calls these are.
pub fn check_verifiers_of_calls(
    alloc: Global,
    calls: &LentCalls<'_, '_>,
    certificate: &Certificate,
) -> Result<(), VerifierFault>
    ensures ok { OnOk result (VerifiersAgree calls.now.calls certificate.now.eras) }
    // A plan whose verifiers agree is refused for want of memory alone.
    ensures only { VerifiersAgree calls.now.calls certificate.now.eras → HasNoVerifierFault result }
    // The fault that is told is the first, and the first is told.
    ensures fault { (e : ℕ) → result ≡ Err (VerifierFault.Verifier e) → IsVerifierFault calls.now.calls certificate.now.eras e }
    ensures named { (e : ℕ) → IsVerifierFault calls.now.calls certificate.now.eras e
        → (result ≡ Err (VerifierFault.Verifier e)) ⊎ (result ≡ Err VerifierFault.NoMemory) }
{
    match first_at_fault(alloc, calls, certificate.eras.as_slice())? {
        Some(era) => Err(VerifierFault::Verifier(era)),
        None => Ok(()),
    }
}
