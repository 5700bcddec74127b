//! Whether each cut of a plan keeps the stable places of its era.

ghost use Rattle.std.specs.Prelude.{◌≡◌, ◌⊎◌, ℕ, Err, IfOk, OnOk, MatchOption};
ghost use Rattle.tree_handles.specs.Binding.{Bindings};
ghost use Rattle.cut_check.specs.declared.fault.CutFault.{CutFault};
ghost use Rattle.cut_check.specs.Stable.{IsLastStable};
ghost use Rattle.cut_check.specs.Places.{bindings_of, effects_of};
ghost use Rattle.cut_check.specs.Cut.{CutsKeepStable};
ghost use Rattle.cut_check.specs.ShortCut.{IsShortCut};
ghost use Rattle.cut_check.specs.FaultNamed.{HasNoCutFault};

use crate::fault::CutFault;
use crate::places::{bindings_of_plan, cut_of, effect_at};
use crate::stability::Stability;
use certificate::{Certificate, EraPlan, Place};
use nfs_history::{History, LentCalls};
use std::alloc::{AllocError, Global};
use tree_handles::Binds;

/// The position of the last stable place of an era, or 0.
fn last_stable(
    alloc: Global,
    history: &LentCalls<'_, '_>,
    binds: &Binds,
    places: &[Place],
) -> Result<u64, AllocError>
    ensures { IfOk result (λ needed. IsLastStable (effects_of binds.now history.now.calls places.now) needed) }
{
    let mut stability = Stability::new(alloc);
    for place in places {
        let effect = effect_at(alloc, history, binds, *place)?;
        stability.note_effect(effect)?;
    }
    Ok(stability.needed())
}

/// The first era whose cut is short, and the position that it should have kept.
fn first_short_cut(
    alloc: Global,
    history: &LentCalls<'_, '_>,
    binds: &Binds,
    eras: &[EraPlan],
) -> Result<Option<(u64, u64)>, AllocError>
    ensures { IfOk result (λ found. MatchOption found (CutsKeepStable binds.now history.now.calls eras.now)
        (λ short. IsShortCut binds.now history.now.calls eras.now short.0 short.1)) }
{
    for number in 1..eras.len() {
        let era = &eras[number - 1];
        let needed = last_stable(alloc, history, binds, era.places.as_slice())?;
        if cut_of(era) < needed {
            return Ok(Some((number as u64, needed)));
        }
    }
    Ok(None)
}

/// Whether each cut keeps the stable places of its era.
pub fn check_cuts(
    alloc: Global,
    history: &History,
    certificate: &Certificate,
) -> Result<(), CutFault>
    ensures ok { OnOk result (CutsKeepStable (bindings_of history.now.known.head.root certificate.now.binds) history.now.known.calls certificate.now.eras) }
    // A plan whose cuts keep them is refused for want of memory alone.
    ensures only { CutsKeepStable (bindings_of history.now.known.head.root certificate.now.binds) history.now.known.calls certificate.now.eras
        → HasNoCutFault result }
    // The fault that is told is the first, and the first is told.
    ensures fault { (e needed : ℕ) → result ≡ Err (CutFault.ShortCut e needed)
        → IsShortCut (bindings_of history.now.known.head.root certificate.now.binds) history.now.known.calls certificate.now.eras e needed }
    ensures named { (e needed : ℕ) → IsShortCut (bindings_of history.now.known.head.root certificate.now.binds) history.now.known.calls certificate.now.eras e needed
        → (result ≡ Err (CutFault.ShortCut e needed)) ⊎ (result ≡ Err CutFault.NoMemory) }
{
    // No crash ends the last era.
    if certificate.eras.as_slice().len() <= 1 {
        return Ok(());
    }
    let calls = history.lend();
    let binds = bindings_of_plan(alloc, &calls, certificate)?;
    check_cuts_of_calls(alloc, &calls, &binds, certificate)
}

/// The same of a history whose calls these are, where its handles name these objects.
pub fn check_cuts_of_calls(
    alloc: Global,
    calls: &LentCalls<'_, '_>,
    binds: &Binds,
    certificate: &Certificate,
) -> Result<(), CutFault>
    ensures ok { OnOk result (CutsKeepStable binds.now calls.now.calls certificate.now.eras) }
    // A plan whose cuts keep them is refused for want of memory alone.
    ensures only { CutsKeepStable binds.now calls.now.calls certificate.now.eras
        → HasNoCutFault result }
    // The fault that is told is the first, and the first is told.
    ensures fault { (e needed : ℕ) → result ≡ Err (CutFault.ShortCut e needed)
        → IsShortCut binds.now calls.now.calls certificate.now.eras e needed }
    ensures named { (e needed : ℕ) → IsShortCut binds.now calls.now.calls certificate.now.eras e needed
        → (result ≡ Err (CutFault.ShortCut e needed)) ⊎ (result ≡ Err CutFault.NoMemory) }
{
    match first_short_cut(alloc, calls, binds, certificate.eras.as_slice())? {
        Some((era, needed)) => Err(CutFault::ShortCut { era, needed }),
        None => Ok(()),
    }
}
