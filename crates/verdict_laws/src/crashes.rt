//! What survives a crash.

ghost use Rattle.std.specs.Prelude.{◌≡◌, ◌≢◌, ◌≤◌, ◌<◌, ℕ, List, Some, IsTrue, length};
ghost use Rattle.nfs_history.specs.declared.knowing.KnownCalls.{KnownCalls};
ghost use Rattle.certificate.specs.declared.plan.Certificate.{Certificate};
ghost use Rattle.certificate.specs.declared.plan.EraPlan.{EraPlan};
ghost use Rattle.certificate.specs.Plan.{cut_of};
ghost use Rattle.cut_check.specs.Places.{bindings_of, effects_of, era_at};
ghost use Rattle.cut_check.specs.Stable.{IsStableAt};
ghost use Rattle.cut_check.specs.Verifier.{loses_write, Shows};
ghost use Rattle.witness_check.specs.Witness.{IsWitness};
ghost use Rattle.verdict_laws.specs.Kept.{SyncedIsLeft, WhatWasKept};

/// A crash takes no stable place away: the position of each one, from 1 on, is within its era's cut.
pub fn stable_places_are_kept()
    ensures { (history : KnownCalls) (plan : Certificate) (e position : ℕ) (era : EraPlan)
        → IsWitness history plan → era_at plan.eras e ≡ Some era → e < length plan.eras
        → IsStableAt (effects_of (bindings_of history.head.root plan.binds) history.calls era.places) position
        → position ≤ cut_of era }
{}

/// A WRITE that was answered DATA_SYNC or FILE_SYNC is left by the crash that ends its era. What a WRITE wrote that was left is
/// read in each later era, and before that in its own, byte by byte, unless a call in between that was left too wrote over it; no
/// READ says that the file ends before it. This holds whatever stood at first, and under each profile. Whether the file was removed
/// isn't asked: where the READ succeeds it wasn't, since no object comes back.
pub fn what_was_kept_is_read()
    ensures synced { SyncedIsLeft }
    ensures read { WhatWasKept }
{}

/// Two eras that each lost a WRITE of at least one byte never show the same write verifier.
pub fn lost_writes_show_different_verifiers()
    ensures { (history : KnownCalls) (plan : Certificate) (e f one other : ℕ) (era later : EraPlan)
        → IsWitness history plan → e ≢ f → era_at plan.eras e ≡ Some era → era_at plan.eras f ≡ Some later
        → IsTrue (loses_write history.calls era) → IsTrue (loses_write history.calls later)
        → Shows history.calls era.places one → Shows history.calls later.places other → one ≢ other }
{}
