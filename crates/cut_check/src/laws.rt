//! That there is one last stable place, and at most one first fault of a kind, with which a plan lacks the property. No code runs.

ghost use Rattle.std.specs.Prelude.{◌≡◌, ℕ, List};
ghost use Rattle.nfs_history.specs.declared.recorded.RecordedCall.{RecordedCall};
ghost use Rattle.certificate.specs.declared.plan.EraPlan.{EraPlan};
ghost use Rattle.tree_handles.specs.Binding.{Bindings};
ghost use Rattle.cut_check.specs.declared.effect.Effect.{Effect};
ghost use Rattle.cut_check.specs.Stable.{IsLastStable};
ghost use Rattle.cut_check.specs.Cut.{CutsKeepStable};
ghost use Rattle.cut_check.specs.ShortCut.{IsShortCut};
ghost use Rattle.cut_check.specs.Verifier.{VerifiersAgree};
ghost use Rattle.cut_check.specs.VerifierFault.{IsVerifierFault};

/// Places have one last stable position at most.
pub fn one_last_stable()
    ensures { (effects : List Effect) (one other : ℕ) → IsLastStable effects one → IsLastStable effects other → one ≡ other }
{}

/// A plan has at most one first short cut, and with one its cuts don't keep what is stable.
pub fn one_first_short_cut()
    ensures one { (binds : Bindings) (calls : List RecordedCall) (eras : List EraPlan) (d e one other : ℕ)
        → IsShortCut binds calls eras d one → IsShortCut binds calls eras e other → (d ≡ e) × (one ≡ other) }
    ensures excludes { (binds : Bindings) (calls : List RecordedCall) (eras : List EraPlan) (e needed : ℕ)
        → IsShortCut binds calls eras e needed → ¬ CutsKeepStable binds calls eras }
{}

/// A plan has at most one first fault of its verifiers, and with one they don't agree.
pub fn one_first_verifier_fault()
    ensures one { (calls : List RecordedCall) (eras : List EraPlan) (d e : ℕ)
        → IsVerifierFault calls eras d → IsVerifierFault calls eras e → d ≡ e }
    ensures excludes { (calls : List RecordedCall) (eras : List EraPlan) (e : ℕ)
        → IsVerifierFault calls eras e → ¬ VerifiersAgree calls eras }
{}
