//! What is accepted where the server never went down.

ghost use Rattle.std.specs.Prelude.{◌≡◌, [], ◌∷◌};
ghost use Rattle.nfs_history.specs.declared.knowing.KnownCalls.{KnownCalls};
ghost use Rattle.certificate.specs.declared.plan.Certificate.{Certificate};
ghost use Rattle.certificate.specs.declared.plan.EraPlan.{EraPlan};
ghost use Rattle.witness_check.specs.Witness.{IsWitness};
ghost use Rattle.verdict_laws.specs.Without.{IsLinearization};

/// A plan that is accepted for a history of one era is a linearization, by the definition that knows no crashes.
pub fn without_a_crash_the_order_is_linear()
    ensures { (history : KnownCalls) (plan : Certificate) → IsWitness history plan → history.eras ≡ 1
        → (era : EraPlan) × (plan.eras ≡ era ∷ []) × IsLinearization history plan era.places }
{}
