//! That the definition of a plan of eras that is a witness isn't empty. No code runs: the law is the contract of a function that
//! does nothing.

ghost use Rattle.decision_core.specs.ErasExample.{SomePlanIsWitness};

/// Some plan of eras is a witness: one of two eras, the first of which loses its call.
pub fn some_plan_of_eras_is_a_witness()
    ensures { SomePlanIsWitness }
{}
