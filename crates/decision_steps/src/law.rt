//! What the states of a walk have to do with the plans of a whole history.

ghost use Rattle.decision_steps.specs.Placing.{PlansAreCovered, StatesAreOfPlans, HandlesStayBound};

/// A state after a call stands for the plans that the one before it stood for, and that go on by the call: no plan is lost, and each
/// of them goes on.
pub fn a_state_stands_for_its_plans()
    ensures covered { PlansAreCovered }
    ensures of_plans { StatesAreOfPlans }
    ensures bound { HandlesStayBound }
{}
