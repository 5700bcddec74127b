//! From a plan of eras to one order of calls and crashes.

ghost use Rattle.std.specs.Prelude.{ℕ};
ghost use Rattle.nfs_history.specs.declared.knowing.KnownCalls.{KnownCalls};
ghost use Rattle.decision_law.specs.NeverLost.{Hints};
ghost use Rattle.decision_law.specs.Times.{AreTimed};
ghost use Rattle.decision_law.specs.Laws.{CallsAreTimed, AreNumbered, HasEraWitness, HasOrder, OfEachWitness, NoOrderNoWitness, SpansTell, TwoVerifiersNoWitness};

/// The calls of a history begin and end as its eras say: each in its era, and each end behind its begin. So the numbers of its calls
/// and its crashes are a numbering by eras.
pub fn calls_are_timed()
    ensures timed { CallsAreTimed }
    ensures numbered { (known : KnownCalls) (start : ℕ → ℕ) (hints : Hints) → AreTimed known start → AreNumbered known start hints }
{}

/// The begins and ends of a history's calls and crashes are those of the times that an order of them keeps to.
pub fn spans_tell_the_times()
    ensures { SpansTell }
{}

/// A plan that is a witness is a witness of eras over the machine of the tree's rules, under what the plan's handles name (`eras`); and
/// so one order of calls and crashes that has all answered calls, respects real time and runs (`order`).
pub fn a_witness_is_one_order()
    ensures eras { OfEachWitness HasEraWitness }
    ensures order { OfEachWitness HasOrder }
{}

/// Where no order of calls and crashes is there, whatever handles name, no plan is a witness of the history.
pub fn no_order_no_witness()
    ensures { NoOrderNoWitness }
{}

/// Where two replies in one era show different write verifiers no plan is a witness either.
pub fn two_verifiers_no_witness()
    ensures { TwoVerifiersNoWitness }
{}
