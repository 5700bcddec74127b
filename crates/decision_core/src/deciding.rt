//! The walk over the events of a history.

ghost use Rattle.std.specs.Prelude.{◌≡◌, Option, Some, ◌++◌, ◌∷◌, ℕ, List, [], None, Contains, length, IfOk, IfSome};
ghost use Rattle.decision_core.specs.States.{ComeOf, RenewsAll, first_origin};
ghost use Rattle.decision_core.specs.Times.{Times};
ghost use Rattle.decision_core.specs.Decide.{IsWitness};
ghost use Rattle.decision_core.specs.Events.{Tells, IsAdded, IsWithout, IsAnswerStep, IsEventStep, IsAnswer, HasStateBehind};
ghost use Rattle.decision_core.specs.Walked.{NamesAnswer, IfNoWitness, HasState};

use crate::extending::{extend, forget_in_all, settle_all};
use crate::machine::{Machine, Stop, Watch};
use std::alloc::Global;

/// An event of a history.
#[derive(Clone, Copy)]
pub enum Event {
    /// A call is sent.
    Called(u64),
    /// Its reply comes.
    Answered(u64),
    /// A call is sent and answered at once, as a crash is.
    AtOnce(u64),
    /// Nothing that counts.
    Passed,
}

/// What a walk over all events comes to.
#[derive(Drop)]
pub enum Walked<S> {
    /// No order of the calls is a witness: at this event, from 0, the answer of this call, no state is left.
    NoWitness {
        /// The event.
        event: usize,
        /// The call that is answered there.
        call: u64,
    },
    /// These states are left behind the last event.
    Left(Vec<S>),
}

/// Puts a call into a list unless it is n.
fn add_other<R: Drop>(left: &mut Vec<u64>, call: u64, n: u64) -> Result<(), Stop<R>>
    ensures { IfOk result (λ _. IsAdded call n left.old.items left.new.items) }
{
    if call == n {
        return Ok(());
    }
    if left.push(call).is_err() {
        return Err(Stop::NoMemory);
    }
    Ok(())
}

/// The calls that are left without this one.
fn others<R: Drop>(alloc: Global, waiting: &[u64], n: u64) -> Result<Vec<u64>, Stop<R>>
    ensures { IfOk result (λ left. IsWithout n waiting.now left.items) }
{
    let mut left = Vec::new(alloc);
    for call in waiting {
        add_other(&mut left, *call, n)?;
    }
    Ok(left)
}

/// These calls, and one more.
fn and_call<R: Drop>(alloc: Global, calls: &[u64], n: u64) -> Result<Vec<u64>, Stop<R>>
    ensures { IfOk result (λ more. more.items ≡ calls.now ++ n ∷ []) }
{
    let mut more = Vec::from_slice(alloc, calls)?;
    if more.push(n).is_err() {
        return Err(Stop::NoMemory);
    }
    Ok(more)
}

/// The states from the last to the first. The last have more calls placed, so they may stand for the first ones too.
fn later_first<S>(states: Vec<S>) -> Vec<S>
    ensures has { (state : S) → Contains states.items state → Contains result.items state }
    ensures only { (state : S) → Contains result.items state → Contains states.items state }
{
    let mut states = states;
    states.reverse();
    states
}

/// What the answer of a call makes of the states and of the open calls.
fn take_answer<M: Machine, W: Watch>(
    alloc: Global,
    machine: &M,
    states: Vec<M::State>,
    waiting: Vec<u64>,
    n: u64,
    most: usize,
    watch: &mut W,
) -> Result<(Vec<M::State>, Vec<u64>), Stop<M::Reason>>
    ghost of: { Option M.Origin }
    requires { ComeOf M.origin of states.items }
    ensures step { IfOk result (λ pair. IsAnswerStep (M.StandsFor machine.now) (M.placed machine.now) (M.Next machine.now) n waiting.items pair.1.items states.items pair.0.items) }
    ensures origin { IfOk result (λ pair. ComeOf M.origin of pair.0.items) }
{
    let left = others(alloc, waiting.as_slice(), n)?;
    let calls = and_call(alloc, left.as_slice(), n)?;
    let extended = extend(alloc, machine, states, calls.as_slice(), n, most, watch)?;
    let after = forget_in_all(alloc, machine, later_first(extended), n, most)?;
    Ok((after, left))
}

/// What one event makes of them.
fn take_event<M: Machine, W: Watch>(
    alloc: Global,
    machine: &M,
    states: Vec<M::State>,
    waiting: Vec<u64>,
    event: Event,
    most: usize,
    watch: &mut W,
) -> Result<(Vec<M::State>, Vec<u64>), Stop<M::Reason>>
    ghost of: { Option M.Origin }
    requires { ComeOf M.origin of states.items }
    ensures step { IfOk result (λ pair. IsEventStep (M.StandsFor machine.now) (M.placed machine.now) (M.Next machine.now) event waiting.items pair.1.items states.items pair.0.items) }
    ensures origin { IfOk result (λ pair. ComeOf M.origin of pair.0.items) }
{
    match event {
        Event::Called(n) => {
            let mut waiting = waiting;
            if waiting.push(n).is_err() {
                return Err(Stop::NoMemory);
            }
            let settled = settle_all(alloc, machine, states, n, most)?;
            Ok((settled, waiting))
        }
        Event::Answered(n) => take_answer(alloc, machine, states, waiting, n, most, watch),
        Event::AtOnce(n) => take_answer(alloc, machine, states, waiting, n, most, watch),
        Event::Passed => Ok((states, waiting)),
    }
}

/// The call that is answered at an event, where no state is left behind it.
fn call_unexplained<S>(event: Event, states: &[S]) -> Option<u64>
    ensures some { IfSome result (λ call. IsAnswer event call × (states.now ≡ [])) }
    ensures none { result ≡ None → HasStateBehind event states.now }
{
    if !states.is_empty() {
        return None;
    }
    match event {
        Event::Answered(n) => Some(n),
        Event::AtOnce(n) => Some(n),
        Event::Called(_n) => None,
        Event::Passed => None,
    }
}

/// Whether one of these states is worn.
fn is_one_worn<M: Machine>(machine: &M, states: &[M::State]) -> bool {
    for state in states {
        if machine.is_worn(state) {
            return true;
        }
    }
    false
}

/// Puts a state there.
fn put_renewed<S: Drop, R: Drop>(after: &mut Vec<S>, state: S) -> Result<(), Stop<R>>
    ensures { IfOk result (λ _. after.new.items ≡ after.old.items ++ state ∷ []) }
{
    if after.push(state).is_err() {
        return Err(Stop::NoMemory);
    }
    Ok(())
}

/// These states, as ones that come of another one.
fn renewed_all<M: Machine>(
    alloc: Global,
    machine: &M,
    first: &M::State,
    states: Vec<M::State>,
) -> Result<Vec<M::State>, Stop<M::Reason>>
    requires { ComeOf M.origin (Some (M.origin first.now)) states.items }
    ensures has { IfOk result (λ after. RenewsAll (M.StandsFor machine.now) states.items after.items) }
    ensures many { IfOk result (λ after. length after.items ≡ length states.items) }
    ensures origin { IfOk result (λ after. ComeOf M.origin (Some (M.itself first.now)) after.items) }
{
    let mut after = Vec::new(alloc);
    for state in states {
        let renewed = machine.renew(first, state)?;
        put_renewed(&mut after, renewed)?;
    }
    Ok(after)
}

/// The states, which come of one of them where one is worn.
fn renewed<M: Machine>(
    alloc: Global,
    machine: &M,
    states: Vec<M::State>,
) -> Result<Vec<M::State>, Stop<M::Reason>>
    ghost of: { Option M.Origin }
    requires { ComeOf M.origin of states.items }
    ensures has { IfOk result (λ after. RenewsAll (M.StandsFor machine.now) states.items after.items) }
    ensures many { IfOk result (λ after. length after.items ≡ length states.items) }
    ensures origin { IfOk result (λ after. ComeOf M.origin (first_origin M.origin after.items) after.items) }
{
    if !is_one_worn(machine, states.as_slice()) {
        return Ok(states);
    }
    let mut states = states;
    let Some(first) = states.pop() else {
        return Ok(states);
    };
    let mut after = renewed_all(alloc, machine, &first, states)?;
    let renewed = machine.renew_first(first)?;
    put_renewed(&mut after, renewed)?;
    Ok(after)
}

/// Walks the events with states that stand for all that a plan can have come to, of which there may be so many at once. It reports the first
/// answer that leaves none: then no order of the calls is a witness, under any plan. Nothing is said where states are left.
#[tactic(auto, using(crate::proofs::Sets::first_comes))]
pub fn decide<M: Machine, W: Watch>(
    alloc: Global,
    machine: &M,
    events: &[Event],
    most: usize,
    watch: &mut W,
) -> Result<Walked<M::State>, Stop<M::Reason>>
    ensures answer { IfOk result (NamesAnswer events.now) }
    ensures left { IfOk result HasState }
    ensures none { IfOk result (IfNoWitness ((plan : M.Plan) (times : Times) → Tells times events.now
        → (order : List ℕ) → ¬ IsWitness (M.placed machine.now) (M.Next machine.now plan) times (M.first machine.now plan) order)) }
{
    let mut states = Vec::new(alloc);
    if states.push(machine.opening()?).is_err() {
        return Err(Stop::NoMemory);
    }
    let mut waiting = Vec::new(alloc);
    for (index, event) in events.iter().enumerate() {
        let (after, left) = take_event(alloc, machine, states, waiting, *event, most, watch)?;
        if let Some(call) = call_unexplained(*event, after.as_slice()) {
            return Ok(Walked::NoWitness {
                event: index,
                call: call,
            });
        }
        watch.see(index, after.len());
        states = renewed(alloc, machine, after)?;
        waiting = left;
    }
    Ok(Walked::Left(states))
}
