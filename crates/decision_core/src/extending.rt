//! One step of the walk: at the answer of a call its states become all that come of a list of open calls that ends in it.

ghost use Rattle.std.specs.Prelude.{◌≡◌, Option, Some, ◌∷◌, [], Contains, IfOk};
ghost use Rattle.decision_core.specs.States.{ComeOf};
ghost use Rattle.decision_core.specs.Layers.{Grows, IsPutInto, HasPlacings, HasAllPlacings, IsSortedInto, IsSortedOut, ExtendsAll, ForgetsAll, SettlesAll};

use crate::machine::{Machine, Stop, Watch};
use crate::states::{States, no_states, put};
use std::alloc::Global;

/// Puts a state to the first ones where the call is placed, else to the second.
fn sort_into<M: Machine>(
    machine: &M,
    state: M::State,
    n: u64,
    with: &mut States<M::State>,
    without: &mut States<M::State>,
    most: usize,
) -> Result<(), Stop<M::Reason>>
    ghost of: { Option M.Origin }
    requires state { Some (M.origin state) ≡ of }
    requires with { ComeOf M.origin of with.old.items.items }
    requires without { ComeOf M.origin of without.old.items.items }
    ensures sorted { IfOk result (λ _. (Grows with.old.items.items with.new.items.items × Grows without.old.items.items without.new.items.items)
        × IsSortedInto (M.StandsFor machine.now) (M.placed machine.now) (M.Next machine.now) n with.new.items.items without.new.items.items state) }
    ensures origin { IfOk result (λ _. ComeOf M.origin of with.new.items.items × ComeOf M.origin of without.new.items.items) }
{
    if machine.is_placed(&state, n) {
        put(machine, with, state, most)
    } else {
        put(machine, without, state, most)
    }
}

/// The same for each of these states.
fn sort_out<M: Machine>(
    machine: &M,
    states: Vec<M::State>,
    n: u64,
    with: &mut States<M::State>,
    without: &mut States<M::State>,
    most: usize,
) -> Result<(), Stop<M::Reason>>
    ghost of: { Option M.Origin }
    requires states { ComeOf M.origin of states.items }
    requires with { ComeOf M.origin of with.old.items.items }
    requires without { ComeOf M.origin of without.old.items.items }
    ensures sorted { IfOk result (λ _. IsSortedOut (M.StandsFor machine.now) (M.placed machine.now) (M.Next machine.now) n states.items with.new.items.items without.new.items.items) }
    ensures origin { IfOk result (λ _. ComeOf M.origin of with.new.items.items × ComeOf M.origin of without.new.items.items) }
{
    for state in states {
        sort_into(machine, state, n, with, without, most)?;
    }
    Ok(())
}

/// Settles a state, and puts it to the first ones where call n is placed, else to the second.
fn put_settled<M: Machine>(
    machine: &M,
    state: M::State,
    calls: &[u64],
    n: u64,
    with: &mut States<M::State>,
    without: &mut States<M::State>,
    most: usize,
) -> Result<(), Stop<M::Reason>>
    ghost of: { Option M.Origin }
    requires state { Some (M.origin state) ≡ of }
    requires with { ComeOf M.origin of with.old.items.items }
    requires without { ComeOf M.origin of without.old.items.items }
    ensures put { IfOk result (λ _. (Grows with.old.items.items with.new.items.items × Grows without.old.items.items without.new.items.items)
        × IsPutInto (M.StandsFor machine.now) (M.placed machine.now) (M.Next machine.now) calls.now n with.new.items.items without.new.items.items state) }
    ensures origin { IfOk result (λ _. ComeOf M.origin of with.new.items.items × ComeOf M.origin of without.new.items.items) }
{
    let settled = machine.settle(state, calls)?;
    sort_into(machine, settled, n, with, without, most)?;
    Ok(())
}

/// The same for each of these states.
fn put_all<M: Machine>(
    machine: &M,
    states: Vec<M::State>,
    calls: &[u64],
    n: u64,
    with: &mut States<M::State>,
    without: &mut States<M::State>,
    most: usize,
) -> Result<(), Stop<M::Reason>>
    ghost of: { Option M.Origin }
    requires states { ComeOf M.origin of states.items }
    requires with { ComeOf M.origin of with.old.items.items }
    requires without { ComeOf M.origin of without.old.items.items }
    ensures put { IfOk result (λ _. (Grows with.old.items.items with.new.items.items × Grows without.old.items.items without.new.items.items)
        × ((s : M.State) → Contains states.items s → IsPutInto (M.StandsFor machine.now) (M.placed machine.now) (M.Next machine.now) calls.now n with.new.items.items without.new.items.items s)) }
    ensures origin { IfOk result (λ _. ComeOf M.origin of with.new.items.items × ComeOf M.origin of without.new.items.items) }
{
    for state in states {
        put_settled(machine, state, calls, n, with, without, most)?;
    }
    Ok(())
}

/// Puts all that come of placing one of these calls in a state there.
fn place_calls<M: Machine, W: Watch>(
    machine: &M,
    state: &M::State,
    calls: &[u64],
    n: u64,
    with: &mut States<M::State>,
    without: &mut States<M::State>,
    most: usize,
    watch: &mut W,
) -> Result<(), Stop<M::Reason>>
    ghost of: { Option M.Origin }
    requires state { Some (M.origin state.now) ≡ of }
    requires with { ComeOf M.origin of with.old.items.items }
    requires without { ComeOf M.origin of without.old.items.items }
    ensures placings { IfOk result (λ _. (Grows with.old.items.items with.new.items.items × Grows without.old.items.items without.new.items.items)
        × HasPlacings (M.StandsFor machine.now) (M.placed machine.now) (M.Next machine.now) calls.now n with.new.items.items without.new.items.items calls.now state.now) }
    ensures origin { IfOk result (λ _. ComeOf M.origin of with.new.items.items × ComeOf M.origin of without.new.items.items) }
{
    if watch.is_over() {
        return Err(Stop::Ended);
    }
    let after = machine.step_each(state, calls)?;
    put_all(machine, after, calls, n, with, without, most)?;
    Ok(())
}

/// The same for each of these states.
fn place_in_all<M: Machine, W: Watch>(
    machine: &M,
    each: &[M::State],
    calls: &[u64],
    n: u64,
    with: &mut States<M::State>,
    without: &mut States<M::State>,
    most: usize,
    watch: &mut W,
) -> Result<(), Stop<M::Reason>>
    ghost of: { Option M.Origin }
    requires each { ComeOf M.origin of each.now }
    requires with { ComeOf M.origin of with.old.items.items }
    requires without { ComeOf M.origin of without.old.items.items }
    ensures placings { IfOk result (λ _. (Grows with.old.items.items with.new.items.items × Grows without.old.items.items without.new.items.items)
        × HasAllPlacings (M.StandsFor machine.now) (M.placed machine.now) (M.Next machine.now) calls.now n with.new.items.items without.new.items.items each.now) }
    ensures origin { IfOk result (λ _. ComeOf M.origin of with.new.items.items × ComeOf M.origin of without.new.items.items) }
{
    for state in each {
        place_calls(machine, state, calls, n, with, without, most, watch)?;
    }
    Ok(())
}

/// What the states become at the answer of call n: each in which it is placed, and all that come of a list of open calls that ends
/// in it. Open calls are passed, and n.
#[tactic(auto, using(crate::proofs::Sets::none_come))]
pub(crate) fn extend<M: Machine, W: Watch>(
    alloc: Global,
    machine: &M,
    states: Vec<M::State>,
    calls: &[u64],
    n: u64,
    most: usize,
    watch: &mut W,
) -> Result<Vec<M::State>, Stop<M::Reason>>
    ghost of: { Option M.Origin }
    requires { ComeOf M.origin of states.items }
    ensures extends { IfOk result (λ after. ExtendsAll (M.StandsFor machine.now) (M.placed machine.now) (M.Next machine.now) calls.now n states.items after.items) }
    ensures origin { IfOk result (λ after. ComeOf M.origin of after.items) }
{
    let mut found = no_states(alloc);
    let mut layer = no_states(alloc);
    sort_out(machine, states, n, &mut found, &mut layer, most)?;
    for _round in 0..calls.len() {
        if layer.items.is_empty() {
            return Ok(found.items);
        }
        let mut next = no_states(alloc);
        place_in_all(
            machine,
            layer.items.as_slice(),
            calls,
            n,
            &mut found,
            &mut next,
            most,
            watch,
        )?;
        layer = next;
    }
    if layer.items.is_empty() {
        Ok(found.items)
    } else {
        Err(Stop::Ended)
    }
}

/// The states, which need not know of the call any more.
pub(crate) fn forget_in_all<M: Machine>(
    alloc: Global,
    machine: &M,
    states: Vec<M::State>,
    n: u64,
    most: usize,
) -> Result<Vec<M::State>, Stop<M::Reason>>
    ghost of: { Option M.Origin }
    requires { ComeOf M.origin of states.items }
    ensures forgets { IfOk result (λ after. ForgetsAll (M.StandsFor machine.now) (M.placed machine.now) (M.Next machine.now) n states.items after.items) }
    ensures origin { IfOk result (λ after. ComeOf M.origin of after.items) }
{
    let mut left = no_states(alloc);
    for state in states {
        put(machine, &mut left, machine.forget(state, n), most)?;
    }
    Ok(left.items)
}

/// The states, in each of which a call that is sent is placed where it may as well be placed at once.
pub(crate) fn settle_all<M: Machine>(
    alloc: Global,
    machine: &M,
    states: Vec<M::State>,
    n: u64,
    most: usize,
) -> Result<Vec<M::State>, Stop<M::Reason>>
    ghost of: { Option M.Origin }
    requires { ComeOf M.origin of states.items }
    ensures settles { IfOk result (λ after. SettlesAll (M.StandsFor machine.now) (M.placed machine.now) (M.Next machine.now) (n ∷ []) states.items after.items) }
    ensures origin { IfOk result (λ after. ComeOf M.origin of after.items) }
{
    let calls = [n];
    let mut settled = no_states(alloc);
    for state in states {
        let after = machine.settle(state, &calls)?;
        put(machine, &mut settled, after, most)?;
    }
    Ok(settled.items)
}
