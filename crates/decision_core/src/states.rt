//! States of a walk, of which no two are the same.

ghost use Rattle.std.specs.Prelude.{◌≡◌, Some, [], Contains, IfOk, IsTrue};
ghost use Rattle.decision_core.specs.States.{HasFor, ComeOf};
ghost use Rattle.decision_core.specs.Layers.{Grows};

use crate::machine::{Machine, Stop};
use std::alloc::Global;
use std::collections::BTreeMap;

/// States, with a table by their hashes that only finds where to look.
#[derive(Drop)]
pub(crate) struct States<S> {
    /// The states.
    pub(crate) items: Vec<S>,
    /// The latest state with a hash.
    latest: BTreeMap<u64, usize>,
    /// For each state the one ahead of it with its hash.
    ahead: Vec<Option<usize>>,
}

/// No states.
pub(crate) fn no_states<S: Drop>(alloc: Global) -> States<S>
    ensures { result.items.items ≡ [] }
{
    States {
        items: Vec::new(alloc),
        latest: BTreeMap::new(alloc),
        ahead: Vec::new(alloc),
    }
}

/// Whether a state is there that is the same.
fn has_same<M: Machine>(machine: &M, states: &States<M::State>, state: &M::State, hash: u64) -> bool
    requires { ComeOf M.origin (Some (M.origin state.now)) states.now.items.items }
    ensures { IsTrue result → HasFor (M.StandsFor machine.now) states.now.items.items state.now }
{
    let mut at = states.latest.get(&hash).copied();
    for _ in 0..states.items.len() {
        let Some(place) = at else {
            return false;
        };
        let Some(other) = states.items.get(place) else {
            return false;
        };
        if machine.is_same(state, other) {
            return true;
        }
        at = ahead_of(&states.ahead, place);
    }
    false
}

/// The state ahead of this one with its hash.
fn ahead_of(ahead: &[Option<usize>], place: usize) -> Option<usize> {
    let found = ahead.get(place)?;
    *found
}

/// Puts a state there, unless the same one is.
pub(crate) fn put<M: Machine>(
    machine: &M,
    states: &mut States<M::State>,
    state: M::State,
    most: usize,
) -> Result<(), Stop<M::Reason>>
    requires { ComeOf M.origin (Some (M.origin state)) states.old.items.items }
    ensures has { IfOk result (λ _. Grows states.old.items.items states.new.items.items × HasFor (M.StandsFor machine.now) states.new.items.items state) }
    ensures origin { IfOk result (λ _. ComeOf M.origin (Some (M.origin state)) states.new.items.items) }
{
    let hash = machine.hash(&state);
    if has_same(machine, states, &state, hash) {
        return Ok(());
    }
    let place = states.items.len();
    if place >= most {
        return Err(Stop::TooManyStates);
    }
    if note(states, hash, place).is_err() {
        return Err(Stop::NoMemory);
    }
    if states.items.push(state).is_err() {
        return Err(Stop::NoMemory);
    }
    Ok(())
}

/// Notes where the next state will be.
fn note<S: Drop>(
    states: &mut States<S>,
    hash: u64,
    place: usize,
) -> Result<(), std::alloc::AllocError>
    ensures { states.new.items ≡ states.old.items }
{
    let earlier = states.latest.insert(hash, place)?;
    states.ahead.push(earlier)?;
    Ok(())
}
