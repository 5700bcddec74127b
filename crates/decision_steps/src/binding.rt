//! Binding the handles that a reply gives.

ghost use Rattle.std.specs.Prelude.{◌≡◌, None, Some, Err, IfOk, OnOk};
ghost use Rattle.std.specs.Arc.{arc_value};
ghost use Rattle.decision_steps.specs.Bound.{with_handle, with_handles, are_bound, names_other, has_other};
ghost use Rattle.decision_steps.specs.Listed.{given_pair, given_pairs};
ghost use Rattle.decision_steps.specs.declared.fault.PlaceFault.TheVariants.{NotLegal, HandleNotGiven};

use crate::fault::PlaceFault;
use crate::given::GivenHandle;
use std::alloc::Global;
use std::sync::Arc;
use tree_handles::Binds;

/// Binds a handle where it isn't bound: one that names another object can't be given.
fn bind(binds: &mut Binds, given: &GivenHandle<'_>) -> Result<(), PlaceFault>
    ensures ok { OnOk result (with_handle binds.old (given_pair given.now) ≡ Some binds.new) }
    ensures not_legal { result ≡ Err NotLegal → with_handle binds.old (given_pair given.now) ≡ None }
    ensures decided { result ≡ Err HandleNotGiven → ⊥ }
{
    match binds.object(given.handle.as_slice()) {
        Some(object) => {
            if object == given.object {
                Ok(())
            } else {
                Err(PlaceFault::NotLegal)
            }
        }
        None => Ok(binds.push(given.handle.as_slice(), given.object)?),
    }
}

/// Binds handles one after the other.
fn bind_all(binds: &mut Binds, given: &[GivenHandle<'_>]) -> Result<(), PlaceFault>
    ensures ok { OnOk result (with_handles binds.old (given_pairs given.now) ≡ Some binds.new) }
    ensures not_legal { result ≡ Err NotLegal → with_handles binds.old (given_pairs given.now) ≡ None }
    ensures decided { result ≡ Err HandleNotGiven → ⊥ }
{
    for given in given {
        bind(binds, given)?;
    }
    Ok(())
}

/// Whether each of these handles is bound to its object.
pub(crate) fn are_bound(binds: &Binds, given: &[GivenHandle<'_>]) -> bool
    ensures { result ≡ are_bound binds.now (given_pairs given.now) }
{
    for one in given {
        if binds.object(one.handle.as_slice()) != Some(one.object) {
            return false;
        }
    }
    true
}

/// Whether a handle is bound to another object.
fn names_other(binds: &Binds, given: &GivenHandle<'_>) -> bool
    ensures { result ≡ names_other binds.now (given_pair given.now) }
{
    match binds.object(given.handle.as_slice()) {
        Some(object) => object != given.object,
        None => false,
    }
}

/// Whether one of these handles is.
fn has_other(binds: &Binds, given: &[GivenHandle<'_>]) -> bool
    ensures { result ≡ has_other binds.now (given_pairs given.now) }
{
    for one in given {
        if names_other(binds, one) {
            return true;
        }
    }
    false
}

/// What binds what was bound, and the handles that a reply gives. Nothing is copied where they were bound.
pub(crate) fn bound_with(
    alloc: Global,
    binds: &Arc<Binds, Global>,
    given: &[GivenHandle<'_>],
) -> Result<Arc<Binds, Global>, PlaceFault>
    ensures ok { IfOk result (λ more. with_handles (arc_value binds.now) (given_pairs given.now) ≡ Some (arc_value more)) }
    ensures not_legal { result ≡ Err NotLegal → with_handles (arc_value binds.now) (given_pairs given.now) ≡ None }
    ensures decided { result ≡ Err HandleNotGiven → ⊥ }
{
    if are_bound(binds, given) {
        return Ok(binds.clone()?);
    }
    if has_other(binds, given) {
        return Err(PlaceFault::NotLegal);
    }
    let mut more = binds.copy()?;
    bind_all(&mut more, given)?;
    match Arc::new(alloc, more) {
        Ok(more) => Ok(more),
        Err(_) => Err(PlaceFault::NoMemory),
    }
}
