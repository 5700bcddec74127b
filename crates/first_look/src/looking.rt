//! The look at a history.

ghost use Rattle.std.specs.Prelude.{IfOk, IfSome};
ghost use Rattle.history_file.specs.Event.{Recording};
ghost use Rattle.nfs_history.specs.History.{AreCallsOf};
ghost use Rattle.certificate.specs.declared.plan.Certificate.{Certificate};
ghost use Rattle.witness_check.specs.Witness.{IsWitness};
ghost use Rattle.first_look.specs.TwoVerifiers.{AreTwo};

use crate::handles::HandlesSeen;
use crate::verifiers::{TwoVerifiers, two_verifiers};
use nfs_history::KnownCalls;
use std::alloc::{AllocError, Global};

/// What a first look finds. Calls are numbered from 1.
#[derive(Clone, Copy)]
pub struct FirstLook {
    /// Two calls of an era whose replies show different write verifiers.
    pub two_verifiers: Option<TwoVerifiers>,
    /// The first successful call that used a handle which isn't the root's, and which no reply ahead of it gave.
    pub unknown_handle: Option<u64>,
    /// Whether there are judged calls, and none of them uses the root handle.
    pub lacks_root: bool,
}

/// Looks at the calls of a history. Each is read once, and a WRITE or a COMMIT twice.
pub fn look(alloc: Global, known: &KnownCalls<'_>) -> Result<FirstLook, AllocError>
    // The two calls are there, of one era, and show different verifiers.
    ensures two { IfOk result (λ found. IfSome found.two_verifiers (AreTwo known.now)) }
    // Then no plan is a witness of the history.
    ensures no_witness { (seen : Recording) → AreCallsOf seen known.now
        → IfOk result (λ found. IfSome found.two_verifiers (λ _. (plan : Certificate) → ¬ IsWitness known.now plan)) }
{
    let two = two_verifiers(alloc, known)?;
    let handles = HandlesSeen::of(alloc, known)?;
    Ok(FirstLook {
        two_verifiers: two,
        unknown_handle: handles.first_unknown(),
        lacks_root: handles.lacks_root(),
    })
}
