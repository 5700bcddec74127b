//! The handles that a call names.

ghost use Rattle.std.specs.Prelude.{◌≡◌};
ghost use Rattle.decision_steps.specs.Known.{is_known, knows_handles, is_failure};

use nfs3_types::{FileHandle, NfsCall, Outcome};
use tree_answers::{first_handle, second_handle};
use tree_handles::Binds;

/// Whether a handle is bound.
fn is_known(binds: &Binds, handle: &FileHandle) -> bool
    ensures { result ≡ is_known binds.now handle.now }
{
    binds.object(handle.as_slice()).is_some()
}

/// Whether each handle is bound that a call names.
pub fn knows_handles(binds: &Binds, call: &NfsCall) -> bool
    ensures { result ≡ knows_handles binds.now call.now }
{
    if !is_known(binds, first_handle(call)) {
        return false;
    }
    match second_handle(call) {
        Some(handle) => is_known(binds, handle),
        None => true,
    }
}

/// Whether an outcome is a reply that is a failure.
pub fn is_failure(outcome: &Outcome) -> bool
    ensures { result ≡ is_failure outcome.now }
{
    match outcome {
        Outcome::Received(reply) => reply.failure().is_some(),
        Outcome::Taken(_) => false,
    }
}
