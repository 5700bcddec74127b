//! What of a call lies outside the model.

ghost use Rattle.std.specs.Prelude.{◌≡◌};
ghost use Rattle.nfs_history.specs.Outside.{asked_size, was_failure, too_far, outside};

use crate::fault::Which;
use nfs3_types::{CreateMode, FILE_LIMIT, NfsCall, Outcome};

fn is_failure(outcome: &Option<Outcome>) -> bool
    ensures { result ≡ was_failure outcome.now }
{
    match outcome {
        Some(Outcome::Received(reply)) => reply.failure().is_some(),
        _ => false,
    }
}

fn size_asked(mode: &CreateMode) -> u64
    ensures { result ≡ asked_size mode.now }
{
    match mode {
        CreateMode::Unchecked(attributes) | CreateMode::Guarded(attributes) => {
            attributes.size.unwrap_or(0)
        }
        CreateMode::Exclusive(_) => 0,
    }
}

/// Whether a size that wasn't refused is over the limit.
fn goes_too_far(size: u64, outcome: &Option<Outcome>) -> Option<Which>
    ensures { result ≡ too_far size outcome.now }
{
    if size > FILE_LIMIT && !is_failure(outcome) {
        Some(Which::TooFar)
    } else {
        None
    }
}

/// What of a call lies outside the model.
pub(crate) fn outside_model(call: &NfsCall, outcome: &Option<Outcome>) -> Option<Which>
    ensures { result ≡ outside call.now outcome.now }
{
    match call {
        NfsCall::SetAttr(call) => goes_too_far(call.attributes.size.unwrap_or(0), outcome),
        NfsCall::Write(write) => {
            if write.count as usize != write.bytes.as_slice().len() {
                return Some(Which::CountDiffers);
            }
            let far = write.offset > FILE_LIMIT
                || write.offset + u64::from(write.count) > FILE_LIMIT;
            if write.count > 0 && far && !is_failure(outcome) {
                return Some(Which::TooFar);
            }
            None
        }
        NfsCall::Create(create) => goes_too_far(size_asked(&create.mode), outcome),
        _ => None,
    }
}
