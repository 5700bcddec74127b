//! What a placed call means for what a crash may take away.

ghost use Rattle.std.specs.Prelude.{◌≡◌};
ghost use Rattle.cut_check.specs.Effect.{is_synchronous, effect_of_write, effect_of};

use nfs_history::{commit_success, succeeded, write_success};
use nfs3_types::{NfsCall, Outcome, Procedure, StableHow, WriteSuccess};

/// What a place of an era means for stable storage. Objects are named by their numbers.
#[derive(Clone, Copy)]
pub enum Effect {
    /// It need not be there, and puts nothing there.
    Nothing,
    /// It is there by the time of its reply.
    Lasting,
    /// It writes bytes that need not be there yet.
    Unstable {
        /// The object's number: 0 for the root, k for starting object k, s + n for what call n made where s objects stood at first.
        object: u64,
        /// Where the bytes begin, in bytes from the file's start.
        offset: u64,
        /// How many bytes its reply says that it wrote.
        count: u32,
    },
    /// It puts bytes there: those from the offset on, and all of them where the count is 0.
    Committed {
        /// The object's number: 0 for the root, k for starting object k, s + n for what call n made where s objects stood at first.
        object: u64,
        /// Where the bytes begin, in bytes from the file's start.
        offset: u64,
        /// How many bytes, as the COMMIT asked; 0 means all from the offset on.
        count: u32,
    },
}

/// Whether a call changes the tree or an object, and is no WRITE.
#[tactic(auto, using(crate::proofs::Synchronous::synchronous_as))]
fn is_synchronous(call: &NfsCall) -> bool
    ensures { result ≡ is_synchronous call.now }
{
    let procedure = call.procedure();
    procedure.changes_the_tree() && procedure != Procedure::Write
}

/// What a successful WRITE means.
fn effect_of_write(object: Option<u64>, offset: u64, success: &WriteSuccess) -> Effect
    ensures { result ≡ effect_of_write object offset success.now }
{
    match (success.level, object) {
        (StableHow::DataSync | StableHow::FileSync, _) => Effect::Lasting,
        (StableHow::Unstable, None) => Effect::Nothing,
        (StableHow::Unstable, Some(object)) => Effect::Unstable {
            object,
            offset,
            count: success.count,
        },
    }
}

/// What a call means that came out so, where its handle names this object.
pub fn effect_of(object: Option<u64>, call: &NfsCall, outcome: &Outcome) -> Effect
    ensures { result ≡ effect_of object call.now outcome.now }
{
    match call {
        NfsCall::Write(write) => match write_success(outcome) {
            Some(success) => effect_of_write(object, write.offset, success),
            None => Effect::Nothing,
        },
        NfsCall::Commit(commit) => match (commit_success(outcome), object) {
            (Some(_), Some(object)) => Effect::Committed {
                object,
                offset: commit.offset,
                count: commit.count,
            },
            _ => Effect::Nothing,
        },
        _ => {
            if is_synchronous(call) && succeeded(call, outcome) {
                Effect::Lasting
            } else {
                Effect::Nothing
            }
        }
    }
}
