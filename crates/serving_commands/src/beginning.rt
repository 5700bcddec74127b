//! What a server begins with.

ghost use Rattle.std.specs.Prelude.{◌≡◌, [], IfErr, IfOk, IsErrAnd};
ghost use Rattle.tree_starts.specs.declared.profile.Profile.TheVariants.{Plain};
ghost use Rattle.nfs_history.specs.declared.fault.HistoryFault.{HistoryFault};
ghost use Rattle.nfs_history.specs.declared.knowing.KnownCalls.{KnownCalls};
ghost use Rattle.nfs_history.specs.History.{IsCallsFile};
ghost use Rattle.nfs_history.specs.FirstFault.{FirstFault};
ghost use Rattle.serving_commands.specs.Beginnings.{IsBeginningOf};
ghost use Rattle.serving_commands.specs.Told.{IsBadStart, IsWant};

use crate::fault::RunFault;
use nfs_history::{KnownCalls, Profile, Start, read_calls};
use std::alloc::{AllocError, Global};

/// What a server holds at first, and how strictly its replies are judged.
pub struct Beginning {
    /// Under the strict profile replies carry attributes, and are judged by them.
    pub profile: Profile,
    /// The objects that it holds beside the root directory.
    pub start: Start,
}

impl Drop for Beginning {
    fn drop(self) {
        let Beginning { profile: _, start } = self;
        drop(start);
    }
}

/// What the history of these calls begins with.
fn beginning_of(alloc: Global, calls: &KnownCalls<'_>) -> Result<Beginning, AllocError>
    ensures { IfOk result (IsBeginningOf calls.now.head) }
{
    Ok(Beginning {
        profile: calls.profile(),
        start: Start::of_seen(alloc, calls.start())?,
    })
}

impl Beginning {
    /// The root directory alone, under the plain profile.
    pub fn empty(alloc: Global) -> Beginning
        ensures start { result.start ≡ [] }
        ensures profile { result.profile ≡ Plain }
    {
        Beginning {
            profile: Profile::Plain,
            start: Start::empty(alloc),
        }
    }

    /// What the history in a file begins with. The whole file is read and judged; of its root handle, its events and its calls nothing
    /// is taken.
    pub fn of_file(alloc: Global, file: &[u8]) -> Result<Beginning, RunFault>
        // The file is one of a history that begins so.
        ensures found { IfOk result (λ beginning. (known : KnownCalls) × IsCallsFile file.now known
            × IsBeginningOf known.head beginning) }
        // Of the file of a history there is a beginning, memory aside.
        ensures only { (known : KnownCalls) → IsCallsFile file.now known → IfErr result IsWant }
        // The first fault of any other file is told, memory aside.
        ensures bad_start { (fault : HistoryFault) → FirstFault file.now fault → IsErrAnd result (IsBadStart fault) }
    {
        match read_calls(alloc, file) {
            Ok(calls) => Ok(beginning_of(alloc, &calls)?),
            Err(fault) => Err(RunFault::from(fault)),
        }
    }

    /// The profile, and the objects.
    pub fn into_parts(self) -> (Profile, Start)
        ensures profile { result.0 ≡ self.profile }
        ensures start { result.1 ≡ self.start }
    {
        let Beginning { profile, start } = self;
        (profile, start)
    }
}
