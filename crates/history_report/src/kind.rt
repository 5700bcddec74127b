//! What tells what a call is for a plan: the call, or its kind alone.

ghost use Rattle.std.specs.Prelude.{◌≡◌};
ghost use Rattle.nfs_history.specs.declared.recorded.CallKind.{CallKind};
ghost use Rattle.nfs_history.specs.Reread.{call_kind};

use nfs_history::{CallKind, RecordedCall};

/// What has the kind of a call.
pub(crate) trait HasKind {
    ghost kind: { Self → CallKind };

    /// The kind of the call.
    fn kind_of(&self) -> CallKind
        ensures { result ≡ kind self.now };
}

impl HasKind for RecordedCall {
    ghost kind = { call_kind };

    fn kind_of(&self) -> CallKind {
        self.kind()
    }
}

impl HasKind for CallKind {
    ghost kind = { λ kind. kind };

    fn kind_of(&self) -> CallKind {
        *self
    }
}
