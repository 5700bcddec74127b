//! What the procedure of a call says of it before it is read.

ghost use Rattle.std.specs.Prelude.{◌≡◌};
ghost use Rattle.cut_check.specs.Procedures.{may_last, may_show_verifier, may_write};

use nfs3_types::Procedure;

/// Whether a call of this procedure may mean something for stable storage.
pub fn may_last(procedure: Procedure) -> bool
    ensures { result ≡ may_last procedure }
{
    procedure.changes_the_tree() || procedure == Procedure::Commit
}

/// Whether a call of this procedure may show a write verifier.
pub fn may_show_verifier(procedure: Procedure) -> bool
    ensures { result ≡ may_show_verifier procedure }
{
    matches!(procedure, Procedure::Write | Procedure::Commit)
}

/// Whether a call of this procedure may write bytes.
pub fn may_write(procedure: Procedure) -> bool
    ensures { result ≡ may_write procedure }
{
    procedure == Procedure::Write
}
