//! What verdicts are. The functions do nothing: each one's contract is a law.

ghost use Rattle.std.specs.Prelude.{◌≡◌, ℕ, List};
ghost use Rattle.order_check.specs.nfs_history_specs.declared.knowing.KnownCalls.{KnownCalls};
ghost use Rattle.certificate.specs.declared.plan.Certificate.{Certificate};
ghost use Rattle.witness_check.specs.declared.verdict.Verdict.{Verdict};
ghost use Rattle.witness_check.specs.declared.verdict.FileVerdict.{FileVerdict};
ghost use Rattle.witness_check.specs.Verdict.{IsVerdict, IsFileVerdict};

/// A history and a plan have at most one verdict: a witness has no fault, and no plan has two first faults.
pub fn a_plan_has_one_verdict()
    ensures { (history : KnownCalls) (plan : Certificate) (one other : Verdict)
        → IsVerdict history plan one → IsVerdict history plan other → one ≡ other }
{}

/// Two texts have at most one verdict.
pub fn two_files_have_one_verdict()
    ensures { (history_file certificate_text : List ℕ) (one other : FileVerdict)
        → IsFileVerdict history_file certificate_text one → IsFileVerdict history_file certificate_text other → one ≡ other }
{}
