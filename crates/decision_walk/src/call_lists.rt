//! Lists of calls.

ghost use Rattle.std.specs.Prelude.{◌≡◌, ℕ, IsTrue};
ghost use Rattle.decision_walk.specs.Standing.{is_marked, has_call};

/// Whether a call is one of these.
pub(crate) fn has_call(calls: &[u64], n: u64) -> bool
    ensures { result ≡ has_call calls.now n }
{
    calls.iter().any(|m| *m == n)
}

/// Whether each of these calls is one of the others.
fn are_among(calls: &[u64], others: &[u64]) -> bool
    ensures { IsTrue result → (n : ℕ) → IsTrue (has_call calls.now n) → IsTrue (has_call others.now n) }
{
    for call in calls {
        if !has_call(others, *call) {
            return false;
        }
    }
    true
}

/// Whether the same calls are in both.
pub(crate) fn same_calls(calls: &[u64], others: &[u64]) -> bool
    ensures { IsTrue result → (n : ℕ) → has_call calls.now n ≡ has_call others.now n }
{
    if !are_among(calls, others) {
        return false;
    }
    are_among(others, calls)
}

/// Whether a call is marked.
pub(crate) fn is_marked(marks: &[bool], n: u64) -> bool
    ensures { result ≡ is_marked marks.now n }
{
    if n == 0 {
        return false;
    }
    match marks.get(n as usize - 1) {
        Some(mark) => *mark,
        None => false,
    }
}
