//! The calls that a verdict names.

use history_lines::Marks;
use witness_check::{Fault, FileVerdict};

/// The calls that a fault names: the one at fault, and the one that it is at fault with.
fn named_by(fault: Fault) -> (Option<u64>, Option<u64>) {
    match fault {
        Fault::Unknown(call)
        | Fault::WrongEra(call)
        | Fault::Twice(call)
        | Fault::NotToPlace(call)
        | Fault::Missing(call)
        | Fault::Illegal(call) => (Some(call), None),
        Fault::Early { call, ended } => (Some(call), Some(ended)),
        Fault::WrongEras | Fault::BadCut(_) | Fault::ShortCut { .. } | Fault::Verifier(_) => (
            None, None,
        ),
    }
}

/// The calls whose lines a verdict marks.
pub(crate) fn marks_of(verdict: &FileVerdict) -> Marks {
    let (fault, other) = match verdict {
        FileVerdict::No(fault) => named_by(*fault),
        FileVerdict::Yes | FileVerdict::BadHistory(_) | FileVerdict::BadText(_) => (None, None),
    };
    Marks { fault, other }
}
