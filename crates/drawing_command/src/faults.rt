//! Where the fault of a certificate is in a history.

ghost use Rattle.std.specs.Prelude.{◌≡◌};

use certificate::Certificate;
use first_look::look;
use nfs_history::KnownCalls;
use std::alloc::{AllocError, Global};
use witness_check::Fault;

/// Where a fault is.
#[derive(Clone, Copy)]
pub(crate) enum FaultPlace {
    /// Nowhere: there is none.
    Nowhere,
    /// At a call.
    Call {
        call: u64,
        /// The earlier call without which it would be none, if there is one.
        explaining: Option<u64>,
    },
    /// At a crash, counted from 1.
    Crash(u64),
}

/// Whether a certificate with this fault is no plan of the history's calls at all, such as that of another history.
pub(crate) fn is_of_shape(fault: Fault) -> bool {
    match fault {
        Fault::WrongEras
        | Fault::Unknown(_)
        | Fault::WrongEra(_)
        | Fault::Twice(_)
        | Fault::NotToPlace(_)
        | Fault::Missing(_)
        | Fault::BadCut(_) => true,
        Fault::Early { .. } | Fault::Illegal(_) | Fault::ShortCut { .. } | Fault::Verifier(_) =>
            false,
    }
}

/// The call at a place of an era; both are counted from 1.
fn placed_at(certificate: &Certificate, era: u64, place: u64) -> Option<u64> {
    let plan = certificate
        .eras
        .as_slice()
        .get((era as usize).wrapping_sub(1))?;
    let place = plan
        .places
        .as_slice()
        .get((place as usize).wrapping_sub(1))?;
    Some(place.number())
}

/// Two calls of an era that got two write verifiers: the later is at fault. `Nowhere` if there are none.
fn two_verifiers(alloc: Global, known: &KnownCalls<'_>) -> Result<(u64, FaultPlace), AllocError> {
    let found = look(alloc, known)?;
    match found.two_verifiers {
        Some(two) => {
            let explaining = Some(two.one);
            let call = two.other;
            Ok((two.era, FaultPlace::Call { call, explaining }))
        }
        None => Ok((0, FaultPlace::Nowhere)),
    }
}

/// Where an era shows its fault of write verifiers: at the later of two calls that got two, or else at the crash behind it.
fn verifier_place(
    alloc: Global,
    known: &KnownCalls<'_>,
    era: u64,
) -> Result<FaultPlace, AllocError> {
    let (seen, place) = two_verifiers(alloc, known)?;
    if seen == era {
        Ok(place)
    } else {
        Ok(FaultPlace::Crash(era))
    }
}

/// Where the fault of a certificate is, which has the shape of a plan.
pub(crate) fn place_of(
    alloc: Global,
    known: &KnownCalls<'_>,
    certificate: &Certificate,
    fault: Fault,
) -> Result<FaultPlace, AllocError> {
    match fault {
        Fault::Early { call, ended } => Ok(FaultPlace::Call {
            call,
            explaining: Some(ended),
        }),
        Fault::Illegal(call) => Ok(FaultPlace::Call {
            call,
            explaining: None,
        }),
        Fault::ShortCut { era, needed } => match placed_at(certificate, era, needed) {
            Some(call) => Ok(FaultPlace::Call {
                call,
                explaining: None,
            }),
            None => Ok(FaultPlace::Crash(era)),
        },
        Fault::Verifier(era) => verifier_place(alloc, known, era),
        _ => Ok(FaultPlace::Nowhere),
    }
}

/// Where a fault is that no certificate could do without: two write verifiers in an era.
pub(crate) fn place_without_certificate(
    alloc: Global,
    known: &KnownCalls<'_>,
) -> Result<FaultPlace, AllocError> {
    let (_, place) = two_verifiers(alloc, known)?;
    Ok(place)
}
