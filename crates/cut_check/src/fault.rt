//! What is wrong with a plan's cuts, and with the write verifiers of its eras.

use std::alloc::AllocError;
use std::fmt;
use thiserror::Error;

/// Why it isn't known that the cuts keep what is stable. Eras and places are numbered from 1.
#[derive(Clone, Copy, Debug, Error)]
pub enum CutFault {
    /// The cut of the era is less than the position of its last stable place: the first such era.
    ShortCut {
        /// The era.
        era: u64,
        /// The position of its last stable place: so many places have to be kept.
        needed: u64,
    },
    /// Memory ran out.
    NoMemory,
}

impl fmt::Display for CutFault {
    ghost use Rattle.std.specs.Prelude.{Some};
    ghost use Rattle.cut_check.specs.FaultText.{cut_fault_words};

    ghost output = { λ fault. Some (cut_fault_words fault) };

    fn fmt<W: fmt::Write>(&self, f: &mut fmt::Formatter<W>) -> fmt::Result {
        match self {
            CutFault::ShortCut { era, needed } => write!(f, "ShortCut {era} {needed}"),
            CutFault::NoMemory => f.write_str("out of memory"),
        }
    }
}

impl From<AllocError> for CutFault {
    ghost use Rattle.std.specs.Prelude.{◌≡◌};
    ghost use Rattle.cut_check.specs.declared.fault.CutFault.TheVariants.{NoMemory};

    ghost from_gives = { λ _ fault. fault ≡ NoMemory };

    fn from(_error: AllocError) -> CutFault {
        CutFault::NoMemory
    }
}

/// Why it isn't known that the write verifiers agree. Eras are numbered from 1.
#[derive(Clone, Copy, Debug, Error)]
pub enum VerifierFault {
    /// The era shows two write verifiers, or it lost a WRITE and a later era shows its verifier: the first such era.
    Verifier(u64),
    /// Memory ran out.
    NoMemory,
}

impl fmt::Display for VerifierFault {
    ghost use Rattle.std.specs.Prelude.{Some};
    ghost use Rattle.cut_check.specs.FaultText.{verifier_fault_words};

    ghost output = { λ fault. Some (verifier_fault_words fault) };

    fn fmt<W: fmt::Write>(&self, f: &mut fmt::Formatter<W>) -> fmt::Result {
        match self {
            VerifierFault::Verifier(era) => write!(f, "Verifier {era}"),
            VerifierFault::NoMemory => f.write_str("out of memory"),
        }
    }
}

impl From<AllocError> for VerifierFault {
    ghost use Rattle.std.specs.Prelude.{◌≡◌};
    ghost use Rattle.cut_check.specs.declared.fault.VerifierFault.TheVariants.{NoMemory};

    ghost from_gives = { λ _ fault. fault ≡ NoMemory };

    fn from(_error: AllocError) -> VerifierFault {
        VerifierFault::NoMemory
    }
}
