//! What is wrong with a plan: the faults of its shape, order, run, cuts and write verifiers as one.

use cut_check::{CutFault, VerifierFault};
use file_tree::FileTree;
use order_check::{OrderFault, ShapeFault};
use std::alloc::AllocError;
use std::fmt;
use thiserror::Error;

/// The first fault of a plan, in the order of the variants. Calls, eras and places are numbered from 1.
#[derive(Clone, Copy, Debug, PartialEq, Eq, Error)]
pub enum Fault {
    /// The certificate has another number of eras than the history.
    WrongEras,
    /// No call has this number; the first such place.
    Unknown(u64),
    /// The call isn't of the era in which it is placed; the first such place.
    WrongEra(u64),
    /// The call was placed before; the first such place.
    Twice(u64),
    /// The call may not be placed so; the first such place.
    NotToPlace(u64),
    /// An answered judged call isn't placed; the least.
    Missing(u64),
    /// More places are kept than the era has; the first such era.
    BadCut(u64),
    /// A call stands before another one, which had ended when it began: the first such other one, and before it the call that began
    /// last.
    Early {
        /// The call that stands too early.
        call: u64,
        /// The other call, which had ended when that one began.
        ended: u64,
    },
    /// The call can't have come out so at its place; the first such place.
    Illegal(u64),
    /// The cut of the era is below the position of its last stable place, which is named second; the first such era.
    ShortCut {
        /// The era.
        era: u64,
        /// The position of its last stable place: so many places have to be kept.
        needed: u64,
    },
    /// The era shows two write verifiers, or its cut loses a WRITE whose verifier a later era shows; the first such era.
    Verifier(u64),
}

impl fmt::Display for Fault {
    ghost use Rattle.std.specs.Prelude.{Some};
    ghost use Rattle.witness_check.specs.FaultText.{fault_words};

    ghost output = { λ fault. Some (fault_words fault) };

    fn fmt<W: fmt::Write>(&self, f: &mut fmt::Formatter<W>) -> fmt::Result {
        match self {
            Fault::WrongEras => f.write_str("WrongEras"),
            Fault::Unknown(call) => write!(f, "Unknown {call}"),
            Fault::WrongEra(call) => write!(f, "WrongEra {call}"),
            Fault::Twice(call) => write!(f, "Twice {call}"),
            Fault::NotToPlace(call) => write!(f, "NotToPlace {call}"),
            Fault::Missing(call) => write!(f, "Missing {call}"),
            Fault::BadCut(era) => write!(f, "BadCut {era}"),
            Fault::Early { call, ended } => write!(f, "Early {call} {ended}"),
            Fault::Illegal(call) => write!(f, "Illegal {call}"),
            Fault::ShortCut { era, needed } => write!(f, "ShortCut {era} {needed}"),
            Fault::Verifier(era) => write!(f, "Verifier {era}"),
        }
    }
}

/// Where a run stops.
#[derive(Drop)]
pub struct Stop {
    /// The number of the call that can't have come out so at its place.
    pub number: u64,
    /// The tree at that place.
    pub tree: FileTree,
}

/// Why a plan's run doesn't come to its end.
#[derive(Drop)]
pub enum RunEnd {
    /// A call can't have come out so at its place; the first such place.
    Stopped(Stop),
    /// Memory ran out.
    NoMemory,
}

impl From<AllocError> for RunEnd {
    ghost use Rattle.std.specs.Prelude.{◌≡◌};
    ghost use Rattle.witness_check.specs.declared.fault.RunEnd.TheVariants.{NoMemory};

    ghost from_gives = { λ _ told. told ≡ NoMemory };

    fn from(_error: AllocError) -> RunEnd {
        RunEnd::NoMemory
    }
}

/// Why a plan isn't known to be a witness.
#[derive(Drop)]
pub enum CheckFault {
    /// It isn't one: the first fault, which isn't that of its run.
    No(Fault),
    /// It isn't one: its run stops here.
    Stopped(Stop),
    /// Memory ran out.
    NoMemory,
}

impl From<AllocError> for CheckFault {
    ghost use Rattle.std.specs.Prelude.{◌≡◌};
    ghost use Rattle.witness_check.specs.declared.fault.CheckFault.TheVariants.{NoMemory};

    ghost from_gives = { λ _ told. told ≡ NoMemory };

    fn from(_error: AllocError) -> CheckFault {
        CheckFault::NoMemory
    }
}

impl From<ShapeFault> for CheckFault {
    ghost use Rattle.std.specs.Prelude.{◌≡◌};
    ghost use Rattle.witness_check.specs.Faults.{of_shape};

    ghost from_gives = { λ fault told. told ≡ of_shape fault };

    fn from(fault: ShapeFault) -> CheckFault {
        match fault {
            ShapeFault::WrongEras => CheckFault::No(Fault::WrongEras),
            ShapeFault::Unknown(call) => CheckFault::No(Fault::Unknown(call)),
            ShapeFault::WrongEra(call) => CheckFault::No(Fault::WrongEra(call)),
            ShapeFault::Twice(call) => CheckFault::No(Fault::Twice(call)),
            ShapeFault::NotToPlace(call) => CheckFault::No(Fault::NotToPlace(call)),
            ShapeFault::Missing(call) => CheckFault::No(Fault::Missing(call)),
            ShapeFault::BadCut(era) => CheckFault::No(Fault::BadCut(era)),
            ShapeFault::NoMemory => CheckFault::NoMemory,
        }
    }
}

impl From<OrderFault> for CheckFault {
    ghost use Rattle.std.specs.Prelude.{◌≡◌};
    ghost use Rattle.witness_check.specs.Faults.{of_order};

    ghost from_gives = { λ fault told. told ≡ of_order fault };

    fn from(fault: OrderFault) -> CheckFault {
        let OrderFault::Early { call, ended } = fault;
        CheckFault::No(Fault::Early { call, ended })
    }
}

impl From<RunEnd> for CheckFault {
    ghost use Rattle.std.specs.Prelude.{◌≡◌};
    ghost use Rattle.witness_check.specs.Faults.{of_run};

    ghost from_gives = { λ end told. told ≡ of_run end };

    fn from(end: RunEnd) -> CheckFault {
        match end {
            RunEnd::Stopped(stop) => CheckFault::Stopped(stop),
            RunEnd::NoMemory => CheckFault::NoMemory,
        }
    }
}

impl From<CutFault> for CheckFault {
    ghost use Rattle.std.specs.Prelude.{◌≡◌};
    ghost use Rattle.witness_check.specs.Faults.{of_cut};

    ghost from_gives = { λ fault told. told ≡ of_cut fault };

    fn from(fault: CutFault) -> CheckFault {
        match fault {
            CutFault::ShortCut { era, needed } => CheckFault::No(Fault::ShortCut { era, needed }),
            CutFault::NoMemory => CheckFault::NoMemory,
        }
    }
}

impl From<VerifierFault> for CheckFault {
    ghost use Rattle.std.specs.Prelude.{◌≡◌};
    ghost use Rattle.witness_check.specs.Faults.{of_verifier};

    ghost from_gives = { λ fault told. told ≡ of_verifier fault };

    fn from(fault: VerifierFault) -> CheckFault {
        match fault {
            VerifierFault::Verifier(era) => CheckFault::No(Fault::Verifier(era)),
            VerifierFault::NoMemory => CheckFault::NoMemory,
        }
    }
}
