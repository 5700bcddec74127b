//! What is wrong with the shape of a plan, and with its order.

use std::alloc::AllocError;
use std::fmt;
use thiserror::Error;

/// The first fault of a plan's shape, in the order of the variants. Calls, eras and places are numbered from 1.
#[derive(Clone, Copy, Debug, Error)]
pub enum ShapeFault {
    /// The certificate has another number of eras than the history.
    WrongEras,
    /// No call has this number; the first such place.
    Unknown(u64),
    /// The call isn't of the era in which it is placed; the first such place.
    WrongEra(u64),
    /// The call was placed before; the first such place.
    Twice(u64),
    /// The call may not be placed so; the first such place.
    NotToPlace(u64),
    /// An answered judged call isn't placed; the least.
    Missing(u64),
    /// More places are kept than the era has; the first such era.
    BadCut(u64),
    /// Not known, for want of memory.
    NoMemory,
}

impl fmt::Display for ShapeFault {
    ghost use Rattle.std.specs.Prelude.{Some};
    ghost use Rattle.order_check.specs.FaultText.{shape_fault_words};

    ghost output = { λ fault. Some (shape_fault_words fault) };

    fn fmt<W: fmt::Write>(&self, f: &mut fmt::Formatter<W>) -> fmt::Result {
        match self {
            ShapeFault::WrongEras => f.write_str("WrongEras"),
            ShapeFault::Unknown(call) => write!(f, "Unknown {call}"),
            ShapeFault::WrongEra(call) => write!(f, "WrongEra {call}"),
            ShapeFault::Twice(call) => write!(f, "Twice {call}"),
            ShapeFault::NotToPlace(call) => write!(f, "NotToPlace {call}"),
            ShapeFault::Missing(call) => write!(f, "Missing {call}"),
            ShapeFault::BadCut(era) => write!(f, "BadCut {era}"),
            ShapeFault::NoMemory => f.write_str("out of memory"),
        }
    }
}

impl From<AllocError> for ShapeFault {
    ghost use Rattle.std.specs.Prelude.{◌≡◌};
    ghost use Rattle.order_check.specs.declared.fault.ShapeFault.TheVariants.{NoMemory};

    ghost from_gives = { λ _ e. e ≡ NoMemory };

    fn from(_error: AllocError) -> ShapeFault {
        ShapeFault::NoMemory
    }
}

/// The fault of a plan's order.
#[derive(Clone, Copy, Debug, Error)]
pub enum OrderFault {
    /// A call stands before another one, which had ended when it began: the first such other one, and before it the call that began
    /// last.
    Early {
        /// The call that stands too early.
        call: u64,
        /// The other call, which had ended when that one began.
        ended: u64,
    },
}

impl fmt::Display for OrderFault {
    ghost use Rattle.std.specs.Prelude.{Some};
    ghost use Rattle.order_check.specs.FaultText.{order_fault_words};

    ghost output = { λ fault. Some (order_fault_words fault) };

    fn fmt<W: fmt::Write>(&self, f: &mut fmt::Formatter<W>) -> fmt::Result {
        let OrderFault::Early { call, ended } = self;
        write!(f, "Early {call} {ended}")
    }
}
