//! The certificate of a history: the object that each handle names, one serial order of its calls, and for
//! each crash the part of the order that survived. `docs/FORMATS.md` says how it is written as text.
#![tactic(auto)]

mod line;
mod parts;
mod plan;
mod reading;
mod writing;

pub use parts::CertificateFault;
pub use plan::{Bind, Certificate, EraPlan, Place};
pub use reading::{TextFault, read_certificate};
pub use writing::write_certificate;
