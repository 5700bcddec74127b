//! What a client of a night knows: the objects that the replies told it of, and what it keeps to ask on by.
#![tactic(auto)]

mod facts;
mod known;
mod learning;
mod learning_objects;
mod lists;
mod random;

pub use facts::{Debt, Facts, Kind, Written};
pub use known::{Known, KnownObject, Target};
pub use learning::Memory;
pub use lists::{Exclusive, Page};
pub use random::Random;
