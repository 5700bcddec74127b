//! What a conflict in a serial order of a history teaches: which places a crash took, which calls took effect without a reply, and
//! which of two calls stood first. Nothing rests on it: what is found is judged.
#![tactic(auto)]

mod by_name;
mod changes;
mod facts;
mod files;
mod given;
mod lessons;
mod marks;
mod mending;
mod score;
mod seen;

pub use by_name::CallsByName;
pub use changes::change_of;
pub use facts::{
    found_of, given_by, handles_of, is_failed, is_stable, made_by, move_of, overlap, places_of,
    precedes, shows_file,
};
pub use files::{Files, NO_PLACE, Writer};
pub use given::NamesGiven;
pub use lessons::{Lesson, Lessons, Step};
pub use marks::{Kept, Marks};
pub use mending::Mending;
pub use seen::Seen;
