//! On what clients work and when they change it: alone, side by side, or all on the same names; names too, or only what files hold.

use call_making::Realm;
use client_memory::Random;

/// How the clients of a night share what they work on.
#[derive(Clone, Copy)]
pub enum Mix {
    /// Each client works below a directory of its own.
    Private,
    /// All clients work in the same directories, each with names of its own.
    Shared,
    /// All clients work on the same three to eight names.
    Race,
    /// Each of these in turns of forty calls.
    Turns,
}

/// How many calls a turn has.
const TURN: u32 = 40;

/// How many calls of each client a spell has.
const SPELL: u32 = 24;

impl Mix {
    /// What the call of this number works on.
    pub(crate) fn realm(self, call: u32) -> Realm {
        match self {
            Mix::Private => Realm::Private,
            Mix::Shared => Realm::Shared,
            Mix::Race => Realm::Race,
            Mix::Turns => match call / TURN % 3 {
                0 => Realm::Private,
                1 => Realm::Shared,
                _ => Realm::Race,
            },
        }
    }
}

/// Whether the call of this number is in a spell in which nothing is changed but by UNSTABLE WRITEs: a third of the spells, the same
/// for all clients of a night. A crash can lose only what comes after the last change that was safe.
pub(crate) fn is_quiet(seed: u64, call: u32) -> bool {
    Random::new(seed.wrapping_add(1), call / SPELL).once_in(3)
}
