//! The table, the right to claim in it, and the answers.
ghost use Rattle.std.specs.Prelude.{◌≡◌, ◌<◌, ◌≤◌, ◌^◌, []};

use crate::rule::Rule;
use crate::view::View;
use atomic_table::{Seat, Table};
use std::alloc::Global;

/// A table of 2^bits words. Each is free or holds a fingerprint, which stays. Threads share it by reference.
#[derive(Drop)]
pub struct SeenTable {
    pub(crate) table: Table<(), View, usize, Rule, Global>,
    ghost ruled: { table.shared.key ≡ table.shared.table_id.words },
    ghost some: { 0 < table.shared.table_id.words },
    ghost few: { table.shared.table_id.words ≤ 2 ^ 24 },
}

/// The right of one thread to claim in one table. It takes no memory, and remembers in contracts alone what it was told.
#[derive(Drop)]
pub struct Claimer {
    pub(crate) seat: Seat<(), View>,
    ghost alone: { seat.me.1 ≡ [] },
}

/// What a claim is told of its fingerprint.
#[derive(Clone, Copy, PartialEq, Eq)]
pub enum Claim {
    /// It wasn't in the table, and now stands there by this claim.
    New,
    /// It stands in the table.
    Seen,
    /// Every word holds another one.
    Full,
}
