//! The rule that every step keeps.

use crate::view::View;
use atomic_table::TableRule;

/// The rule of a table of as many words as the key says.
pub struct Rule;

impl TableRule<(), View, usize> for Rule {
    ghost use Rattle.seen_states.specs.Seen.{IsSeenTable, fresh};

    ghost holds = { λ count table. IsSeenTable count table.words table.views };

    ghost first = { λ _. fresh };
}
