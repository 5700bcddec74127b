//! Raising the ranks of directories.

ghost use Rattle.tree_nodes.specs.Table.{held};
ghost use Rattle.tree_nodes.specs.Ranks.{rank_of, IsRanked, IsRankedBut};

use crate::ranks::{Ranks, TOP};
use crate::table::{Entry, parent_of};
use tree_stores::Slots;

/// How many ranks are raised for one change by one more than what lies below. Further up an object loses its rank.
const FAR: usize = 1024;

/// Raises the rank of a directory to what something in it needs, and those of the directories above as far as that takes it. Where
/// it takes it far up, the directories there have no ranks from then on.
pub(crate) fn lift(entries: &Slots<Entry>, ranks: &mut Ranks, directory: u64, least: u32)
    requires { IsRankedBut (held entries.now) (rank_of ranks.old) directory least }
    ensures { IsRanked (held entries.now) (rank_of ranks.new) }
{
    let mut at = directory;
    let mut least = least;
    for step in 0..entries.len() {
        if ranks.get(at) >= least {
            return;
        }
        ranks.set(at, least);
        let Some(above) = parent_of(entries, at) else {
            return;
        };
        if above == at {
            return;
        }
        least = if step < FAR {
            ranks.get(at).saturating_add(1)
        } else {
            TOP
        };
        at = above;
    }
    ranks.forget();
}
