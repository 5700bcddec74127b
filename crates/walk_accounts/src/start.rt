//! The start that accounts give.

ghost use Rattle.std.specs.Prelude.{IfOk, IfSome};
ghost use Rattle.walk_accounts.specs.Accounts.{IsTold};

use crate::account::Account;
use crate::exchange::Exchange;
use crate::judging::is_explained;
use crate::objects::objects_of;
use std::alloc::Global;
use tree_starts::{Start, StartFault};

/// The start whose objects are those of these accounts, the first of which is the root's; none where the exchanges, calls with their
/// replies, don't say what the accounts say.
pub fn start_of(
    alloc: Global,
    root: &[u8],
    exchanges: &[Exchange],
    accounts: &[Account],
) -> Result<Option<Start>, StartFault>
    ensures { IfOk result (λ found. IfSome found (λ start. IsTold root.now exchanges.now start)) }
{
    let Some((first, found)) = accounts.split_first() else {
        return Ok(None);
    };
    if !is_explained(root, exchanges, accounts, first, found) {
        return Ok(None);
    }
    let objects = objects_of(alloc, exchanges, found)?;
    let start = Start::new(alloc, objects)?;
    Ok(Some(start))
}
