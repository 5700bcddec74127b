//! The plan that follows the replies.

ghost use Rattle.std.specs.Prelude.{◌≡◌, IfOk};
ghost use Rattle.certificate.specs.declared.plan.Certificate.{Certificate};
ghost use Rattle.reply_order.specs.ReplyOrder.{IsReplyOrder};
ghost use Rattle.nfs_history.specs.declared.knowing.KnownCalls.{KnownCalls};
ghost use Rattle.reply_order.specs.Making.{IsMade};

use crate::binds::sorted_binds;
use crate::eras::{all_plans, by_era};
use crate::replies::ordered_replies;
use certificate::Certificate;
use nfs_history::KnownCalls;
use nfs3_types::ItemList;
use std::alloc::{AllocError, Global};

/// The plan, made of the replies in their order.
fn made_plan(alloc: Global, history: &KnownCalls<'_>) -> Result<Certificate, AllocError>
    ensures { IfOk result (IsMade history.now) }
{
    let replies = ordered_replies(alloc, history)?;
    let binds = sorted_binds(alloc, history, replies.as_slice())?;
    let grouped = by_era(replies)?;
    let eras = all_plans(alloc, grouped.as_slice(), history.eras())?;
    Ok(Certificate {
        binds: ItemList::new(binds),
        eras: ItemList::new(eras),
    })
}

/// The plan that follows the replies: an era's calls stand in the order in which they were answered, each crash keeps all of its
/// era, and a handle names what the first reply that gave it made. It takes the time of two sorts of the replies and one of the
/// binds, and reads the answered CREATE, MKDIR and SYMLINK calls again.
pub fn reply_order(alloc: Global, history: &KnownCalls<'_>) -> Result<Certificate, AllocError>
    // Where two replies had one event, no plan follows them.
    ensures only { (plan : Certificate) → IsReplyOrder history.now plan → IfOk result (λ given. given ≡ plan) }
{
    made_plan(alloc, history)
}

/// Two plans that follow the replies of one history are equal.
pub fn one_plan_follows_the_replies()
    ensures { (history : KnownCalls) (one other : Certificate) → IsReplyOrder history one → IsReplyOrder history other → one ≡ other }
{}
