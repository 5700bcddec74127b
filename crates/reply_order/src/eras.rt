//! The plans of the eras.

ghost use Rattle.std.specs.Prelude.{◌≡◌, ◌<◌, ◌≤◌, ℕ, length, map, IfOk};
ghost use Rattle.std.specs.List.{filter};
ghost use Rattle.std.specs.List.Sorted.{IsNonDecreasingBy};
ghost use Rattle.reply_order.specs.declared.replies.Reply.{Reply};
ghost use Rattle.reply_order.specs.Making.{is_of_era, place_of, places_in, AreGrouped, era_plan, plans_up_to};

use crate::replies::Reply;
use certificate::{EraPlan, Place};
use nfs3_types::ItemList;
use std::alloc::{AllocError, Global};

/// The replies era by era, each era's in the order that they had.
pub fn by_era(mut replies: Vec<Reply>) -> Result<Vec<Reply>, AllocError>
    ensures { IfOk result (λ v. AreGrouped replies.items v.items) }
{
    replies.sort_by_key(|reply| reply.era)?;
    Ok(replies)
}

/// The places of an era.
fn places_of(alloc: Global, replies: &[Reply], era: u64) -> Result<Vec<Place>, AllocError>
    ensures { IfOk result (λ v. v.items ≡ places_in replies.now era) }
{
    replies
        .iter()
        .filter(|reply| reply.era == era)
        .map(|reply| Place::Answered(reply.number))
        .collect(alloc)
}

/// The replies of the eras up to this one, and those behind it.
fn split_behind(replies: &[Reply], era: u64) -> (&[Reply], &[Reply])
    requires { IsNonDecreasingBy (λ (r : Reply). r.era) replies.now }
    ensures ordered { IsNonDecreasingBy (λ (r : Reply). r.era) result.1.now }
    ensures here { filter (is_of_era era) result.0.now ≡ filter (is_of_era era) replies.now }
    ensures later { (e : ℕ) → era < e → filter (is_of_era e) result.1.now ≡ filter (is_of_era e) replies.now }
{
    replies.split_at(replies.partition_point(|reply| reply.era <= era))
}

/// The plan of an era.
fn era_plan(alloc: Global, replies: &[Reply], era: u64, eras: u64) -> Result<EraPlan, AllocError>
    ensures { IfOk result (λ p. p ≡ era_plan replies.now era eras) }
{
    let places = places_of(alloc, replies, era)?;
    let cut = if era < eras {
        Some(places.len() as u64)
    } else {
        None
    };
    Ok(EraPlan {
        places: ItemList::new(places),
        cut,
    })
}

/// The plans of so many eras, of replies that stand era by era.
pub fn all_plans(alloc: Global, replies: &[Reply], eras: u64) -> Result<Vec<EraPlan>, AllocError>
    requires { IsNonDecreasingBy (λ (r : Reply). r.era) replies.now }
    ensures { IfOk result (λ v. v.items ≡ plans_up_to replies.now eras eras) }
{
    let mut plans = Vec::new(alloc);
    let mut rest = replies;
    for index in 0..eras {
        let (here, behind) = split_behind(rest, index + 1);
        plans.push(era_plan(alloc, here, index + 1, eras)?)?;
        rest = behind;
    }
    Ok(plans)
}
