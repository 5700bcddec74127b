//! The certificate of a book.

ghost use Rattle.std.specs.Prelude.{◌≡◌, ◌≤◌, [], ◌∷◌, ◌++◌, length, map, if◌then◌else◌, IfOk, OnOk};
ghost use Rattle.std.specs.List.{cons_option, range_with_len};
ghost use Rattle.tree_starts.specs.Start.{object_made};
ghost use Rattle.book_laws.specs.Plan.{bind_of, place_of, places_of, plan_over, plan_now, plan_of};
ghost use Rattle.book_ledger.specs.Inside.{IsAsked, AreAsked, ArePlannable, IsTied, Holds, placed_in, era_in, made_in};

use crate::calls::{count_written, is_recorded};
use crate::ledger::Ledger;
use crate::lookups::{call_asked, object_made};
use crate::placed::{CallState, EraOver, PlacedCall};
use certificate::{Bind, Certificate, EraPlan, Place};
use nfs_history::History;
use nfs3_types::{FileHandle, ItemList};
use std::alloc::{AllocError, Global};

/// The place of a call: with its reply where one was sent, else as taken if it changed the tree.
fn place_of(history: &History, placed: &PlacedCall) -> Option<Place>
    requires { IsAsked history.now.known.calls placed.now.number }
    ensures { result ≡ place_of history.now.known.calls (placed_in history.now.known.calls placed.now) }
{
    let number = placed.number;
    if history.end(number).is_some() {
        return Some(Place::Answered(number));
    }
    if is_recorded(call_asked(history, number), &placed.outcome) {
        Some(Place::Taken(number, count_written(&placed.outcome)))
    } else {
        None
    }
}

/// Puts a place behind the others, where there is one.
fn add_place(places: &mut Vec<Place>, place: Option<Place>) -> Result<(), AllocError>
    ensures { OnOk result (places.new.items ≡ places.old.items ++ cons_option place []) }
{
    match place {
        Some(place) => {
            places.push(place)?;
            Ok(())
        }
        None => Ok(()),
    }
}

/// The places of these calls.
fn places_of(
    alloc: Global,
    history: &History,
    placed: &[PlacedCall],
) -> Result<Vec<Place>, AllocError>
    requires { AreAsked history.now.known.calls placed.now }
    ensures { IfOk result (λ places. places.items ≡ places_of history.now.known.calls (map (placed_in history.now.known.calls) placed.now)) }
{
    let mut places = Vec::new(alloc);
    for next in placed {
        add_place(&mut places, place_of(history, next))?;
    }
    Ok(places)
}

/// The plan of an era that is over.
fn plan_over(alloc: Global, history: &History, era: &EraOver) -> Result<EraPlan, AllocError>
    requires asked { AreAsked history.now.known.calls era.now.placed.items }
    requires within { era.now.kept ≤ length era.now.placed.items }
    ensures { IfOk result (λ plan. plan ≡ plan_over history.now.known.calls (era_in history.now.known.calls era.now)) }
{
    let (front, behind) = era.placed.as_slice().split_at(era.kept);
    let mut places = places_of(alloc, history, front)?;
    let cut = places.len() as u64;
    let lost = places_of(alloc, history, behind)?;
    places.extend_from_slice(lost.as_slice())?;
    Ok(EraPlan {
        places: ItemList::new(places),
        cut: Some(cut),
    })
}

/// Puts the bind of an object behind the others.
fn add_bind(alloc: Global, binds: &mut Vec<Bind>, object: u64) -> Result<(), AllocError>
    ensures { OnOk result (binds.new.items ≡ binds.old.items ++ bind_of object ∷ []) }
{
    let handle = FileHandle::from_slice(alloc, object.to_be_bytes().as_slice())?;
    binds.push(Bind { handle, object })?;
    Ok(())
}

/// The binds of so many objects that stood at first.
fn binds_at_first(alloc: Global, first: u64) -> Result<Vec<Bind>, AllocError>
    ensures { IfOk result (λ binds. binds.items ≡ map bind_of (range_with_len 1 first)) }
{
    let mut binds = Vec::new(alloc);
    for index in 0..first {
        add_bind(alloc, &mut binds, index + 1)?;
    }
    Ok(binds)
}

/// Puts the bind of a call's object behind the others, where it was made.
fn add_made(
    alloc: Global,
    history: &History,
    binds: &mut Vec<Bind>,
    number: u64,
    made: bool,
) -> Result<(), AllocError>
    ensures { OnOk result (binds.new.items ≡ binds.old.items ++ (if made then bind_of (object_made (length history.now.known.head.start) number) ∷ [] else [])) }
{
    if !made {
        return Ok(());
    }
    match object_made(history, number) {
        Some(object) => add_bind(alloc, binds, object),
        None => Err(AllocError),
    }
}

/// The binds of the objects that stood at first and that were made, by their numbers.
fn binds_made(
    alloc: Global,
    history: &History,
    calls: &[CallState],
) -> Result<Vec<Bind>, AllocError>
    ensures { IfOk result (λ binds. binds.items ≡ map bind_of (made_in (length history.now.known.head.start) calls.now)) }
{
    let mut binds = binds_at_first(alloc, history.start().objects().len() as u64)?;
    for (index, call) in calls.iter().enumerate() {
        add_made(alloc, history, &mut binds, index as u64 + 1, call.made)?;
    }
    Ok(binds)
}

/// The plans of the eras that are over.
fn plans_over(
    alloc: Global,
    history: &History,
    over: &[EraOver],
) -> Result<Vec<EraPlan>, AllocError>
    requires { ArePlannable history.now.known.calls over.now }
    ensures { IfOk result (λ plans. plans.items ≡ map (plan_over history.now.known.calls) (map (era_in history.now.known.calls) over.now)) }
{
    let mut plans = Vec::new(alloc);
    for era in over {
        plans.push(plan_over(alloc, history, era)?)?;
    }
    Ok(plans)
}

impl Ledger {
    /// The plans of the eras.
    fn plans(&self) -> Result<Vec<EraPlan>, AllocError>
        requires { IsTied self.now }
        ensures { IfOk result (λ plans. plans.items ≡ map (plan_over self.now.history.known.calls) (map (era_in self.now.history.known.calls) self.now.over.items)
            ++ plan_now self.now.history.known.calls (map (placed_in self.now.history.known.calls) self.now.placed.items) ∷ []) }
    {
        let mut plans = plans_over(self.alloc, &self.history, self.over.as_slice())?;
        let places = places_of(self.alloc, &self.history, self.placed.as_slice())?;
        plans.push(EraPlan {
            places: ItemList::new(places),
            cut: None,
        })?;
        Ok(plans)
    }

    /// Its own commit order.
    pub fn certificate(&self) -> Result<Certificate, AllocError>
        requires { IsTied self.now }
        ensures { IfOk result (λ certificate. Holds (λ book. certificate ≡ plan_of book) self.now) }
    {
        let binds = binds_made(self.alloc, &self.history, self.calls.as_slice())?;
        Ok(Certificate {
            binds: ItemList::new(binds),
            eras: ItemList::new(self.plans()?),
        })
    }
}
