//! Certificates that place one more call.

use crate::open::OpenCall;
use certificate::{Bind, Certificate, EraPlan, Place};
use nfs3_types::ItemList;
use std::alloc::{AllocError, Global};

/// Copies of binds.
pub(crate) fn copied(alloc: Global, binds: &[Bind]) -> Result<Vec<Bind>, AllocError> {
    let mut copies = Vec::new(alloc);
    for bind in binds {
        let handle = bind.handle.clone()?;
        copies.push(Bind {
            handle,
            object: bind.object,
        })?;
    }
    Ok(copies)
}

/// A place as it is, or that of the call with its reply where it takes the call as done.
fn place_of(place: Place, call: u64) -> Place {
    match place {
        Place::Taken(number, _) if number == call => Place::Answered(call),
        _ => place,
    }
}

/// The places of an era; where it takes the call as done, the call stands there with its reply.
fn places_of(alloc: Global, era: &EraPlan, call: u64) -> Result<Vec<Place>, AllocError> {
    let mut places = Vec::new(alloc);
    for place in era.places.as_slice() {
        places.push(place_of(*place, call))?;
    }
    Ok(places)
}

/// The eras of a plan, in the same way.
fn eras_of(alloc: Global, eras: &[EraPlan], call: u64) -> Result<Vec<EraPlan>, AllocError> {
    let mut copies = Vec::new(alloc);
    for era in eras {
        let places = places_of(alloc, era, call)?;
        copies.push(EraPlan {
            places: ItemList::new(places),
            cut: era.cut,
        })?;
    }
    Ok(copies)
}

/// The last era of a plan, with these calls as done at its end, and the call behind them, unless it stays where it is.
fn last_era(
    alloc: Global,
    era: &EraPlan,
    order: &[OpenCall],
    call: u64,
    stays: bool,
) -> Result<EraPlan, AllocError> {
    let mut places = places_of(alloc, era, call)?;
    for done in order {
        places.push(Place::Taken(done.number, done.written))?;
    }
    if !stays {
        places.push(Place::Answered(call))?;
    }
    Ok(EraPlan {
        places: ItemList::new(places),
        cut: era.cut,
    })
}

/// A certificate with these binds that places these open calls as done behind the places of another one, and then a call with its reply;
/// where the other one takes the call as done (`stays`), the call stays at that place.
pub(crate) fn plan_with(
    alloc: Global,
    plan: &Certificate,
    binds: &[Bind],
    order: &[OpenCall],
    call: u64,
    stays: bool,
) -> Result<Certificate, AllocError> {
    let mut eras = Vec::new(alloc);
    if let Some((last, ahead)) = plan.eras.as_slice().split_last() {
        eras = eras_of(alloc, ahead, call)?;
        eras.push(last_era(alloc, last, order, call, stays)?)?;
    }
    let binds = copied(alloc, binds)?;
    Ok(Certificate {
        binds: ItemList::new(binds),
        eras: ItemList::new(eras),
    })
}
