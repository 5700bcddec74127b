//! A certificate out of what happened on the way to a state. It is judged by who makes it, and nothing rests on it.

use certificate::{Bind, Certificate, EraPlan, Place};
use decision_walk::{Deed, WalkState};
use nfs3_types::{FileHandle, HANDLE_LIMIT, ItemList};
use std::alloc::{AllocError, Global};
use std::collections::BTreeMap;

/// The binds in the order of their handles.
fn binds_of(alloc: Global, bound: Vec<(Vec<u8>, u64)>) -> Result<ItemList<Bind>, AllocError> {
    let mut objects = BTreeMap::new(alloc);
    for (handle, object) in bound {
        objects.insert(handle, object)?;
    }
    let mut binds = Vec::new(alloc);
    for (handle, object) in objects.iter() {
        if handle.len() <= HANDLE_LIMIT {
            let handle = FileHandle::from_slice(alloc, handle.as_slice())?;
            let object = *object;
            binds.push(Bind { handle, object })?;
        }
    }
    Ok(ItemList::new(binds))
}

/// The plan of an era, in which so many places are kept.
fn era_of(places: Vec<Place>, cut: Option<u64>) -> EraPlan {
    EraPlan {
        places: ItemList::new(places),
        cut,
    }
}

/// How many bytes each WRITE without a reply wrote, by what happened.
fn counts_of(alloc: Global, deeds: &[Deed]) -> Result<BTreeMap<u64, u32>, AllocError> {
    let mut counts = BTreeMap::new(alloc);
    for deed in deeds {
        if let Deed::Counted(call, count) = deed {
            counts.insert(*call, *count)?;
        }
    }
    Ok(counts)
}

/// A place, with the bytes that its WRITE wrote.
fn counted(place: Place, counts: &BTreeMap<u64, u32>) -> Place {
    match place {
        Place::Taken(call, Some(_)) => match counts.get(&call) {
            Some(count) => Place::Taken(call, Some(*count)),
            None => place,
        },
        other => other,
    }
}

/// Puts a place there, but for a WRITE without a reply that wrote nothing: it needs none.
fn put_place(places: &mut Vec<Place>, place: Place) -> Result<(), AllocError> {
    if !matches!(place, Place::Taken(_, Some(0))) {
        places.push(place)?;
    }
    Ok(())
}

/// The plans of the eras, the last of which has no cut.
fn eras_of(alloc: Global, deeds: &[Deed], count: u64) -> Result<ItemList<EraPlan>, AllocError> {
    let mut eras = Vec::new(alloc);
    let mut places = Vec::new(alloc);
    let mut kept = None;
    let mut left = count;
    let counts = counts_of(alloc, deeds)?;
    for deed in deeds {
        match deed {
            Deed::Placed(place) => put_place(&mut places, counted(*place, &counts))?,
            Deed::Counted(..) => {}
            Deed::Cut => kept = Some(places.len() as u64),
            Deed::Ended => {
                left = left.saturating_sub(1);
                let all = places.len() as u64;
                let cut = if left == 0 {
                    None
                } else {
                    Some(kept.unwrap_or(all))
                };
                eras.push(era_of(places, cut))?;
                places = Vec::new(alloc);
                kept = None;
            }
        }
    }
    Ok(ItemList::new(eras))
}

/// The certificate of a state after so many eras.
pub(crate) fn certificate_of(
    alloc: Global,
    state: &WalkState,
    eras: u64,
) -> Result<Certificate, AllocError> {
    let binds = binds_of(alloc, state.bound()?)?;
    let deeds = state.deeds()?;
    let eras = eras_of(alloc, deeds.as_slice(), eras)?;
    Ok(Certificate { binds, eras })
}
