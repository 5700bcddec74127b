//! The certificate of a branch in which every era has its places.

use crate::branch_facts::BoundHandle;
use crate::state::State;
use certificate::{Bind, Certificate, EraPlan, Place};
use nfs3_types::ItemList;
use search_problem::{Move, Problem, find, full_count};
use std::alloc::{AllocError, Global};
use std::collections::BTreeMap;

/// The place of a call to which no reply came.
fn taken_place(alloc: Global, problem: &Problem<'_, '_>, number: u64) -> Result<Place, AllocError> {
    match find(alloc, problem.known(), Move::Take(number))? {
        Some(found) => Ok(Place::Taken(number, full_count(&found.call))),
        None => Ok(Place::Taken(number, None)),
    }
}

/// The binds in the order of their handles.
fn sorted_binds(alloc: Global, bound: &[BoundHandle]) -> Result<ItemList<Bind>, AllocError> {
    let mut objects = BTreeMap::new(alloc);
    for bind in bound {
        if let Some(object) = bind.object {
            let key = Vec::from_slice(alloc, bind.handle.as_slice())?;
            let kept = Bind {
                handle: bind.handle.clone()?,
                object,
            };
            objects.insert(key, kept)?;
        }
    }
    let mut binds = Vec::new(alloc);
    for (_, bind) in objects.iter() {
        binds.push(Bind {
            handle: bind.handle.clone()?,
            object: bind.object,
        })?;
    }
    Ok(ItemList::new(binds))
}

impl State {
    /// The certificate of the branch.
    pub fn certificate(&self, problem: &Problem<'_, '_>) -> Result<Certificate, AllocError> {
        let alloc = self.facts.alloc;
        let mut eras = Vec::new(alloc);
        let mut places = Vec::new(alloc);
        for step in self.facts.path.iter() {
            match step.chosen {
                Move::Answer(number) => places.push(Place::Answered(number))?,
                Move::Take(number) => places.push(taken_place(alloc, problem, number)?)?,
                Move::Cut(kept) => {
                    eras.push(EraPlan {
                        places: ItemList::new(places),
                        cut: Some(kept as u64),
                    })?;
                    places = Vec::new(alloc);
                }
            }
        }
        eras.push(EraPlan {
            places: ItemList::new(places),
            cut: None,
        })?;
        Ok(Certificate {
            binds: sorted_binds(alloc, self.facts.bound.as_slice())?,
            eras: ItemList::new(eras),
        })
    }
}
