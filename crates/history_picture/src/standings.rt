//! Where the calls stand in the order of a certificate, and which are marked.

use crate::parts::Mark;
use certificate::{Certificate, EraPlan};
use std::alloc::{AllocError, Global};

/// Where a call stands.
#[derive(Clone, Copy)]
pub struct Standing {
    /// Its place in the order, if it has one.
    pub place: Option<u64>,
    /// Whether the crash behind its era took it away.
    pub is_lost: bool,
    /// Why it is marked.
    pub mark: Mark,
}

impl Standing {
    /// That of a call of which nothing is known.
    const UNKNOWN: Standing = Standing {
        place: None,
        is_lost: false,
        mark: Mark::Plain,
    };
}

/// Where each call of a history stands.
#[derive(Drop)]
pub struct Standings {
    of_calls: Vec<Standing>,
    /// How many places were taken in.
    places: u64,
}

/// The index of a call among all calls; of call 0 it is that of none.
fn index_of(call: u64) -> usize {
    (call as usize).wrapping_sub(1)
}

impl Standings {
    /// Those of so many calls, of which nothing is known.
    pub fn new(alloc: Global, calls: usize) -> Result<Standings, AllocError> {
        Ok(Standings {
            of_calls: vec![in alloc; Standing::UNKNOWN; calls]?,
            places: 0,
        })
    }

    /// Where a call stands.
    pub fn of(&self, call: u64) -> Standing {
        match self.of_calls.get(index_of(call)) {
            Some(standing) => *standing,
            None => Standing::UNKNOWN,
        }
    }

    /// Marks a call.
    pub fn mark(&mut self, call: u64, mark: Mark) {
        if let Some(standing) = self.of_calls.get_mut(index_of(call)) {
            standing.mark = mark;
        }
    }

    /// Gives a call the next place.
    fn put(&mut self, call: u64, is_lost: bool) {
        self.places = self.places.saturating_add(1);
        if let Some(standing) = self.of_calls.get_mut(index_of(call)) {
            standing.place = Some(self.places);
            standing.is_lost = is_lost;
        }
    }

    /// Takes in the places of an era.
    fn put_era(&mut self, era: &EraPlan) {
        let mut before = 0u64;
        for place in era.places.as_slice() {
            let is_lost = match era.cut {
                Some(kept) => kept <= before,
                None => false,
            };
            self.put(place.number(), is_lost);
            before = before.saturating_add(1);
        }
    }

    /// Takes in the places of a certificate.
    pub fn put_places(&mut self, certificate: &Certificate) {
        for era in certificate.eras.as_slice() {
            self.put_era(era);
        }
    }
}
