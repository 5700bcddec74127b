//! What a sweep notes beside its branch.

use search_lessons::{
    CallsByName, Files, Marks, NO_PLACE, Writer, change_of, found_of, is_stable, made_by, places_of,
};
use search_problem::{FoundCall, Nature, Problem};
use std::alloc::{AllocError, Global};
use std::collections::BTreeMap;

/// What a sweep knows beside its branch.
#[derive(Drop)]
pub(crate) struct Notes {
    alloc: Global,
    pub(crate) files: Files,
    pub(crate) marks: Marks,
    /// The calls that couldn't be placed, and the decisions that didn't go together.
    pub(crate) conflicts: u64,
    /// Whether the sweep is to end.
    pub(crate) is_stopped: bool,
    /// The calls that are placed and may change the tree, by the names in them.
    pub(crate) changes: CallsByName,
    /// The unanswered calls that weren't kept, by the names in them.
    pub(crate) left_out: CallsByName,
    /// The unanswered calls that could make something, of the eras that ended and of this one where they are placed, each with the name of
    /// what it would make.
    pub(crate) makers: BTreeMap<u64, Vec<u8>>,
    /// The unanswered calls of earlier eras that weren't kept and were placed since.
    pub(crate) revived: BTreeMap<u64, ()>,
}

/// A call that is placed.
#[derive(Clone, Copy)]
pub(crate) struct Placed {
    pub(crate) number: u64,
    pub(crate) nature: Nature,
    /// Its era, and its place in it, counted from 0.
    pub(crate) era: usize,
    pub(crate) place: u64,
    /// How many moves led there.
    pub(crate) depth: usize,
}

impl Notes {
    /// Of so many eras.
    pub(crate) fn new(alloc: Global, eras: usize) -> Result<Notes, AllocError> {
        Ok(Notes {
            alloc,
            files: Files::new(alloc),
            marks: Marks::new(alloc, eras)?,
            conflicts: 0,
            is_stopped: false,
            changes: CallsByName::new(alloc),
            left_out: CallsByName::new(alloc),
            makers: BTreeMap::new(alloc),
            revived: BTreeMap::new(alloc),
        })
    }

    /// The WRITEs that a COMMIT kept.
    pub(crate) fn into_committed(self) -> BTreeMap<u64, ()> {
        let Notes {
            alloc: _,
            files,
            marks,
            conflicts: _,
            is_stopped: _,
            changes,
            left_out,
            makers,
            revived,
        } = self;
        drop(files);
        drop(changes);
        drop(left_out);
        drop(makers);
        drop(revived);
        marks.into_committed()
    }

    /// Notes that a conflict was met.
    pub(crate) fn count_conflict(&mut self) {
        self.conflicts = self.conflicts.saturating_add(1);
    }

    /// Has the sweep end.
    pub(crate) fn stop(&mut self) {
        self.is_stopped = true;
    }

    /// Takes back what was noted past so many moves.
    pub(crate) fn back_to(&mut self, depth: usize) {
        self.files.back_to(depth);
        self.changes.back_to(depth);
    }

    /// Ends an era that so many moves led to, of whose places so many are kept.
    pub(crate) fn end_era(&mut self, era: usize, kept: usize, depth: usize, places: usize) {
        self.changes
            .back_to(depth.saturating_sub(places.saturating_sub(kept)));
        self.changes.end_era();
        self.files.end_era(era, kept as u64);
    }

    /// Notes the names in a call that is placed.
    fn place_names(&mut self, placed: Placed, found: &FoundCall) -> Result<(), AllocError> {
        let (from, to) = places_of(&found.call);
        if let Some(place) = from {
            self.changes
                .place(place.name.as_slice(), placed.number, placed.depth)?;
        }
        if let Some(place) = to {
            self.changes
                .place(place.name.as_slice(), placed.number, placed.depth)?;
        }
        Ok(())
    }

    /// Notes that an unanswered call may have made something, if it can.
    fn put_maker(&mut self, number: u64, found: &FoundCall) -> Result<(), AllocError> {
        if let Some(place) = made_by(&found.call) {
            let name = Vec::from_slice(self.alloc, place.name.as_slice())?;
            self.makers.insert(number, name)?;
        }
        Ok(())
    }

    /// Notes a call that is placed.
    pub(crate) fn place(&mut self, placed: Placed, found: &FoundCall) -> Result<(), AllocError> {
        self.place_names(placed, found)?;
        if placed.nature == Nature::Unanswered {
            self.put_maker(placed.number, found)?;
        }
        if let Some((handle, change)) = change_of(found)? {
            let writer = Writer {
                number: placed.number,
                era: placed.era,
                place: placed.place,
                is_stable: is_stable(found, placed.nature),
                is_gone: false,
                change,
            };
            self.files.place(&handle, writer, placed.depth)?;
        }
        Ok(())
    }

    /// Notes the names in an unanswered call that isn't kept, and that it may have made something.
    fn leave_out_names(&mut self, number: u64, found: &FoundCall) -> Result<(), AllocError> {
        self.put_maker(number, found)?;
        let (from, to) = places_of(&found.call);
        if let Some(place) = from {
            self.left_out.put(place.name.as_slice(), number)?;
        }
        if let Some(place) = to {
            self.left_out.put(place.name.as_slice(), number)?;
        }
        Ok(())
    }

    /// Notes what an unanswered call without a place would have done to a file.
    fn leave_out_change(
        &mut self,
        number: u64,
        era: usize,
        found: &FoundCall,
    ) -> Result<(), AllocError> {
        if let Some((handle, change)) = change_of(found)? {
            let writer = Writer {
                number,
                era,
                place: NO_PLACE,
                is_stable: false,
                is_gone: true,
                change,
            };
            self.files.leave_out(&handle, writer)?;
        }
        Ok(())
    }

    /// Notes unanswered calls of an era that aren't kept, each with whether it had a place.
    pub(crate) fn leave_out(
        &mut self,
        alloc: Global,
        problem: &Problem<'_, '_>,
        era: usize,
        calls: &[(u64, bool)],
    ) -> Result<(), AllocError> {
        for (number, has_place) in calls {
            if let Some(found) = found_of(alloc, problem, *number)? {
                self.leave_out_names(*number, &found)?;
                if !*has_place {
                    self.leave_out_change(*number, era, &found)?;
                }
            }
        }
        Ok(())
    }
}
