//! What a call that can't be placed says of names, and of a file.

use crate::sweep::Sweep;
use nfs3_types::DirectoryName;
use search_lessons::{Lesson, Mending, Seen, Step, overlap, places_of};
use search_problem::FoundCall;
use std::alloc::AllocError;
use tree_handles::{View, named};

/// How many unanswered calls of a name are tried.
const MOST_LEFT_OUT: usize = 32;

/// How many of the last changes of a name are looked at.
const LAST_CHANGES: usize = 4;

impl<'p, 's, 'a> Sweep<'p, 's, 'a> {
    /// The object of an entry.
    fn entry_object(&self, place: Option<&DirectoryName>) -> Option<u64> {
        let view = View {
            binds: self.state.binds(),
            nodes: self.state.nodes()?,
        };
        match named(&view, place?) {
            Some(node) => Some(node.object),
            None => None,
        }
    }

    /// The objects of the entries that a call names.
    pub(crate) fn objects_named(&self, found: &FoundCall) -> (Option<u64>, Option<u64>) {
        let (from, to) = places_of(&found.call);
        (self.entry_object(from), self.entry_object(to))
    }

    /// Has an unanswered call of an earlier era take effect if a call can be placed then, and says whether it can; else nothing changes.
    fn try_left_out(&mut self, number: u64, other: u64) -> Result<bool, AllocError> {
        if !self.lessons.may_be_kept(other) || self.notes.revived.contains_key(&other) {
            return Ok(false);
        }
        let depth = self.state.depth();
        if !self.place(other)? {
            return Ok(false);
        }
        if !self.is_legal(number)? {
            self.back_to(depth)?;
            return Ok(false);
        }
        self.notes.revived.insert(other, ())?;
        self.lessons.learn(Lesson::Kept(other, 1))?;
        Ok(true)
    }

    /// Has an unanswered call of an earlier era take effect without which a call can't be placed, and says whether there is one.
    fn find_left_out(&mut self, number: u64, name: &[u8]) -> Result<bool, AllocError> {
        let calls = Vec::from_slice(self.alloc, self.notes.left_out.of(name))?;
        for other in calls.iter().rev().take(MOST_LEFT_OUT) {
            if self.try_left_out(number, *other)? {
                return Ok(true);
            }
        }
        Ok(false)
    }

    /// The pairs of the last changes of a name that overlap, the newest first.
    fn overlapping_changes(&self, name: &[u8]) -> Result<Vec<(u64, u64)>, AllocError> {
        let mut pairs = Vec::new(self.alloc);
        let calls = self.notes.changes.of(name);
        let first = calls.len().saturating_sub(LAST_CHANGES);
        for (place, later) in calls.iter().enumerate().skip(first).rev() {
            for earlier in calls.iter().take(place).rev().take(LAST_CHANGES) {
                if *earlier != *later && overlap(self.problem, *earlier, *later) {
                    pairs.push((*earlier, *later))?;
                }
            }
        }
        Ok(pairs)
    }

    /// Learns from a name of a call that can't be placed which unanswered call it needs, and says whether that could be found.
    fn find_left_out_at(
        &mut self,
        number: u64,
        place: Option<&DirectoryName>,
    ) -> Result<bool, AllocError> {
        match place {
            Some(place) => self.find_left_out(number, place.name.as_slice()),
            None => Ok(false),
        }
    }

    /// Has changes of a name of a call that can't be placed be made in another order, and says whether there are such.
    fn turn_at(&mut self, place: Option<&DirectoryName>) -> Result<bool, AllocError> {
        match place {
            Some(place) => {
                let pairs = self.overlapping_changes(place.name.as_slice())?;
                self.lessons.turn_first(pairs.as_slice())
            }
            None => Ok(false),
        }
    }

    /// Learns which unanswered calls a call's handles and names need, and which changes of its names go first.
    fn explain_names(&mut self, number: u64, found: &FoundCall) -> Result<(), AllocError> {
        let (from, to) = places_of(&found.call);
        if self.find_maker(number, found)? {
            return Ok(());
        }
        if self.find_left_out_at(number, from)? {
            return Ok(());
        }
        if self.find_left_out_at(number, to)? {
            return Ok(());
        }
        if self.refute_makers(number, found)? {
            return Ok(());
        }
        if self.turn_at(from)? {
            return Ok(());
        }
        self.turn_at(to)?;
        Ok(())
    }

    /// What a call's reply says of a file, where it shows one.
    fn lessons_of_file(
        &self,
        number: u64,
        found: &FoundCall,
    ) -> Result<Option<Vec<Step>>, AllocError> {
        let Some(seen) = Seen::of(found) else {
            return Ok(None);
        };
        if self.state.binds().object(seen.file.as_slice()).is_none() {
            return Ok(None);
        }
        let mending = Mending {
            alloc: self.alloc,
            problem: self.problem,
            lessons: &self.lessons,
            files: &self.notes.files,
            marks: &self.notes.marks,
            seen: &seen,
            number,
            era: self.state.era(),
        };
        mending.lessons_of_file()
    }

    /// Learns what a call's reply says that can't be placed now.
    pub(crate) fn explain(&mut self, number: u64, found: &FoundCall) -> Result<(), AllocError> {
        let Some(steps) = self.lessons_of_file(number, found)? else {
            return self.explain_names(number, found);
        };
        self.notes.marks.lose(steps.as_slice());
        self.lessons.learn_all(steps.as_slice())
    }
}
