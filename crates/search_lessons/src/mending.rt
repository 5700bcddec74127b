//! How a file can have become what a reply shows of it, where it isn't so in a sweep.

use crate::facts::overlap;
use crate::files::{FileLog, Files, Folded, Item, order_of};
use crate::lessons::{Lesson, Lessons, Step};
use crate::marks::Marks;
use crate::score::Score;
use crate::seen::Seen;
use search_problem::Problem;
use std::alloc::{AllocError, Global};

/// How many lessons are drawn from one reply.
const MOST_LESSONS: usize = 16;

/// How many bytes a size is worth that says something.
const SIZE_SAYS: u64 = 2;

/// What is known where a call's reply shows a file as it isn't.
#[derive(Clone, Copy)]
pub struct Mending<'m, 's, 'a> {
    /// Where memory is taken from.
    pub alloc: Global,
    /// The history, and what its calls can do.
    pub problem: &'m Problem<'s, 'a>,
    /// What the sweeps have learned so far.
    pub lessons: &'m Lessons,
    /// The files of the sweep, with the calls that changed them.
    pub files: &'m Files,
    /// What the sweep noted of its eras.
    pub marks: &'m Marks,
    /// What the reply shows of the file.
    pub seen: &'m Seen<'m>,
    /// The call, and its era, counted from 0.
    pub number: u64,
    /// The era of that call, counted from 0.
    pub era: usize,
}

/// A file's calls after a lesson, and how far the file is then.
#[derive(Drop)]
struct Mended {
    items: Vec<Item>,
    step: Step,
    score: Score,
}

/// The nearer one, or the first.
fn nearer(one: Option<Mended>, other: Mended) -> Option<Mended> {
    match one {
        Some(one) => {
            if other.score.weight() < one.score.weight() {
                Some(other)
            } else {
                Some(one)
            }
        }
        None => Some(other),
    }
}

/// The bytes that a size is worth, where it is wrong.
fn size_says(score: Score) -> u64 {
    if score.fits_size { 0 } else { SIZE_SAYS }
}

impl<'m, 's, 'a> Mending<'m, 's, 'a> {
    /// Whether no crash takes a call.
    fn is_safe(&self, item: &Item) -> bool {
        item.is_stable
            || self.lessons.is_kept(item.number)
            || self.marks.committed.contains_key(&item.number)
    }

    /// Whether a crash may have taken a call that the sweep has kept.
    fn may_be_lost(&self, item: &Item) -> bool {
        if item.era >= self.era || self.is_safe(item) || !self.lessons.may_be_lost(item.number) {
            return false;
        }
        match self.problem.known().end(item.number) {
            Some(end) => end > self.marks.stable_begin(item.era),
            None => true,
        }
    }

    /// The file's calls, as what was learned has them.
    fn in_force(&self, log: &FileLog) -> Result<Vec<Item>, AllocError> {
        let mut items = Vec::new(self.alloc);
        let standing = log.items(self.alloc, false)?;
        for item in standing.iter() {
            if item.place < self.marks.lost_from(item.era) || self.is_safe(item) {
                items.push(*item)?;
            }
        }
        let gone = log.items(self.alloc, true)?;
        for item in gone.iter() {
            if self.lessons.is_kept(item.number) {
                items.push(*item)?;
            }
        }
        items.sort_by(order_of)?;
        Ok(items)
    }

    /// The bytes that the reply shows, as some calls make them.
    fn fold(&self, log: &FileLog, items: &[Item]) -> Result<Folded, AllocError> {
        log.fold(self.alloc, items, self.seen.offset, self.seen.bytes.len())
    }

    /// The calls after a lesson on one of them.
    fn mended(
        &self,
        log: &FileLog,
        items: Vec<Item>,
        lesson: Lesson,
        item: &Item,
    ) -> Result<Mended, AllocError> {
        let folded = self.fold(log, items.as_slice())?;
        Ok(Mended {
            items,
            step: Step {
                lesson,
                era: item.era,
                place: item.place,
            },
            score: Score::of(self.seen, &folded),
        })
    }

    /// How many wrong bytes each of the calls makes.
    fn wrong_of(&self, folded: &Folded, count: usize) -> Result<Vec<u64>, AllocError> {
        let mut wrong = vec![in self.alloc; 0u64; count]?;
        let places = folded
            .owners
            .iter()
            .zip(folded.bytes.iter().zip(self.seen.bytes.iter()));
        for (owner, (made, shown)) in places {
            if *made != *shown {
                if let Some(known) = wrong.get_mut(*owner) {
                    *known = known.saturating_add(1);
                }
            }
        }
        Ok(wrong)
    }

    /// The calls with one more, which stands at the place that is given with them.
    fn with(&self, items: &[Item], item: Item) -> Result<(Vec<Item>, usize), AllocError> {
        let mut more = Vec::new(self.alloc);
        for other in items {
            if order_of(other, &item).is_lt() {
                more.push(*other)?;
            }
        }
        let at = more.len();
        more.push(item)?;
        for other in items.iter().skip(at) {
            more.push(*other)?;
        }
        Ok((more, at))
    }

    /// The calls without one that a crash took, and without those behind it in its era that aren't safe.
    fn without_lost(&self, items: &[Item], lost: &Item) -> Result<Vec<Item>, AllocError> {
        let mut fewer = Vec::new(self.alloc);
        for item in items {
            if item.era != lost.era || item.place < lost.place || self.is_safe(item) {
                fewer.push(*item)?;
            }
        }
        Ok(fewer)
    }

    /// The calls without one of them.
    fn without(&self, items: &[Item], left_out: &Item) -> Result<Vec<Item>, AllocError> {
        let mut fewer = Vec::new(self.alloc);
        for item in items {
            if item.number != left_out.number {
                fewer.push(*item)?;
            }
        }
        Ok(fewer)
    }

    /// The calls with one of them ahead of an earlier one.
    fn with_ahead(
        &self,
        items: &[Item],
        later: usize,
        earlier: usize,
    ) -> Result<Vec<Item>, AllocError> {
        let mut moved = Vec::new(self.alloc);
        for (place, item) in items.iter().enumerate() {
            if place == earlier {
                if let Some(first) = items.get(later) {
                    moved.push(*first)?;
                }
            }
            if place != later {
                moved.push(*item)?;
            }
        }
        Ok(moved)
    }

    /// What becomes of the calls with one that was gone, where it makes no wrong byte itself.
    fn try_gone(
        &self,
        log: &FileLog,
        items: &[Item],
        item: &Item,
        score: Score,
    ) -> Result<Option<Mended>, AllocError> {
        let (more, at) = self.with(items, *item)?;
        let folded = self.fold(log, more.as_slice())?;
        let after = Score::of(self.seen, &folded);
        let wrong = self.wrong_of(&folded, more.len())?;
        if !after.mends(score) || wrong.get(at).copied().unwrap_or(0) > 0 {
            return Ok(None);
        }
        let weight = score.wrong.saturating_sub(after.wrong);
        let says = if after.fits_size == score.fits_size {
            0
        } else {
            SIZE_SAYS
        };
        let lesson = Lesson::Kept(item.number, weight.saturating_add(says));
        Ok(Some(self.mended(log, more, lesson, item)?))
    }

    /// Whether a call that is gone may have been kept, and has a say in what the reply shows of a file that is so large.
    fn may_mend(&self, log: &FileLog, item: &Item, size: u64) -> bool {
        !self.lessons.is_kept(item.number)
            && self.lessons.may_be_kept(item.number)
            && log.has_a_say(item, self.seen.offset, self.seen.bytes.len(), size)
    }

    /// The newest call that is gone and would mend the bytes or the size: it was kept.
    fn keep_gone(
        &self,
        log: &FileLog,
        items: &[Item],
        folded: &Folded,
    ) -> Result<Option<Mended>, AllocError> {
        let score = Score::of(self.seen, folded);
        let gone = log.items(self.alloc, true)?;
        for item in gone.iter().rev() {
            if !self.may_mend(log, item, folded.size) {
                continue;
            }
            if let Some(mended) = self.try_gone(log, items, item, score)? {
                return Ok(Some(mended));
            }
        }
        Ok(None)
    }

    /// What becomes of the calls where a crash took one of them.
    fn lose(
        &self,
        log: &FileLog,
        items: &[Item],
        item: &Item,
        weight: u64,
    ) -> Result<Mended, AllocError> {
        let fewer = self.without_lost(items, item)?;
        self.mended(log, fewer, Lesson::Lost(item.number, weight), item)
    }

    /// The newest call without which the size would be as shown, and no more bytes wrong; else the newest that makes the file too large.
    fn lose_for_size(
        &self,
        log: &FileLog,
        items: &[Item],
        folded: &Folded,
    ) -> Result<Option<Mended>, AllocError> {
        let score = Score::of(self.seen, folded);
        for item in items.iter().rev() {
            if self.may_be_lost(item) {
                let mended = self.lose(log, items, item, SIZE_SAYS)?;
                if mended.score.mends_size(score) {
                    return Ok(Some(mended));
                }
            }
        }
        if score.wrong > 0 {
            return Ok(None);
        }
        for item in items.iter().rev() {
            if self.may_be_lost(item) && log.end_of(item) == folded.size {
                return Ok(Some(self.lose(log, items, item, SIZE_SAYS)?));
            }
        }
        Ok(None)
    }

    /// The best of what was known and what can be said of a call that makes so many wrong bytes: a crash took it, or it stands ahead of
    /// an earlier one.
    fn blame(
        &self,
        log: &FileLog,
        items: &[Item],
        score: Score,
        owner: usize,
        wrong: u64,
        best: Option<Mended>,
    ) -> Result<Option<Mended>, AllocError> {
        let Some(item) = items.get(owner) else {
            return Ok(best);
        };
        let mut best = best;
        if self.may_be_lost(item) {
            let weight = wrong.saturating_add(size_says(score));
            best = nearer(best, self.lose(log, items, item, weight)?);
        }
        for earlier in (0..owner).rev() {
            let Some(other) = items.get(earlier) else {
                continue;
            };
            if other.era != item.era {
                break;
            }
            if overlap(self.problem, item.number, other.number) {
                let moved = self.with_ahead(items, owner, earlier)?;
                let lesson = Lesson::Ahead(item.number, other.number);
                let mended = self.mended(log, moved, lesson, item)?;
                if mended.score.weight() < score.weight() {
                    best = nearer(best, mended);
                }
            }
        }
        Ok(best)
    }

    /// The best of what can be said of the calls that make wrong bytes or a wrong size.
    fn blame_owners(
        &self,
        log: &FileLog,
        items: &[Item],
        folded: &Folded,
    ) -> Result<Option<Mended>, AllocError> {
        let score = Score::of(self.seen, folded);
        let mut best = if score.fits_size {
            None
        } else {
            self.lose_for_size(log, items, folded)?
        };
        let wrong = self.wrong_of(folded, items.len())?;
        for (owner, count) in wrong.iter().enumerate().rev() {
            if *count > 0 {
                best = self.blame(log, items, score, owner, *count, best)?;
            }
        }
        Ok(best)
    }

    /// The newest call with which ahead of an earlier one the size would be as shown.
    fn turn_for_size(
        &self,
        log: &FileLog,
        items: &[Item],
        score: Score,
        later: usize,
    ) -> Result<Option<Mended>, AllocError> {
        let Some(item) = items.get(later) else {
            return Ok(None);
        };
        for earlier in (0..later).rev() {
            let Some(other) = items.get(earlier) else {
                continue;
            };
            if other.era != item.era {
                break;
            }
            if overlap(self.problem, item.number, other.number) {
                let moved = self.with_ahead(items, later, earlier)?;
                let lesson = Lesson::Ahead(item.number, other.number);
                let mended = self.mended(log, moved, lesson, item)?;
                if mended.score.mends_size(score) {
                    return Ok(Some(mended));
                }
            }
        }
        Ok(None)
    }

    /// Two calls in the other order, with which the size would be as shown.
    fn turn_any(
        &self,
        log: &FileLog,
        items: &[Item],
        score: Score,
    ) -> Result<Option<Mended>, AllocError> {
        for later in (0..items.len()).rev() {
            if let Some(mended) = self.turn_for_size(log, items, score, later)? {
                return Ok(Some(mended));
            }
        }
        Ok(None)
    }

    /// An unanswered call that was thought to have taken effect, and without which the file would be nearer.
    fn untake(
        &self,
        log: &FileLog,
        items: &[Item],
        score: Score,
    ) -> Result<Option<Mended>, AllocError> {
        for item in items.iter().rev() {
            if self.problem.known().end(item.number).is_some()
                || !self.lessons.is_kept(item.number)
            {
                continue;
            }
            let fewer = self.without(items, item)?;
            let mended = self.mended(log, fewer, Lesson::NotTaken(item.number), item)?;
            if mended.score.fits_size && mended.score.mends(score) {
                return Ok(Some(mended));
            }
        }
        Ok(None)
    }

    /// One thing that can be said to bring the file nearer to what is shown.
    fn next_step(
        &self,
        log: &FileLog,
        items: &[Item],
        folded: &Folded,
    ) -> Result<Option<Mended>, AllocError> {
        let score = Score::of(self.seen, folded);
        if let Some(mended) = self.keep_gone(log, items, folded)? {
            return Ok(Some(mended));
        }
        if let Some(mended) = self.blame_owners(log, items, folded)? {
            return Ok(Some(mended));
        }
        if !score.fits_size {
            if let Some(mended) = self.turn_any(log, items, score)? {
                return Ok(Some(mended));
            }
        }
        self.untake(log, items, score)
    }

    /// What has to be said for the file to be as shown, if that is enough.
    fn mend(&self, log: &FileLog, items: Vec<Item>) -> Result<Option<Vec<Step>>, AllocError> {
        let mut items = items;
        let mut learned = Vec::new(self.alloc);
        for _ in 0..MOST_LESSONS {
            let folded = self.fold(log, items.as_slice())?;
            if Score::of(self.seen, &folded).weight() == 0 {
                return Ok(Some(learned));
            }
            let Some(mended) = self.next_step(log, items.as_slice(), &folded)? else {
                return Ok(None);
            };
            let Mended {
                items: next,
                step,
                score: _,
            } = mended;
            items = next;
            learned.push(step)?;
        }
        Ok(None)
    }

    /// Whether the call can have come ahead of the last of a file's calls.
    fn may_precede(&self, last: Option<&Item>) -> bool {
        match last {
            Some(item) => item.era == self.era && overlap(self.problem, item.number, self.number),
            None => false,
        }
    }

    /// What the reply says of the file: as it is now, or as it was at an earlier moment at which the call can have come. Nothing where it
    /// can't be made out.
    pub fn lessons_of_file(&self) -> Result<Option<Vec<Step>>, AllocError> {
        let Some(log) = self.files.log(self.seen.file.as_slice()) else {
            return Ok(None);
        };
        let mut items = self.in_force(log)?;
        for _ in 0..items.len().saturating_add(1) {
            if let Some(learned) = self.mend(log, items.clone()?)? {
                return Ok(Some(learned));
            }
            if !self.may_precede(items.last()) {
                break;
            }
            items.pop();
        }
        Ok(None)
    }
}
