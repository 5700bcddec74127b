//! What sweeps learn.

use nfs3_types::FileHandle;
use std::alloc::{AllocError, Global};
use std::collections::BTreeMap;

/// What a conflict says.
#[derive(Clone, Copy)]
pub enum Lesson {
    /// A crash took this place; so many bytes say so.
    Lost(u64, u64),
    /// This place was kept, or this unanswered call took effect; so many bytes say so.
    Kept(u64, u64),
    /// The first call stands ahead of the second one.
    Ahead(u64, u64),
    /// An unanswered call that was thought to have taken effect didn't.
    NotTaken(u64),
}

/// A lesson, with the era, counted from 0, and the place of the call that it speaks of.
#[derive(Clone, Copy)]
pub struct Step {
    /// What was learned.
    pub lesson: Lesson,
    /// The era of the call, counted from 0.
    pub era: usize,
    /// The call's place in its era, counted from 0, or `NO_PLACE`.
    pub place: u64,
}

/// What sweeps have learned. Calls are named by their numbers.
#[derive(Drop)]
pub struct Lessons {
    alloc: Global,
    /// The calls that go ahead of a call.
    ahead: BTreeMap<u64, Vec<u64>>,
    /// The places that a crash took, with how many bytes said so.
    lost: BTreeMap<u64, u64>,
    /// The places that were kept, and the unanswered calls that took effect, with how many bytes said so.
    kept: BTreeMap<u64, u64>,
    /// Places that no crash may be said to have taken once more.
    never_lost: BTreeMap<u64, ()>,
    /// Calls that may not be said to be kept once more.
    never_kept: BTreeMap<u64, ()>,
    /// The handles of what unanswered calls made.
    handles: BTreeMap<u64, FileHandle>,
    /// The handles that unanswered calls didn't make.
    refuted: BTreeMap<u64, Vec<FileHandle>>,
    /// The pairs of calls of which one was said to go ahead of the other for a name that both change.
    turned: BTreeMap<(u64, u64), ()>,
    /// WRITEs that a COMMIT of the sweep before kept.
    pub committed: BTreeMap<u64, ()>,
}

/// Adds to how many bytes say something of a call.
fn add_weight(calls: &mut BTreeMap<u64, u64>, number: u64, weight: u64) -> Result<(), AllocError> {
    if let Some(known) = calls.get_mut(&number) {
        *known = known.saturating_add(weight);
        return Ok(());
    }
    calls.insert(number, weight)?;
    Ok(())
}

impl Lessons {
    /// Before the first sweep.
    pub fn new(alloc: Global) -> Lessons {
        Lessons {
            alloc,
            ahead: BTreeMap::new(alloc),
            lost: BTreeMap::new(alloc),
            kept: BTreeMap::new(alloc),
            never_lost: BTreeMap::new(alloc),
            never_kept: BTreeMap::new(alloc),
            handles: BTreeMap::new(alloc),
            refuted: BTreeMap::new(alloc),
            turned: BTreeMap::new(alloc),
            committed: BTreeMap::new(alloc),
        }
    }

    /// The calls that go ahead of a call.
    pub fn ahead_of(&self, number: u64) -> &[u64] {
        match self.ahead.get(&number) {
            Some(calls) => calls.as_slice(),
            None => &[],
        }
    }

    /// Whether a crash took a place.
    pub fn is_lost(&self, number: u64) -> bool {
        self.lost.contains_key(&number)
    }

    /// Whether a place was kept, or an unanswered call took effect.
    pub fn is_kept(&self, number: u64) -> bool {
        self.kept.contains_key(&number)
    }

    /// Whether a place may be said to be lost.
    pub fn may_be_lost(&self, number: u64) -> bool {
        !self.kept.contains_key(&number) && !self.never_lost.contains_key(&number)
    }

    /// Whether a call may be said to be kept.
    pub fn may_be_kept(&self, number: u64) -> bool {
        !self.never_kept.contains_key(&number)
    }

    /// The handle of what an unanswered call made.
    pub fn handle_of(&self, number: u64) -> Option<&FileHandle> {
        self.handles.get(&number)
    }

    /// Whether an unanswered call may have made what a handle names.
    pub fn may_make(&self, number: u64, handle: &FileHandle) -> bool {
        if let Some(known) = self.handles.get(&number) {
            return known.as_slice() == handle.as_slice();
        }
        match self.refuted.get(&number) {
            Some(refuted) => !refuted
                .iter()
                .any(|other| other.as_slice() == handle.as_slice()),
            None => true,
        }
    }

    /// Says that an unanswered call made what a handle names.
    pub fn give_handle(&mut self, number: u64, handle: &FileHandle) -> Result<(), AllocError> {
        self.handles.insert(number, handle.clone()?)?;
        Ok(())
    }

    /// Notes that an unanswered call didn't make what a handle names.
    fn refute(&mut self, number: u64, handle: FileHandle) -> Result<(), AllocError> {
        if let Some(refuted) = self.refuted.get_mut(&number) {
            refuted.push(handle)?;
            return Ok(());
        }
        let mut refuted = Vec::new(self.alloc);
        refuted.push(handle)?;
        self.refuted.insert(number, refuted)?;
        Ok(())
    }

    /// Takes back that an unanswered call took effect and made what its handle names, and says that it didn't make that.
    pub fn refute_handle(&mut self, number: u64) -> Result<(), AllocError> {
        self.kept.remove(&number);
        match self.handles.remove(&number) {
            Some(handle) => self.refute(number, handle),
            None => Ok(()),
        }
    }

    /// Takes back that the first of some calls made an object, where that was guessed of an unanswered one, and gives it, if there is one.
    pub fn refute_first(&mut self, makers: &[Option<u64>]) -> Result<Option<u64>, AllocError> {
        for maker in makers {
            if let Some(number) = maker {
                if self.handles.contains_key(number) {
                    self.refute_handle(*number)?;
                    return Ok(Some(*number));
                }
            }
        }
        Ok(None)
    }

    /// Takes back that an unanswered call made what its handle names, unless that was known before.
    pub fn forget_guess(&mut self, number: u64, was_known: bool) {
        if !was_known {
            self.handles.remove(&number);
        }
    }

    /// Notes that a call goes ahead of another one.
    fn put_ahead(&mut self, first: u64, second: u64) -> Result<(), AllocError> {
        if let Some(calls) = self.ahead.get_mut(&second) {
            if !calls.contains(&first) {
                calls.push(first)?;
            }
            return Ok(());
        }
        let mut calls = Vec::new(self.alloc);
        calls.push(first)?;
        self.ahead.insert(second, calls)?;
        Ok(())
    }

    /// Says that the later of two calls goes ahead of the earlier one, unless that was said of one of them before; it says whether it did.
    fn turn(&mut self, earlier: u64, later: u64) -> Result<bool, AllocError> {
        let pair = (earlier.min(later), earlier.max(later));
        if self.turned.contains_key(&pair) {
            return Ok(false);
        }
        self.turned.insert(pair, ())?;
        self.put_ahead(later, earlier)?;
        Ok(true)
    }

    /// Says of the first of some pairs of calls that the later one, which stands second, goes ahead, unless that was said of the pair
    /// before; it says whether there is such a pair.
    pub fn turn_first(&mut self, pairs: &[(u64, u64)]) -> Result<bool, AllocError> {
        for (earlier, later) in pairs {
            if self.turn(*earlier, *later)? {
                return Ok(true);
            }
        }
        Ok(false)
    }

    /// Learns what a conflict says.
    pub fn learn(&mut self, lesson: Lesson) -> Result<(), AllocError> {
        match lesson {
            Lesson::Lost(number, weight) => add_weight(&mut self.lost, number, weight),
            Lesson::Kept(number, weight) => add_weight(&mut self.kept, number, weight),
            Lesson::Ahead(first, second) => self.put_ahead(first, second),
            Lesson::NotTaken(number) => self.leave_out(number),
        }
    }

    /// Learns what a conflict says in several steps.
    pub fn learn_all(&mut self, steps: &[Step]) -> Result<(), AllocError> {
        for step in steps {
            self.learn(step.lesson)?;
        }
        Ok(())
    }

    /// Takes back that a call was kept, for good.
    fn leave_out(&mut self, number: u64) -> Result<(), AllocError> {
        self.kept.remove(&number);
        self.never_kept.insert(number, ())?;
        Ok(())
    }

    /// Takes back that a crash took places, for good.
    pub fn keep_all_for_good(&mut self, calls: &[u64]) -> Result<(), AllocError> {
        for number in calls {
            self.keep_for_good(*number)?;
        }
        Ok(())
    }

    /// Takes back that a crash took a place, for good.
    fn keep_for_good(&mut self, number: u64) -> Result<(), AllocError> {
        if self.lost.remove(&number).is_some() {
            self.never_lost.insert(number, ())?;
        }
        Ok(())
    }

    /// One of two places was lost although the other, behind it, was kept: what fewer bytes say is taken back for good.
    pub fn settle_cut(&mut self, lost: u64, kept: u64) -> Result<(), AllocError> {
        let lost_weight = self.lost.get(&lost).copied().unwrap_or(0);
        let kept_weight = self.kept.get(&kept).copied().unwrap_or(0);
        if lost_weight < kept_weight {
            return self.keep_for_good(lost);
        }
        self.leave_out(kept)?;
        self.refute_handle(kept)
    }
}
