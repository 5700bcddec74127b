//! Which unanswered call made what a handle names that no reply gave.

use crate::sweep::Sweep;
use nfs3_types::FileHandle;
use search_lessons::{Lesson, found_of, given_by, handles_of, is_failed, made_by, shows_file};
use search_problem::FoundCall;
use std::alloc::AllocError;

/// What speaks for an unanswered call as the maker of what a handle names.
#[derive(Clone, Copy, PartialEq, Eq)]
enum Chance {
    /// It is known to have made that.
    Known,
    /// What it made stands, and has no handle.
    Standing,
    /// A reply shows the handle under the name of what it would make.
    Named,
    /// Nothing.
    Free,
}

/// How many makers are tried for a handle.
const MOST_MAKERS: usize = 64;

impl<'p, 's, 'a> Sweep<'p, 's, 'a> {
    /// Puts a handle among others, if it names nothing.
    fn put_unbound(
        &self,
        unbound: &mut Vec<FileHandle>,
        handle: Option<&FileHandle>,
    ) -> Result<(), AllocError> {
        if let Some(handle) = handle {
            if self.state.binds().object(handle.as_slice()).is_none() {
                unbound.push(handle.clone()?)?;
            }
        }
        Ok(())
    }

    /// The handles that a call needs and that name nothing.
    fn unbound(&self, found: &FoundCall) -> Result<Vec<FileHandle>, AllocError> {
        let mut unbound = Vec::new(self.alloc);
        if !is_failed(found) {
            let (one, other) = handles_of(&found.call);
            self.put_unbound(&mut unbound, one)?;
            self.put_unbound(&mut unbound, other)?;
        }
        Ok(unbound)
    }

    /// Has an object of an unanswered call stand, and its handle name it; it says whether that could be done.
    fn place_maker(&mut self, maker: u64, handle: &FileHandle) -> Result<bool, AllocError> {
        let object = self.problem.object_of(maker);
        if self.state.stands(object) {
            self.state.bind(handle, object)?;
            return Ok(true);
        }
        if !self.place(maker)? {
            return Ok(false);
        }
        if !self.state.stands(object) {
            return Ok(false);
        }
        self.state.bind(handle, object)?;
        Ok(true)
    }

    /// Has a handle name an object of an unanswered call, and says whether another call may be placed then, or shows a file, which its
    /// WRITEs may make right.
    fn is_made_by(
        &mut self,
        maker: u64,
        handle: &FileHandle,
        number: u64,
        found: &FoundCall,
    ) -> Result<bool, AllocError> {
        if !self.place_maker(maker, handle)? {
            return Ok(false);
        }
        if shows_file(&found.call) {
            return Ok(true);
        }
        self.is_legal(number)
    }

    /// Binds a handle to what an unanswered call made, which is placed if it isn't, and says whether a call may be placed then; else
    /// nothing changes.
    fn try_maker(
        &mut self,
        maker: u64,
        handle: &FileHandle,
        number: u64,
        found: &FoundCall,
    ) -> Result<bool, AllocError> {
        let was_known = self.lessons.handle_of(maker).is_some();
        self.lessons.give_handle(maker, handle)?;
        let depth = self.state.depth();
        let bound = self.state.bound();
        if self.is_made_by(maker, handle, number, found)? {
            return Ok(true);
        }
        self.back_to(depth)?;
        self.state.let_go(bound);
        self.lessons.forget_guess(maker, was_known);
        Ok(false)
    }

    /// Tries makers for a handle of a call, and gives the one with which the call may be placed; else nothing changes.
    fn try_makers(
        &mut self,
        makers: &[u64],
        handle: &FileHandle,
        number: u64,
        found: &FoundCall,
    ) -> Result<Option<u64>, AllocError> {
        for maker in makers.iter().take(MOST_MAKERS) {
            if !self.lessons.may_make(*maker, handle) {
                continue;
            }
            if self.try_maker(*maker, handle, number, found)? {
                return Ok(Some(*maker));
            }
        }
        Ok(None)
    }

    /// The unanswered calls of the era that may have made something, the newest first.
    fn makers_beside(&self) -> Result<Vec<u64>, AllocError> {
        let mut makers = Vec::new(self.alloc);
        let waiting = self.state.waiting_calls()?;
        for number in waiting.iter().rev() {
            if let Some(found) = found_of(self.alloc, self.problem, *number)? {
                if made_by(&found.call).is_some() {
                    makers.push(*number)?;
                }
            }
        }
        Ok(makers)
    }

    /// Places a call behind an unanswered one that made what it needs, and says whether it could be placed; else nothing changes.
    pub(crate) fn place_with_maker(
        &mut self,
        number: u64,
        found: &FoundCall,
    ) -> Result<bool, AllocError> {
        let unbound = self.unbound(found)?;
        for handle in unbound.iter() {
            let makers = self.makers_beside()?;
            if self
                .try_makers(makers.as_slice(), handle, number, found)?
                .is_some()
            {
                return self.place(number);
            }
        }
        Ok(false)
    }

    /// Whether an unanswered call made an object that stands and that no handle names, or none yet.
    fn is_free_maker(&self, maker: u64) -> bool {
        let object = self.problem.object_of(maker);
        if self.state.stands(object) {
            !self.state.is_named(object)
        } else {
            !self.notes.revived.contains_key(&maker)
        }
    }

    /// What speaks for an unanswered call as the maker of what a handle names, where it may be that.
    fn chance_of(&self, maker: u64, name: &[u8], handle: &FileHandle) -> Option<Chance> {
        if !self.is_free_maker(maker) {
            return None;
        }
        match self.lessons.handle_of(maker) {
            Some(made) if made.as_slice() == handle.as_slice() => Some(Chance::Known),
            Some(_) => None,
            None if self.state.stands(self.problem.object_of(maker)) => Some(Chance::Standing),
            None if self.names.has(handle, name) => Some(Chance::Named),
            None => Some(Chance::Free),
        }
    }

    /// Puts the unanswered calls for which so much speaks behind others, the newest first.
    fn put_makers(
        &self,
        makers: &mut Vec<u64>,
        handle: &FileHandle,
        chance: Chance,
    ) -> Result<(), AllocError> {
        for (maker, name) in self.notes.makers.iter().rev() {
            if self.chance_of(*maker, name.as_slice(), handle) == Some(chance) {
                makers.push(*maker)?;
            }
        }
        Ok(())
    }

    /// The unanswered calls that may have made what a handle names, of the eras that ended, the likeliest first.
    fn makers_of(&self, handle: &FileHandle) -> Result<Vec<u64>, AllocError> {
        let mut makers = Vec::new(self.alloc);
        self.put_makers(&mut makers, handle, Chance::Known)?;
        self.put_makers(&mut makers, handle, Chance::Standing)?;
        self.put_makers(&mut makers, handle, Chance::Named)?;
        self.put_makers(&mut makers, handle, Chance::Free)?;
        Ok(makers)
    }

    /// Finds a maker for a handle of a call that names nothing, and says whether it did.
    pub(crate) fn find_maker(
        &mut self,
        number: u64,
        found: &FoundCall,
    ) -> Result<bool, AllocError> {
        let unbound = self.unbound(found)?;
        for handle in unbound.iter() {
            let makers = self.makers_of(handle)?;
            if let Some(maker) = self.try_makers(makers.as_slice(), handle, number, found)? {
                self.notes.revived.insert(maker, ())?;
                self.lessons.learn(Lesson::Kept(maker, 0))?;
                return Ok(true);
            }
        }
        Ok(false)
    }

    /// The object that a handle names.
    fn object_of(&self, handle: Option<&FileHandle>) -> Option<u64> {
        self.state.binds().object(handle?.as_slice())
    }

    /// The call that made an object, or 0 for one that stood at first.
    fn maker_of(&self, object: Option<u64>) -> Option<u64> {
        match object {
            Some(object) => Some(self.problem.maker_of(object)),
            None => None,
        }
    }

    /// The object of the handle that a call's reply gives, if that handle could name what stands at the call's name, or what the call
    /// makes.
    fn given_amiss(&self, found: &FoundCall, entry: Option<u64>) -> Option<u64> {
        let given = self.object_of(given_by(found))?;
        let fits = match entry {
            Some(entry) => self.state.may_name(entry),
            None => made_by(&found.call).is_some(),
        };
        if fits { Some(given) } else { None }
    }

    /// Takes back that an unanswered call made what a call's handles name, or what stands at its names, and guesses another one. It says
    /// whether that was guessed.
    pub(crate) fn refute_makers(
        &mut self,
        number: u64,
        found: &FoundCall,
    ) -> Result<bool, AllocError> {
        let (one, other) = handles_of(&found.call);
        let (from, to) = self.objects_named(found);
        let one = self.object_of(one);
        let other = self.object_of(other);
        let given = self.given_amiss(found, from);
        let makers = [
            self.maker_of(one),
            self.maker_of(other),
            self.maker_of(from),
            self.maker_of(to),
            self.maker_of(given),
        ];
        match self.lessons.refute_first(makers.as_slice())? {
            Some(maker) => {
                self.state.release(self.problem.object_of(maker));
                self.find_maker(number, found)?;
                Ok(true)
            }
            None => Ok(false),
        }
    }
}
