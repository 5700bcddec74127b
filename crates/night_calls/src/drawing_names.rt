//! What a client asks by names, and its lists.

use crate::drawing::{Draw, Spot};
use call_making::{Called, Label, Listing, Place, Wish, file_attributes};
use client_memory::{Kind, Page, Target};
use nfs3_types::{CreateMode, Verifier};

/// How many directories of a realm are known before fewer are made.
const MANY: usize = 6;

impl<'k> Draw<'k> {
    /// A verifier that no other call of the night has; now and then one of two that many calls have.
    fn verifier(&mut self) -> Verifier {
        if self.random.once_in(4) {
            return Verifier {
                value: self.random.below(2),
            };
        }
        Verifier {
            value: (u64::from(self.stamp.client | (1 << 31)) << 32) | u64::from(self.stamp.call),
        }
    }

    fn create_mode(&mut self) -> CreateMode {
        let size = match self.random.below(8) {
            0 => Some(self.random.below(300)),
            1 | 2 => Some(0),
            _ => None,
        };
        match self.random.below(8) {
            0 | 1 => CreateMode::Unchecked(file_attributes(size)),
            2..=4 => CreateMode::Guarded(file_attributes(size)),
            _ => CreateMode::Exclusive(self.verifier()),
        }
    }

    /// The exclusive CREATE that was asked last, with its verifier.
    fn create_again(&self) -> Option<Wish<'k>> {
        let memory = self.memory;
        let exclusive = memory.exclusive.as_ref()?;
        let place = Place {
            directory: &exclusive.directory,
            name: Called::Bytes(exclusive.name.as_slice()),
        };
        Some(Wish::Create(place, CreateMode::Exclusive(exclusive.verifier)))
    }

    /// CREATE of a name that may be free, of a file that is there, or once more of one that was asked.
    pub(crate) fn create(&mut self) -> Wish<'k> {
        let choice = self.random.below(16);
        if choice == 0
            && let Some(wish) = self.create_again()
        {
            return wish;
        }
        let spot = match choice {
            1..=5 => self.spot_of(Some(Kind::File)),
            6 => match self.past_spot() {
                Some(spot) => spot,
                None => self.spot(),
            },
            _ => self.spot(),
        };
        Wish::Create(self.place_at(spot), self.create_mode())
    }

    pub(crate) fn make_directory(&mut self) -> Wish<'k> {
        if self.memory.known.directories(self.realm) > MANY {
            return self.remove_directory();
        }
        let spot = self.spot();
        Wish::MkDir(self.place_at(spot))
    }

    pub(crate) fn make_link(&mut self) -> Wish<'k> {
        let spot = self.spot();
        Wish::SymLink(self.place_at(spot), self.random.small(5))
    }

    pub(crate) fn look_up(&mut self) -> Wish<'k> {
        let spot = match self.random.below(16) {
            0 => Spot::In(self.directory(), Label::Here),
            1 => Spot::In(self.directory(), Label::Parent),
            2..=9 => Spot::In(self.directory(), self.label_of_any()),
            _ => match self.object(false) {
                Some(index) => Spot::Of(index),
                None => self.spot(),
            },
        };
        Wish::LookUp(self.place_at(spot))
    }

    /// A name that a call may have given or taken, mostly one of the last.
    fn past_spot(&mut self) -> Option<Spot> {
        let count = self.memory.known.past_count();
        let back = self
            .random
            .below(count as u64)
            .min(self.random.below(count as u64)) as usize;
        Some(Spot::Past(count.checked_sub(back)?.checked_sub(1)?))
    }

    /// A look at a name that a call may have given or taken.
    pub(crate) fn look_at_name(&mut self) -> Wish<'k> {
        let Some(spot) = self.past_spot() else {
            return self.look_up();
        };
        let place = self.place_at(spot);
        match self.random.below(4) {
            0 => Wish::List(Listing {
                directory: place.directory,
                plus: self.random.once_in(2),
                cookie: 0,
                verifier: Verifier { value: 0 },
                count: self.least_page.max(8192),
            }),
            _ => Wish::LookUp(place),
        }
    }

    /// The name of an object of the kind; now and then of another object, or a name that may be free.
    fn spot_of(&mut self, kind: Option<Kind>) -> Spot {
        let (memory, realm) = (self.memory, self.realm);
        let index = match self.random.below(8) {
            0 => None,
            1 => self.object(true),
            _ => memory.known.one(&mut self.random, |facts| {
                facts.realm == realm && facts.is_own && is_of(facts.kind, kind)
            }),
        };
        match index {
            Some(index) => Spot::Of(index),
            None => self.spot(),
        }
    }

    pub(crate) fn remove(&mut self) -> Wish<'k> {
        let kind = match self.random.below(8) {
            0 => Kind::Directory,
            1 | 2 => Kind::Link,
            _ => Kind::File,
        };
        let spot = self.spot_of(Some(kind));
        Wish::Remove(self.place_at(spot))
    }

    /// RMDIR, mostly of a directory in which nothing is known.
    pub(crate) fn remove_directory(&mut self) -> Wish<'k> {
        let mut spot = self.spot_of(Some(Kind::Directory));
        for _ in 0..3 {
            match spot {
                Spot::Of(index) if !self.memory.known.seems_empty(index) => {
                    spot = self.spot_of(Some(Kind::Directory));
                }
                _ => break,
            }
        }
        Wish::RmDir(self.place_at(spot))
    }

    /// An object of a kind that the client may change.
    fn own(&mut self, kind: Kind) -> Option<usize> {
        let (memory, realm) = (self.memory, self.realm);
        memory.known.one(&mut self.random, |facts| {
            facts.realm == realm && facts.is_own && facts.kind == kind
        })
    }

    /// A directory that the client may change, in which something is known.
    fn own_full_directory(&mut self) -> Option<usize> {
        for _ in 0..4 {
            let index = self.own(Kind::Directory)?;
            if !self.memory.known.seems_empty(index) {
                return Some(index);
            }
        }
        None
    }

    /// What a server has to refuse, as far as is known.
    pub(crate) fn ask_in_vain(&mut self) -> Wish<'k> {
        let wish = match self.random.below(8) {
            0..=2 => self.create_over(),
            3 | 4 => self.rename_below(),
            5 | 6 => self
                .own_full_directory()
                .map(|index| Wish::RmDir(self.place_at(Spot::Of(index)))),
            _ => self
                .own(Kind::Directory)
                .map(|index| Wish::Remove(self.place_at(Spot::Of(index)))),
        };
        match wish {
            Some(wish) => wish,
            None => self.look_at_change(),
        }
    }

    /// GUARDED CREATE of a file that is there, or EXCLUSIVE with a verifier of its own.
    fn create_over(&mut self) -> Option<Wish<'k>> {
        let index = self.own(Kind::File)?;
        let mode = match self.random.below(2) {
            0 => CreateMode::Guarded(file_attributes(None)),
            _ => CreateMode::Exclusive(self.verifier()),
        };
        Some(Wish::Create(self.place_at(Spot::Of(index)), mode))
    }

    /// RENAME of a directory to a name in itself, or in a directory in it.
    fn rename_below(&mut self) -> Option<Wish<'k>> {
        let above = self.own(Kind::Directory)?;
        let below = match self.random.below(2) {
            0 => self.memory.known.directory_in(above),
            _ => None,
        };
        let to = Spot::In(Target::Known(below.unwrap_or(above)), self.label());
        Some(Wish::Rename(self.place_at(Spot::Of(above)), self.place_at(to)))
    }

    /// RENAME of a directory: below itself, onto another, or to a name that may be free.
    fn rename_directory(&mut self) -> Option<Wish<'k>> {
        if self.random.once_in(2) {
            return self.rename_below();
        }
        let from = Spot::Of(self.own(Kind::Directory)?);
        let to = match self.random.below(2) {
            0 => Spot::Of(self.own(Kind::Directory)?),
            _ => self.spot(),
        };
        Some(Wish::Rename(self.place_at(from), self.place_at(to)))
    }

    /// RENAME to a name that may be free, onto an object, or onto itself.
    pub(crate) fn rename(&mut self) -> Wish<'k> {
        if self.random.below(8) < 3
            && let Some(wish) = self.rename_directory()
        {
            return wish;
        }
        let from = self.spot_of(None);
        let to = match self.random.below(16) {
            0 => from,
            1..=6 => self.spot_of(None),
            _ => self.spot(),
        };
        Wish::Rename(self.place_at(from), self.place_at(to))
    }

    /// The most bytes of a list: half of the times so many that it comes whole, else so few that a list takes several pages, now and
    /// then so few that a server may refuse it.
    fn list_count(&mut self) -> u32 {
        match self.random.below(8) {
            0 => 64 + self.random.small(64),
            1 | 2 => 140 + self.random.small(60),
            3 => 200 + self.random.small(200),
            4 | 5 => 1024,
            _ => 8192,
        }
    }

    /// A list of a directory, or its first page.
    pub(crate) fn list_of(&mut self, directory: Target) -> Wish<'k> {
        let plus = self.random.once_in(2);
        let count = self.list_count();
        self.list_with(directory, plus, count)
    }

    pub(crate) fn list(&mut self) -> Wish<'k> {
        let directory = match self.random.below(16) {
            0 => Target::Root,
            _ => self.directory(),
        };
        self.list_of(directory)
    }

    /// The list that wasn't at its end goes on, or an older one does.
    pub(crate) fn next_page(&mut self) -> Option<Wish<'k>> {
        let memory = self.memory;
        if let Some(page) = &memory.page
            && self.random.once_in(3)
        {
            return Some(self.page_of(page));
        }
        if let Some(page) = &memory.old_page
            && self.random.once_in(48)
        {
            return Some(self.page_of(page));
        }
        None
    }

    fn page_of(&mut self, page: &'k Page) -> Wish<'k> {
        Wish::List(Listing {
            directory: &page.directory,
            plus: page.plus,
            cookie: page.cookie,
            verifier: page.verifier,
            count: self.list_count().max(self.least_page),
        })
    }
}

/// Whether a kind is the one that is asked for, where one is.
fn is_of(kind: Kind, wanted: Option<Kind>) -> bool {
    match wanted {
        Some(wanted) => kind == wanted,
        None => true,
    }
}
