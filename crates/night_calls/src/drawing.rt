//! What a client asks next, by chance and by what it knows. No proof says which: each wish is turned into a call within the limits.

use call_making::{Base, Called, LABELS, Label, Listing, Place, Range, Realm, Stamp, Wish};
use client_memory::{Debt, Facts, Kind, Memory, Random, Target};
use nfs3_types::FileHandle;

/// The most bytes that a READ asks for where a file is read as a whole. Files stay below it.
pub(crate) const WHOLE: u64 = 65_536;

/// What is drawn from.
#[derive(Clone, Copy)]
pub(crate) struct Draw<'k> {
    pub(crate) memory: &'k Memory,
    pub(crate) random: Random,
    pub(crate) stamp: Stamp,
    /// How many clients there are.
    pub(crate) clients: u32,
    pub(crate) realm: Realm,
    /// Nothing is to change but by UNSTABLE WRITEs.
    pub(crate) is_quiet: bool,
    /// The least bytes that a page of a list is asked for.
    pub(crate) least_page: u32,
}

/// A name in a directory.
#[derive(Clone, Copy)]
pub(crate) enum Spot {
    /// Where the known object of this number is.
    Of(usize),
    /// A name in this directory, whatever it names.
    In(Target, Label),
    /// The name of this number among those that calls may have given or taken.
    Past(usize),
}

/// All bytes of a small file, and what was written last to a large one.
fn last_bytes(facts: Facts) -> Range {
    match facts.written {
        Some(written) if facts.size > WHOLE => Range {
            offset: written.offset,
            count: written.count,
        },
        _ => Range {
            offset: 0,
            count: facts.size.saturating_add(16).min(WHOLE) as u32,
        },
    }
}

impl<'k> Draw<'k> {
    /// What is asked next.
    pub(crate) fn wish(&mut self) -> Wish<'k> {
        if let Some(wish) = self.owed() {
            return wish;
        }
        let memory = self.memory;
        match memory.known.missing(self.realm) {
            Some(base) => self.begin(base),
            None => self.work(),
        }
    }

    /// What has to be asked before anything else.
    fn owed(&self) -> Option<Wish<'k>> {
        let memory = self.memory;
        if let Some(place) = memory.unseen() {
            return Some(Wish::LookUp(Place {
                directory: &place.directory,
                name: Called::Bytes(place.name.as_slice()),
            }));
        }
        let index = memory.known.owed()?;
        let facts = memory.known.facts(index)?;
        if facts.debt == Debt::Name {
            return Some(Wish::LookUp(self.place_at(Spot::Of(index))));
        }
        Some(self.look(index, facts))
    }

    /// A look at an object: its list, its bytes, its text, or its attributes where its kind isn't known.
    fn look(&self, index: usize, facts: Facts) -> Wish<'k> {
        let target = Target::Known(index);
        match facts.kind {
            Kind::Directory => self.whole_list(target),
            Kind::File => Wish::Read(self.handle(target), last_bytes(facts)),
            Kind::Link => Wish::ReadLink(self.handle(target)),
            Kind::Unknown => Wish::GetAttr(self.handle(target)),
        }
    }

    /// Makes or finds a directory in the root.
    fn begin(&mut self, base: Base) -> Wish<'k> {
        let place = self.place_at(Spot::In(Target::Root, Label::Base(base)));
        match self.random.below(8) {
            0 => Wish::GetAttr(self.handle(Target::Root)),
            1 => self.list_of(Target::Root),
            2..=4 => Wish::LookUp(place),
            _ => Wish::MkDir(place),
        }
    }

    fn work(&mut self) -> Wish<'k> {
        if let Some(wish) = self.next_page() {
            return wish;
        }
        if !self.is_to_change() {
            return self.look_around();
        }
        if self.is_quiet {
            return self.write();
        }
        match self.random.below(64) {
            0..=15 => self.write(),
            16..=27 => self.create(),
            28..=34 => self.set_attributes(),
            35..=42 => self.remove(),
            43..=53 => self.rename(),
            54..=56 => self.make_directory(),
            57..=59 => self.remove_directory(),
            _ => self.make_link(),
        }
    }

    /// Whether the next call is one that changes something: seldom while another of this client is on its way. A server may do calls
    /// that are on their way at once in any order, and how many orders there are decides how fast a history can be judged.
    fn is_to_change(&mut self) -> bool {
        match self.memory.changes {
            0 => self.random.below(8) < 5,
            1 => self.random.once_in(6),
            _ => self.random.once_in(32),
        }
    }

    /// Looks, asks for what can't be done, and now and then makes safe what was written.
    fn look_around(&mut self) -> Wish<'k> {
        match self.random.below(32) {
            0..=9 => self.look_at_change(),
            10..=12 => self.read(),
            13..=16 => self.look_at_name(),
            17 | 18 => self.look_up(),
            19 | 20 => self.get_attributes(),
            21 | 22 => self.commit(),
            23 => self.read_link(),
            24..=26 => self.list(),
            _ => self.ask_in_vain(),
        }
    }

    /// A look at an object that changed: its bytes or list, or its attributes.
    pub(crate) fn look_at_change(&mut self) -> Wish<'k> {
        let (memory, realm) = (self.memory, self.realm);
        let changed = memory.known.one(&mut self.random, |facts| {
            facts.looks > 0 && facts.realm == realm
        });
        let Some(index) = changed else {
            return self.read();
        };
        match (memory.known.facts(index), self.random.below(4)) {
            (Some(facts), 1..) => self.look(index, facts),
            _ => Wish::GetAttr(self.handle(Target::Known(index))),
        }
    }

    /// What is believed of an object.
    pub(crate) fn facts(&self, target: Target) -> Option<Facts> {
        match target {
            Target::Known(index) => self.memory.known.facts(index),
            _ => None,
        }
    }

    pub(crate) fn handle(&self, target: Target) -> &'k FileHandle {
        let memory = self.memory;
        memory.known.handle(target)
    }

    /// Any object of the realm; one that the client may change, where that is asked for.
    pub(crate) fn object(&mut self, to_change: bool) -> Option<usize> {
        let (memory, realm) = (self.memory, self.realm);
        memory.known.one(&mut self.random, |facts| {
            facts.realm == realm && (facts.is_own || !to_change)
        })
    }

    /// An object of a kind; now and then one of another, or one that is gone.
    pub(crate) fn object_of(&mut self, kind: Kind, to_change: bool) -> Option<Target> {
        let (memory, realm) = (self.memory, self.realm);
        if self.random.once_in(24)
            && let Some(target) = memory.known.lost(&mut self.random)
        {
            return Some(target);
        }
        if self.random.once_in(24)
            && let Some(index) = self.object(to_change)
        {
            return Some(Target::Known(index));
        }
        let index = memory.known.one(&mut self.random, |facts| {
            facts.kind == kind && facts.realm == realm && (facts.is_own || !to_change)
        })?;
        Some(Target::Known(index))
    }

    /// A directory to ask in; now and then an object of another kind, or one that is gone.
    pub(crate) fn directory(&mut self) -> Target {
        match self.object_of(Kind::Directory, false) {
            Some(target) => target,
            None => Target::Root,
        }
    }

    /// How many names a directory of the realm has to pick from: 3 to 8 in a race, the same for all clients.
    fn label_count(&self) -> u64 {
        match self.realm {
            Realm::Race => 3 + self.stamp.seed % 6,
            Realm::Private | Realm::Shared => u64::from(LABELS),
        }
    }

    /// One of the few names, those of this client where each has its own. The first ones come more often.
    pub(crate) fn label(&mut self) -> Label {
        let client = self.stamp.client;
        self.label_for(client)
    }

    /// One of the few names, those of some client where each has its own.
    pub(crate) fn label_of_any(&mut self) -> Label {
        let client = self.random.small(self.clients);
        self.label_for(client)
    }

    fn label_for(&mut self, client: u32) -> Label {
        let count = self.label_count();
        let pick = self.random.below(count).min(self.random.below(count));
        let owner = match self.realm {
            Realm::Shared => Some(client),
            Realm::Private | Realm::Race => None,
        };
        Label::Few(pick.min(u64::from(LABELS)) as u8, owner)
    }

    /// One of the few names in some directory, seldom `.` or `..`.
    pub(crate) fn spot(&mut self) -> Spot {
        let directory = self.directory();
        let label = match self.random.below(64) {
            0 => Label::Here,
            1 => Label::Parent,
            _ => self.label(),
        };
        Spot::In(directory, label)
    }

    /// The directory and the name of a spot. Where it is none, it is a directory in the root.
    pub(crate) fn place_at(&self, spot: Spot) -> Place<'k> {
        let memory = self.memory;
        match spot {
            Spot::Of(index) => match memory.known.object(index) {
                Some(object) => Place {
                    directory: &object.directory,
                    name: Called::Bytes(object.name.as_slice()),
                },
                None => self.place_of_base(),
            },
            Spot::In(directory, label) => Place {
                directory: memory.known.handle(directory),
                name: Called::Label(label),
            },
            Spot::Past(index) => match memory.known.past(index) {
                Some(place) => Place {
                    directory: &place.directory,
                    name: Called::Bytes(place.name.as_slice()),
                },
                None => self.place_of_base(),
            },
        }
    }

    fn place_of_base(&self) -> Place<'k> {
        Place {
            directory: self.handle(Target::Root),
            name: Called::Label(Label::Base(Base::Home)),
        }
    }

    /// A list from its beginning.
    pub(crate) fn list_with(&self, directory: Target, plus: bool, count: u32) -> Wish<'k> {
        Wish::List(Listing {
            directory: self.handle(directory),
            plus,
            cookie: 0,
            verifier: nfs3_types::Verifier { value: 0 },
            count: count.max(self.least_page),
        })
    }

    /// A list with handles that comes in one page.
    pub(crate) fn whole_list(&self, directory: Target) -> Wish<'k> {
        self.list_with(directory, true, 8192)
    }
}
