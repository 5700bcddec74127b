//! A client of a night.

ghost use Rattle.std.specs.Prelude.{◌≡◌, IfOk};
ghost use Rattle.call_making.specs.Asked.{IsAsked};
ghost use Rattle.call_making.specs.Tag.{first_stamp, next_stamp};

use crate::drawing::Draw;
use crate::mix::{Mix, is_quiet};
use call_making::{Maker, Stamp, Wish};
use client_memory::{Memory, Random};
use nfs3_types::{FileHandle, NfsCall, NfsReply};
use std::alloc::{AllocError, Global};
use std::marker::Model;

/// One client of a night. Its calls follow from its seed, its number, how many clients there are, the mix and the replies that it was
/// given, each with its call. A contract sees the stamp of its next call.
#[derive(Drop)]
pub struct Client {
    alloc: Global,
    stamp: Stamp,
    clients: u32,
    mix: Mix,
    random: Random,
    memory: Memory,
    least_page: u32,
}

impl Model for Client {
    ghost use Rattle.call_making.specs.declared.stamp.Stamp.{Stamp};

    ghost Value = { Stamp };

    ghost view = { λ c. c.stamp };
}

impl Client {
    /// The client of a number, of so many, in the night of a seed: it knows the root's handle. All clients of a night are made with the
    /// same seed, count and mix, and with numbers from 0 on that are below the count.
    pub fn new(
        alloc: Global,
        seed: u64,
        number: u32,
        clients: u32,
        root: FileHandle,
        mix: Mix,
    ) -> Client
        ensures { result ≡ first_stamp seed number }
    {
        Client {
            alloc,
            stamp: Stamp {
                seed,
                client: number,
                call: 0,
            },
            clients,
            mix,
            random: Random::new(seed, number),
            memory: Memory::new(alloc, number, root),
            least_page: 0,
        }
    }

    /// Asks for this many bytes at least where it asks for a page of a list: `count` of READDIR, `maxcount` of READDIRPLUS. Some servers
    /// answer small ones wrongly.
    pub fn ask_pages_from(&mut self, least: u32)
        ensures { self.new ≡ self.old }
    {
        self.least_page = least;
    }

    /// The stamp of the next call.
    pub fn stamp(&self) -> Stamp
        ensures { result ≡ self.now }
    {
        self.stamp
    }

    /// What is asked next, and the random numbers behind it.
    fn draw(&self) -> (Wish<'_>, Random) {
        let mut draw = Draw {
            memory: &self.memory,
            random: self.random,
            stamp: self.stamp,
            clients: self.clients,
            realm: self.mix.realm(self.stamp.call),
            is_quiet: is_quiet(self.stamp.seed, self.stamp.call),
            least_page: self.least_page,
        };
        let wish = draw.wish();
        (wish, draw.random)
    }

    /// The next call, and the random numbers behind it.
    fn make(&self) -> (Result<NfsCall, AllocError>, Random)
        ensures { IfOk result.0 (λ call. IsAsked self.now call) }
    {
        let (wish, random) = self.draw();
        let maker = Maker {
            alloc: self.alloc,
            stamp: self.stamp,
        };
        (maker.make(wish), random)
    }

    /// A call was drawn.
    fn note(&mut self, call: &Result<NfsCall, AllocError>)
        ensures { self.new ≡ self.old }
    {
        self.memory.pay();
        if let Ok(call) = call {
            self.memory.note_asked(call);
        }
    }

    /// The next call, which is drawn. Also where memory runs out, that call's number is used up.
    pub fn next(&mut self) -> Result<NfsCall, AllocError>
        ensures asked { IfOk result (λ call. IsAsked self.old call) }
        ensures stamp { self.new ≡ next_stamp self.old }
    {
        let (call, random) = self.make();
        self.random = random;
        self.stamp = self.stamp.next();
        self.note(&call);
        call
    }

    /// Takes in the reply to a call of this client: handles, sizes, what is gone or has moved, cookies and verifiers. Where memory runs
    /// out, some of it may be left out.
    pub fn learn(&mut self, call: &NfsCall, reply: &NfsReply) -> Result<(), AllocError>
        ensures { self.new ≡ self.old }
    {
        self.memory.learn(call, reply)
    }

    /// No reply came to a call of this client, and none will: whether it was done is asked by a later call. Where memory runs out, that
    /// may be left out.
    pub fn give_up(&mut self, call: &NfsCall) -> Result<(), AllocError>
        ensures { self.new ≡ self.old }
    {
        self.memory.give_up(call)
    }

    /// The server ran again after a crash: the next calls look all known names up again, and look at what they find, so that what was
    /// promised to survive is read.
    pub fn new_era(&mut self)
        ensures { self.new ≡ self.old }
    {
        self.memory.new_era();
    }

    /// How many objects and names that were known before the last crash are still to be looked at behind it.
    pub fn unread(&self) -> u64 {
        self.memory.unread() as u64
    }
}
