//! The server.

ghost use Rattle.std.specs.Prelude.{◌≡◌, []};

use crate::desk::Desk;
use crate::gate::Gate;
use object_store::ObjectTable;
use recorder::{JournalDevice, Profile, Start};
use std::alloc::{AllocError, Global};
use std::hint::spin_loop;
use std::sync::{Mutex, MutexGuard, RwLock, Wait};

/// How often a thread looks for the book's lock before it sleeps, some microseconds in all.
const LOOKS: u32 = 50;

/// How long it waits between two looks, in pauses of the processor.
const PAUSES: u32 = 20;

/// A server that any number of threads call at the same time. A call takes its objects out of their table and gives them back. The
/// book stands under one lock, which is taken last and held for one step of the book.
pub struct Server<G: Gate, D: JournalDevice> {
    pub(crate) alloc: Global,
    pub(crate) gate: G,
    /// Under the strict profile replies carry attributes.
    pub(crate) profile: Profile,
    /// Calls that hold objects read it; a crash, which waits for them, writes it.
    pub(crate) objects: RwLock<ObjectTable>,
    pub(crate) desk: Mutex<Desk<D>>,
}

/// Waits for a moment.
fn pause() {
    for _ in 0..PAUSES {
        spin_loop();
    }
}

impl<G: Gate, D: JournalDevice> Server<G, D> {
    /// The book's lock. It is mostly held for a microsecond or two, so a thread that finds it taken looks for it a while before it sleeps.
    pub(crate) fn lock_desk<R: Wait>(&self, rt: &R) -> MutexGuard<'_, Desk<D>> {
        for _ in 0..LOOKS {
            if let Some(desk) = self.desk.try_lock() {
                return desk;
            }
            pause();
        }
        self.desk.lock(rt)
    }

    /// A server that holds these objects at first, over an empty device. Under the strict profile its replies carry attributes, and its
    /// history is judged by them.
    pub fn new_from(
        alloc: Global,
        gate: G,
        device: D,
        profile: Profile,
        start: Start,
    ) -> Result<Server<G, D>, AllocError>
        requires records { (D.device device).records ≡ [] }
        requires mark { (D.device device).mark ≡ 0 }
    {
        let desk = Desk::new_from(alloc, device, profile, start)?;
        let objects = desk.objects(alloc)?;
        Ok(Server {
            alloc,
            gate,
            profile,
            objects: RwLock::new(objects),
            desk: Mutex::new(desk),
        })
    }

    /// A server with an empty root directory, over an empty device. Its replies carry no attributes but those that a GETATTR asks for.
    pub fn new(alloc: Global, gate: G, device: D) -> Result<Server<G, D>, AllocError>
        requires records { (D.device device).records ≡ [] }
        requires mark { (D.device device).mark ≡ 0 }
    {
        Server::new_from(alloc, gate, device, Profile::Plain, Start::empty(alloc))
    }
}
