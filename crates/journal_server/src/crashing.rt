//! Crashes.

use crate::fault::CrashFault;
use crate::gate::Gate;
use crate::server::Server;
use object_store::ObjectTable;
use recorder::JournalDevice;
use std::sync::Wait;

impl<G: Gate, D: JournalDevice> Server<G, D> {
    /// Crashes the book, and builds the objects again from its tree in the same hold of the book's lock.
    fn crash_desk<R: Wait>(
        &self,
        rt: &R,
        extra: u64,
        objects: &mut ObjectTable,
    ) -> Result<(), CrashFault> {
        let mut desk = self.lock_desk(rt);
        desk.crash(extra)?;
        match desk.objects(self.alloc) {
            Ok(table) => {
                *objects = table;
                Ok(())
            }
            Err(_) => {
                desk.lose();
                Err(CrashFault::NoMemory)
            }
        }
    }

    /// Crashes, and comes up again: the records on stable storage outlive it, and at most `extra` more. It waits until no call holds an
    /// object. A call in flight is answered by `EraOver`.
    pub fn crash<R: Wait>(&self, rt: &R, extra: u64) -> Result<(), CrashFault> {
        let mut objects = self.objects.write(rt);
        self.crash_desk(rt, extra, &mut *objects)
    }
}
