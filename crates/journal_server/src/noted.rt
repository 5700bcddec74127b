//! What a server has recorded so far, for a file that grows beside it.

use crate::gate::Gate;
use crate::server::Server;
use history_file::WriteFault;
use history_mending::{part_head, part_head_from, put_next};
use recorder::{JournalDevice, Profile};
use std::sync::Wait;

impl<G: Gate, D: JournalDevice> Server<G, D> {
    /// What stands ahead of the events in the file of what is recorded: of version 1 where nothing stood at first and attributes aren't
    /// judged, else of version 2.
    pub fn put_head<R: Wait>(&self, rt: &R) -> Result<Vec<u8>, WriteFault> {
        let desk = self.lock_desk(rt);
        let history = desk.book.history();
        let root = history.root().as_slice();
        if history.start().objects().is_empty() && history.profile() == Profile::Plain {
            return part_head(self.alloc, root);
        }
        part_head_from(self.alloc, root, history.profile(), history.start())
    }

    /// Puts the next of the events that were recorded, behind so many, into a text, as they stand in a history's file: those of
    /// [`put_next`]. How many they are. The book's lock is held meanwhile.
    pub fn put_events<R: Wait>(
        &self,
        rt: &R,
        text: &mut Vec<u8>,
        from: usize,
    ) -> Result<usize, WriteFault> {
        let desk = self.lock_desk(rt);
        put_next(text, desk.book.history().events(), from)
    }
}
