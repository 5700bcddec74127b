//! What a walk asks next, and what it learns from each reply.

use crate::known::{Known, change_of};
use crate::listing::List;
use crate::refusal::{Cause, Change, Spot, Stop};
use crate::replies::{attributes_told, bytes_told, lookup_told, text_told};
use crate::settings::Settings;
use nfs3_types::{Failure, FileHandle, FileType, Name, NfsReply, Procedure};
use std::alloc::{AllocError, Global};
use tree_starts::TEXT_LIMIT;
use walk_accounts::{Account, Cursor, Kind, Part};

/// What is asked next. Objects are numbered by their accounts.
#[derive(Clone, Copy)]
pub(crate) enum Step {
    /// GETATTR of the root.
    Root,
    /// A page of a directory's list.
    Page {
        number: usize,
        cursor: Cursor,
        /// The exchange with its first page.
        from: usize,
    },
    /// LOOKUP of the first name of the list that has no account.
    LookUp {
        number: usize,
    },
    /// GETATTR of the object of that name.
    Attributes {
        number: usize,
    },
    /// READ of a file.
    Read {
        number: usize,
        offset: u64,
        /// The exchange with its first bytes.
        from: usize,
    },
    /// READLINK of a link.
    Text {
        number: usize,
    },
    /// GETATTR of each object again.
    Again {
        number: usize,
    },
    /// Nothing.
    Done,
}

/// A walk without its exchanges.
pub(crate) struct Explorer {
    pub(crate) alloc: Global,
    pub(crate) settings: Settings,
    pub(crate) known: Known,
    pub(crate) list: List,
    /// The directory of that list.
    pub(crate) listed: usize,
    /// The server has READDIRPLUS, as far as is known.
    pub(crate) has_plus: bool,
    pub(crate) step: Step,
}

impl Drop for Explorer {
    fn drop(self) {
        let Explorer {
            alloc: _,
            settings: _,
            known,
            list,
            listed: _,
            has_plus: _,
            step: _,
        } = self;
        drop(known);
        drop(list);
    }
}

impl Explorer {
    pub(crate) fn new(
        alloc: Global,
        root: &FileHandle,
        settings: Settings,
    ) -> Result<Explorer, AllocError> {
        let mut known = Known::new(alloc);
        known.accounts.push(Account {
            parent: 0,
            name: Name::from_slice(alloc, b"".as_slice())?,
            handle: root.clone()?,
            kind: Kind::Directory,
            size: 0,
            named_by: 0,
            entry: 0,
            told_by: 0,
            part: Part { from: 0, to: 0 },
        })?;
        Ok(Explorer {
            alloc,
            settings,
            known,
            list: List::new(alloc),
            listed: 0,
            has_plus: true,
            step: Step::Root,
        })
    }

    /// The object that the call on its way is about.
    pub(crate) fn spot(&self) -> Spot {
        match self.step {
            Step::Root | Step::Done => Spot::Account(0),
            Step::LookUp { number: _ } | Step::Attributes { number: _ } => {
                Spot::Entry(self.list.settled)
            }
            Step::Page {
                number,
                cursor: _,
                from: _,
            }
            | Step::Read {
                number,
                offset: _,
                from: _,
            }
            | Step::Text { number }
            | Step::Again { number } => Spot::Account(number),
        }
    }

    fn refuse(&self, cause: Cause) -> Stop {
        Stop::at(cause, self.spot())
    }

    /// Takes in the reply to what was asked; it is the exchange of this index.
    pub(crate) fn take(&mut self, index: usize, reply: &NfsReply) -> Result<(), Stop> {
        if let Some(failure) = reply.failure() {
            return self.take_failure(index, failure, reply.procedure());
        }
        match self.step {
            Step::Root => self.take_root(index, reply),
            Step::Page {
                number,
                cursor: _,
                from,
            } => self.take_page(index, number, from, reply),
            Step::LookUp { number } => self.take_lookup(index, number, reply),
            Step::Attributes { number } => self.take_attributes(index, number, reply),
            Step::Read {
                number,
                offset,
                from,
            } => self.take_bytes(index, number, offset, from, reply),
            Step::Text { number } => self.take_text(index, number, reply),
            Step::Again { number } => self.take_again(index, number, reply),
            Step::Done => Err(self.refuse(Cause::WrongReply)),
        }
    }

    /// A server without READDIRPLUS is asked for READDIR; any other failure is a refusal.
    fn take_failure(
        &mut self,
        index: usize,
        failure: Failure,
        procedure: Procedure,
    ) -> Result<(), Stop> {
        if let Step::Page {
            number,
            cursor,
            from: _,
        } = self.step
            && self.has_plus
            && cursor.cookie == 0
            && failure == Failure::NotSupported
        {
            self.has_plus = false;
            self.step = Step::Page {
                number,
                cursor,
                from: index.saturating_add(1),
            };
            return Ok(());
        }
        Err(self.refuse(Cause::Failed(failure, procedure)))
    }

    fn take_root(&mut self, index: usize, reply: &NfsReply) -> Result<(), Stop> {
        let Some(attributes) = attributes_told(reply) else {
            return Err(self.refuse(Cause::WrongReply));
        };
        if attributes.file_type != FileType::Directory {
            return Err(self.refuse(Cause::NoDirectory));
        }
        if let Some(root) = self.known.accounts.first() {
            let handle = root.handle.clone()?;
            self.known.note(self.alloc, &handle, &attributes)?;
        }
        self.visit(0, index.saturating_add(1));
        Ok(())
    }

    /// Goes on with the object of this number, from the exchange of this index on; behind the last one everything is asked again.
    pub(crate) fn visit(&mut self, number: usize, next: usize) {
        let kind = match self.known.accounts.get(number) {
            Some(account) => Some(account.kind),
            None => None,
        };
        self.step = match kind {
            Some(Kind::Directory) => {
                self.list = List::new(self.alloc);
                self.listed = number;
                Step::Page {
                    number,
                    cursor: Cursor::FRONT,
                    from: next,
                }
            }
            Some(Kind::File) => Step::Read {
                number,
                offset: 0,
                from: next,
            },
            Some(Kind::Link) => Step::Text { number },
            None => Step::Again { number: 0 },
        };
    }

    /// The exchanges that show an object are these.
    pub(crate) fn set_part(&mut self, number: usize, from: usize, to: usize) {
        if let Some(account) = self.known.accounts.get_mut(number) {
            account.part = Part { from, to };
        }
    }

    fn take_bytes(
        &mut self,
        index: usize,
        number: usize,
        offset: u64,
        from: usize,
        reply: &NfsReply,
    ) -> Result<(), Stop> {
        let Some(success) = bytes_told(reply) else {
            return Err(self.refuse(Cause::WrongReply));
        };
        let count = success.bytes.as_slice().len() as u64;
        if u64::from(success.count) != count {
            return Err(self.refuse(Cause::WrongCount));
        }
        if count > u64::from(self.settings.piece) {
            return Err(self.refuse(Cause::TooManyBytes));
        }
        let size = self.size_told(number);
        let end = offset.saturating_add(count);
        if end > size || (success.eof && end != size) {
            return Err(self.refuse(Cause::Changed(Change::Size)));
        }
        let next = index.saturating_add(1);
        if success.eof {
            self.set_part(number, from, next);
            self.visit(number.saturating_add(1), next);
            return Ok(());
        }
        if count == 0 {
            return Err(self.refuse(Cause::NoBytes));
        }
        self.step = Step::Read {
            number,
            offset: end,
            from,
        };
        Ok(())
    }

    /// The size that was told first.
    fn size_told(&self, number: usize) -> u64 {
        match self.known.first_told(number) {
            Some(attributes) => attributes.size,
            None => 0,
        }
    }

    fn take_text(&mut self, index: usize, number: usize, reply: &NfsReply) -> Result<(), Stop> {
        let Some(success) = text_told(reply) else {
            return Err(self.refuse(Cause::WrongReply));
        };
        if success.target.as_slice().len() > TEXT_LIMIT {
            return Err(self.refuse(Cause::TextTooLong));
        }
        let next = index.saturating_add(1);
        self.set_part(number, index, next);
        self.visit(number.saturating_add(1), next);
        Ok(())
    }

    fn take_again(&mut self, index: usize, number: usize, reply: &NfsReply) -> Result<(), Stop> {
        let (Some(last), Some(first)) = (attributes_told(reply), self.known.first_told(number))
        else {
            return Err(self.refuse(Cause::WrongReply));
        };
        if let Some(change) = change_of(&first, &last) {
            return Err(self.refuse(Cause::Changed(change)));
        }
        if let Some(account) = self.known.accounts.get_mut(number) {
            account.told_by = index;
            account.size = last.size;
        }
        let next = number.saturating_add(1);
        self.step = if next < self.known.accounts.len() {
            Step::Again { number: next }
        } else {
            Step::Done
        };
        Ok(())
    }

    fn take_lookup(&mut self, index: usize, number: usize, reply: &NfsReply) -> Result<(), Stop> {
        let Some(success) = lookup_told(reply) else {
            return Err(self.refuse(Cause::WrongReply));
        };
        let spot = self.spot();
        let handle = success.object.clone()?;
        if let Some(entry) = self.list.next_mut() {
            if let Some(before) = &entry.handle
                && before.as_slice() != handle.as_slice()
            {
                return Err(Stop::at(Cause::Changed(Change::Handle), spot));
            }
            entry.handle = Some(handle);
            entry.named_by = index;
            entry.is_looked_up = true;
            if let Some(attributes) = success.attributes.as_ref()
                && entry.attributes.is_none()
            {
                entry.attributes = Some(*attributes);
            }
        }
        self.settle(number, index.saturating_add(1))
    }

    fn take_attributes(
        &mut self,
        index: usize,
        number: usize,
        reply: &NfsReply,
    ) -> Result<(), Stop> {
        let Some(attributes) = attributes_told(reply) else {
            return Err(self.refuse(Cause::WrongReply));
        };
        if let Some(entry) = self.list.next_mut() {
            entry.attributes = Some(attributes);
        }
        self.settle(number, index.saturating_add(1))
    }

    /// What a name of the list still lacks.
    fn lack_of(&self, number: usize) -> Option<Step> {
        let entry = self.list.next()?;
        if entry.handle.is_none() {
            return Some(Step::LookUp { number });
        }
        if entry.attributes.is_none() {
            return Some(if entry.is_looked_up {
                Step::Attributes { number }
            } else {
                Step::LookUp { number }
            });
        }
        None
    }

    /// Gives each name of the list an account, up to one of which more has to be asked. Behind the last one the next object is seen.
    pub(crate) fn settle(&mut self, number: usize, next: usize) -> Result<(), Stop> {
        for _ in self.list.settled..self.list.entries.len() {
            if let Some(step) = self.lack_of(number) {
                self.step = step;
                return Ok(());
            }
            self.settle_next(number)?;
            self.list.settled = self.list.settled.saturating_add(1);
        }
        self.visit(number.saturating_add(1), next);
        Ok(())
    }

    /// Gives the next name of the list, of which all is told, an account.
    fn settle_next(&mut self, number: usize) -> Result<(), Stop> {
        let spot = Spot::Entry(self.list.settled);
        let Some(entry) = self.list.next() else {
            return Ok(());
        };
        let (Some(handle), Some(attributes)) = (&entry.handle, entry.attributes) else {
            return Ok(());
        };
        let kind = self.known.judge(handle, &attributes, spot)?;
        let account = Account {
            parent: number as u64,
            name: entry.name.clone()?,
            handle: handle.clone()?,
            kind,
            size: attributes.size,
            named_by: entry.named_by,
            entry: entry.index,
            told_by: 0,
            part: Part { from: 0, to: 0 },
        };
        self.known.note(self.alloc, handle, &attributes)?;
        self.known.accounts.push(account)?;
        Ok(())
    }
}
