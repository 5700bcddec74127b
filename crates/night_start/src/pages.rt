//! What a walk learns from a page of a directory's list.

use crate::explorer::{Explorer, Step};
use crate::listing::Entry;
use crate::refusal::{Cause, Spot, Stop};
use crate::replies::{entries_plus_told, entries_told};
use nfs3_types::{DirectoryEntryPlus, FileAttributes, FileHandle, Name, NfsReply};
use tree_starts::{TEXT_LIMIT, is_dot, is_two_dots};
use walk_accounts::{Page, page_in};

/// A name of a page.
#[derive(Clone, Copy)]
struct Told<'a> {
    name: &'a Name,
    handle: Option<&'a FileHandle>,
    attributes: Option<&'a FileAttributes>,
    /// Its entry of a READDIRPLUS.
    index: usize,
}

fn owned(attributes: Option<&FileAttributes>) -> Option<FileAttributes> {
    match attributes {
        Some(attributes) => Some(*attributes),
        None => None,
    }
}

impl Explorer {
    pub(crate) fn take_page(
        &mut self,
        index: usize,
        number: usize,
        from: usize,
        reply: &NfsReply,
    ) -> Result<(), Stop> {
        if let Some(entries) = entries_plus_told(reply) {
            self.add_entries_plus(index, number, entries)?;
        } else if let Some(entries) = entries_told(reply) {
            for entry in entries {
                let told = Told {
                    name: &entry.name,
                    handle: None,
                    attributes: None,
                    index: 0,
                };
                self.add_entry(index, number, told)?;
            }
        } else {
            return Err(Stop::at(Cause::WrongReply, Spot::Account(number)));
        }
        self.end_page(index, number, from, reply)
    }

    fn add_entries_plus(
        &mut self,
        index: usize,
        number: usize,
        entries: &[DirectoryEntryPlus],
    ) -> Result<(), Stop> {
        for (place, entry) in entries.iter().enumerate() {
            let told = Told {
                name: &entry.name,
                handle: entry.object.as_ref(),
                attributes: entry.attributes.as_ref(),
                index: place,
            };
            self.add_entry(index, number, told)?;
        }
        Ok(())
    }

    fn add_entry(&mut self, index: usize, number: usize, told: Told<'_>) -> Result<(), Stop> {
        let directory = Spot::Account(number);
        let bytes = told.name.as_slice();
        if bytes.is_empty() {
            return Err(Stop::at(Cause::NoName, directory));
        }
        if bytes.len() > TEXT_LIMIT {
            return Err(Stop::at(Cause::NameTooLong, directory));
        }
        let again = self.list.gave(self.alloc, bytes)?;
        if !again && (is_dot(bytes) || is_two_dots(bytes)) {
            return Ok(());
        }
        let spot = Spot::Entry(self.list.entries.len());
        let handle = match told.handle {
            Some(handle) => Some(handle.clone()?),
            None => None,
        };
        let entry = Entry {
            name: told.name.clone()?,
            handle,
            attributes: owned(told.attributes),
            named_by: index,
            index: told.index,
            is_looked_up: false,
        };
        self.list.entries.push(entry)?;
        if again {
            return Err(Stop::at(Cause::ListedTwice, spot));
        }
        Ok(())
    }

    fn end_page(
        &mut self,
        index: usize,
        number: usize,
        from: usize,
        reply: &NfsReply,
    ) -> Result<(), Stop> {
        let directory = Spot::Account(number);
        let found = self.list.entries.len();
        if self.settings.is_empty && found > 0 {
            return Err(Stop::at(Cause::NotEmpty, directory));
        }
        if found.saturating_add(self.known.accounts.len())
            > self.settings.objects.saturating_add(1)
        {
            return Err(Stop::at(Cause::TooMany, directory));
        }
        let next = index.saturating_add(1);
        match page_in(reply) {
            Page::Other => Err(Stop::at(Cause::EmptyPage, directory)),
            Page::Last => {
                self.set_part(number, from, next);
                self.settle(number, next)
            }
            Page::More(cursor) => {
                self.step = Step::Page {
                    number,
                    cursor,
                    from,
                };
                Ok(())
            }
        }
    }
}
