//! The results of the calls, as RFC 1813 has them (section 3.3). Each is written once nothing can fail it.

use super::message::Message;
use super::objects::{Fault, What};
use super::tree::{Tree, number_in};
use nfs3_msgs::read_result;
use nfs3_types::{
    Answer, DirectoryName, Failure, FileHandle, NfsCall, NfsReply, Optional, Procedure,
    ReadArguments, SetAttrArguments, WriteArguments,
};
use std::alloc::AllocError;

/// The byte of an object's file at an offset.
pub(crate) fn byte_at(number: u32, offset: u64) -> u8 {
    u8::try_from(u64::from(number % 8 * 32).saturating_add(offset % 31)).unwrap_or(0)
}

/// A page of a list that is written: those of a directory's names from one on, up to another. Names are counted from 0.
#[derive(Clone, Copy)]
struct Page {
    /// How many names were met.
    met: u64,
    from: u64,
    to: u64,
    is_plus: bool,
}

/// A failure of another procedure.
fn answer_of_other(procedure: Procedure) -> NfsReply {
    match procedure {
        Procedure::GetAttr => {
            NfsReply::Read(Answer::Failed(Failure::InputOutput, Optional::none()))
        }
        _ => NfsReply::GetAttr(Answer::Failed(Failure::InputOutput, ())),
    }
}

/// Writes words, and is done.
fn give(out: &mut Message, words: &[u32]) -> Result<(), Failure> {
    out.words(words);
    Ok(())
}

impl Tree {
    /// The reply to a call, as it is read.
    pub(crate) fn reply(&mut self, call: &NfsCall) -> Result<NfsReply, AllocError> {
        let procedure = call.procedure();
        if self.habits.fault == Fault::Answers(procedure) {
            return Ok(answer_of_other(procedure));
        }
        let mut results = Message::new(self.alloc);
        self.answer(call, &mut results);
        let results = results.finish()?;
        match read_result(self.alloc, procedure.number(), results.as_slice()) {
            Ok(reply) => Ok(reply),
            Err(_) => Err(AllocError),
        }
    }

    /// Writes the results of a call.
    pub(crate) fn answer(&mut self, call: &NfsCall, out: &mut Message) {
        let procedure = call.procedure();
        let fault = self.habits.fault;
        let outcome = match fault {
            Fault::Fails(wrong, failure) if wrong == procedure => Err(failure),
            _ => self.carry_out(call, out),
        };
        if let Err(failure) = outcome {
            out.failure(procedure, failure.number());
        }
    }

    /// Carries a call out, and writes what a success gives.
    fn carry_out(&mut self, call: &NfsCall, out: &mut Message) -> Result<(), Failure> {
        match call {
            NfsCall::GetAttr(object) => self.get_attributes(object, out),
            NfsCall::SetAttr(arguments) => self.set(arguments, out),
            NfsCall::Lookup(place) => self.look_up(place, out),
            NfsCall::ReadLink(link) => self.read_link(link, out),
            NfsCall::Read(arguments) => self.read(arguments, out),
            NfsCall::Write(arguments) => self.write(arguments, out),
            NfsCall::Commit(arguments) => self.commit(&arguments.file, out),
            NfsCall::ReadDir(asked) => {
                let page = self.page(asked.cookie, asked.count, false);
                self.list(out, &asked.directory, page)
            }
            NfsCall::ReadDirPlus(asked) => {
                let page = self.page(asked.cookie, asked.whole_count, true);
                self.list(out, &asked.directory, page)
            }
            _ => self.change_names(call, out),
        }
    }

    /// Carries out a call that changes what a name is for.
    fn change_names(&mut self, call: &NfsCall, out: &mut Message) -> Result<(), Failure> {
        let made = match call {
            NfsCall::Create(arguments) => self.create(arguments)?,
            NfsCall::MkDir(arguments) => self.make(&arguments.place, What::Directory, None)?,
            NfsCall::SymLink(arguments) => self.make(&arguments.place, What::Link(b"a"), None)?,
            NfsCall::Remove(place) => {
                self.remove(place, false)?;
                return give(out, &[0, 0, 0]);
            }
            NfsCall::RmDir(place) => {
                self.remove(place, true)?;
                return give(out, &[0, 0, 0]);
            }
            NfsCall::Rename(arguments) => {
                self.rename(arguments)?;
                return give(out, &[0, 0, 0, 0, 0]);
            }
            _ => return Err(Failure::ServerFault),
        };
        let what = self.what(made)?;
        self.put_made(out, made, what);
        Ok(())
    }

    /// An object's attributes (section 2.6).
    fn put_attributes(&self, out: &mut Message, number: u32, what: What) {
        let (kind, links, size) = match what {
            What::File(size) => (1, 1, size),
            What::Directory => (2, 2, 512),
            What::Link(text) => (5, 1, text.len() as u64),
        };
        let begin = out.len();
        out.words(&[kind, 0, links, 0, 0]);
        out.long(size);
        out.long(0);
        // No device, file system 1, the number, and times.
        out.words(&[0, 0, 0, 1, 0, number, 1, 0, 1, 0, 1, 0]);
        let (place, word) = match self.habits.fault {
            Fault::Tells(wrong, place, word) if wrong == number => (place, word),
            Fault::TellsLater(wrong, place, word) if wrong == number && self.asked > 1 => {
                (place, word)
            }
            _ => return,
        };
        out.change(begin.saturating_add(place.saturating_mul(4)), word);
    }

    /// An object's attributes, if they are told.
    fn put_told(&self, out: &mut Message, number: u32, what: What, is_told: bool) {
        out.word(u32::from(is_told));
        if is_told {
            self.put_attributes(out, number, what);
        }
    }

    /// An object's handle.
    fn put_handle(&self, out: &mut Message, number: u32) {
        let told = match self.habits.fault {
            Fault::SameHandle(wrong, other) if wrong == number => other,
            _ => number,
        };
        out.words(&[4, told]);
    }

    fn get_attributes(&mut self, object: &FileHandle, out: &mut Message) -> Result<(), Failure> {
        let number = number_in(object);
        let what = self.what(number)?;
        if number == 0 {
            self.asked = self.asked.saturating_add(1);
        }
        out.word(0);
        self.put_attributes(out, number, what);
        Ok(())
    }

    fn set(&mut self, arguments: &SetAttrArguments, out: &mut Message) -> Result<(), Failure> {
        match arguments.attributes.size {
            Some(size) => {
                let (number, _) = self.file(&arguments.object)?;
                self.set_size(number, size);
            }
            None => {
                self.what(number_in(&arguments.object))?;
            }
        }
        give(out, &[0, 0, 0])
    }

    fn look_up(&self, place: &DirectoryName, out: &mut Message) -> Result<(), Failure> {
        let found = self.found(place)?;
        out.word(0);
        match self.habits.fault {
            Fault::Rehandled(wrong) if wrong == found.number => out.words(&[4, 77]),
            _ => self.put_handle(out, found.number),
        }
        self.put_told(out, found.number, found.what, self.habits.finds_attributes);
        out.word(0);
        Ok(())
    }

    fn read_link(&self, link: &FileHandle, out: &mut Message) -> Result<(), Failure> {
        match self.what(number_in(link))? {
            What::Link(text) => {
                out.words(&[0, 0]);
                out.opaque(text);
                Ok(())
            }
            What::File(_) | What::Directory => Err(Failure::Invalid),
        }
    }

    /// So many bytes of a file from an offset on.
    fn put_bytes(&self, out: &mut Message, number: u32, offset: u64, count: u64) {
        let Ok(mut bytes) = vec![in self.alloc; 0u8; count.min(1 << 20) as usize] else {
            return out.keep(Err(AllocError));
        };
        if number <= self.given {
            for (index, byte) in bytes.iter_mut().enumerate() {
                *byte = byte_at(number, offset.saturating_add(index as u64));
            }
        }
        out.opaque(bytes.as_slice());
    }

    fn read(&self, asked: &ReadArguments, out: &mut Message) -> Result<(), Failure> {
        let (number, size) = self.file(&asked.file)?;
        let offset = asked.offset.min(size);
        let wanted = u64::from(asked.count);
        let given = match self.habits.fault {
            Fault::NoBytes => 0,
            Fault::TooMany(more) => wanted.saturating_add(more),
            _ => wanted
                .min(self.habits.piece)
                .min(size.saturating_sub(offset)),
        };
        let is_end = offset.saturating_add(given) == size && self.habits.fault != Fault::NoBytes;
        let told = match self.habits.fault {
            Fault::WrongCount => 77,
            _ => u32::try_from(given).unwrap_or(0),
        };
        let is_told = is_end && (given == 0 || !self.habits.tells_late);
        out.words(&[0, 0, told, u32::from(is_told)]);
        self.put_bytes(out, number, offset, given);
        Ok(())
    }

    fn write(&mut self, arguments: &WriteArguments, out: &mut Message) -> Result<(), Failure> {
        let (number, size) = self.file(&arguments.file)?;
        let end = arguments.offset.saturating_add(u64::from(arguments.count));
        if arguments.count > 0 {
            self.set_size(number, size.max(end));
        }
        out.words(&[0, 0, 0, arguments.count, arguments.level as u32]);
        out.long(self.verifier);
        Ok(())
    }

    fn commit(&self, file: &FileHandle, out: &mut Message) -> Result<(), Failure> {
        self.file(file)?;
        out.words(&[0, 0, 0]);
        out.long(self.verifier);
        Ok(())
    }

    /// What is written of an object that was made, or kept.
    fn put_made(&self, out: &mut Message, number: u32, what: What) {
        out.words(&[0, u32::from(self.habits.gives_made)]);
        if self.habits.gives_made {
            self.put_handle(out, number);
        }
        self.put_told(out, number, what, self.habits.gives_made);
        out.words(&[0, 0]);
    }

    /// The page from a cookie on, of a list in which so many bytes go for an entry.
    fn page(&self, cookie: u64, count: u32, is_plus: bool) -> Page {
        let entry_size = if is_plus { 400 } else { 64 };
        let room = u64::from(count / entry_size).saturating_add(1);
        let size = match self.habits.fault {
            Fault::EmptyPages if cookie > 0 => 0,
            _ => room.min(self.habits.page),
        };
        Page {
            met: 0,
            from: cookie,
            to: cookie.saturating_add(size),
            is_plus,
        }
    }

    /// A name of an entry.
    fn put_name(&self, out: &mut Message, name: &[u8], number: u32) {
        match self.habits.fault {
            Fault::ListsLong(count) if number == 1 => {
                match vec![in self.alloc; b'n'; count] {
                    Ok(long) => out.opaque(long.as_slice()),
                    Err(AllocError) => out.keep(Err(AllocError)),
                }
            }
            _ => out.opaque(name),
        }
    }

    /// Writes the next name's entry, if it is of the page.
    fn put_entry(&self, out: &mut Message, page: &mut Page, name: &[u8], number: u32, what: What) {
        let place = page.met;
        page.met = place.saturating_add(1);
        if place < page.from || place >= page.to {
            return;
        }
        out.words(&[1, 0, number]);
        self.put_name(out, name, number);
        out.long(page.met);
        if page.is_plus {
            self.put_told(out, number, what, self.habits.lists_attributes);
            out.word(u32::from(self.habits.lists_handles));
            if self.habits.lists_handles {
                self.put_handle(out, number);
            }
        }
    }

    /// Writes the entries of a page, and whether it is the last.
    fn put_entries(&self, out: &mut Message, page: &mut Page, directory: u32) {
        for name in [b".".as_slice(), b"..".as_slice()] {
            self.put_entry(out, page, name, 0, What::Directory);
        }
        for node in self.nodes.as_slice() {
            if node.parent == directory {
                self.put_entry(out, page, node.name.as_slice(), node.number, node.what);
            }
        }
        if let Fault::Lists(name) = self.habits.fault {
            self.put_entry(out, page, name, 1, What::File(20));
        }
        out.words(&[0, u32::from(page.met <= page.to)]);
    }

    /// Writes what READDIR gives, or READDIRPLUS.
    fn list(
        &self,
        out: &mut Message,
        directory: &FileHandle,
        mut page: Page,
    ) -> Result<(), Failure> {
        let number = self.directory(directory)?;
        out.words(&[0, 0, 0, 5]);
        self.put_entries(out, &mut page, number);
        Ok(())
    }
}
