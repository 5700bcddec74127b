//! How a change is made: prepared ahead of its call's place in the serial order, and done behind it.

use crate::change::{Change, NewObject, Renaming};
use object_store::{Content, Held, ObjectTable};
use std::alloc::{AllocError, Global};
use std::sync::Wait;

/// What a change needs that is made ahead of it.
pub struct Prepared {
    content: Option<Content>,
}

impl Drop for Prepared {
    fn drop(self) {
        let Prepared { content } = self;
        drop(content);
    }
}

impl Prepared {
    fn nothing() -> Prepared {
        Prepared { content: None }
    }

    fn into_content(self) -> Option<Content> {
        let Prepared { content } = self;
        content
    }
}

/// Where a change takes place: the table of the objects, and the number that an object which the call makes gets.
#[derive(Clone, Copy)]
pub struct Site<'a> {
    /// The table that a made object is put into, and a removed one taken out of.
    pub table: &'a ObjectTable,
    /// The number that an object which this call makes gets.
    pub object: u64,
}

/// Makes room for a file of this size.
fn reserve(held: &mut Held, object: u64, size: u64) -> Result<(), AllocError> {
    match held.get_mut(object).and_then(|node| node.file_mut()) {
        Some(file) => {
            let more = (size as usize).saturating_sub(file.bytes.len());
            file.bytes.reserve(more)
        }
        None => Ok(()),
    }
}

/// Cuts a file, or fills it with zeros.
fn resize(held: &mut Held, object: u64, size: u64) -> Result<(), AllocError> {
    match held.get_mut(object).and_then(|node| node.file_mut()) {
        Some(file) => file.bytes.resize(size as usize, 0),
        None => Ok(()),
    }
}

/// Writes bytes at an offset. A gap is filled with zeros.
fn write_at(file: &mut Vec<u8>, offset: usize, bytes: &[u8]) -> Result<(), AllocError> {
    if bytes.is_empty() {
        return Ok(());
    }
    let end = offset.checked_add(bytes.len()).ok_or(AllocError)?;
    if file.len() < end {
        file.resize(end, 0)?;
    }
    file[offset..end].copy_from_slice(bytes);
    Ok(())
}

fn write(held: &mut Held, object: u64, offset: u64, bytes: &[u8]) -> Result<(), AllocError> {
    match held.get_mut(object).and_then(|node| node.file_mut()) {
        Some(file) => write_at(&mut file.bytes, offset as usize, bytes),
        None => Ok(()),
    }
}

/// Gives a name of a directory an object.
fn enter(held: &mut Held, directory: u64, name: &[u8], object: u64) -> Result<(), AllocError> {
    match held.get_mut(directory).and_then(|node| node.names_mut()) {
        Some(names) => names.insert(name, object),
        None => Ok(()),
    }
}

/// Takes a name out of a directory.
fn leave(held: &mut Held, directory: u64, name: &[u8]) {
    if let Some(names) = held.get_mut(directory).and_then(|node| node.names_mut()) {
        names.remove(name);
    }
}

/// Puts a directory into another.
fn put_parent(held: &mut Held, directory: u64, parent: u64) -> Result<(), AllocError> {
    match held.parents_mut() {
        Some(parents) => parents.put(directory, parent),
        None => Ok(()),
    }
}

/// Puts a directory that is known into another.
fn move_parent(held: &mut Held, directory: u64, parent: u64) {
    if let Some(parents) = held.parents_mut() {
        parents.move_to(directory, parent);
    }
}

/// Forgets a directory.
fn forget_parent(held: &mut Held, directory: u64) {
    if let Some(parents) = held.parents_mut() {
        parents.remove(directory);
    }
}

impl Site<'_> {
    /// Makes a place for an object, and enters its name. Nothing else is done as yet.
    fn prepare_object<R: Wait>(
        &self,
        rt: &R,
        alloc: Global,
        held: &mut Held,
        directory: u64,
        name: &[u8],
        object: &NewObject<'_>,
    ) -> Result<Prepared, AllocError> {
        let content = object.content(alloc)?;
        self.table.promise(rt, self.object)?;
        if matches!(object, NewObject::Directory) {
            put_parent(held, self.object, directory)?;
        }
        enter(held, directory, name, self.object)?;
        Ok(Prepared {
            content: Some(content),
        })
    }

    /// Makes what a RENAME needs: the new name, entered where it isn't there.
    fn prepare_renaming(
        &self,
        held: &mut Held,
        renaming: &Renaming<'_>,
    ) -> Result<Prepared, AllocError> {
        if renaming.replaced.is_none() {
            enter(held, renaming.to, renaming.to_name, renaming.object)?;
        }
        Ok(Prepared::nothing())
    }

    /// Makes all growths of a change. Where one is refused, `take_back` leaves all as it was.
    pub fn prepare<R: Wait>(
        &self,
        rt: &R,
        alloc: Global,
        held: &mut Held,
        change: &Change<'_>,
    ) -> Result<Prepared, AllocError> {
        match change {
            Change::Nothing | Change::Remove { .. } => Ok(Prepared::nothing()),
            Change::Resize { object, size } => {
                reserve(held, *object, *size)?;
                Ok(Prepared::nothing())
            }
            Change::Write {
                object,
                offset,
                bytes,
            } => {
                let end = offset.saturating_add(bytes.len() as u64);
                reserve(held, *object, end)?;
                Ok(Prepared::nothing())
            }
            Change::Make {
                directory,
                name,
                object,
            } => self.prepare_object(rt, alloc, held, *directory, name, object),
            Change::Rename(renaming) => self.prepare_renaming(held, renaming),
        }
    }

    /// Takes back what was prepared of a change that isn't made.
    pub fn take_back<R: Wait>(&self, rt: &R, held: &mut Held, change: &Change<'_>) {
        match change {
            Change::Make {
                directory,
                name,
                ..
            } => {
                leave(held, *directory, name);
                self.table.remove(rt, self.object);
                forget_parent(held, self.object);
            }
            Change::Rename(renaming) if renaming.replaced.is_none() => {
                leave(held, renaming.to, renaming.to_name);
            }
            _ => {}
        }
    }

    /// Lets an object go that no name leads to any more.
    fn remove_object<R: Wait>(&self, rt: &R, held: &mut Held, object: u64) {
        held.let_go(object);
        self.table.remove(rt, object);
        forget_parent(held, object);
    }

    /// Moves a name with its object.
    fn rename<R: Wait>(
        &self,
        rt: &R,
        held: &mut Held,
        renaming: &Renaming<'_>,
    ) -> Result<(), AllocError> {
        if renaming.replaced.is_some() {
            enter(held, renaming.to, renaming.to_name, renaming.object)?;
        }
        leave(held, renaming.from, renaming.from_name);
        if let Some(replaced) = renaming.replaced {
            self.remove_object(rt, held, replaced);
        }
        if renaming.is_directory {
            move_parent(held, renaming.object, renaming.to);
        }
        Ok(())
    }

    /// Makes a change that was prepared. It needs no more memory, so it fails only where something else was prepared.
    pub fn make<R: Wait>(
        &self,
        rt: &R,
        held: &mut Held,
        change: &Change<'_>,
        prepared: Prepared,
    ) -> Result<(), AllocError> {
        let content = prepared.into_content();
        match change {
            Change::Nothing => Ok(()),
            Change::Resize { object, size } => resize(held, *object, *size),
            Change::Write {
                object,
                offset,
                bytes,
            } => write(held, *object, *offset, bytes),
            Change::Make { .. } => {
                let content = content.ok_or(AllocError)?;
                self.table.fulfil(rt, self.object, content);
                Ok(())
            }
            Change::Remove {
                directory,
                name,
                object,
            } => {
                leave(held, *directory, name);
                self.remove_object(rt, held, *object);
                Ok(())
            }
            Change::Rename(renaming) => self.rename(rt, held, renaming),
        }
    }
}
