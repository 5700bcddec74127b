//! Finding the objects of a folder.

ghost use Rattle.std.specs.Prelude.{IfOk};
ghost use Rattle.tree_starts.specs.Start.{IsStart};

use crate::contents::node_at;
use crate::listing::names_in;
use crate::paths::{fault_at, fault_of_name, path_in, with_slash};
use crate::refusal::{Cause, FolderFault, Stop};
use crate::room::{Limits, Room};
use nfs3_types::Name;
use std::alloc::{AllocError, Global};
use std::rt::Files;
use tree_starts::{Start, StartFault, StartNode, StartObject, TEXT_LIMIT};

/// How many bytes of names are read at once.
const PAGE: usize = 32_768;

/// A directory whose names are still to be read.
#[derive(Drop)]
struct Directory {
    /// The number of its object; of the folder 0.
    number: u64,
    path: String,
}

/// The objects that are found so far, and where others are still to be found.
struct Finder {
    alloc: Global,
    limits: Limits,
    objects: Vec<StartObject>,
    waiting: Vec<Directory>,
    room: Room,
    /// Where names are read.
    page: Vec<u8>,
    /// Where files are read.
    buffer: Vec<u8>,
}

impl Drop for Finder {
    fn drop(self) {
        let Finder {
            alloc: _,
            limits: _,
            objects,
            waiting,
            room: _,
            page,
            buffer,
        } = self;
        drop(objects);
        drop(waiting);
        drop(page);
        drop(buffer);
    }
}

/// A page for names.
fn empty_page(alloc: Global) -> Result<Vec<u8>, AllocError> {
    vec![in alloc; 0; PAGE]
}

impl Finder {
    /// One that has found nothing yet.
    fn new(alloc: Global, limits: Limits) -> Result<Finder, AllocError> {
        let page = empty_page(alloc)?;
        Ok(Finder {
            alloc,
            limits,
            objects: Vec::new(alloc),
            waiting: Vec::new(alloc),
            room: Room::new(limits),
            page,
            buffer: Vec::new(alloc),
        })
    }

    /// Notes a directory whose names are to be read.
    fn wait_for(&mut self, number: u64, path: String) -> Result<(), AllocError> {
        self.waiting.push(Directory { number, path })?;
        Ok(())
    }

    /// Puts an object behind the others. Its number.
    fn put(&mut self, parent: u64, name: &[u8], node: StartNode) -> Result<u64, Stop> {
        if name.len() > TEXT_LIMIT {
            return Err(Stop::Refused(Cause::NameTooLong));
        }
        let name = Name::from_slice(self.alloc, name)?;
        self.objects.push(StartObject { parent, name, node })?;
        Ok(self.objects.len() as u64)
    }

    /// Takes in the object at a path, which has this name in a directory.
    fn take<R: Files + AllocGlobal>(
        &mut self,
        rt: &R,
        parent: u64,
        name: &[u8],
        path: &str,
    ) -> Result<(), Stop> {
        let told = match rt.symlink_metadata(path) {
            Ok(told) => told,
            Err(error) => return Err(Stop::of_object(error)),
        };
        self.room.take_name(name.len())?;
        let node = node_at(rt, path, &told, &mut self.room, &mut self.buffer)?;
        let number = self.put(parent, name, node)?;
        if told.is_dir() {
            let path = String::from_str(self.alloc, path)?;
            self.wait_for(number, path)?;
        }
        Ok(())
    }

    /// Takes in what has this name in a directory.
    fn take_name<R: Files + AllocGlobal>(
        &mut self,
        rt: &R,
        directory: &Directory,
        name: &[u8],
    ) -> Result<(), FolderFault> {
        let above = directory.path.as_str();
        let Ok(text) = str::from_utf8(name) else {
            let stop = Stop::Refused(Cause::NameNotText);
            return Err(fault_of_name(self.alloc, stop, above, name));
        };
        let path = path_in(self.alloc, above, text)?;
        match self.take(rt, directory.number, name, path.as_str()) {
            Ok(()) => Ok(()),
            Err(stop) => Err(fault_at(self.alloc, stop, path.as_str())),
        }
    }

    /// The names in a directory.
    fn names<R: Files + AllocGlobal>(
        &mut self,
        rt: &R,
        path: &str,
    ) -> Result<Vec<Vec<u8>>, FolderFault> {
        let most = self.limits.objects.saturating_sub(self.objects.len());
        match names_in(rt, path, self.page.as_mut_slice(), most) {
            Ok(names) => Ok(names),
            Err(stop) => Err(fault_at(self.alloc, stop, path)),
        }
    }

    /// Takes in what is in a directory.
    fn read<R: Files + AllocGlobal>(
        &mut self,
        rt: &R,
        directory: &Directory,
    ) -> Result<(), FolderFault> {
        let names = self.names(rt, directory.path.as_str())?;
        for name in names.iter() {
            self.take_name(rt, directory, name.as_slice())?;
        }
        Ok(())
    }

    /// Takes in what is in the directories that wait, the last one first, until none does.
    fn read_all<R: Files + AllocGlobal>(&mut self, rt: &R) -> Result<(), FolderFault> {
        for _ in 0..u64::MAX {
            let Some(directory) = self.waiting.pop() else {
                break;
            };
            self.read(rt, &directory)?;
        }
        Ok(())
    }

    /// The start that was found at a path.
    fn finish(self, path: &str) -> Result<Start, FolderFault> {
        let Finder {
            alloc,
            limits: _,
            objects,
            waiting,
            room: _,
            page,
            buffer,
        } = self;
        drop(waiting);
        drop(page);
        drop(buffer);
        match Start::new(alloc, objects) {
            Ok(start) => Ok(start),
            Err(StartFault::NoMemory) => Err(FolderFault::NoMemory),
            Err(fault) => Err(fault_at(alloc, Stop::Refused(Cause::NoStart(fault)), path)),
        }
    }
}

/// Whether there is a directory at a path, be it through a link.
fn look_at<R: Files + AllocGlobal>(rt: &R, path: &str) -> Result<(), Stop> {
    match rt.metadata(path) {
        Ok(told) if told.is_dir() => Ok(()),
        Ok(_) => Err(Stop::Refused(Cause::NoDirectory)),
        Err(error) => Err(Stop::of_folder(error)),
    }
}

/// The objects of the folder at a path, as [`folder_start`] gives them, where there may be so much of them.
pub fn start_within<R: Files + AllocGlobal>(
    rt: &R,
    path: &str,
    limits: Limits,
) -> Result<Start, FolderFault>
    ensures { IfOk result IsStart }
{
    if let Err(stop) = look_at(rt, path) {
        return Err(fault_at(rt.alloc(), stop, path));
    }
    let mut finder = Finder::new(rt.alloc(), limits)?;
    // By the slash the system follows a link to the folder.
    let folder = with_slash(rt.alloc(), path)?;
    finder.wait_for(0, folder)?;
    finder.read_all(rt)?;
    finder.finish(path)
}

/// The objects of the folder at a path, each directory before what is in it. The folder itself is object 0. It may be named through a
/// symbolic link; none below it is followed.
pub fn folder_start<R: Files + AllocGlobal>(rt: &R, path: &str) -> Result<Start, FolderFault>
    ensures { IfOk result IsStart }
{
    start_within(rt, path, Limits::OF_FILES)
}
