//! Folders that are made for tests.

use std::fs::OpenFile;
use std::net::Net;
use std::os::unix::fs::symlink;
use std::os::unix::net::UnixListener;
use std::rt::Files;
use std::{fs, io};

/// The path of a name in a folder; of no name the folder's.
pub(crate) fn joined<R: AllocGlobal>(rt: &R, folder: &str, name: &str) -> io::Result<String> {
    if name.is_empty() {
        return Ok(String::from_str(rt.alloc(), folder)?);
    }
    Ok(format!(in rt.alloc(); "{folder}/{name}")?)
}

/// Makes an empty folder under /tmp that wasn't there.
pub(crate) fn make_folder<R: Files + AllocGlobal>(rt: &R) -> io::Result<String> {
    for number in 0..100_000 {
        let path = format!(in rt.alloc(); "/tmp/nfsbench_folder_{number}")?;
        match fs::create_dir(rt, path.as_str()) {
            Ok(()) => return Ok(path),
            Err(error) if error.kind() == io::ErrorKind::AlreadyExists => {}
            Err(error) => return Err(error),
        }
    }
    Err(io::Error::from(io::ErrorKind::AlreadyExists))
}

/// Something that is put into a folder at a path in it.
#[derive(Clone, Copy)]
pub(crate) enum Item {
    /// A directory, with those that it is in.
    Directory,
    /// A directory in which there is one, and so on, so many times.
    Nested(usize),
    /// A file with these bytes.
    File(&'static [u8]),
    /// A file of a hole of so many bytes.
    Hole(u64),
    /// A link with this text.
    Link(&'static str),
    /// A second name of the file at this path in the folder.
    Name(&'static str),
    Socket,
}

/// Makes a directory in a directory, so many times.
fn put_nested<R: Files + AllocGlobal>(rt: &R, folder: &str, depth: usize) -> io::Result<()> {
    let mut path = String::from_str(rt.alloc(), folder)?;
    for _ in 0..depth {
        path.push_str("/d")?;
        fs::create_dir(rt, path.as_str())?;
    }
    Ok(())
}

/// Gives a file in a folder a second name.
fn put_name<R: Files + AllocGlobal>(
    rt: &R,
    folder: &str,
    name: &str,
    path: &str,
) -> io::Result<()> {
    let file = joined(rt, folder, name)?;
    fs::hard_link(rt, file.as_str(), path)
}

/// Makes a socket.
fn put_socket<R: Files + Net + AllocGlobal>(rt: &R, path: &str) -> io::Result<()> {
    let socket = UnixListener::bind(rt, path)?;
    drop(socket);
    Ok(())
}

/// Puts an item at a path into a folder.
pub(crate) fn put<R: Files + Net + AllocGlobal>(
    rt: &R,
    folder: &str,
    name: &str,
    item: Item,
) -> io::Result<()> {
    let path = joined(rt, folder, name)?;
    match item {
        Item::Directory => fs::create_dir_all(rt, path.as_str()),
        Item::Nested(depth) => put_nested(rt, path.as_str(), depth),
        Item::File(bytes) => fs::write(rt, path.as_str(), bytes),
        Item::Hole(size) => fs::create(rt, path.as_str())?.set_len(size),
        Item::Link(text) => symlink(rt, text, path.as_str()),
        Item::Name(other) => put_name(rt, folder, other, path.as_str()),
        Item::Socket => put_socket(rt, path.as_str()),
    }
}
