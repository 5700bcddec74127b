//! The names in a directory.

ghost use Rattle.std.specs.Prelude.{◌≤◌, length, IfOk};

use crate::refusal::{Cause, Stop};
use std::alloc::Global;
use std::io::{self, ErrorKind, Read};
use std::rt::Files;
use tree_starts::is_plain;

/// Reads the next names into a page, each with a 0 behind it. None are left where it gives 0.
fn read_page<D: Read>(directory: &mut D, page: &mut [u8]) -> io::Result<usize>
    ensures { IfOk result (λ count. count ≤ length page.new) }
{
    for _ in 0..u64::MAX {
        match directory.read(page) {
            Ok(count) => return Ok(count),
            Err(error) if error.kind() == ErrorKind::Interrupted => {}
            Err(error) => return Err(error),
        }
    }
    Ok(0)
}

/// Puts the names of a page behind the others, of which there may be so many.
fn take_page(
    alloc: Global,
    names: &mut Vec<Vec<u8>>,
    page: &[u8],
    most: usize,
) -> Result<(), Stop> {
    for name in page.split(|byte| *byte == 0) {
        if is_plain(name) {
            if names.len() >= most {
                return Err(Stop::Refused(Cause::TooMany));
            }
            names.push(Vec::from_slice(alloc, name)?)?;
        }
    }
    Ok(())
}

/// The names in a directory, in the order of their bytes. More than so many are refused.
pub(crate) fn names_in<R: Files + AllocGlobal>(
    rt: &R,
    path: &str,
    page: &mut [u8],
    most: usize,
) -> Result<Vec<Vec<u8>>, Stop> {
    let mut directory = match rt.open_dir(path) {
        Ok(directory) => directory,
        Err(error) => return Err(Stop::of_object(error)),
    };
    let mut names = Vec::new(rt.alloc());
    for _ in 0..u64::MAX {
        match read_page(&mut directory, page) {
            Ok(0) => break,
            Ok(count) => take_page(rt.alloc(), &mut names, &page[..count], most)?,
            Err(error) => return Err(Stop::of_object(error)),
        }
    }
    names.sort()?;
    Ok(names)
}
