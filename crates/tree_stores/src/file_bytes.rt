//! The bytes of a regular file, kept by pages: a write, a cut and their undoing cost the pages that they touch, whatever
//! the file's size, and a hole takes no memory.

mod changes;
mod file;
mod page;
mod pages;

pub use changes::FileUndo;
pub use file::FileBytes;
