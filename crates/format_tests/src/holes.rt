//! Bytes far out, over the boundaries of pages, and after a cut.

use std::alloc::{AllocError, Global};
use std::test::Fail;
use tree_stores::FileBytes;

/// Some bytes at an offset, and whether a file has them there.
type Look = (u64, &'static [u8], bool);

/// Whether a file answers each of these so.
fn answers(file: &FileBytes, looks: &[Look]) -> bool {
    for (offset, bytes, has) in looks {
        if file.has_at(*offset, bytes) != *has {
            return false;
        }
    }
    true
}

/// What a byte at the limit leaves before it.
const HOLE: [Look; 4] = [
    (16_777_213, &[0, 0, 7], true),
    (16_777_213, &[0, 7, 0], false),
    (16_777_215, &[7, 0], false),
    (0, &[0; 600], true),
];

/// Whether a byte at the limit leaves a hole, and no byte once it is taken back.
fn leaves_a_hole(alloc: Global) -> Result<bool, AllocError> {
    let mut file = FileBytes::new(alloc);
    let undo = file.write(16_777_215, &[7])?;
    let there = file.len() == 16_777_216 && answers(&file, &HOLE);
    file.restore(undo)?;
    Ok(there && file.is_empty())
}

/// What a file has that is cut and grows again.
const GROWN: [Look; 4] = [
    (0, &[0, 1, 1], true),
    (510, &[1, 1, 1, 1, 1, 0, 0], true),
    (515, &[0; 986], true),
    (515, &[0; 987], false),
];

/// Whether a file that is cut shows zeros when it grows again.
fn grows_again(alloc: Global) -> Result<bool, AllocError> {
    let mut file = FileBytes::zeros(alloc, 3);
    drop(file.write(1, &[1; 1500])?);
    drop(file.resize(515)?);
    drop(file.resize(1501)?);
    Ok(answers(&file, &GROWN))
}

#[test]
fn a_file_has_zeros_where_nothing_was_written(rt: HostRuntime) -> Result<(), Fail> {
    assert!(rt; leaves_a_hole(rt.alloc())?);
    assert!(rt; grows_again(rt.alloc())?);
    Ok(())
}

/// Bytes at the end of a file of three bytes, and far after it: no bytes are at every offset.
const AFTER: [Look; 3] = [
    (3, &[], true),
    (u64::MAX, &[], true),
    (u64::MAX, &[0], false),
];

/// Whether a copy has what was in a file, and the file what was written since.
fn is_copied(alloc: Global) -> Result<bool, AllocError> {
    let mut file = FileBytes::new(alloc);
    drop(file.write(511, b"ab")?);
    let copy = file.copy()?;
    drop(file.write(511, b"cd")?);
    Ok(copy.has_at(510, &[0, 97, 98]) && file.has_at(510, &[0, 99, 100]))
}

#[test]
fn a_file_has_its_bytes_alone(rt: HostRuntime) -> Result<(), Fail> {
    assert!(rt; answers(&FileBytes::zeros(rt.alloc(), 3), &AFTER));
    assert!(rt; is_copied(rt.alloc())?);
    Ok(())
}
