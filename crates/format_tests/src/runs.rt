//! Runs of writes and changes of size, each taken back, beside a plain list of bytes.

ghost use Rattle.std.specs.Prelude.{◌≡◌, ◌≤◌, IfOk, OnOk, length};
ghost use Rattle.tree_stores.specs.Undo.{Restores};

use std::alloc::{AllocError, Global};
use std::test::Fail;
use tree_stores::{FileBytes, FileUndo};

/// One more than the largest size that a change of size gives, and the largest offset of a write.
const SIZES: u64 = 4000;

/// The next number of a linear congruential generator (Knuth's MMIX).
fn next(seed: u64) -> u64 {
    seed.wrapping_mul(6_364_136_223_846_793_005)
        .wrapping_add(1_442_695_040_888_963_407)
}

/// An offset or a size.
fn place(seed: u64) -> u64
    ensures { result ≤ 4000 }
{
    (seed >> 40) % SIZES
}

/// Whether a step writes.
fn writes(seed: u64) -> bool {
    seed >> 62 != 0
}

/// The bytes that a step writes.
fn added(bytes: &[u8], seed: u64) -> &[u8]
    ensures { length result.now ≤ length bytes.now }
{
    let from = ((seed >> 16) % 97) as usize;
    let to = ((seed >> 24) % 1500) as usize;
    if from <= to && to <= bytes.len() {
        &bytes[from..to]
    } else {
        bytes
    }
}

/// A step of the file.
fn change(file: &mut FileBytes, bytes: &[u8], seed: u64) -> Result<FileUndo, AllocError>
    requires { length bytes.now ≤ 2000 }
    ensures { IfOk result (λ undo. Restores undo file.new file.old) }
{
    if writes(seed) {
        return file.write(place(seed), added(bytes, seed));
    }
    file.resize(place(seed))
}

/// The step of a plain list.
fn plain(alloc: Global, model: &[u8], bytes: &[u8], seed: u64) -> Result<Vec<u8>, AllocError>
    requires { length bytes.now ≤ 2000 }
{
    let mut after = Vec::from_slice(alloc, model)?;
    let place = place(seed) as usize;
    if !writes(seed) {
        after.resize(place, 0)?;
        return Ok(after);
    }
    let added = added(bytes, seed);
    let end = place + added.len();
    after.resize(end.max(model.len()), 0)?;
    after.as_mut_slice()[place..end].copy_from_slice(added);
    Ok(after)
}

/// Whether a file has the bytes of a plain list, and no more.
fn agrees(alloc: Global, file: &FileBytes, model: &[u8]) -> Result<bool, AllocError> {
    let mut out = Vec::new(alloc);
    file.put(&mut out)?;
    Ok(out.as_slice() == model && file.len() == model.len() as u64 && file.has_at(0, model))
}

/// Takes so many steps and takes them back, and says whether the file agreed with the plain list all the way.
fn run(
    alloc: Global,
    file: &mut FileBytes,
    model: &[u8],
    bytes: &[u8],
    seed: u64,
    steps: u32,
) -> Result<bool, AllocError>
    requires { length bytes.now ≤ 2000 }
    ensures { OnOk result (file.new ≡ file.old) }
{
    let there = agrees(alloc, file, model)?;
    if steps == 0 {
        return Ok(there);
    }
    let undo = change(file, bytes, seed)?;
    let after = plain(alloc, model, bytes, seed)?;
    let ahead = run(alloc, file, after.as_slice(), bytes, next(seed), steps - 1)?;
    file.restore(undo)?;
    Ok(there && ahead && agrees(alloc, file, model)?)
}

/// A run from an empty file.
fn run_from_nothing(alloc: Global, seed: u64) -> Result<bool, AllocError> {
    let mut bytes = Vec::new(alloc);
    for i in 0..1400u32 {
        bytes.push((i % 251 + 1) as u8)?;
    }
    let mut file = FileBytes::new(alloc);
    run(
        alloc,
        &mut file,
        &[],
        &bytes.as_slice()[..bytes.len().min(2000)],
        seed,
        300,
    )
}

#[test]
fn a_file_agrees_with_a_plain_list(rt: HostRuntime) -> Result<(), Fail> {
    assert!(rt; run_from_nothing(rt.alloc(), 1)?);
    assert!(rt; run_from_nothing(rt.alloc(), 2)?);
    Ok(())
}
