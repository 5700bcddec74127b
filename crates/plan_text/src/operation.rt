//! What a client asks, as the words of a line say it.

ghost use Rattle.std.specs.Prelude.{◌≡◌, ◌++◌, codes};
ghost use Rattle.plan_text.specs.Line.{Tells, IsOperation};
ghost use Rattle.plan_text.specs.PlanText.{HasNames};

use crate::plan::Operation;
use crate::words::{WordFault, level_of, name_of};
use std::alloc::Global;
use text_words::{behind, count_of, number_of, split_at_byte};

fn rename_of(alloc: Global, words: &[u8]) -> Result<Operation, WordFault>
    ensures { Tells (IsOperation (codes "rename " ++ words.now)) result }
{
    let Some((from, to)) = split_at_byte(words, b' ') else {
        return Err(WordFault::NotOne);
    };
    let from = name_of(alloc, from)?;
    let to = name_of(alloc, to)?;
    Ok(Operation::Rename(from, to))
}

fn write_of(alloc: Global, words: &[u8]) -> Result<Operation, WordFault>
    ensures { Tells (IsOperation (codes "write " ++ words.now)) result }
{
    let Some((name, words)) = split_at_byte(words, b' ') else {
        return Err(WordFault::NotOne);
    };
    let Some((offset, words)) = split_at_byte(words, b' ') else {
        return Err(WordFault::NotOne);
    };
    let Some((text, level)) = split_at_byte(words, b' ') else {
        return Err(WordFault::NotOne);
    };
    let Some(offset) = number_of(offset) else {
        return Err(WordFault::NotOne);
    };
    let Some(level) = level_of(level) else {
        return Err(WordFault::NotOne);
    };
    let name = name_of(alloc, name)?;
    let text = name_of(alloc, text)?;
    Ok(Operation::Write(name, offset, text, level))
}

fn read_of(alloc: Global, words: &[u8]) -> Result<Operation, WordFault>
    ensures { Tells (IsOperation (codes "read " ++ words.now)) result }
{
    let Some((name, words)) = split_at_byte(words, b' ') else {
        return Err(WordFault::NotOne);
    };
    let Some((offset, count)) = split_at_byte(words, b' ') else {
        return Err(WordFault::NotOne);
    };
    let Some(offset) = number_of(offset) else {
        return Err(WordFault::NotOne);
    };
    let Some(count) = count_of(count) else {
        return Err(WordFault::NotOne);
    };
    let name = name_of(alloc, name)?;
    Ok(Operation::Read(name, offset, count))
}

/// The operation that the words write.
pub fn read_operation(alloc: Global, words: &[u8]) -> Result<Operation, WordFault>
    ensures { Tells (IsOperation words.now) result }
{
    if let Some(name) = behind(words, b"create ") {
        return Ok(Operation::Create(name_of(alloc, name)?));
    }
    if let Some(name) = behind(words, b"mkdir ") {
        return Ok(Operation::MakeDirectory(name_of(alloc, name)?));
    }
    if let Some(name) = behind(words, b"remove ") {
        return Ok(Operation::Remove(name_of(alloc, name)?));
    }
    if let Some(name) = behind(words, b"lookup ") {
        return Ok(Operation::Lookup(name_of(alloc, name)?));
    }
    if let Some(name) = behind(words, b"commit ") {
        return Ok(Operation::Commit(name_of(alloc, name)?));
    }
    if let Some(words) = behind(words, b"rename ") {
        return rename_of(alloc, words);
    }
    if let Some(words) = behind(words, b"write ") {
        return write_of(alloc, words);
    }
    if let Some(words) = behind(words, b"read ") {
        return read_of(alloc, words);
    }
    Err(WordFault::NotOne)
}
