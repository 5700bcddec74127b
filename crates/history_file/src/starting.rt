//! The starting objects of a history file, in one pass. No byte is copied: names, bytes and texts stand in the file.

ghost use Rattle.std.specs.Prelude.{◌≡◌, ◌≤◌, [], true, nat_le, length, None, IfOk, OnOk};
ghost use Rattle.xdr_records.specs.Grammar.Grammar.{one_opaque, named};
ghost use Rattle.xdr_records.specs.Reading.{Answers};
ghost use Rattle.tree_starts.specs.Start.{keys_of, fits, object_fault, start_limit};
ghost use Rattle.tree_starts.specs.Seen.{seen_node, seen_object};
ghost use Rattle.history_file.specs.Starting.{profile_word, object_count, start_kind, checked, node_of, object, objects};
ghost use Rattle.history_file.specs.FileReading.{told, reading_of};

use crate::fault::FileFault;
use crate::items::{ItemFault, long, opaque, word};
use std::alloc::Global;
use tree_starts::nfs3_types::FILE_LIMIT;
use tree_starts::{Profile, START_LIMIT, SeenNode, SeenObject, SeenStart, StartTable, TEXT_LIMIT};
use xdr_records::Reader;

/// The kind word of a starting object.
#[derive(Clone, Copy)]
pub enum StartKind {
    /// 1: a regular file.
    File,
    /// 2: a directory.
    Directory,
    /// 5: a symbolic link.
    Link,
}

/// How strictly replies are judged.
pub fn profile(reader: &mut Reader<'_>) -> Result<Profile, ItemFault>
    ensures { Answers told (λ p. p) reader.new result (reading_of (named profile_word) reader.old) }
{
    let at = reader.offset();
    match word(reader)? {
        0 => Ok(Profile::Plain),
        1 => Ok(Profile::Strict),
        _ => Err(ItemFault::Fault {
            at,
            fault: FileFault::BadProfile,
        }),
    }
}

/// The number of starting objects.
pub fn object_count(reader: &mut Reader<'_>) -> Result<u32, ItemFault>
    ensures read { Answers told (λ n. n) reader.new result (reading_of (named object_count) reader.old) }
    ensures few { IfOk result (λ n. n ≤ start_limit) }
{
    let at = reader.offset();
    let number = word(reader)?;
    if number as usize > START_LIMIT {
        return Err(ItemFault::Fault {
            at,
            fault: FileFault::TooLarge,
        });
    }
    Ok(number)
}

fn kind(reader: &mut Reader<'_>, number: u64) -> Result<StartKind, ItemFault>
    ensures { Answers told (λ k. k) reader.new result (reading_of (named (start_kind number)) reader.old) }
{
    let at = reader.offset();
    match word(reader)? {
        1 => Ok(StartKind::File),
        2 => Ok(StartKind::Directory),
        5 => Ok(StartKind::Link),
        _ => Err(ItemFault::Fault {
            at,
            fault: FileFault::BadStart(number),
        }),
    }
}

fn check(reader: &mut Reader<'_>, is_right: bool, number: u64) -> Result<(), ItemFault>
    ensures read { Answers told (λ u. u) reader.new result (reading_of (checked is_right number) reader.old) }
    ensures right { OnOk result (is_right ≡ true) }
{
    if is_right {
        Ok(())
    } else {
        Err(ItemFault::Fault {
            at: reader.offset(),
            fault: FileFault::BadStart(number),
        })
    }
}

fn node<'a>(reader: &mut Reader<'a>, kind: StartKind) -> Result<SeenNode<'a>, ItemFault>
    ensures read { Answers told seen_node reader.new result (reading_of (node_of kind) reader.old) }
    ensures fits { IfOk result (λ node. fits (seen_node node) ≡ true) }
{
    match kind {
        StartKind::File => {
            let bytes = bytes(reader, FILE_LIMIT as u32)?;
            Ok(SeenNode::File(bytes))
        }
        StartKind::Directory => Ok(SeenNode::Directory),
        StartKind::Link => {
            let text = bytes(reader, TEXT_LIMIT as u32)?;
            Ok(SeenNode::Link(text))
        }
    }
}

/// Bytes within a limit.
fn bytes<'a>(reader: &mut Reader<'a>, limit: u32) -> Result<&'a [u8], ItemFault>
    ensures read { Answers told (λ bytes. bytes.now) reader.new result (reading_of (one_opaque limit) reader.old) }
    ensures within { IfOk result (λ bytes. nat_le (length bytes.now) limit ≡ true) }
{
    opaque(reader, limit)
}

/// Starting object `number`, where it may stand after the others.
#[tactic(auto, unfolding(crate::specs::Starting::object))]
fn one_object<'a>(
    reader: &mut Reader<'a>,
    table: &StartTable<'a>,
    number: u64,
) -> Result<SeenObject<'a>, ItemFault>
    ensures read { Answers told seen_object reader.new result (reading_of (object (keys_of table.now) number) reader.old) }
    ensures fine { IfOk result (λ o. object_fault (keys_of table.now) number (seen_object o) ≡ None) }
{
    let parent = long(reader)?;
    check(reader, table.is_parent(parent), number)?;
    let name = bytes(reader, TEXT_LIMIT as u32)?;
    check(reader, table.may_be_named(parent, name), number)?;
    let kind = kind(reader, number)?;
    let node = node(reader, kind)?;
    Ok(SeenObject { parent, name, node })
}

/// The starting objects, of this number, numbered from 1. Room is made for those alone that were read.
pub fn read_objects<'a>(
    alloc: Global,
    reader: &mut Reader<'a>,
    count: u32,
) -> Result<SeenStart<'a>, ItemFault>
    requires { count ≤ start_limit }
    ensures { Answers told (λ s. s) reader.new result (reading_of (objects count [] 1) reader.old) }
{
    let mut table = StartTable::new(alloc);
    for index in 0..count {
        let object = one_object(reader, &table, index as u64 + 1)?;
        table.push(&object)?;
    }
    Ok(table.finish())
}
