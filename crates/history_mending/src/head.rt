//! What stands ahead of the events of a history file. How many events it says there are isn't looked at.

ghost use Rattle.xdr_records.specs.Kinds.{kind_reading};
ghost use Rattle.history_file.specs.Kinds.{kind_of};
ghost use Rattle.history_mending.specs.Fronts.{head_of};
ghost use Rattle.history_mending.specs.Mending.{head_value};
ghost use Rattle.history_mending.specs.Steps.{TellsOrNoMemory};

use crate::items::{object_count, objects, opaque, profile, word};
use history_file::{FileFault, Version};
use nfs3_types::HANDLE_LIMIT;
use std::alloc::Global;
use tree_starts::{Profile, SeenStart};
use xdr_records::Reader;

/// What a history begins with. The root handle, and the names and bytes of the start, are those of the file.
#[derive(Drop)]
pub struct SeenHead<'a> {
    /// The root handle, of at most 64 bytes.
    pub root: &'a [u8],
    /// What the server held at first.
    pub start: SeenStart<'a>,
    /// How strictly its replies are judged.
    pub profile: Profile,
}

/// What is read of version 1.
#[tactic(auto, unfolding(crate::specs::Fronts::head_of))]
fn first_head<'a>(alloc: Global, reader: &mut Reader<'a>) -> Result<SeenHead<'a>, FileFault>
    ensures { TellsOrNoMemory head_value reader.new result (kind_reading kind_of (head_of Version.First) reader.old) }
{
    let root = opaque(reader, HANDLE_LIMIT as u32)?;
    word(reader)?;
    Ok(SeenHead {
        root,
        start: SeenStart::empty(alloc),
        profile: Profile::Plain,
    })
}

/// What is read of version 2.
#[tactic(auto, unfolding(crate::specs::Fronts::head_of))]
fn second_head<'a>(alloc: Global, reader: &mut Reader<'a>) -> Result<SeenHead<'a>, FileFault>
    ensures { TellsOrNoMemory head_value reader.new result (kind_reading kind_of (head_of Version.Second) reader.old) }
{
    let root = opaque(reader, HANDLE_LIMIT as u32)?;
    let profile = profile(reader)?;
    let number = object_count(reader)?;
    let start = objects(alloc, reader, number)?;
    word(reader)?;
    Ok(SeenHead {
        root,
        start,
        profile,
    })
}

/// What stands between the magic and the events.
pub fn read_head<'a>(
    alloc: Global,
    reader: &mut Reader<'a>,
    version: Version,
) -> Result<SeenHead<'a>, FileFault>
    ensures { TellsOrNoMemory head_value reader.new result (kind_reading kind_of (head_of version) reader.old) }
{
    match version {
        Version::First => first_head(alloc, reader),
        Version::Second => second_head(alloc, reader),
    }
}
