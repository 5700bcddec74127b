//! What a successful WRITE makes of a tree (RFC 1813, section 3.3.7).

ghost use Rattle.std.specs.Prelude.{◌≡◌, ◌<◌, ◌^◌, Some, length};
ghost use Rattle.tree_nodes.specs.Tree.{Names, entry_of};
ghost use Rattle.tree_nodes.specs.declared.node.Content.TheVariants as contents;
ghost use Rattle.file_tree.specs.Planning.{Plans};
ghost use Rattle.file_tree.specs.Written.{level_rank, reaches, write_at, write_change};

use crate::object_change::ObjectChange;
use nfs3_types::{StableHow, WriteArguments};
use replay_law::StepFault;
use tree_answers::tree_handles::{View, file_of};
use tree_nodes::{File, Nodes, front, is_within_limit};

/// How much a level promises.
fn rank(level: StableHow) -> u8
    ensures { result ≡ level_rank level }
{
    match level {
        StableHow::Unstable => 0,
        StableHow::DataSync => 1,
        StableHow::FileSync => 2,
    }
}

/// Whether the answered level, if any, promises at least what was asked.
fn reaches(asked: StableHow, answered: Option<StableHow>) -> bool
    ensures { result ≡ reaches asked answered }
{
    match answered {
        None => true,
        Some(level) => rank(asked) <= rank(level),
    }
}

/// These bytes go to a file at an offset.
fn write_at<'a>(
    nodes: &Nodes,
    object: u64,
    file: &File,
    offset: u64,
    added: &'a [u8],
) -> Result<ObjectChange<'a>, StepFault>
    requires { length added.now < 2 ^ 32 }
    ensures { (path : Names) → entry_of nodes.now object ≡ Some (path, record { object = object; content = contents.File file.now })
        → Plans nodes.now result (write_at (record { path = path; object = object; file = file.now }) offset added.now) }
{
    if added.is_empty() {
        return Ok(ObjectChange::Keep);
    }
    if !is_within_limit(file.bytes.len() as usize, offset, added.len()) {
        return Err(StepFault::NotAllowed);
    }
    Ok(ObjectChange::Write {
        object,
        offset,
        bytes: added,
    })
}

/// What the call makes of the tree, where it wrote this count of bytes and reached this level.
pub(crate) fn write_change<'a>(
    view: &View<'_>,
    call: &'a WriteArguments,
    count: u32,
    level: Option<StableHow>,
) -> Result<ObjectChange<'a>, StepFault>
    ensures { Plans view.now.nodes.now result (write_change view.now.binds.now view.now.nodes.now call.now count level) }
{
    let Some(entry) = file_of(view, &call.file) else {
        return Err(StepFault::NotAllowed);
    };
    let asked = call.bytes.as_slice();
    if count <= call.count && count as usize <= asked.len() && reaches(call.level, level) {
        write_at(
            view.nodes,
            entry.object,
            entry.file,
            call.offset,
            front(asked, count as usize),
        )
    } else {
        Err(StepFault::NotAllowed)
    }
}
