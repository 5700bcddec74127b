//! Which calls may succeed in a tree with some reply.

ghost use Rattle.std.specs.Prelude.{◌≡◌, IfOk, Option, None, false, is_some};
ghost use Rattle.std.specs.Option.{option_copied, option_map_or};
ghost use Rattle.tree_nodes.specs.Tree.{Tree};
ghost use Rattle.tree_nodes.specs.declared.node.Node.{Node};
ghost use Rattle.tree_answers.specs.tree_handles_specs.Kind.{is_link};
ghost use Rattle.tree_answers.specs.tree_handles_specs.Live.{live_entry};
ghost use Rattle.file_tree.specs.Change.{Change};
ghost use Rattle.file_tree.specs.Planning.{Plans};
ghost use Rattle.file_tree.specs.Success.{change_taken};
ghost use Rattle.file_tree.specs.Allows.{may_be_found, may_succeed};

use crate::object_change::ObjectChange;
use crate::success::change_taken;
use nfs3_types::{DirectoryName, FileHandle, NfsCall};
use replay_law::StepFault;
use std::alloc::{AllocError, Global};
use tree_answers::object_named;
use tree_answers::tree_handles::{View, directory_of, file_of, is_link, live_entry};

/// A LOOKUP finds an object that has a handle.
fn may_be_found(view: &View<'_>, place: &DirectoryName) -> bool
    ensures { result ≡ may_be_found view.now.binds.now view.now.nodes.now place.now }
{
    let Some(directory) = directory_of(view, &place.directory) else {
        return false;
    };
    match object_named(view.nodes, directory, place.name.as_slice()) {
        Some(object) => view.binds.names(object),
        None => false,
    }
}

/// A handle names a link.
fn names_link(view: &View<'_>, handle: &FileHandle) -> bool
    ensures { result ≡ option_map_or (λ e. is_link e.1.content) (live_entry view.now.binds.now view.now.nodes.now handle.now) false }
{
    match live_entry(view, handle) {
        Some(node) => is_link(&node.content),
        None => false,
    }
}

/// Whether there is a plan.
fn is_planned(plan: Result<ObjectChange<'_>, StepFault>) -> Result<bool, AllocError>
    ensures { (tree : Tree) (change : Option Change) → Plans tree plan.entry change → IfOk result (λ planned. planned ≡ is_some change) }
{
    match plan {
        Ok(plan) => {
            drop(plan);
            Ok(true)
        }
        Err(StepFault::NotAllowed) => Ok(false),
        Err(StepFault::NoMemory) => Err(AllocError),
    }
}

/// Whether some success of the call leads to a tree.
pub(crate) fn may_succeed(
    alloc: Global,
    view: &View<'_>,
    number: u64,
    call: &NfsCall,
) -> Result<bool, AllocError>
    ensures { IfOk result (λ allowed. allowed ≡ may_succeed view.now.binds.now view.now.nodes.now number call.now) }
{
    match call {
        NfsCall::GetAttr(object) => Ok(live_entry(view, object).is_some()),
        NfsCall::Lookup(place) => Ok(may_be_found(view, place)),
        NfsCall::ReadLink(link) => Ok(names_link(view, link)),
        NfsCall::Read(call) => Ok(file_of(view, &call.file).is_some()),
        NfsCall::Write(call) => Ok(file_of(view, &call.file).is_some()),
        NfsCall::Commit(call) => Ok(file_of(view, &call.file).is_some()),
        NfsCall::ReadDir(call) => Ok(directory_of(view, &call.directory).is_some()),
        NfsCall::ReadDirPlus(call) => Ok(directory_of(view, &call.directory).is_some()),
        NfsCall::Create(_)
        | NfsCall::SetAttr(_)
        | NfsCall::MkDir(_)
        | NfsCall::SymLink(_)
        | NfsCall::Remove(_)
        | NfsCall::RmDir(_)
        | NfsCall::Rename(_) => is_planned(change_taken(alloc, view, number, call, None)),
    }
}
