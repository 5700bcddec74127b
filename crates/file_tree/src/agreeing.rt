//! Whether the attributes that a reply carries are those of the objects before and after the call.

ghost use Rattle.std.specs.Prelude.{◌≡◌, ℕ, IsSome, Some, true};
ghost use Rattle.std.specs.Option.{option_map_or};
ghost use Rattle.std.specs.List.{list_all};
ghost use Rattle.reply_attributes.specs.declared.role.Role.TheVariants.{Second};
ghost use Rattle.tree_answers.specs.Asked.{first_place, second_handle};
ghost use Rattle.tree_nodes.specs.Numbered.{IsNumbered};
ghost use Rattle.tree_nodes.specs.Place.{path_of};
ghost use Rattle.tree_answers.specs.tree_handles_specs.Standing.{place_of};
ghost use Rattle.file_tree.specs.Change.{Change};
ghost use Rattle.file_tree.specs.Planning.{Does};
ghost use Rattle.file_tree.specs.Strict.{is_size, fits, had_size, told_at, handle_agrees, answer_agrees, entry_agrees, entries_agree, agrees};
ghost use Rattle.file_tree.specs.AtPlace.{IsAtPlace};
ghost use Rattle.file_tree.specs.Success.{changed, change_received};

use crate::object_change::ObjectChange;
use crate::told::{told, told_after, told_at, told_of};
use nfs3_types::{DirectoryEntryPlus, DirectoryName, FileHandle, NfsCall, NfsReply};
use reply_attributes::{Role, entries_of, post_attr, pre_size, type_and_size};
use tree_answers::tree_handles::{View, directory_of, entry_at};
use tree_answers::{first_handle, first_place, second_handle};
use tree_nodes::Nodes;

/// Whether a size is a file's length.
fn is_size(length: Option<u64>, size: u64) -> bool
    ensures { result ≡ is_size length size }
{
    match length {
        Some(length) => size == length,
        None => true,
    }
}

/// Whether attributes are those of what stands, if anything does.
fn fits(stands: Option<(u32, Option<u64>)>, attributes: Option<(u32, u64)>) -> bool
    ensures { result ≡ fits stands attributes }
{
    match (stands, attributes) {
        (Some((kind, length)), Some((of_kind, size))) => of_kind == kind && is_size(length, size),
        _ => true,
    }
}

/// Whether what stood, if anything did, had such a size.
fn had_size(stood: Option<(u32, Option<u64>)>, size: Option<u64>) -> bool
    ensures { result ≡ had_size stood size }
{
    match (stood, size) {
        (Some((_, length)), Some(size)) => is_size(length, size),
        _ => true,
    }
}

/// Whether the object of a handle had the size and has the attributes that the reply gives for it.
fn handle_agrees(
    view: &View<'_>,
    plan: &ObjectChange<'_>,
    reply: &NfsReply,
    role: Role,
    handle: &FileHandle,
) -> bool
    requires { IsNumbered view.now.nodes.now }
    ensures { (change : Change) → Does view.now.nodes.now plan.now change
        → result ≡ handle_agrees view.now.binds.now view.now.nodes.now (changed view.now.nodes.now change) reply.now role handle.now }
{
    let Some(object) = view.binds.object(handle.as_slice()) else {
        return true;
    };
    had_size(told_of(view.nodes, object), pre_size(reply, role))
        && fits(told_after(view.nodes, plan, object), post_attr(reply, role))
}

/// The same of the second directory of a RENAME.
fn second_agrees(view: &View<'_>, plan: &ObjectChange<'_>, call: &NfsCall, reply: &NfsReply) -> bool
    requires { IsNumbered view.now.nodes.now }
    ensures { (change : Change) → Does view.now.nodes.now plan.now change → result
        ≡ option_map_or (handle_agrees view.now.binds.now view.now.nodes.now (changed view.now.nodes.now change) reply.now Second) (second_handle call.now) true }
{
    match second_handle(call) {
        Some(handle) => handle_agrees(view, plan, reply, Role::Second, handle),
        None => true,
    }
}

/// What is told of the object at the place that the call names, after a change that puts it there.
fn told_put(
    view: &View<'_>,
    plan: &ObjectChange<'_>,
    place: &DirectoryName,
) -> Option<(u32, Option<u64>)>
    requires { IsNumbered view.now.nodes.now }
    ensures { (change : Change) → Does view.now.nodes.now plan.now change → IsAtPlace view.now.binds.now view.now.nodes.now place.now change
        → result ≡ told_at view.now.binds.now (changed view.now.nodes.now change) place.now }
{
    match plan {
        ObjectChange::Keep => told_at(view, place),
        ObjectChange::Make { node, .. } => told_after(view.nodes, plan, node.object),
        ObjectChange::Write { object, .. } => told_after(view.nodes, plan, *object),
        ObjectChange::Resize { object, .. } => told_after(view.nodes, plan, *object),
        ObjectChange::Remove { .. } | ObjectChange::Rename { .. } => None,
    }
}

/// Whether the object at the place that the call names has the attributes that the reply gives for it.
fn answer_agrees(view: &View<'_>, plan: &ObjectChange<'_>, call: &NfsCall, reply: &NfsReply) -> bool
    requires { IsNumbered view.now.nodes.now }
    ensures { (number : ℕ) (change : Change) → change_received view.now.binds.now view.now.nodes.now number call.now reply.now ≡ Some change
        → Does view.now.nodes.now plan.now change
        → result ≡ option_map_or (answer_agrees view.now.binds.now (changed view.now.nodes.now change) reply.now) (first_place call.now) true }
{
    let Some(place) = first_place(call) else {
        return true;
    };
    match post_attr(reply, Role::Answer) {
        Some(attributes) => fits(told_put(view, plan, place), Some(attributes)),
        None => true,
    }
}

/// Whether the object of an entry has the attributes that are given beside it.
fn entry_agrees(nodes: &Nodes, directory: u64, entry: &DirectoryEntryPlus) -> bool
    requires { IsSome (path_of nodes.now directory) }
    ensures { result ≡ entry_agrees nodes.now (place_of nodes.now directory) entry.now }
{
    let (Some(node), Some(attributes)) = (
        entry_at(nodes, directory, entry.name.as_slice()),
        entry.attributes.as_ref(),
    ) else {
        return true;
    };
    fits(Some(told(&node.content)), Some(type_and_size(attributes)))
}

/// Whether each one has.
fn all_agree(nodes: &Nodes, directory: u64, entries: &[DirectoryEntryPlus]) -> bool
    requires { IsSome (path_of nodes.now directory) }
    ensures { result ≡ list_all (entry_agrees nodes.now (place_of nodes.now directory)) entries.now }
{
    for entry in entries {
        if !entry_agrees(nodes, directory, entry) {
            return false;
        }
    }
    true
}

/// Whether the entries of a READDIRPLUS agree with a tree.
fn entries_agree(view: &View<'_>, reply: &NfsReply, handle: &FileHandle) -> bool
    ensures { result ≡ entries_agree view.now.binds.now view.now.nodes.now reply.now handle.now }
{
    match directory_of(view, handle) {
        Some(directory) => all_agree(view.nodes, directory, entries_of(reply)),
        None => true,
    }
}

/// Whether all attributes that a reply carries agree with the tree as it stands and with the tree after the call's change, which
/// isn't carried out yet. It takes no memory: a few look-ups, and one for each entry of a READDIRPLUS.
pub(crate) fn agrees_after(
    view: &View<'_>,
    plan: &ObjectChange<'_>,
    call: &NfsCall,
    reply: &NfsReply,
) -> bool
    ensures { (number : ℕ) (change : Change) → change_received view.now.binds.now view.now.nodes.now number call.now reply.now ≡ Some change
        → Does view.now.nodes.now plan.now change
        → result ≡ agrees view.now.binds.now view.now.nodes.now (changed view.now.nodes.now change) call.now reply.now }
{
    // Of the tree this says that each object stands once.
    let _count = view.nodes.count();
    let first = first_handle(call);
    if !handle_agrees(view, plan, reply, Role::First, first) {
        return false;
    }
    if !second_agrees(view, plan, call, reply) {
        return false;
    }
    if !answer_agrees(view, plan, call, reply) {
        return false;
    }
    entries_agree(view, reply, first)
}
