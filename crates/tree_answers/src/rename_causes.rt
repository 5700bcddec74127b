//! Why a RENAME may fail (RFC 1813, section 3.3.14).

ghost use Rattle.std.specs.Prelude.{◌≡◌, option_and_then};
ghost use Rattle.std.specs.Option.{option_copied, option_map};
ghost use Rattle.nfs3_types.specs.declared.calls.NfsCall.TheVariants as calls;
ghost use Rattle.tree_handles.specs.tree_nodes_specs.Tree.{entry_of};
ghost use Rattle.tree_answers.specs.RenameCauses.{source_of, target_of, rename_onto_no_directory, rename_onto_directory, rename_onto_filled_directory, rename_below_itself};

use crate::name_causes::is_filled_directory;
use nfs3_types::{NfsCall, RenameArguments};
use tree_handles::tree_nodes::Node;
use tree_handles::{View, directory_of, is_directory, named};

/// The source of a RENAME.
fn source_of<'a>(view: &View<'a>, call: &NfsCall) -> Option<&'a Node>
    ensures node { option_copied result ≡ option_map (λ e. e.1) (source_of view.now.binds.now view.now.nodes.now call.now) }
    ensures place { option_and_then (λ n. entry_of view.now.nodes.now n.object) (option_copied result)
        ≡ source_of view.now.binds.now view.now.nodes.now call.now }
{
    match call {
        NfsCall::Rename(call) => named(view, &call.from),
        _ => None,
    }
}

/// The entry that stands at its target.
fn target_of<'a>(view: &View<'a>, call: &NfsCall) -> Option<&'a Node>
    ensures node { option_copied result ≡ option_map (λ e. e.1) (target_of view.now.binds.now view.now.nodes.now call.now) }
    ensures place { option_and_then (λ n. entry_of view.now.nodes.now n.object) (option_copied result)
        ≡ target_of view.now.binds.now view.now.nodes.now call.now }
{
    match call {
        NfsCall::Rename(call) => named(view, &call.to),
        _ => None,
    }
}

/// RENAME of a directory onto no directory.
pub(crate) fn rename_onto_no_directory(view: &View<'_>, call: &NfsCall) -> bool
    ensures { result ≡ rename_onto_no_directory view.now.binds.now view.now.nodes.now call.now }
{
    let Some(source) = source_of(view, call) else {
        return false;
    };
    let Some(target) = target_of(view, call) else {
        return false;
    };
    is_directory(&source.content) && !is_directory(&target.content)
}

/// RENAME of no directory onto a directory.
pub(crate) fn rename_onto_directory(view: &View<'_>, call: &NfsCall) -> bool
    ensures { result ≡ rename_onto_directory view.now.binds.now view.now.nodes.now call.now }
{
    let Some(source) = source_of(view, call) else {
        return false;
    };
    let Some(target) = target_of(view, call) else {
        return false;
    };
    !is_directory(&source.content) && is_directory(&target.content)
}

/// RENAME onto another directory that isn't empty.
pub(crate) fn rename_onto_filled_directory(view: &View<'_>, call: &NfsCall) -> bool
    ensures { result ≡ rename_onto_filled_directory view.now.binds.now view.now.nodes.now call.now }
{
    let Some(source) = source_of(view, call) else {
        return false;
    };
    let Some(target) = target_of(view, call) else {
        return false;
    };
    source.object != target.object && is_filled_directory(view.nodes, target)
}

/// Whether a directory is to go below itself.
fn leads_below_itself(view: &View<'_>, call: &RenameArguments) -> bool
    ensures { result ≡ rename_below_itself view.now.binds.now view.now.nodes.now (calls.Rename call.now) }
{
    let Some(source) = named(view, &call.from) else {
        return false;
    };
    let Some(directory) = directory_of(view, &call.to.directory) else {
        return false;
    };
    is_directory(&source.content) && view.nodes.is_from(directory, source.object)
}

/// RENAME of a directory to a path below itself.
pub(crate) fn rename_below_itself(view: &View<'_>, call: &NfsCall) -> bool
    ensures { result ≡ rename_below_itself view.now.binds.now view.now.nodes.now call.now }
{
    match call {
        NfsCall::Rename(call) => leads_below_itself(view, call),
        _ => false,
    }
}
