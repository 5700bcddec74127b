//! The objects whose bytes calls show or change.

ghost use Rattle.std.specs.Prelude.{◌≡◌, option_map};
ghost use Rattle.std.specs.Option.{option_copied};
ghost use Rattle.alike_calls.specs.Alike.{sets_size, entry_read_or_set, object_touched};

use decision_steps::is_failure;
use nfs3_types::{CreateMode, NfsCall, Outcome};
use tree_handles::{View, live_entry, named};
use tree_nodes::Node;

/// Whether a CREATE sets the size of a file that it finds.
fn sets_size(mode: &CreateMode) -> bool
    ensures { result ≡ sets_size mode.now }
{
    match mode {
        CreateMode::Unchecked(attributes) => attributes.size.is_some(),
        CreateMode::Guarded(_) | CreateMode::Exclusive(_) => false,
    }
}

/// The node whose bytes, or how many they are, a success of a call shows or changes, if there is one.
fn node_read_or_set<'a>(view: &View<'a>, call: &NfsCall) -> Option<&'a Node>
    ensures { option_copied result ≡ option_map (λ e. e.1) (entry_read_or_set view.now.binds.now view.now.nodes.now call.now) }
{
    match call {
        NfsCall::GetAttr(object) => live_entry(view, object),
        NfsCall::SetAttr(call) => {
            if call.attributes.size.is_some() {
                live_entry(view, &call.object)
            } else {
                None
            }
        }
        NfsCall::Read(call) => live_entry(view, &call.file),
        NfsCall::Write(call) => live_entry(view, &call.file),
        NfsCall::Create(call) => {
            if sets_size(&call.mode) {
                named(view, &call.place)
            } else {
                None
            }
        }
        _ => None,
    }
}

/// The object whose bytes, or how many they are, a call that came out so shows or changes, if there is one.
pub(crate) fn object_touched(view: &View<'_>, call: &NfsCall, outcome: &Outcome) -> Option<u64>
    ensures { result ≡ object_touched view.now.binds.now view.now.nodes.now call.now outcome.now }
{
    if is_failure(outcome) {
        return None;
    }
    Some(node_read_or_set(view, call)?.object)
}
