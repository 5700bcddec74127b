//! Handles of objects that aren't there yet.

ghost use Rattle.tree_laws.specs.LaterBinds.{HandleWaits};

/// One more handle, of an object that the tree doesn't hold, changes nothing: each call comes out as it did, in the same tree,
/// but for one after which the object is there, such as the CREATE that gives the handle. A handle that named
/// an object before keeps it.
pub fn a_handle_waits_for_its_object()
    ensures { HandleWaits }
{}
