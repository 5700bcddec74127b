//! Binds that give handles the objects that others give them.

ghost use Rattle.std.specs.Prelude.{◌≡◌, true, map, IsTrue};
ghost use Rattle.tree_handles.specs.Agreement.{agrees, is_kept, AgreesAt, AllAgree, OwnAgree};

use crate::binds::Binds;
use crate::padded::at;
use crate::short_handle::ShortHandle;

/// Whether the first object, if there is one, is the second.
pub(crate) fn is_kept(object: Option<u64>, other: Option<u64>) -> bool
    ensures { result ≡ is_kept object other }
{
    match object {
        Some(object) => match other {
            Some(named) => named == object,
            None => false,
        },
        None => true,
    }
}

/// Whether what a handle names, if anything, is what it names there. It is likely to stand at this place in both.
fn agrees_near(binds: &Binds, other: &Binds, handle: &[u8], place: usize) -> bool
    ensures { result ≡ agrees binds.now other.now handle.now }
{
    is_kept(
        binds.object_near(handle, place),
        other.object_near(handle, place),
    )
}

/// Whether it is so of a handle that is a number, if this one is taken.
fn agrees_if_taken(taken: bool, binds: &Binds, other: &Binds, handle: &[u8]) -> bool
    ensures { IsTrue result → IsTrue taken → agrees binds.now other.now handle.now ≡ true }
{
    if !taken {
        return true;
    }
    agrees_near(binds, other, handle, 0)
}

/// Whether it is so of a handle that has this object by its place, if any: that is what it names, unless it is the root's or a number.
fn agrees_at(object: Option<u64>, binds: &Binds, other: &Binds, handle: &[u8], place: usize) -> bool
    ensures { IsTrue result → AgreesAt binds.now other.now handle.now object }
{
    if object.is_none() || is_kept(object, other.object_near(handle, place)) {
        return true;
    }
    agrees_near(binds, other, handle, place)
}

/// Whether it is so of each handle that is a number.
pub(crate) fn all_own_agree(binds: &Binds, other: &Binds, taken: &[bool]) -> bool
    ensures { IsTrue result → OwnAgree binds.now other.now taken.now }
{
    for number in 0..taken.len() {
        let handle = (number as u64).to_be_bytes();
        if !agrees_if_taken(taken[number], binds, other, handle.as_slice()) {
            return false;
        }
    }
    true
}

/// Whether it is so of each of these short handles, by their places.
pub(crate) fn all_short_agree(
    binds: &Binds,
    other: &Binds,
    handles: &[ShortHandle],
    objects: &[Option<u64>],
) -> bool
    ensures { IsTrue result → AllAgree binds.now other.now handles.now objects.now }
{
    for place in 0..handles.len() {
        let handle = handles[place].as_slice();
        let object = at(objects, None, place);
        if !agrees_at(object, binds, other, handle, place) {
            return false;
        }
    }
    true
}

/// Whether it is so of each of these long handles, by their places.
pub(crate) fn all_long_agree(
    binds: &Binds,
    other: &Binds,
    handles: &[Vec<u8>],
    objects: &[Option<u64>],
) -> bool
    ensures { IsTrue result → AllAgree binds.now other.now (map (λ handle. handle.items) handles.now) objects.now }
{
    for place in 0..handles.len() {
        let handle = handles[place].as_slice();
        let object = at(objects, None, place);
        if !agrees_at(object, binds, other, handle, place) {
            return false;
        }
    }
    true
}
