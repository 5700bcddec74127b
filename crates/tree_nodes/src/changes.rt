//! Objects that come to the table, go or move. What can fail of a change comes before all that it makes: first the pages that it touches
//! are asked for, and a directory whose names are to change is held open while another one's change.

ghost use Rattle.std.specs.Prelude.{◌≡◌, ◌+◌, ◌<◌, ◌^◌, ℕ, List, length, IsSome, IfOk, OnOk, OnErr, Some, None};
ghost use Rattle.std.specs.FinMap as map;
ghost use Rattle.tree_stores.specs.Books.{IsOwn};
ghost use Rattle.tree_nodes.specs.Changes.{Adds, Cuts, Shifts};
ghost use Rattle.tree_nodes.specs.Walk.{Held};
ghost use Rattle.tree_nodes.specs.Table.{child, placed, held};
ghost use Rattle.tree_nodes.specs.TableChanges.{IsSame, HasName, HasTwoNames, ShiftsOver};

use crate::bytes::Bytes;
use crate::node::Node;
use crate::table::{Body, Entry, Place, parent_of};
use std::alloc::{AllocError, Global};
use std::mem::replace;
use tree_stores::{Names, Pages, Shared, Slots};

/// Has a name in an object lead to another one.
fn put_name(body: &mut Shared<Body>, name: &[u8], object: u64) -> Result<(), AllocError>
    ensures ok { OnOk result (body.new ≡ record body.old { names = map.insert body.old.names name.now object }) }
    ensures err { OnErr result (body.new ≡ body.old) }
{
    let body = body.get_mut()?;
    body.names.insert(name, object)
}

/// Takes a name out of an object.
fn take_name(body: &mut Shared<Body>, name: &[u8]) -> Result<(), AllocError>
    ensures ok { OnOk result (body.new ≡ record body.old { names = map.remove body.old.names name.now }) }
    ensures err { OnErr result (body.new ≡ body.old) }
{
    let body = body.get_mut()?;
    body.names.remove(name);
    Ok(())
}

/// Has a name in a directory lead to an object.
fn set_name(
    pages: &mut Pages<Entry>,
    directory: u64,
    name: &[u8],
    object: u64,
) -> Result<(), AllocError>
    requires own { IsOwn pages.old directory }
    requires stands { IsSome (held pages.old.map directory) }
    ensures ok { OnOk result (HasName directory name.now (Some object) pages.old.map pages.new.map) }
    ensures err { OnErr result (pages.new.map ≡ pages.old.map) }
    ensures kept { (other : ℕ) → IsOwn pages.old other → IsOwn pages.new other }
{
    let Some(mut entry) = pages.take(directory) else {
        unreachable!()
    };
    let set = put_name(&mut entry.body, name, object);
    pages.put(directory, entry);
    set
}

/// Takes a name out of a directory.
fn drop_name(pages: &mut Pages<Entry>, directory: u64, name: &[u8]) -> Result<(), AllocError>
    requires own { IsOwn pages.old directory }
    requires stands { IsSome (held pages.old.map directory) }
    ensures ok { OnOk result (HasName directory name.now None pages.old.map pages.new.map) }
    ensures err { OnErr result (pages.new.map ≡ pages.old.map) }
    ensures kept { (other : ℕ) → IsOwn pages.old other → IsOwn pages.new other }
{
    let Some(mut entry) = pages.take(directory) else {
        unreachable!()
    };
    let dropped = take_name(&mut entry.body, name);
    pages.put(directory, entry);
    dropped
}

/// Puts an object that isn't there under a name of a directory, on pages that have their slots to themselves.
fn add_in(
    pages: &mut Pages<Entry>,
    name: &[u8],
    object: u64,
    entry: Entry,
) -> Result<(), AllocError>
    requires own { IsOwn pages.old object × IsOwn pages.old entry.parent }
    requires stands { IsSome (held pages.old.map entry.parent) }
    requires new { held pages.old.map object ≡ None }
    requires name { name.now ≡ entry.body.name }
    requires bare { entry.body.names ≡ map.empty }
    ensures ok { OnOk result (Adds entry.parent entry.body.name object entry.body.node (child pages.old.map) (child pages.new.map) (held pages.old.map) (held pages.new.map)) }
    ensures len { OnOk result (map.len pages.new.map ≡ map.len pages.old.map + 1) }
    ensures err { OnErr result (pages.new.map ≡ pages.old.map) }
{
    set_name(pages, entry.parent, name, object)?;
    pages.put(object, entry);
    Ok(())
}

/// Puts an object that isn't there under a name of a directory.
pub(crate) fn add(
    entries: &mut Slots<Entry>,
    alloc: Global,
    directory: u64,
    name: &[u8],
    node: Node,
) -> Result<(), AllocError>
    requires stands { IsSome (held entries.old directory) }
    requires new { held entries.old node.object ≡ None }
    requires short { length name.now < 2 ^ 32 }
    ensures ok { OnOk result (Adds directory name.now node.object node (child entries.old) (child entries.new) (held entries.old) (held entries.new)) }
    ensures len { OnOk result (map.len entries.new ≡ map.len entries.old + 1) }
    ensures err { OnErr result (IsSame entries.old entries.new) }
{
    let object = node.object;
    let body = Body {
        name: Bytes::from_slice(alloc, name)?,
        node,
        names: Names::new(alloc),
    };
    let entry = Entry {
        parent: directory,
        body: Shared::new(alloc, body)?,
    };
    let pages = entries.pages_mut();
    pages.own(object)?;
    pages.own(directory)?;
    let added = add_in(pages, name, object, entry);
    pages.share(object);
    pages.share(directory);
    added
}

/// Takes an object with no names in it out, on pages that have their slots to themselves.
fn cut_in(pages: &mut Pages<Entry>, object: u64, directory: u64) -> Result<Entry, AllocError>
    requires own { IsOwn pages.old object × IsOwn pages.old directory }
    requires stands { (h : Held) × (held pages.old.map object ≡ Some h) × (h.0 ≡ directory) × (directory ≡ object → ⊥) × IsSome (held pages.old.map directory) }
    requires bare { (name : List ℕ) → child pages.old.map object name ≡ None }
    ensures entry { IfOk result (λ entry. held pages.old.map object ≡ Some (placed entry)) }
    ensures ok { IfOk result (λ entry. Cuts entry.parent entry.body.name object (child pages.old.map) (child pages.new.map) (held pages.old.map) (held pages.new.map)) }
    ensures len { OnOk result (map.len pages.new.map + 1 ≡ map.len pages.old.map) }
    ensures err { OnErr result (pages.new.map ≡ pages.old.map) }
{
    let Some(entry) = pages.take(object) else {
        unreachable!()
    };
    match drop_name(pages, directory, entry.body.get().name.as_slice()) {
        Ok(()) => Ok(entry),
        Err(fault) => {
            pages.put(object, entry);
            Err(fault)
        }
    }
}

/// Takes an object with no names in it out, and gives it.
pub(crate) fn cut(entries: &mut Slots<Entry>, object: u64) -> Result<Entry, AllocError>
    requires stands { (h : Held) × (held entries.old object ≡ Some h) × (h.0 ≡ object → ⊥) × IsSome (held entries.old h.0) }
    requires bare { (name : List ℕ) → child entries.old object name ≡ None }
    ensures entry { IfOk result (λ entry. held entries.old object ≡ Some (placed entry)) }
    ensures ok { IfOk result (λ entry. Cuts entry.parent entry.body.name object (child entries.old) (child entries.new) (held entries.old) (held entries.new)) }
    ensures len { OnOk result (map.len entries.new + 1 ≡ map.len entries.old) }
    ensures err { OnErr result (IsSame entries.old entries.new) }
{
    let Some(directory) = parent_of(entries, object) else {
        unreachable!()
    };
    let pages = entries.pages_mut();
    pages.own(object)?;
    pages.own(directory)?;
    let cut = cut_in(pages, object, directory);
    pages.share(object);
    pages.share(directory);
    cut
}

/// Has a name of an object lead to another one in place of the name that did.
fn swap_names(
    body: &mut Shared<Body>,
    old: &[u8],
    new: &[u8],
    object: u64,
) -> Result<(), AllocError>
    ensures ok { OnOk result (body.new ≡ record body.old { names = map.remove (map.insert body.old.names new.now object) old.now }) }
    ensures err { OnErr result (body.new ≡ body.old) }
{
    let body = body.get_mut()?;
    body.names.insert(new, object)?;
    body.names.remove(old);
    Ok(())
}

/// Has a name in one directory lead to an object, and takes its name out of another one, which is held open meanwhile.
fn trade_names(
    pages: &mut Pages<Entry>,
    body: &mut Shared<Body>,
    old: &[u8],
    place: &Place,
    object: u64,
) -> Result<(), AllocError>
    requires own { IsOwn pages.old place.now.parent }
    requires stands { IsSome (held pages.old.map place.now.parent) }
    ensures ok { OnOk result (HasName place.now.parent place.now.name (Some object) pages.old.map pages.new.map) }
    ensures body { OnOk result (body.new ≡ record body.old { names = map.remove body.old.names old.now }) }
    ensures err { OnErr result (pages.new.map ≡ pages.old.map) }
    ensures same { OnErr result (body.new ≡ body.old) }
    ensures kept { (other : ℕ) → IsOwn pages.old other → IsOwn pages.new other }
{
    let body = body.get_mut()?;
    set_name(pages, place.parent, place.name.as_slice(), object)?;
    body.names.remove(old);
    Ok(())
}

/// Has a name in a directory lead to an object in place of its name in another one, or in the same.
fn move_name(
    pages: &mut Pages<Entry>,
    directory: u64,
    old: &[u8],
    place: &Place,
    object: u64,
) -> Result<(), AllocError>
    requires own { IsOwn pages.old directory × IsOwn pages.old place.now.parent }
    requires stands { IsSome (held pages.old.map directory) × IsSome (held pages.old.map place.now.parent) }
    requires apart { place.now.parent ≡ directory → place.now.name ≡ old.now → ⊥ }
    ensures ok { OnOk result (HasTwoNames directory old.now place.now.parent place.now.name object pages.old.map pages.new.map) }
    ensures err { OnErr result (pages.new.map ≡ pages.old.map) }
    ensures kept { (other : ℕ) → IsOwn pages.old other → IsOwn pages.new other }
{
    let Some(mut entry) = pages.take(directory) else {
        unreachable!()
    };
    if place.parent == directory {
        let moved = swap_names(&mut entry.body, old, place.name.as_slice(), object);
        pages.put(directory, entry);
        return moved;
    }
    let moved = trade_names(pages, &mut entry.body, old, place, object);
    pages.put(directory, entry);
    moved
}

/// Has an object that was taken out lie elsewhere, and gives where it lay.
fn move_entry(
    pages: &mut Pages<Entry>,
    entry: &mut Entry,
    place: Place,
    object: u64,
) -> Result<Place, AllocError>
    requires own { IsOwn pages.old entry.old.parent × IsOwn pages.old place.parent }
    requires stands { IsSome (held pages.old.map entry.old.parent) × IsSome (held pages.old.map place.parent) }
    requires apart { place.parent ≡ entry.old.parent → place.name ≡ entry.old.body.name → ⊥ }
    ensures before { IfOk result (λ before. (before.parent ≡ entry.old.parent) × (before.name ≡ entry.old.body.name)) }
    ensures names { OnOk result (HasTwoNames entry.old.parent entry.old.body.name place.parent place.name object pages.old.map pages.new.map) }
    ensures entry { OnOk result ((entry.new.parent ≡ place.parent) × (entry.new.body ≡ record entry.old.body { name = place.name })) }
    ensures err { OnErr result (pages.new.map ≡ pages.old.map) }
    ensures same { OnErr result (entry.new ≡ entry.old) }
    ensures kept { (other : ℕ) → IsOwn pages.old other → IsOwn pages.new other }
{
    let parent = entry.parent;
    let body = entry.body.get_mut()?;
    move_name(pages, parent, body.name.as_slice(), &place, object)?;
    let name = replace(&mut body.name, place.name);
    entry.parent = place.parent;
    Ok(Place { parent, name })
}

/// Puts an object under another name, on pages that have their slots to themselves, and gives where it lay.
fn shift_in(pages: &mut Pages<Entry>, object: u64, place: Place) -> Result<Place, AllocError>
    requires own { IsOwn pages.old object × IsOwn pages.old place.parent }
    requires stands { (h : Held) × (held pages.old.map object ≡ Some h) × IsSome (held pages.old.map h.0) × (place.parent ≡ h.0 → place.name ≡ h.1 → ⊥) × IsOwn pages.old h.0 × (h.0 ≡ object → ⊥) }
    requires directory { IsSome (held pages.old.map place.parent) × (place.parent ≡ object → ⊥) }
    ensures before { IfOk result (λ before. (h : Held) → held pages.old.map object ≡ Some h → (before.parent ≡ h.0) × (before.name ≡ h.1)) }
    ensures ok { IfOk result (λ before. Shifts object before.parent before.name place.parent place.name (child pages.old.map) (child pages.new.map) (held pages.old.map) (held pages.new.map)) }
    ensures len { map.len pages.new.map ≡ map.len pages.old.map }
    ensures err { OnErr result (pages.new.map ≡ pages.old.map) }
    ensures kept { (other : ℕ) → IsOwn pages.old other → IsOwn pages.new other }
{
    let Some(mut entry) = pages.take(object) else {
        unreachable!()
    };
    let before = move_entry(pages, &mut entry, place, object);
    pages.put(object, entry);
    before
}

/// Puts an object under another name, and gives where it lay. What lay there loses its name, but stays in the table.
pub(crate) fn shift(
    entries: &mut Slots<Entry>,
    object: u64,
    place: Place,
) -> Result<Place, AllocError>
    requires stands { (h : Held) × (held entries.old object ≡ Some h) × IsSome (held entries.old h.0) × (place.parent ≡ h.0 → place.name ≡ h.1 → ⊥) }
    requires directory { IsSome (held entries.old place.parent) }
    ensures before { IfOk result (λ before. (h : Held) → held entries.old object ≡ Some h → (before.parent ≡ h.0) × (before.name ≡ h.1)) }
    ensures ok { IfOk result (λ before. Shifts object before.parent before.name place.parent place.name (child entries.old) (child entries.new) (held entries.old) (held entries.new)) }
    ensures len { map.len entries.new ≡ map.len entries.old }
    ensures err { OnErr result (IsSame entries.old entries.new) }
{
    let Some(directory) = parent_of(entries, object) else {
        unreachable!()
    };
    // An object lies in no name of its own: no clause says so here.
    if directory == object || place.parent == object {
        return Err(AllocError);
    }
    let target = place.parent;
    let pages = entries.pages_mut();
    pages.own(object)?;
    pages.own(directory)?;
    pages.own(target)?;
    let before = shift_in(pages, object, place);
    pages.share(object);
    pages.share(directory);
    pages.share(target);
    before
}

/// The same, and takes out the object that lay there.
fn shift_over_in(
    pages: &mut Pages<Entry>,
    object: u64,
    place: Place,
    other: u64,
) -> Result<(Place, Option<Entry>), AllocError>
    requires own { IsOwn pages.old object × IsOwn pages.old place.parent × IsOwn pages.old other }
    requires stands { (h : Held) × (held pages.old.map object ≡ Some h) × IsSome (held pages.old.map h.0) × (place.parent ≡ h.0 → place.name ≡ h.1 → ⊥) × IsOwn pages.old h.0 × (h.0 ≡ object → ⊥) }
    requires directory { IsSome (held pages.old.map place.parent) × (place.parent ≡ object → ⊥) }
    ensures ok { IfOk result (λ moved. ShiftsOver object moved.0 place.parent place.name other moved.1 pages.old.map pages.new.map) }
    ensures err { OnErr result (pages.new.map ≡ pages.old.map) }
{
    let before = shift_in(pages, object, place)?;
    let gone = pages.take(other);
    Ok((before, gone))
}

/// Puts an object under the name of another one, and gives where it lay, and that one.
pub(crate) fn shift_over(
    entries: &mut Slots<Entry>,
    object: u64,
    place: Place,
    other: u64,
) -> Result<(Place, Option<Entry>), AllocError>
    requires stands { (h : Held) × (held entries.old object ≡ Some h) × IsSome (held entries.old h.0) × (place.parent ≡ h.0 → place.name ≡ h.1 → ⊥) }
    requires directory { IsSome (held entries.old place.parent) }
    ensures ok { IfOk result (λ moved. ShiftsOver object moved.0 place.parent place.name other moved.1 entries.old entries.new) }
    ensures err { OnErr result (IsSame entries.old entries.new) }
{
    let Some(directory) = parent_of(entries, object) else {
        unreachable!()
    };
    // An object lies in no name of its own: no clause says so here.
    if directory == object || place.parent == object {
        return Err(AllocError);
    }
    let target = place.parent;
    let pages = entries.pages_mut();
    pages.own(object)?;
    pages.own(directory)?;
    pages.own(target)?;
    pages.own(other)?;
    let moved = shift_over_in(pages, object, place, other);
    pages.share(object);
    pages.share(directory);
    pages.share(target);
    pages.share(other);
    moved
}
