//! Many names of which some are long, in a sorted tree whose keys stand on the heap.

ghost use Rattle.std.specs.Prelude.{◌≡◌, None, IfOk, OnOk, OnErr};
ghost use Rattle.std.specs.FinMap.Entries.{find, put};
ghost use Rattle.tree_stores.specs.Names.{name_cmp, entered};
ghost use Rattle.tree_stores.specs.Places.{IsInOrder, without};

use crate::names::iter::Iter;
use std::alloc::{AllocError, Global};
use std::collections::BTreeMap;

/// These names in a tree.
pub(crate) fn copy_of(alloc: Global, names: Iter<'_>) -> Result<BTreeMap<Vec<u8>, u64>, AllocError>
    requires { IsInOrder names }
    ensures { IfOk result (λ many. entered (λ key. key.items) many.entries ≡ names.entry) }
{
    let mut many = BTreeMap::new(alloc);
    for (name, object) in names {
        put(&mut many, alloc, name, object)?;
    }
    Ok(many)
}

/// The object of a name.
pub(crate) fn object_of(many: &BTreeMap<Vec<u8>, u64>, name: &[u8]) -> Option<u64>
    ensures { result ≡ find name_cmp name.now (entered (λ key. key.items) many.now.entries) }
{
    many.get(name).copied()
}

/// Gives a name that is there another object.
fn replace(many: &mut BTreeMap<Vec<u8>, u64>, name: &[u8], object: u64) -> Result<(), AllocError>
    ensures ok { OnOk result (entered (λ key. key.items) many.new.entries ≡ put name_cmp name.now object (entered (λ key. key.items) many.old.entries)) }
    ensures absent { OnErr result (find name_cmp name.now (entered (λ key. key.items) many.old.entries) ≡ None) }
    ensures err { OnErr result (many.new.entries ≡ many.old.entries) }
{
    let Some(place) = many.get_mut(name) else {
        return Err(AllocError);
    };
    *place = object;
    Ok(())
}

/// Gives a name an object. One that is there gets it also where no memory is left for a key.
pub(crate) fn put(
    many: &mut BTreeMap<Vec<u8>, u64>,
    alloc: Global,
    name: &[u8],
    object: u64,
) -> Result<(), AllocError>
    ensures ok { OnOk result (entered (λ key. key.items) many.new.entries ≡ put name_cmp name.now object (entered (λ key. key.items) many.old.entries)) }
    ensures absent { OnErr result (find name_cmp name.now (entered (λ key. key.items) many.old.entries) ≡ None) }
    ensures err { OnErr result (many.new.entries ≡ many.old.entries) }
{
    let Ok(key) = Vec::from_slice(alloc, name) else {
        return replace(many, name, object);
    };
    let Ok(_) = many.insert(key, object) else {
        return Err(AllocError);
    };
    Ok(())
}

/// Takes a name out, if it is there.
pub(crate) fn remove(many: &mut BTreeMap<Vec<u8>, u64>, name: &[u8])
    requires { IsInOrder (entered (λ key. key.items) many.old.entries) }
    ensures { entered (λ key. key.items) many.new.entries ≡ without name.now (entered (λ key. key.items) many.old.entries) }
{
    many.remove(name);
}
