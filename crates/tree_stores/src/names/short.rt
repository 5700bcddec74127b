//! Many names none of which is long, in a sorted tree whose keys stand in its nodes.

ghost use Rattle.std.specs.Prelude.{◌≡◌, ◌≤◌, None, length, IfOk, IfSome, OnOk, OnErr};
ghost use Rattle.std.specs.FinMap.Entries.{find, put};
ghost use Rattle.tree_stores.specs.Names.{name_cmp, entered};
ghost use Rattle.tree_stores.specs.Places.{IsInOrder, AreShort, without};

use crate::names::iter::Iter;
use crate::names::short_name::{SHORT_LIMIT, ShortName};
use std::alloc::{AllocError, Global};
use std::collections::BTreeMap;

/// These names in a tree, where none of them is long.
pub(crate) fn copy_of(
    alloc: Global,
    names: Iter<'_>,
) -> Result<Option<BTreeMap<ShortName, u64>>, AllocError>
    requires { IsInOrder names }
    ensures same { IfOk result (λ tree. IfSome tree (λ many. entered (λ key. key) many.entries ≡ names.entry)) }
    ensures short { IfOk result (λ tree. IfSome tree (λ many. AreShort (entered (λ key. key) many.entries))) }
{
    let mut many = BTreeMap::new(alloc);
    for (name, object) in names {
        if name.len() > SHORT_LIMIT {
            return Ok(None);
        }
        put(&mut many, name, object)?;
    }
    Ok(Some(many))
}

/// The object of a name.
pub(crate) fn object_of(many: &BTreeMap<ShortName, u64>, name: &[u8]) -> Option<u64>
    requires { AreShort (entered (λ key. key) many.now.entries) }
    ensures { result ≡ find name_cmp name.now (entered (λ key. key) many.now.entries) }
{
    if name.len() > SHORT_LIMIT {
        return None;
    }
    many.get(&ShortName::from_slice(name)).copied()
}

/// Gives a name that isn't long an object.
pub(crate) fn put(
    many: &mut BTreeMap<ShortName, u64>,
    name: &[u8],
    object: u64,
) -> Result<(), AllocError>
    requires short { AreShort (entered (λ key. key) many.old.entries) }
    requires room { length name.now ≤ 23 }
    ensures ok { OnOk result (entered (λ key. key) many.new.entries ≡ put name_cmp name.now object (entered (λ key. key) many.old.entries)) }
    ensures absent { OnErr result (find name_cmp name.now (entered (λ key. key) many.old.entries) ≡ None) }
    ensures err { OnErr result (many.new.entries ≡ many.old.entries) }
    ensures short { AreShort (entered (λ key. key) many.new.entries) }
{
    let Ok(_) = many.insert(ShortName::from_slice(name), object) else {
        return Err(AllocError);
    };
    Ok(())
}

/// Takes a name out, if it is there.
pub(crate) fn remove(many: &mut BTreeMap<ShortName, u64>, name: &[u8])
    requires order { IsInOrder (entered (λ key. key) many.old.entries) }
    requires short { AreShort (entered (λ key. key) many.old.entries) }
    ensures same { entered (λ key. key) many.new.entries ≡ without name.now (entered (λ key. key) many.old.entries) }
    ensures short { AreShort (entered (λ key. key) many.new.entries) }
{
    if name.len() > SHORT_LIMIT {
        return;
    }
    many.remove(&ShortName::from_slice(name));
}
