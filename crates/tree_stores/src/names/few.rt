//! A few names, sorted in a vector.

ghost use Rattle.std.specs.Prelude.{◌≡◌, None, IfOk, IfErr, OnOk, OnErr};
ghost use Rattle.std.specs.FinMap.Entries.{find, put};
ghost use Rattle.tree_stores.specs.Names.{name_cmp, listed};
ghost use Rattle.tree_stores.specs.Places.{IsInOrder, IsAt, IsGap, without};

use nfs3_types::ShortBytes;
use std::alloc::{AllocError, Global};

/// A name with its object.
#[derive(Drop)]
pub(crate) struct Named {
    pub(crate) name: ShortBytes,
    pub(crate) object: u64,
}

/// The index of a name, or the one where it belongs.
fn search(few: &[Named], name: &[u8]) -> Result<usize, usize>
    requires { IsInOrder (listed few.now) }
    ensures found { IfOk result (IsAt few.now name.now) }
    ensures absent { IfErr result (IsGap few.now name.now) }
{
    few.binary_search_by(|named| named.name.as_slice().cmp(name))
}

/// The object of a name. It looks at one name behind the other: they stand side by side in memory, where each step of a binary
/// search would wait for the one before.
pub(crate) fn object_of(few: &[Named], name: &[u8]) -> Option<u64>
    ensures { result ≡ find name_cmp name.now (listed few.now) }
{
    for named in few {
        if name == named.name.as_slice() {
            return Some(named.object);
        }
    }
    None
}

/// The same names.
pub(crate) fn copy_of(few: &[Named], alloc: Global) -> Result<Vec<Named>, AllocError>
    ensures { IfOk result (λ copies. copies.items ≡ few.now) }
{
    let mut copies = Vec::with_capacity(alloc, few.len())?;
    for named in few {
        copies.push(Named {
            name: named.name.clone()?,
            object: named.object,
        })?;
    }
    Ok(copies)
}

/// Gives a name an object.
pub(crate) fn put(
    few: &mut Vec<Named>,
    alloc: Global,
    name: &[u8],
    object: u64,
) -> Result<(), AllocError>
    requires { IsInOrder (listed few.old.items) }
    ensures ok { OnOk result (listed few.new.items ≡ put name_cmp name.now object (listed few.old.items)) }
    ensures absent { OnErr result (find name_cmp name.now (listed few.old.items) ≡ None) }
    ensures err { OnErr result (few.new.items ≡ few.old.items) }
{
    match search(few.as_slice(), name) {
        Ok(index) => few[index].object = object,
        Err(index) => {
            few.reserve_exact(1)?;
            let name = ShortBytes::from_slice(alloc, name)?;
            few.insert(index, Named { name, object })?;
        }
    }
    Ok(())
}

/// Takes a name out, if it is there.
pub(crate) fn remove(few: &mut Vec<Named>, name: &[u8])
    requires { IsInOrder (listed few.old.items) }
    ensures { listed few.new.items ≡ without name.now (listed few.old.items) }
{
    if let Ok(index) = search(few.as_slice(), name) {
        few.remove(index);
    }
}
