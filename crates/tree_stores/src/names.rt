//! The names in a directory, with the numbers of their objects.

ghost use Rattle.std.specs.Prelude.{◌≡◌, ◌==◌, true, false, length, None, IfOk, OnOk, OnErr};
ghost use Rattle.std.specs.FinMap as map;
ghost use Rattle.std.specs.FinMap.Entries.{find, put};
ghost use Rattle.tree_stores.specs.Names.{name_cmp, pairs_of};
ghost use Rattle.tree_stores.specs.Places.{IsKept, HasRoom, without};

mod few;
mod iter;
mod long;
mod short;
mod short_name;

use few::Named;
pub use iter::Iter;
use iter::Walk;
use short_name::{SHORT_LIMIT, ShortName};
use std::alloc::{AllocError, Global};
use std::collections::BTreeMap;
use std::marker::Model;

/// How many names a vector holds at most.
const FEW: usize = 8;

/// The objects of names. Up to eight stand in a vector, with no place to spare; from the ninth on they stand in a tree, and a
/// look-up and a change take logarithmic time. Names of up to 23 bytes stand in the vector and in the tree's nodes themselves,
/// until a longer one comes to a tree. A contract sees the map from names to objects.
pub struct Names {
    alloc: Global,
    store: Store,
}

/// Where the names stand.
#[derive(Drop)]
pub(crate) enum Store {
    Few(Vec<Named>),
    /// Many, none of which is long.
    Short(BTreeMap<ShortName, u64>),
    Long(BTreeMap<Vec<u8>, u64>),
}

impl Drop for Names {
    fn drop(self) {
        let Names { alloc: _, store } = self;
        drop(store);
    }
}

impl Model for Names {
    ghost use Rattle.std.specs.Prelude.{ℕ};
    ghost use Rattle.std.specs.Coded.{coded_ℕ, coded_list};
    ghost use Rattle.std.specs.FinMap as finite;
    ghost use Rattle.tree_stores.specs.Names.{Objects, pairs_of};
    ghost use Rattle.tree_stores.specs.Places.{IsKept};

    ghost Value = { Objects };

    ghost coded = { finite.code (coded_list coded_ℕ) coded_ℕ };

    ghost view = { λ n. finite.from_sorted (pairs_of n.store) };

    ghost invariant = { λ n. IsKept n.store };
}

impl Store {
    fn object_of(&self, name: &[u8]) -> Option<u64>
        requires { IsKept self.now }
        ensures { result ≡ find name_cmp name.now (pairs_of self.now) }
    {
        match self {
            Store::Few(few) => few::object_of(few.as_slice(), name),
            Store::Short(many) => short::object_of(many, name),
            Store::Long(many) => long::object_of(many, name),
        }
    }

    fn is_empty(&self) -> bool
        ensures { result ≡ (length (pairs_of self.now) == 0) }
    {
        match self {
            Store::Few(few) => few.is_empty(),
            Store::Short(many) => many.is_empty(),
            Store::Long(many) => many.is_empty(),
        }
    }

    fn iter(&self) -> Iter<'_>
        ensures { result ≡ pairs_of self.now }
    {
        let walk = match self {
            Store::Few(few) => Walk::Few(few.as_slice()),
            Store::Short(many) => Walk::Short(many.iter()),
            Store::Long(many) => Walk::Long(many.iter()),
        };
        Iter { walk }
    }

    /// Whether one more name has room in this form, or is there.
    fn has_room(&self, name: &[u8]) -> bool
        requires { IsKept self.now }
        ensures room { result ≡ true → HasRoom self.now name.now }
        ensures absent { result ≡ false → find name_cmp name.now (pairs_of self.now) ≡ None }
    {
        match self {
            Store::Few(few) => few.len() < FEW || few::object_of(few.as_slice(), name).is_some(),
            Store::Short(_) => name.len() <= SHORT_LIMIT,
            Store::Long(_) => true,
        }
    }

    /// The same names in a tree that has room for one more.
    fn grown(&self, alloc: Global, name: &[u8]) -> Result<Store, AllocError>
        requires { IsKept self.now }
        ensures same { IfOk result (λ store. pairs_of store ≡ pairs_of self.now) }
        ensures kept { IfOk result IsKept }
        ensures room { IfOk result (λ store. HasRoom store name.now) }
    {
        if name.len() <= SHORT_LIMIT {
            if let Some(many) = short::copy_of(alloc, self.iter())? {
                return Ok(Store::Short(many));
            }
        }
        Ok(Store::Long(long::copy_of(alloc, self.iter())?))
    }

    /// The same names in the same form.
    fn copy(&self, alloc: Global) -> Result<Store, AllocError>
        requires { IsKept self.now }
        ensures same { IfOk result (λ store. pairs_of store ≡ pairs_of self.now) }
        ensures kept { IfOk result IsKept }
    {
        match self {
            Store::Few(few) => Ok(Store::Few(few::copy_of(few.as_slice(), alloc)?)),
            Store::Short(many) => Ok(Store::Short(many.clone()?)),
            Store::Long(_) => Ok(Store::Long(long::copy_of(alloc, self.iter())?)),
        }
    }

    /// Moves the names to another form, where this one has no room for a name that isn't there.
    fn make_room(&mut self, alloc: Global, name: &[u8]) -> Result<(), AllocError>
        requires { IsKept self.old }
        ensures same { pairs_of self.new ≡ pairs_of self.old }
        ensures kept { IsKept self.new }
        ensures room { OnOk result (HasRoom self.new name.now) }
        ensures absent { OnErr result (find name_cmp name.now (pairs_of self.old) ≡ None) }
    {
        if !self.has_room(name) {
            *self = self.grown(alloc, name)?;
        }
        Ok(())
    }

    fn put(&mut self, alloc: Global, name: &[u8], object: u64) -> Result<(), AllocError>
        requires kept { IsKept self.old }
        requires room { HasRoom self.old name.now }
        ensures ok { OnOk result (pairs_of self.new ≡ put name_cmp name.now object (pairs_of self.old)) }
        ensures absent { OnErr result (find name_cmp name.now (pairs_of self.old) ≡ None) }
        ensures err { OnErr result (pairs_of self.new ≡ pairs_of self.old) }
        ensures kept { IsKept self.new }
    {
        match self {
            Store::Few(few) => few::put(few, alloc, name, object),
            Store::Short(many) => short::put(many, name, object),
            Store::Long(many) => long::put(many, alloc, name, object),
        }
    }

    fn remove(&mut self, name: &[u8])
        requires { IsKept self.old }
        ensures same { pairs_of self.new ≡ without name.now (pairs_of self.old) }
        ensures kept { IsKept self.new }
    {
        match self {
            Store::Few(few) => few::remove(few, name),
            Store::Short(many) => short::remove(many, name),
            Store::Long(many) => long::remove(many, name),
        }
    }
}

impl Names {
    /// No names. It takes no memory.
    pub fn new(alloc: Global) -> Names
        ensures { result ≡ map.empty }
    {
        Names {
            alloc,
            store: Store::Few(Vec::new(alloc)),
        }
    }

    /// The same names.
    pub fn copy(&self) -> Result<Names, AllocError>
        ensures { IfOk result (λ names. names ≡ self.now) }
    {
        Ok(Names {
            alloc: self.alloc,
            store: self.store.copy(self.alloc)?,
        })
    }

    /// Whether there are no names.
    pub fn is_empty(&self) -> bool
        ensures { result ≡ (map.len self.now == 0) }
    {
        self.store.is_empty()
    }

    /// The names with their objects, in the names' order.
    pub fn iter(&self) -> Iter<'_>
        ensures { result ≡ map.entries self.now }
    {
        self.store.iter()
    }

    /// The object of a name.
    pub fn get(&self, name: &[u8]) -> Option<u64>
        ensures { result ≡ map.get self.now name.now }
    {
        self.store.object_of(name)
    }

    /// Gives a name an object. It fails only where the name isn't there.
    pub fn insert(&mut self, name: &[u8], object: u64) -> Result<(), AllocError>
        ensures updates { OnOk result (self.new ≡ map.insert self.old name.now object) }
        ensures absent { OnErr result (map.get self.old name.now ≡ None) }
        ensures err { OnErr result (self.new ≡ self.old) }
    {
        self.store.make_room(self.alloc, name)?;
        self.store.put(self.alloc, name, object)
    }

    /// Takes a name out, if it is there.
    pub fn remove(&mut self, name: &[u8])
        ensures { self.new ≡ map.remove self.old name.now }
    {
        self.store.remove(name);
    }
}
