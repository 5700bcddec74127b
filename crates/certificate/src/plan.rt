//! The values that a certificate holds. A contract sees each list as the list of its items.

ghost use Rattle.std.specs.Prelude.{◌≡◌};
ghost use Rattle.certificate.specs.Plan.{call_of};

use nfs3_types::{FileHandle, ItemList};

/// A handle, and the number of the object that it names.
#[derive(Drop)]
pub struct Bind {
    /// The handle, of 1 to 64 bytes where it is read from a text.
    pub handle: FileHandle,
    /// The object's number: 0 for the root, k for starting object k, s + n for what call n made where s objects stood at first.
    pub object: u64,
}

/// A call's place in the serial order.
#[derive(Clone, Copy, PartialEq, Eq)]
pub enum Place {
    /// Call n, with the reply that it was given.
    Answered(u64),
    /// Call n, which got no reply and yet took effect; of a WRITE, how many bytes it wrote.
    Taken(u64, Option<u32>),
}

impl Place {
    /// The number of its call.
    pub fn number(self) -> u64
        ensures { result ≡ call_of self }
    {
        match self {
            Place::Answered(number) | Place::Taken(number, _) => number,
        }
    }
}

/// What is said of one era, the part of a history between two crashes.
#[derive(Drop)]
pub struct EraPlan {
    /// The era's places, in the serial order.
    pub places: ItemList<Place>,
    /// How many of the places survived the crash that ended the era; the last era has none.
    pub cut: Option<u64>,
}

/// A certificate, which is a claim: nothing in it is trusted.
pub struct Certificate {
    /// Which object each handle names, in the order of the handles.
    pub binds: ItemList<Bind>,
    /// The places and the cut of each era, in order.
    pub eras: ItemList<EraPlan>,
}

impl Drop for Certificate {
    fn drop(self) {
        let Certificate { binds, eras } = self;
        drop(binds);
        drop(eras);
    }
}
