//! The directories in the root that clients work below.

use crate::stamp::hex_letter;

/// What a client works on with one call.
#[derive(Clone, Copy, PartialEq, Eq)]
pub enum Realm {
    /// What is below its own directory.
    Private,
    /// What is below the directories that are used by all.
    Shared,
    /// What is below the directory whose names are used by all.
    Race,
}

/// A directory in the root, which a client works below.
#[derive(Clone, Copy, PartialEq, Eq)]
pub enum Base {
    /// The client's own.
    Home,
    /// The first of the two that all clients use, each with names of its own.
    First,
    /// The second of the two.
    Second,
    /// The one in which all clients use the same names.
    Contest,
}

/// All of them.
pub const BASES: [Base; 4] = [Base::Home, Base::First, Base::Second, Base::Contest];

/// The two digits of a client's number.
pub(crate) fn digits(client: u32) -> [u8; 2] {
    let number = (client % 256) as u8;
    [hex_letter(number / 16), hex_letter(number % 16)]
}

impl Base {
    /// Its name, in the calls of a client.
    pub(crate) fn text(self, client: u32) -> [u8; 7] {
        match self {
            Base::Home => {
                let [high, low] = digits(client);
                [b'h', b'o', b'm', b'e', b'-', high, low]
            }
            Base::First => *b"shared1",
            Base::Second => *b"shared2",
            Base::Contest => *b"contest",
        }
    }

    /// What is worked on below it.
    pub fn realm(self) -> Realm {
        match self {
            Base::Home => Realm::Private,
            Base::First | Base::Second => Realm::Shared,
            Base::Contest => Realm::Race,
        }
    }

    /// The one of this name, to a client.
    pub fn of(name: &[u8], client: u32) -> Option<Base> {
        for base in BASES {
            if base.text(client).as_slice() == name {
                return Some(base);
            }
        }
        None
    }
}
