//! The items of a history file, and what is wrong where one can't be read.

ghost use Rattle.std.specs.Prelude.{◌≡◌};
ghost use Rattle.xdr_records.specs.Grammar.Grammar.{one_word, one_long, one_opaque};
ghost use Rattle.xdr_records.specs.Reading.{Answers};
ghost use Rattle.history_file.specs.Kinds.{kind_of};
ghost use Rattle.history_file.specs.FileReading.{told, reading_of};

use crate::fault::FileFault;
use std::alloc::{AllocError, AllocFailed};
use xdr_records::{Reader, XdrFault};

/// Why an item can't be read, and where it stands.
#[derive(Clone, Copy)]
pub enum ItemFault {
    /// The fault, and how many bytes stand between the magic and its item.
    Fault { at: usize, fault: FileFault },
    /// Memory ran out.
    NoMemory,
}

impl From<AllocError> for ItemFault {
    ghost use Rattle.std.specs.Prelude.{◌≡◌};
    ghost use Rattle.history_file.specs.declared.items.ItemFault.TheVariants.{NoMemory};

    ghost from_gives = { λ _ e. e ≡ NoMemory };

    fn from(_error: AllocError) -> ItemFault {
        ItemFault::NoMemory
    }
}

impl<T: Drop> From<AllocFailed<T>> for ItemFault {
    ghost use Rattle.std.specs.Prelude.{◌≡◌};
    ghost use Rattle.history_file.specs.declared.items.ItemFault.TheVariants.{NoMemory};

    ghost from_gives = { λ _ e. e ≡ NoMemory };

    fn from(_error: AllocFailed<T>) -> ItemFault {
        ItemFault::NoMemory
    }
}

/// The fault of an item that stands here.
pub fn fault_at(at: usize, fault: XdrFault) -> ItemFault
    ensures { result ≡ ItemFault.Fault at (kind_of fault) }
{
    let fault = match fault {
        XdrFault::Short | XdrFault::BadFlag => FileFault::Truncated,
        XdrFault::TooLong => FileFault::TooLarge,
        XdrFault::Trailing => FileFault::Trailing,
    };
    ItemFault::Fault { at, fault }
}

/// A word.
pub fn word(reader: &mut Reader<'_>) -> Result<u32, ItemFault>
    ensures { Answers told (λ n. n) reader.new result (reading_of one_word reader.old) }
{
    let at = reader.offset();
    reader.u32().map_err(|fault| fault_at(at, fault))
}

/// Two words.
pub fn long(reader: &mut Reader<'_>) -> Result<u64, ItemFault>
    ensures { Answers told (λ n. n) reader.new result (reading_of one_long reader.old) }
{
    let at = reader.offset();
    reader.u64().map_err(|fault| fault_at(at, fault))
}

/// Bytes with their length before them, which is at most the limit.
pub fn opaque<'a>(reader: &mut Reader<'a>, limit: u32) -> Result<&'a [u8], ItemFault>
    ensures { Answers told (λ bytes. bytes.now) reader.new result (reading_of (one_opaque limit) reader.old) }
{
    let at = reader.offset();
    reader.opaque(limit).map_err(|fault| fault_at(at, fault))
}
