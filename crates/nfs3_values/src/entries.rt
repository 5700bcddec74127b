//! The entries of a directory, as they stand in a reply.

ghost use Rattle.std.specs.Prelude.{◌≡◌};

use crate::fault::{Kind, MessageFault};
use crate::value::XdrValue;
use nfs3_types::ItemList;
use std::alloc::{AllocError, Global};
use xdr_records::{Reader, put_flag};

// The fault of a list that doesn't end.
fn short(reader: &Reader<'_>) -> MessageFault
    ensures { result ≡ MessageFault.BadMessage reader.now.at Kind.Short }
{
    MessageFault::BadMessage {
        at: reader.offset(),
        kind: Kind::Short,
    }
}

impl<E: XdrValue> XdrValue for ItemList<E> {
    ghost use Rattle.std.specs.List.{AllByRecursion};
    ghost use Rattle.xdr_records.specs.Texts.{list_text};
    ghost use Rattle.nfs3_values.specs.Bytes.{entries};
    ghost use Rattle.nfs3_values.specs.Spelled.{entries_spelled};

    ghost grammar = { entries E.grammar };

    ghost text = { list_text E.text };

    ghost fits = { λ listed. AllByRecursion E.fits listed };

    #[tactic(auto, unfolding(crate::specs::Bytes::entries))]
    fn read(alloc: Global, reader: &mut Reader<'_>) -> Result<ItemList<E>, MessageFault> {
        let mut listed = Vec::new(alloc);
        let count = reader.left();
        for index in 0..count {
            if !bool::read(alloc, reader)? {
                return Ok(ItemList::new(listed));
            }
            listed.push(E::read(alloc, reader)?)?;
        }
        Err(short(reader))
    }

    fn put(&self, out: &mut Vec<u8>) -> Result<(), AllocError> {
        for entry in self.as_slice() {
            put_flag(out, true)?;
            entry.put(out)?;
        }
        put_flag(out, false)
    }

    ghost spelled = { entries_spelled E.grammar E.text E.fits E.spelled };
}
