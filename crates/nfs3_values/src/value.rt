//! Values that stand in messages: how each is read from the front, and appended.

ghost use Rattle.std.specs.Prelude.{◌≡◌, ◌++◌, Some, OnOk};
ghost use Rattle.xdr_records.specs.Grammar.Grammar.{one_word};
ghost use Rattle.nfs3_values.specs.Told.{kind_of, Reads};

use crate::fault::{Kind, MessageFault};
use nfs3_types::{Held, Optional};
use std::alloc::{AllocError, Global};
use xdr_records::{Reader, XdrFault, put_flag, put_u32, put_u64};

/// A value that has a layout in messages.
pub trait XdrValue: Drop {
    ghost use Rattle.std.specs.Prelude.{List, ℕ, ◌≡◌, ◌++◌, OnOk};
    ghost use Rattle.xdr_records.specs.Grammar.{Grammar};
    ghost use Rattle.xdr_records.specs.Spelling.{Spells};
    ghost use Rattle.nfs3_values.specs.declared.fault.Kind.{Kind};

    // Which bytes are the value.
    ghost grammar: { Grammar Kind Self };

    // The bytes that are written of it.
    ghost text: { Self → List ℕ };

    // What a value of the program can be.
    ghost fits: { Self → Type 0 };

    /// The value at the front of what is left. Nothing is allocated before its bytes are there.
    fn read(alloc: Global, reader: &mut Reader<'_>) -> Result<Self, MessageFault>
        ensures { Reads grammar reader.old reader.new result };

    /// Appends the value.
    fn put(&self, out: &mut Vec<u8>) -> Result<(), AllocError>
        ensures ok { OnOk result (out.new.items ≡ out.old.items ++ text self.now) }
        ensures fits { OnOk result (fits self.now) };

    // What is written is a spelling of the value.
    ghost spelled: { (x : Self) → fits x → Spells grammar (text x) x };
}

/// The fault of an item that begins at `at`.
pub fn fault_at(at: usize, fault: XdrFault) -> MessageFault
    ensures { result ≡ MessageFault.BadMessage at (kind_of fault) }
{
    let kind = match fault {
        XdrFault::Short => Kind::Short,
        XdrFault::BadFlag => Kind::BadFlag,
        XdrFault::TooLong => Kind::TooLong,
        XdrFault::Trailing => Kind::Trailing,
    };
    MessageFault::BadMessage { at, kind }
}

/// The fault of a word at `at` that is outside its list.
pub fn bad_enum(at: usize) -> MessageFault
    ensures { result ≡ MessageFault.BadMessage at Kind.BadEnum }
{
    MessageFault::BadMessage {
        at,
        kind: Kind::BadEnum,
    }
}

/// The word at the front of what is left.
pub fn read_word(reader: &mut Reader<'_>) -> Result<u32, MessageFault>
    ensures { Reads one_word reader.old reader.new result }
{
    let at = reader.offset();
    reader.u32().map_err(|fault| fault_at(at, fault))
}

impl XdrValue for u32 {
    ghost use Rattle.std.specs.Prelude.{◌<◌, ◌^◌};
    ghost use Rattle.xdr_records.specs.Grammar.Grammar.{one_word};
    ghost use Rattle.xdr_records.specs.Texts.{word_text};
    ghost use Rattle.xdr_records.proofs.Written.{word_spelled};

    ghost grammar = { one_word };

    ghost text = { word_text };

    ghost fits = { λ n. n < 2 ^ 32 };

    fn read(_alloc: Global, reader: &mut Reader<'_>) -> Result<u32, MessageFault> {
        read_word(reader)
    }

    fn put(&self, out: &mut Vec<u8>) -> Result<(), AllocError> {
        put_u32(out, *self)
    }

    ghost spelled = { word_spelled };
}

impl XdrValue for u64 {
    ghost use Rattle.std.specs.Prelude.{◌<◌, ◌^◌};
    ghost use Rattle.xdr_records.specs.Grammar.Grammar.{one_long};
    ghost use Rattle.xdr_records.specs.Texts.{long_text};
    ghost use Rattle.xdr_records.proofs.Written.{long_spelled};

    ghost grammar = { one_long };

    ghost text = { long_text };

    ghost fits = { λ n. n < 2 ^ 64 };

    fn read(_alloc: Global, reader: &mut Reader<'_>) -> Result<u64, MessageFault> {
        let at = reader.offset();
        reader.u64().map_err(|fault| fault_at(at, fault))
    }

    fn put(&self, out: &mut Vec<u8>) -> Result<(), AllocError> {
        put_u64(out, *self)
    }

    ghost spelled = { long_spelled };
}

impl XdrValue for bool {
    ghost use Rattle.xdr_records.specs.Grammar.Grammar.{one_flag};
    ghost use Rattle.xdr_records.specs.Texts.{flag_text};
    ghost use Rattle.xdr_records.proofs.Written.{flag_spelled};

    ghost grammar = { one_flag };

    ghost text = { flag_text };

    ghost fits = { λ _. Unit {0} };

    fn read(_alloc: Global, reader: &mut Reader<'_>) -> Result<bool, MessageFault> {
        let at = reader.offset();
        reader.flag().map_err(|fault| fault_at(at, fault))
    }

    fn put(&self, out: &mut Vec<u8>) -> Result<(), AllocError> {
        put_flag(out, *self)
    }

    ghost spelled = { λ flag _. flag_spelled flag };
}

impl<T: XdrValue> XdrValue for Option<T> {
    ghost use Rattle.std.specs.Prelude.{IfSome};
    ghost use Rattle.xdr_records.specs.Texts.{optional_text};
    ghost use Rattle.nfs3_values.specs.Bytes.{optional_of};
    ghost use Rattle.nfs3_values.specs.Spelled.{optional_of_spelled};

    ghost grammar = { optional_of T.grammar };

    ghost text = { optional_text T.text };

    ghost fits = { λ value. IfSome value T.fits };

    #[tactic(auto, unfolding(crate::specs::Bytes::optional_of))]
    fn read(alloc: Global, reader: &mut Reader<'_>) -> Result<Option<T>, MessageFault> {
        if bool::read(alloc, reader)? {
            Ok(Some(T::read(alloc, reader)?))
        } else {
            Ok(None)
        }
    }

    #[tactic(auto, unfolding(xdr_records::specs::Texts::optional_text))]
    fn put(&self, out: &mut Vec<u8>) -> Result<(), AllocError> {
        match self {
            Some(value) => {
                put_flag(out, true)?;
                value.put(out)
            }
            None => put_flag(out, false),
        }
    }

    ghost spelled = { optional_of_spelled T.grammar T.text T.fits T.spelled };
}

impl<T: XdrValue> XdrValue for Optional<T> {
    ghost use Rattle.std.specs.Prelude.{IfSome};
    ghost use Rattle.xdr_records.specs.Texts.{optional_text};
    ghost use Rattle.nfs3_values.specs.Bytes.{optional_of};
    ghost use Rattle.nfs3_values.specs.Spelled.{optional_of_spelled};

    ghost grammar = { optional_of T.grammar };

    ghost text = { optional_text T.text };

    ghost fits = { λ value. IfSome value T.fits };

    #[tactic(auto, unfolding(crate::specs::Bytes::optional_of))]
    fn read(alloc: Global, reader: &mut Reader<'_>) -> Result<Optional<T>, MessageFault> {
        if bool::read(alloc, reader)? {
            let value = T::read(alloc, reader)?;
            Ok(Optional::some(alloc, value)?)
        } else {
            Ok(Optional::none())
        }
    }

    #[tactic(auto, unfolding(xdr_records::specs::Texts::optional_text))]
    fn put(&self, out: &mut Vec<u8>) -> Result<(), AllocError> {
        let value = self.as_ref();
        put_flag(out, value.is_some())?;
        match value {
            Some(value) => value.put(out),
            None => Ok(()),
        }
    }

    ghost spelled = { optional_of_spelled T.grammar T.text T.fits T.spelled };
}

impl<T: XdrValue> XdrValue for Held<T> {
    ghost grammar = { T.grammar };

    ghost text = { T.text };

    ghost fits = { T.fits };

    fn read(alloc: Global, reader: &mut Reader<'_>) -> Result<Held<T>, MessageFault> {
        let value = T::read(alloc, reader)?;
        Ok(Held::new(alloc, value)?)
    }

    fn put(&self, out: &mut Vec<u8>) -> Result<(), AllocError> {
        let value: &T = self;
        value.put(out)
    }

    ghost spelled = { T.spelled };
}
