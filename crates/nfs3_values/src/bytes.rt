//! Byte strings and verifiers in messages.

use crate::fault::MessageFault;
use crate::value::{XdrValue, fault_at};
use nfs3_types::{Data, FileHandle, LinkText, Name, Verifier};
use std::alloc::{AllocError, Global};
use xdr_records::{Reader, put_opaque};

impl XdrValue for FileHandle {
    ghost use Rattle.std.specs.Prelude.{◌≤◌, length};
    ghost use Rattle.xdr_records.specs.Texts.{opaque_text};
    ghost use Rattle.nfs3_values.specs.Bytes.{handle};
    ghost use Rattle.nfs3_values.specs.Spelled.{handle_spelled};

    ghost grammar = { handle };

    ghost text = { opaque_text };

    ghost fits = { λ bytes. length bytes ≤ 64 };

    #[tactic(auto, unfolding(crate::specs::Bytes::handle))]
    fn read(alloc: Global, reader: &mut Reader<'_>) -> Result<FileHandle, MessageFault> {
        let at = reader.offset();
        match reader.opaque(64) {
            Ok(bytes) => Ok(FileHandle::from_slice(alloc, bytes)?),
            Err(fault) => Err(fault_at(at, fault)),
        }
    }

    fn put(&self, out: &mut Vec<u8>) -> Result<(), AllocError> {
        put_opaque(out, self.as_slice())
    }

    ghost spelled = { handle_spelled };
}

impl XdrValue for Name {
    ghost use Rattle.std.specs.Prelude.{◌<◌, ◌^◌, length};
    ghost use Rattle.xdr_records.specs.Texts.{opaque_text};
    ghost use Rattle.nfs3_values.specs.Bytes.{name};
    ghost use Rattle.nfs3_values.specs.Spelled.{name_spelled};

    ghost grammar = { name };

    ghost text = { opaque_text };

    ghost fits = { λ bytes. length bytes < 2 ^ 32 };

    #[tactic(auto, unfolding(crate::specs::Bytes::name))]
    fn read(alloc: Global, reader: &mut Reader<'_>) -> Result<Name, MessageFault> {
        let at = reader.offset();
        match reader.opaque(u32::MAX) {
            Ok(bytes) => Ok(Name::from_slice(alloc, bytes)?),
            Err(fault) => Err(fault_at(at, fault)),
        }
    }

    fn put(&self, out: &mut Vec<u8>) -> Result<(), AllocError> {
        put_opaque(out, self.as_slice())
    }

    ghost spelled = { name_spelled };
}

impl XdrValue for LinkText {
    ghost use Rattle.std.specs.Prelude.{◌<◌, ◌^◌, length};
    ghost use Rattle.xdr_records.specs.Texts.{opaque_text};
    ghost use Rattle.nfs3_values.specs.Bytes.{link_text};
    ghost use Rattle.nfs3_values.specs.Spelled.{link_text_spelled};

    ghost grammar = { link_text };

    ghost text = { opaque_text };

    ghost fits = { λ bytes. length bytes < 2 ^ 32 };

    #[tactic(auto, unfolding(crate::specs::Bytes::link_text))]
    fn read(alloc: Global, reader: &mut Reader<'_>) -> Result<LinkText, MessageFault> {
        let at = reader.offset();
        match reader.opaque(u32::MAX) {
            Ok(bytes) => Ok(LinkText::from_slice(alloc, bytes)?),
            Err(fault) => Err(fault_at(at, fault)),
        }
    }

    fn put(&self, out: &mut Vec<u8>) -> Result<(), AllocError> {
        put_opaque(out, self.as_slice())
    }

    ghost spelled = { link_text_spelled };
}

impl XdrValue for Data {
    ghost use Rattle.std.specs.Prelude.{◌<◌, ◌^◌, length};
    ghost use Rattle.xdr_records.specs.Texts.{opaque_text};
    ghost use Rattle.nfs3_values.specs.Bytes.{file_data};
    ghost use Rattle.nfs3_values.specs.Spelled.{file_data_spelled};

    ghost grammar = { file_data };

    ghost text = { opaque_text };

    ghost fits = { λ bytes. length bytes < 2 ^ 32 };

    #[tactic(auto, unfolding(crate::specs::Bytes::file_data))]
    fn read(alloc: Global, reader: &mut Reader<'_>) -> Result<Data, MessageFault> {
        let at = reader.offset();
        match reader.opaque(u32::MAX) {
            Ok(bytes) => Ok(Data::from_slice(alloc, bytes)?),
            Err(fault) => Err(fault_at(at, fault)),
        }
    }

    fn put(&self, out: &mut Vec<u8>) -> Result<(), AllocError> {
        put_opaque(out, self.as_slice())
    }

    ghost spelled = { file_data_spelled };
}

impl XdrValue for Verifier {
    ghost use Rattle.std.specs.Prelude.{◌<◌, ◌^◌};
    ghost use Rattle.nfs3_values.specs.Bytes.{verifier, verifier_text};
    ghost use Rattle.nfs3_values.specs.Spelled.{verifier_spelled};

    ghost grammar = { verifier };

    ghost text = { verifier_text };

    ghost fits = { λ v. v.value < 2 ^ 64 };

    #[tactic(auto, unfolding(crate::specs::Bytes::verifier))]
    fn read(alloc: Global, reader: &mut Reader<'_>) -> Result<Verifier, MessageFault> {
        let value = u64::read(alloc, reader)?;
        Ok(Verifier { value })
    }

    #[tactic(auto, unfolding(crate::specs::Bytes::verifier_text))]
    fn put(&self, out: &mut Vec<u8>) -> Result<(), AllocError> {
        self.value.put(out)
    }

    ghost spelled = { verifier_spelled };
}

impl XdrValue for () {
    ghost use Rattle.nfs3_values.specs.Bytes.{void, void_text};
    ghost use Rattle.nfs3_values.specs.Spelled.{void_spelled};

    ghost grammar = { void };

    ghost text = { void_text };

    ghost fits = { λ _. Unit {0} };

    #[tactic(auto, unfolding(crate::specs::Bytes::void))]
    fn read(_alloc: Global, _reader: &mut Reader<'_>) -> Result<(), MessageFault> {
        Ok(())
    }

    #[tactic(auto, unfolding(crate::specs::Bytes::void_text))]
    fn put(&self, _out: &mut Vec<u8>) -> Result<(), AllocError> {
        Ok(())
    }

    ghost spelled = { void_spelled };
}
