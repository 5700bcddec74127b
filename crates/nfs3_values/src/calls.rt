//! The arguments of the calls (RFC 1813, section 3.3).

use crate::fault::MessageFault;
use crate::value::{XdrValue, bad_enum, read_word};
use nfs3_types::{
    CommitArguments, CreateArguments, CreateMode, Data, DirectoryName, FileHandle, LinkText,
    MkDirArguments, Name, ReadArguments, ReadDirArguments, ReadDirPlusArguments, RenameArguments,
    SetAttrArguments, SetAttributes, StableHow, SymLinkArguments, Time, Verifier, WriteArguments,
};
use std::alloc::{AllocError, Global};
use xdr_records::{Reader, put_u32};

impl XdrValue for DirectoryName {
    ghost use Rattle.nfs3_values.specs.Calls.{directory_name, directory_name_text, DirectoryNameFits};
    ghost use Rattle.nfs3_values.specs.SpelledCalls.{directory_name_spelled};

    ghost grammar = { directory_name };

    ghost text = { directory_name_text };

    ghost fits = { DirectoryNameFits };

    #[tactic(auto, unfolding(crate::specs::Calls::directory_name))]
    fn read(alloc: Global, reader: &mut Reader<'_>) -> Result<DirectoryName, MessageFault> {
        let directory = FileHandle::read(alloc, reader)?;
        let name = Name::read(alloc, reader)?;
        Ok(DirectoryName { directory, name })
    }

    #[tactic(auto, unfolding(crate::specs::Calls::directory_name_text, crate::specs::Calls::DirectoryNameFits))]
    fn put(&self, out: &mut Vec<u8>) -> Result<(), AllocError> {
        self.directory.put(out)?;
        self.name.put(out)
    }

    ghost spelled = { directory_name_spelled };
}

impl XdrValue for StableHow {
    ghost use Rattle.xdr_records.specs.Grammar.Grammar.{named};
    ghost use Rattle.xdr_records.specs.Texts.{word_text};
    ghost use Rattle.nfs3_values.specs.Words.{stable_how_of, stable_how_word};
    ghost use Rattle.nfs3_values.specs.SpelledCalls.{stable_how_spelled};

    ghost grammar = { named stable_how_of };

    ghost text = { λ level. word_text (stable_how_word level) };

    ghost fits = { λ _. Unit {0} };

    #[tactic(auto, unfolding(crate::specs::Words::stable_how_of))]
    fn read(_alloc: Global, reader: &mut Reader<'_>) -> Result<StableHow, MessageFault> {
        let at = reader.offset();
        match read_word(reader)? {
            0 => Ok(StableHow::Unstable),
            1 => Ok(StableHow::DataSync),
            2 => Ok(StableHow::FileSync),
            _ => Err(bad_enum(at)),
        }
    }

    #[tactic(auto, unfolding(crate::specs::Words::stable_how_word))]
    fn put(&self, out: &mut Vec<u8>) -> Result<(), AllocError> {
        put_u32(out, *self as u32)
    }

    ghost spelled = { λ level _. stable_how_spelled level };
}

impl XdrValue for ReadArguments {
    ghost use Rattle.nfs3_values.specs.Calls.{read_arguments, read_arguments_text, ReadArgumentsFit};
    ghost use Rattle.nfs3_values.specs.SpelledCalls.{read_arguments_spelled};

    ghost grammar = { read_arguments };

    ghost text = { read_arguments_text };

    ghost fits = { ReadArgumentsFit };

    #[tactic(auto, unfolding(crate::specs::Calls::read_arguments))]
    fn read(alloc: Global, reader: &mut Reader<'_>) -> Result<ReadArguments, MessageFault> {
        let file = FileHandle::read(alloc, reader)?;
        let offset = u64::read(alloc, reader)?;
        let count = u32::read(alloc, reader)?;
        Ok(ReadArguments {
            file,
            offset,
            count,
        })
    }

    #[tactic(auto, unfolding(crate::specs::Calls::read_arguments_text, crate::specs::Calls::ReadArgumentsFit))]
    fn put(&self, out: &mut Vec<u8>) -> Result<(), AllocError> {
        self.file.put(out)?;
        self.offset.put(out)?;
        self.count.put(out)
    }

    ghost spelled = { read_arguments_spelled };
}

impl XdrValue for WriteArguments {
    ghost use Rattle.nfs3_values.specs.Calls.{write_arguments, write_arguments_text, WriteArgumentsFit};
    ghost use Rattle.nfs3_values.specs.SpelledCalls.{write_arguments_spelled};

    ghost grammar = { write_arguments };

    ghost text = { write_arguments_text };

    ghost fits = { WriteArgumentsFit };

    #[tactic(auto, unfolding(crate::specs::Calls::write_arguments))]
    fn read(alloc: Global, reader: &mut Reader<'_>) -> Result<WriteArguments, MessageFault> {
        let file = FileHandle::read(alloc, reader)?;
        let offset = u64::read(alloc, reader)?;
        let count = u32::read(alloc, reader)?;
        let level = StableHow::read(alloc, reader)?;
        let bytes = Data::read(alloc, reader)?;
        Ok(WriteArguments {
            file,
            offset,
            count,
            level,
            bytes,
        })
    }

    #[tactic(auto, unfolding(crate::specs::Calls::write_arguments_text, crate::specs::Calls::WriteArgumentsFit))]
    fn put(&self, out: &mut Vec<u8>) -> Result<(), AllocError> {
        self.file.put(out)?;
        self.offset.put(out)?;
        self.count.put(out)?;
        self.level.put(out)?;
        self.bytes.put(out)
    }

    ghost spelled = { write_arguments_spelled };
}

impl XdrValue for CreateMode {
    ghost use Rattle.nfs3_values.specs.EntryCalls.{create_mode, create_mode_text, CreateModeFits};
    ghost use Rattle.nfs3_values.specs.SpelledCalls.{create_mode_spelled};

    ghost grammar = { create_mode };

    ghost text = { create_mode_text };

    ghost fits = { CreateModeFits };

    #[tactic(auto, unfolding(crate::specs::EntryCalls::create_mode, crate::specs::Words::create_how_of))]
    fn read(alloc: Global, reader: &mut Reader<'_>) -> Result<CreateMode, MessageFault> {
        let at = reader.offset();
        match read_word(reader)? {
            0 => Ok(CreateMode::Unchecked(SetAttributes::read(alloc, reader)?)),
            1 => Ok(CreateMode::Guarded(SetAttributes::read(alloc, reader)?)),
            2 => Ok(CreateMode::Exclusive(Verifier::read(alloc, reader)?)),
            _ => Err(bad_enum(at)),
        }
    }

    #[tactic(auto, unfolding(crate::specs::EntryCalls::create_mode_text, crate::specs::EntryCalls::CreateModeFits))]
    fn put(&self, out: &mut Vec<u8>) -> Result<(), AllocError> {
        match self {
            CreateMode::Unchecked(attributes) => {
                put_u32(out, 0)?;
                attributes.put(out)
            }
            CreateMode::Guarded(attributes) => {
                put_u32(out, 1)?;
                attributes.put(out)
            }
            CreateMode::Exclusive(verifier) => {
                put_u32(out, 2)?;
                verifier.put(out)
            }
        }
    }

    ghost spelled = { create_mode_spelled };
}

impl XdrValue for CreateArguments {
    ghost use Rattle.nfs3_values.specs.EntryCalls.{create_arguments, create_arguments_text, CreateArgumentsFit};
    ghost use Rattle.nfs3_values.specs.SpelledCalls.{create_arguments_spelled};

    ghost grammar = { create_arguments };

    ghost text = { create_arguments_text };

    ghost fits = { CreateArgumentsFit };

    #[tactic(auto, unfolding(crate::specs::EntryCalls::create_arguments))]
    fn read(alloc: Global, reader: &mut Reader<'_>) -> Result<CreateArguments, MessageFault> {
        let place = DirectoryName::read(alloc, reader)?;
        let mode = CreateMode::read(alloc, reader)?;
        Ok(CreateArguments { place, mode })
    }

    #[tactic(auto, unfolding(crate::specs::EntryCalls::create_arguments_text, crate::specs::EntryCalls::CreateArgumentsFit))]
    fn put(&self, out: &mut Vec<u8>) -> Result<(), AllocError> {
        self.place.put(out)?;
        self.mode.put(out)
    }

    ghost spelled = { create_arguments_spelled };
}

impl XdrValue for SetAttrArguments {
    ghost use Rattle.nfs3_values.specs.Calls.{set_attr_arguments, set_attr_arguments_text, SetAttrArgumentsFit};
    ghost use Rattle.nfs3_values.specs.SpelledCalls.{set_attr_arguments_spelled};

    ghost grammar = { set_attr_arguments };

    ghost text = { set_attr_arguments_text };

    ghost fits = { SetAttrArgumentsFit };

    #[tactic(auto, unfolding(crate::specs::Calls::set_attr_arguments))]
    fn read(alloc: Global, reader: &mut Reader<'_>) -> Result<SetAttrArguments, MessageFault> {
        let object = FileHandle::read(alloc, reader)?;
        let attributes = SetAttributes::read(alloc, reader)?;
        let guard = Option::<Time>::read(alloc, reader)?;
        Ok(SetAttrArguments {
            object,
            attributes,
            guard,
        })
    }

    #[tactic(auto, unfolding(crate::specs::Calls::set_attr_arguments_text, crate::specs::Calls::SetAttrArgumentsFit))]
    fn put(&self, out: &mut Vec<u8>) -> Result<(), AllocError> {
        self.object.put(out)?;
        self.attributes.put(out)?;
        self.guard.put(out)
    }

    ghost spelled = { set_attr_arguments_spelled };
}

impl XdrValue for MkDirArguments {
    ghost use Rattle.nfs3_values.specs.EntryCalls.{mk_dir_arguments, mk_dir_arguments_text, MkDirArgumentsFit};
    ghost use Rattle.nfs3_values.specs.SpelledCalls.{mk_dir_arguments_spelled};

    ghost grammar = { mk_dir_arguments };

    ghost text = { mk_dir_arguments_text };

    ghost fits = { MkDirArgumentsFit };

    #[tactic(auto, unfolding(crate::specs::EntryCalls::mk_dir_arguments))]
    fn read(alloc: Global, reader: &mut Reader<'_>) -> Result<MkDirArguments, MessageFault> {
        let place = DirectoryName::read(alloc, reader)?;
        let attributes = SetAttributes::read(alloc, reader)?;
        Ok(MkDirArguments { place, attributes })
    }

    #[tactic(auto, unfolding(crate::specs::EntryCalls::mk_dir_arguments_text, crate::specs::EntryCalls::MkDirArgumentsFit))]
    fn put(&self, out: &mut Vec<u8>) -> Result<(), AllocError> {
        self.place.put(out)?;
        self.attributes.put(out)
    }

    ghost spelled = { mk_dir_arguments_spelled };
}

impl XdrValue for SymLinkArguments {
    ghost use Rattle.nfs3_values.specs.EntryCalls.{sym_link_arguments, sym_link_arguments_text, SymLinkArgumentsFit};
    ghost use Rattle.nfs3_values.specs.SpelledCalls.{sym_link_arguments_spelled};

    ghost grammar = { sym_link_arguments };

    ghost text = { sym_link_arguments_text };

    ghost fits = { SymLinkArgumentsFit };

    #[tactic(auto, unfolding(crate::specs::EntryCalls::sym_link_arguments))]
    fn read(alloc: Global, reader: &mut Reader<'_>) -> Result<SymLinkArguments, MessageFault> {
        let place = DirectoryName::read(alloc, reader)?;
        let attributes = SetAttributes::read(alloc, reader)?;
        let target = LinkText::read(alloc, reader)?;
        Ok(SymLinkArguments {
            place,
            attributes,
            target,
        })
    }

    #[tactic(auto, unfolding(crate::specs::EntryCalls::sym_link_arguments_text, crate::specs::EntryCalls::SymLinkArgumentsFit))]
    fn put(&self, out: &mut Vec<u8>) -> Result<(), AllocError> {
        self.place.put(out)?;
        self.attributes.put(out)?;
        self.target.put(out)
    }

    ghost spelled = { sym_link_arguments_spelled };
}

impl XdrValue for RenameArguments {
    ghost use Rattle.nfs3_values.specs.EntryCalls.{rename_arguments, rename_arguments_text, RenameArgumentsFit};
    ghost use Rattle.nfs3_values.specs.SpelledCalls.{rename_arguments_spelled};

    ghost grammar = { rename_arguments };

    ghost text = { rename_arguments_text };

    ghost fits = { RenameArgumentsFit };

    #[tactic(auto, unfolding(crate::specs::EntryCalls::rename_arguments))]
    fn read(alloc: Global, reader: &mut Reader<'_>) -> Result<RenameArguments, MessageFault> {
        let from = DirectoryName::read(alloc, reader)?;
        let to = DirectoryName::read(alloc, reader)?;
        Ok(RenameArguments { from, to })
    }

    #[tactic(auto, unfolding(crate::specs::EntryCalls::rename_arguments_text, crate::specs::EntryCalls::RenameArgumentsFit))]
    fn put(&self, out: &mut Vec<u8>) -> Result<(), AllocError> {
        self.from.put(out)?;
        self.to.put(out)
    }

    ghost spelled = { rename_arguments_spelled };
}

impl XdrValue for ReadDirArguments {
    ghost use Rattle.nfs3_values.specs.EntryCalls.{read_dir_arguments, read_dir_arguments_text, ReadDirArgumentsFit};
    ghost use Rattle.nfs3_values.specs.SpelledCalls.{read_dir_arguments_spelled};

    ghost grammar = { read_dir_arguments };

    ghost text = { read_dir_arguments_text };

    ghost fits = { ReadDirArgumentsFit };

    #[tactic(auto, unfolding(crate::specs::EntryCalls::read_dir_arguments))]
    fn read(alloc: Global, reader: &mut Reader<'_>) -> Result<ReadDirArguments, MessageFault> {
        let directory = FileHandle::read(alloc, reader)?;
        let cookie = u64::read(alloc, reader)?;
        let verifier = Verifier::read(alloc, reader)?;
        let count = u32::read(alloc, reader)?;
        Ok(ReadDirArguments {
            directory,
            cookie,
            verifier,
            count,
        })
    }

    #[tactic(auto, unfolding(crate::specs::EntryCalls::read_dir_arguments_text, crate::specs::EntryCalls::ReadDirArgumentsFit))]
    fn put(&self, out: &mut Vec<u8>) -> Result<(), AllocError> {
        self.directory.put(out)?;
        self.cookie.put(out)?;
        self.verifier.put(out)?;
        self.count.put(out)
    }

    ghost spelled = { read_dir_arguments_spelled };
}

impl XdrValue for ReadDirPlusArguments {
    ghost use Rattle.nfs3_values.specs.EntryCalls.{read_dir_plus_arguments, read_dir_plus_arguments_text, ReadDirPlusArgumentsFit};
    ghost use Rattle.nfs3_values.specs.SpelledCalls.{read_dir_plus_arguments_spelled};

    ghost grammar = { read_dir_plus_arguments };

    ghost text = { read_dir_plus_arguments_text };

    ghost fits = { ReadDirPlusArgumentsFit };

    #[tactic(auto, unfolding(crate::specs::EntryCalls::read_dir_plus_arguments))]
    fn read(alloc: Global, reader: &mut Reader<'_>) -> Result<ReadDirPlusArguments, MessageFault> {
        let directory = FileHandle::read(alloc, reader)?;
        let cookie = u64::read(alloc, reader)?;
        let verifier = Verifier::read(alloc, reader)?;
        let directory_count = u32::read(alloc, reader)?;
        let whole_count = u32::read(alloc, reader)?;
        Ok(ReadDirPlusArguments {
            directory,
            cookie,
            verifier,
            directory_count,
            whole_count,
        })
    }

    #[tactic(auto, unfolding(crate::specs::EntryCalls::read_dir_plus_arguments_text, crate::specs::EntryCalls::ReadDirPlusArgumentsFit))]
    fn put(&self, out: &mut Vec<u8>) -> Result<(), AllocError> {
        self.directory.put(out)?;
        self.cookie.put(out)?;
        self.verifier.put(out)?;
        self.directory_count.put(out)?;
        self.whole_count.put(out)
    }

    ghost spelled = { read_dir_plus_arguments_spelled };
}

impl XdrValue for CommitArguments {
    ghost use Rattle.nfs3_values.specs.Calls.{commit_arguments, commit_arguments_text, CommitArgumentsFit};
    ghost use Rattle.nfs3_values.specs.SpelledCalls.{commit_arguments_spelled};

    ghost grammar = { commit_arguments };

    ghost text = { commit_arguments_text };

    ghost fits = { CommitArgumentsFit };

    #[tactic(auto, unfolding(crate::specs::Calls::commit_arguments))]
    fn read(alloc: Global, reader: &mut Reader<'_>) -> Result<CommitArguments, MessageFault> {
        let file = FileHandle::read(alloc, reader)?;
        let offset = u64::read(alloc, reader)?;
        let count = u32::read(alloc, reader)?;
        Ok(CommitArguments {
            file,
            offset,
            count,
        })
    }

    #[tactic(auto, unfolding(crate::specs::Calls::commit_arguments_text, crate::specs::Calls::CommitArgumentsFit))]
    fn put(&self, out: &mut Vec<u8>) -> Result<(), AllocError> {
        self.file.put(out)?;
        self.offset.put(out)?;
        self.count.put(out)
    }

    ghost spelled = { commit_arguments_spelled };
}
