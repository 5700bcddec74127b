//! The results of the calls (RFC 1813, section 3.3).

ghost use Rattle.std.specs.Prelude.{◌≡◌, ◌++◌, OnOk};
ghost use Rattle.xdr_records.specs.Grammar.Grammar.{named};
ghost use Rattle.nfs3_values.specs.Told.{Reads};
ghost use Rattle.xdr_records.specs.Texts.{word_text};
ghost use Rattle.nfs3_types.specs.Numbers.{status_number};
ghost use Rattle.nfs3_values.specs.Words.{status_of};

use crate::fault::MessageFault;
use crate::value::{XdrValue, bad_enum, read_word};
use nfs3_types::{
    Answer, CommitSuccess, CreateSuccess, Data, DirectoryEntry, DirectoryEntryPlus, Failure,
    FileAttributes, FileHandle, ItemList, LinkText, LookupSuccess, Name, Optional,
    ReadDirPlusSuccess, ReadDirSuccess, ReadLinkSuccess, ReadSuccess, RenameWcc, StableHow,
    Verifier, WccData, WriteSuccess,
};
use std::alloc::{AllocError, Global};
use xdr_records::{Reader, put_u32};

// The status at the front of what is left: a failure, or none for `NFS3_OK`.
#[tactic(auto, unfolding(crate::specs::Words::status_of))]
fn read_status(reader: &mut Reader<'_>) -> Result<Option<Failure>, MessageFault>
    ensures { Reads (named status_of) reader.old reader.new result }
{
    let at = reader.offset();
    let word = read_word(reader)?;
    if word == 0 {
        return Ok(None);
    }
    match Failure::from_number(word) {
        Some(status) => Ok(Some(status)),
        None => Err(bad_enum(at)),
    }
}

// Appends the status of a failure.
fn put_failure(out: &mut Vec<u8>, status: Failure) -> Result<(), AllocError>
    ensures { OnOk result (out.new.items ≡ out.old.items ++ word_text (status_number status)) }
{
    put_u32(out, status.number())
}

impl<S: XdrValue, F: XdrValue> XdrValue for Answer<S, F> {
    ghost use Rattle.nfs3_values.specs.Replies.{answer, answer_text, AnswerFits};
    ghost use Rattle.nfs3_values.specs.SpelledReplies.{answer_spelled};

    ghost grammar = { answer S.grammar F.grammar };

    ghost text = { answer_text S.text F.text };

    ghost fits = { AnswerFits S.fits F.fits };

    #[tactic(auto, unfolding(crate::specs::Replies::answer))]
    fn read(alloc: Global, reader: &mut Reader<'_>) -> Result<Answer<S, F>, MessageFault> {
        match read_status(reader)? {
            None => Ok(Answer::Done(S::read(alloc, reader)?)),
            Some(status) => Ok(Answer::Failed(status, F::read(alloc, reader)?)),
        }
    }

    #[tactic(auto, unfolding(crate::specs::Replies::answer_text, crate::specs::Replies::AnswerFits))]
    fn put(&self, out: &mut Vec<u8>) -> Result<(), AllocError> {
        match self {
            Answer::Done(done) => {
                put_u32(out, 0)?;
                done.put(out)
            }
            Answer::Failed(status, failed) => {
                put_failure(out, *status)?;
                failed.put(out)
            }
        }
    }

    ghost spelled = { answer_spelled S.grammar F.grammar S.text F.text S.fits F.fits S.spelled F.spelled };
}

impl XdrValue for ReadSuccess {
    ghost use Rattle.nfs3_values.specs.Replies.{read_success, read_success_text, ReadSuccessFits};
    ghost use Rattle.nfs3_values.specs.SpelledReplies.{read_success_spelled};

    ghost grammar = { read_success };

    ghost text = { read_success_text };

    ghost fits = { ReadSuccessFits };

    #[tactic(auto, unfolding(crate::specs::Replies::read_success))]
    fn read(alloc: Global, reader: &mut Reader<'_>) -> Result<ReadSuccess, MessageFault> {
        let attributes = Optional::<FileAttributes>::read(alloc, reader)?;
        let count = u32::read(alloc, reader)?;
        let eof = bool::read(alloc, reader)?;
        let bytes = Data::read(alloc, reader)?;
        Ok(ReadSuccess {
            attributes,
            count,
            eof,
            bytes,
        })
    }

    #[tactic(auto, unfolding(crate::specs::Replies::read_success_text, crate::specs::Replies::ReadSuccessFits))]
    fn put(&self, out: &mut Vec<u8>) -> Result<(), AllocError> {
        self.attributes.put(out)?;
        self.count.put(out)?;
        self.eof.put(out)?;
        self.bytes.put(out)
    }

    ghost spelled = { read_success_spelled };
}

impl XdrValue for WriteSuccess {
    ghost use Rattle.nfs3_values.specs.Replies.{write_success, write_success_text, WriteSuccessFits};
    ghost use Rattle.nfs3_values.specs.SpelledReplies.{write_success_spelled};

    ghost grammar = { write_success };

    ghost text = { write_success_text };

    ghost fits = { WriteSuccessFits };

    #[tactic(auto, unfolding(crate::specs::Replies::write_success))]
    fn read(alloc: Global, reader: &mut Reader<'_>) -> Result<WriteSuccess, MessageFault> {
        let wcc = WccData::read(alloc, reader)?;
        let count = u32::read(alloc, reader)?;
        let level = StableHow::read(alloc, reader)?;
        let verifier = Verifier::read(alloc, reader)?;
        Ok(WriteSuccess {
            wcc,
            count,
            level,
            verifier,
        })
    }

    #[tactic(auto, unfolding(crate::specs::Replies::write_success_text, crate::specs::Replies::WriteSuccessFits))]
    fn put(&self, out: &mut Vec<u8>) -> Result<(), AllocError> {
        self.wcc.put(out)?;
        self.count.put(out)?;
        self.level.put(out)?;
        self.verifier.put(out)
    }

    ghost spelled = { write_success_spelled };
}

impl XdrValue for CreateSuccess {
    ghost use Rattle.nfs3_values.specs.Replies.{create_success, create_success_text, CreateSuccessFits};
    ghost use Rattle.nfs3_values.specs.SpelledReplies.{create_success_spelled};

    ghost grammar = { create_success };

    ghost text = { create_success_text };

    ghost fits = { CreateSuccessFits };

    #[tactic(auto, unfolding(crate::specs::Replies::create_success))]
    fn read(alloc: Global, reader: &mut Reader<'_>) -> Result<CreateSuccess, MessageFault> {
        let object = Option::<FileHandle>::read(alloc, reader)?;
        let attributes = Optional::<FileAttributes>::read(alloc, reader)?;
        let wcc = WccData::read(alloc, reader)?;
        Ok(CreateSuccess {
            object,
            attributes,
            wcc,
        })
    }

    #[tactic(auto, unfolding(crate::specs::Replies::create_success_text, crate::specs::Replies::CreateSuccessFits))]
    fn put(&self, out: &mut Vec<u8>) -> Result<(), AllocError> {
        self.object.put(out)?;
        self.attributes.put(out)?;
        self.wcc.put(out)
    }

    ghost spelled = { create_success_spelled };
}

impl XdrValue for LookupSuccess {
    ghost use Rattle.nfs3_values.specs.Replies.{lookup_success, lookup_success_text, LookupSuccessFits};
    ghost use Rattle.nfs3_values.specs.SpelledReplies.{lookup_success_spelled};

    ghost grammar = { lookup_success };

    ghost text = { lookup_success_text };

    ghost fits = { LookupSuccessFits };

    #[tactic(auto, unfolding(crate::specs::Replies::lookup_success))]
    fn read(alloc: Global, reader: &mut Reader<'_>) -> Result<LookupSuccess, MessageFault> {
        let object = FileHandle::read(alloc, reader)?;
        let attributes = Optional::<FileAttributes>::read(alloc, reader)?;
        let directory_attributes = Optional::<FileAttributes>::read(alloc, reader)?;
        Ok(LookupSuccess {
            object,
            attributes,
            directory_attributes,
        })
    }

    #[tactic(auto, unfolding(crate::specs::Replies::lookup_success_text, crate::specs::Replies::LookupSuccessFits))]
    fn put(&self, out: &mut Vec<u8>) -> Result<(), AllocError> {
        self.object.put(out)?;
        self.attributes.put(out)?;
        self.directory_attributes.put(out)
    }

    ghost spelled = { lookup_success_spelled };
}

impl XdrValue for ReadLinkSuccess {
    ghost use Rattle.nfs3_values.specs.Replies.{read_link_success, read_link_success_text, ReadLinkSuccessFits};
    ghost use Rattle.nfs3_values.specs.SpelledReplies.{read_link_success_spelled};

    ghost grammar = { read_link_success };

    ghost text = { read_link_success_text };

    ghost fits = { ReadLinkSuccessFits };

    #[tactic(auto, unfolding(crate::specs::Replies::read_link_success))]
    fn read(alloc: Global, reader: &mut Reader<'_>) -> Result<ReadLinkSuccess, MessageFault> {
        let attributes = Optional::<FileAttributes>::read(alloc, reader)?;
        let target = LinkText::read(alloc, reader)?;
        Ok(ReadLinkSuccess { attributes, target })
    }

    #[tactic(auto, unfolding(crate::specs::Replies::read_link_success_text, crate::specs::Replies::ReadLinkSuccessFits))]
    fn put(&self, out: &mut Vec<u8>) -> Result<(), AllocError> {
        self.attributes.put(out)?;
        self.target.put(out)
    }

    ghost spelled = { read_link_success_spelled };
}

impl XdrValue for RenameWcc {
    ghost use Rattle.nfs3_values.specs.Replies.{rename_wcc, rename_wcc_text, RenameWccFits};
    ghost use Rattle.nfs3_values.specs.SpelledReplies.{rename_wcc_spelled};

    ghost grammar = { rename_wcc };

    ghost text = { rename_wcc_text };

    ghost fits = { RenameWccFits };

    #[tactic(auto, unfolding(crate::specs::Replies::rename_wcc))]
    fn read(alloc: Global, reader: &mut Reader<'_>) -> Result<RenameWcc, MessageFault> {
        let from = WccData::read(alloc, reader)?;
        let to = WccData::read(alloc, reader)?;
        Ok(RenameWcc { from, to })
    }

    #[tactic(auto, unfolding(crate::specs::Replies::rename_wcc_text, crate::specs::Replies::RenameWccFits))]
    fn put(&self, out: &mut Vec<u8>) -> Result<(), AllocError> {
        self.from.put(out)?;
        self.to.put(out)
    }

    ghost spelled = { rename_wcc_spelled };
}

impl XdrValue for DirectoryEntry {
    ghost use Rattle.nfs3_values.specs.Listings.{directory_entry, directory_entry_text, DirectoryEntryFits};
    ghost use Rattle.nfs3_values.specs.SpelledReplies.{directory_entry_spelled};

    ghost grammar = { directory_entry };

    ghost text = { directory_entry_text };

    ghost fits = { DirectoryEntryFits };

    #[tactic(auto, unfolding(crate::specs::Listings::directory_entry))]
    fn read(alloc: Global, reader: &mut Reader<'_>) -> Result<DirectoryEntry, MessageFault> {
        let file_number = u64::read(alloc, reader)?;
        let name = Name::read(alloc, reader)?;
        let cookie = u64::read(alloc, reader)?;
        Ok(DirectoryEntry {
            file_number,
            name,
            cookie,
        })
    }

    #[tactic(auto, unfolding(crate::specs::Listings::directory_entry_text, crate::specs::Listings::DirectoryEntryFits))]
    fn put(&self, out: &mut Vec<u8>) -> Result<(), AllocError> {
        self.file_number.put(out)?;
        self.name.put(out)?;
        self.cookie.put(out)
    }

    ghost spelled = { directory_entry_spelled };
}

impl XdrValue for ReadDirSuccess {
    ghost use Rattle.nfs3_values.specs.Listings.{read_dir_success, read_dir_success_text, ReadDirSuccessFits};
    ghost use Rattle.nfs3_values.specs.SpelledReplies.{read_dir_success_spelled};

    ghost grammar = { read_dir_success };

    ghost text = { read_dir_success_text };

    ghost fits = { ReadDirSuccessFits };

    #[tactic(auto, unfolding(crate::specs::Listings::read_dir_success))]
    fn read(alloc: Global, reader: &mut Reader<'_>) -> Result<ReadDirSuccess, MessageFault> {
        let attributes = Optional::<FileAttributes>::read(alloc, reader)?;
        let verifier = Verifier::read(alloc, reader)?;
        let entries = ItemList::<DirectoryEntry>::read(alloc, reader)?;
        let eof = bool::read(alloc, reader)?;
        Ok(ReadDirSuccess {
            attributes,
            verifier,
            entries,
            eof,
        })
    }

    #[tactic(auto, unfolding(crate::specs::Listings::read_dir_success_text, crate::specs::Listings::ReadDirSuccessFits))]
    fn put(&self, out: &mut Vec<u8>) -> Result<(), AllocError> {
        self.attributes.put(out)?;
        self.verifier.put(out)?;
        self.entries.put(out)?;
        self.eof.put(out)
    }

    ghost spelled = { read_dir_success_spelled };
}

impl XdrValue for DirectoryEntryPlus {
    ghost use Rattle.nfs3_values.specs.Listings.{directory_entry_plus, directory_entry_plus_text, DirectoryEntryPlusFits};
    ghost use Rattle.nfs3_values.specs.SpelledReplies.{directory_entry_plus_spelled};

    ghost grammar = { directory_entry_plus };

    ghost text = { directory_entry_plus_text };

    ghost fits = { DirectoryEntryPlusFits };

    #[tactic(auto, unfolding(crate::specs::Listings::directory_entry_plus))]
    fn read(alloc: Global, reader: &mut Reader<'_>) -> Result<DirectoryEntryPlus, MessageFault> {
        let file_number = u64::read(alloc, reader)?;
        let name = Name::read(alloc, reader)?;
        let cookie = u64::read(alloc, reader)?;
        let attributes = Optional::<FileAttributes>::read(alloc, reader)?;
        let object = Option::<FileHandle>::read(alloc, reader)?;
        Ok(DirectoryEntryPlus {
            file_number,
            name,
            cookie,
            attributes,
            object,
        })
    }

    #[tactic(auto, unfolding(crate::specs::Listings::directory_entry_plus_text, crate::specs::Listings::DirectoryEntryPlusFits))]
    fn put(&self, out: &mut Vec<u8>) -> Result<(), AllocError> {
        self.file_number.put(out)?;
        self.name.put(out)?;
        self.cookie.put(out)?;
        self.attributes.put(out)?;
        self.object.put(out)
    }

    ghost spelled = { directory_entry_plus_spelled };
}

impl XdrValue for ReadDirPlusSuccess {
    ghost use Rattle.nfs3_values.specs.Listings.{read_dir_plus_success, read_dir_plus_success_text, ReadDirPlusSuccessFits};
    ghost use Rattle.nfs3_values.specs.SpelledReplies.{read_dir_plus_success_spelled};

    ghost grammar = { read_dir_plus_success };

    ghost text = { read_dir_plus_success_text };

    ghost fits = { ReadDirPlusSuccessFits };

    #[tactic(auto, unfolding(crate::specs::Listings::read_dir_plus_success))]
    fn read(alloc: Global, reader: &mut Reader<'_>) -> Result<ReadDirPlusSuccess, MessageFault> {
        let attributes = Optional::<FileAttributes>::read(alloc, reader)?;
        let verifier = Verifier::read(alloc, reader)?;
        let entries = ItemList::<DirectoryEntryPlus>::read(alloc, reader)?;
        let eof = bool::read(alloc, reader)?;
        Ok(ReadDirPlusSuccess {
            attributes,
            verifier,
            entries,
            eof,
        })
    }

    #[tactic(auto, unfolding(crate::specs::Listings::read_dir_plus_success_text, crate::specs::Listings::ReadDirPlusSuccessFits))]
    fn put(&self, out: &mut Vec<u8>) -> Result<(), AllocError> {
        self.attributes.put(out)?;
        self.verifier.put(out)?;
        self.entries.put(out)?;
        self.eof.put(out)
    }

    ghost spelled = { read_dir_plus_success_spelled };
}

impl XdrValue for CommitSuccess {
    ghost use Rattle.nfs3_values.specs.Replies.{commit_success, commit_success_text, CommitSuccessFits};
    ghost use Rattle.nfs3_values.specs.SpelledReplies.{commit_success_spelled};

    ghost grammar = { commit_success };

    ghost text = { commit_success_text };

    ghost fits = { CommitSuccessFits };

    #[tactic(auto, unfolding(crate::specs::Replies::commit_success))]
    fn read(alloc: Global, reader: &mut Reader<'_>) -> Result<CommitSuccess, MessageFault> {
        let wcc = WccData::read(alloc, reader)?;
        let verifier = Verifier::read(alloc, reader)?;
        Ok(CommitSuccess { wcc, verifier })
    }

    #[tactic(auto, unfolding(crate::specs::Replies::commit_success_text, crate::specs::Replies::CommitSuccessFits))]
    fn put(&self, out: &mut Vec<u8>) -> Result<(), AllocError> {
        self.wcc.put(out)?;
        self.verifier.put(out)
    }

    ghost spelled = { commit_success_spelled };
}
