//! The bytes of a record.

ghost use Rattle.std.specs.Prelude.{◌≡◌, ◌<◌, ◌^◌, ◌++◌, length, OnOk, OnErr};
ghost use Rattle.xdr_records.specs.Spelling.{Spells};
ghost use Rattle.xdr_records.specs.Items.{end_at};
ghost use Rattle.xdr_records.specs.Reading.{item_here, all_of};
ghost use Rattle.nfs3_values.specs.Told.{kind_of, IsButForMemory};
ghost use Rattle.journal.specs.Exactly.{Exactly};
ghost use Rattle.journal.specs.Journal.{journal_record, record_text};

use crate::record_fault::RecordFault;
use nfs3_types::Data;
use nfs3_values::{MessageFault, XdrValue, fault_at};
use std::alloc::{AllocError, Global};
use xdr_records::{Reader, put_opaque, put_u64};

/// A call's number, its message and the reply's, without record marking.
#[derive(Drop)]
pub struct JournalRecord {
    /// The call's number, 8 bytes.
    pub number: u64,
    /// The call's message.
    pub call: Data,
    /// The reply's message.
    pub reply: Data,
}

impl XdrValue for JournalRecord {
    ghost use Rattle.journal.specs.Journal.{journal_record, record_text, RecordFits};
    ghost use Rattle.journal.specs.SpelledRecord.{record_spelled};

    ghost grammar = { journal_record };

    ghost text = { record_text };

    ghost fits = { RecordFits };

    #[tactic(auto, unfolding(crate::specs::Journal::journal_record))]
    fn read(alloc: Global, reader: &mut Reader<'_>) -> Result<JournalRecord, MessageFault> {
        let number = u64::read(alloc, reader)?;
        let call = Data::read(alloc, reader)?;
        let reply = Data::read(alloc, reader)?;
        Ok(JournalRecord {
            number,
            call,
            reply,
        })
    }

    #[tactic(auto, unfolding(crate::specs::Journal::record_text, crate::specs::Journal::RecordFits))]
    fn put(&self, out: &mut Vec<u8>) -> Result<(), AllocError> {
        self.number.put(out)?;
        self.call.put(out)?;
        self.reply.put(out)
    }

    ghost spelled = { record_spelled };
}

// Nothing stands behind the last item.
fn ended(reader: &Reader<'_>) -> Result<(), MessageFault>
    ensures { IsButForMemory result (item_here kind_of reader.now.at (end_at reader.now)) }
{
    let at = reader.offset();
    reader.done().map_err(|fault| fault_at(at, fault))
}

// The record, all of the bytes.
fn all_of_it(alloc: Global, bytes: &[u8]) -> Result<JournalRecord, MessageFault>
    ensures { IsButForMemory result (all_of kind_of journal_record bytes.now) }
{
    let mut reader = Reader::new(bytes);
    let written = JournalRecord::read(alloc, &mut reader)?;
    ended(&reader)?;
    Ok(written)
}

/// The record that the bytes spell, whatever its messages are.
pub(crate) fn read_text(alloc: Global, bytes: &[u8]) -> Result<JournalRecord, RecordFault>
    ensures { Exactly (Spells journal_record bytes.now) result }
{
    match all_of_it(alloc, bytes) {
        Ok(written) => Ok(written),
        Err(MessageFault::BadMessage { .. }) => Err(RecordFault::NoRecord),
        Err(MessageFault::NoMemory) => Err(RecordFault::NoMemory),
    }
}

/// Appends a record, in the one spelling whose padding is zero.
#[tactic(auto, unfolding(crate::specs::Journal::record_text))]
pub fn put_record(
    out: &mut Vec<u8>,
    number: u64,
    call: &[u8],
    reply: &[u8],
) -> Result<(), AllocError>
    requires call { length call.now < 2 ^ 32 }
    requires reply { length reply.now < 2 ^ 32 }
    ensures ok { OnOk result (out.new.items ≡ out.old.items ++ record_text (record { number = number; call = call.now; reply = reply.now })) }
    ensures err { OnErr result (out.new.items ≡ out.old.items) }
    // What is written is this record.
    ensures spelled { OnOk result (Spells journal_record (record_text (record { number = number; call = call.now; reply = reply.now }))
        (record { number = number; call = call.now; reply = reply.now })) }
{
    let mut text = Vec::new(*out.allocator());
    put_u64(&mut text, number)?;
    put_opaque(&mut text, call)?;
    put_opaque(&mut text, reply)?;
    out.extend_from_slice(&text)
}
