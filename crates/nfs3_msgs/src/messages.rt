//! The arguments and the result of a procedure, by its number. A further procedure is a grammar and a text in
//! `specs`, an `XdrValue` for its arguments and one for its success, and an arm in each function here.

ghost use Rattle.std.specs.Prelude.{◌≡◌, ◌++◌, ℕ, IfOk, OnOk, OnErr};
ghost use Rattle.xdr_records.specs.Reading.{item_here};
ghost use Rattle.xdr_records.specs.Items.{end_at};
ghost use Rattle.nfs3_types.specs.declared.calls.NfsCall.{NfsCall};
ghost use Rattle.nfs3_types.specs.declared.replies.NfsReply.{NfsReply};
ghost use Rattle.nfs3_values.specs.declared.fault.Kind.{Kind};
ghost use Rattle.nfs3_values.specs.Told.{kind_of, Reads, IsButForMemory};
ghost use Rattle.nfs3_types.specs.Procedures.{procedure_called, procedure_answered};
ghost use Rattle.nfs3_msgs.specs.Messages.{arguments, IsArguments, IsArgumentsFault, arguments_of, arguments_text};
ghost use Rattle.nfs3_msgs.specs.Fits.{CallFits};
ghost use Rattle.nfs3_msgs.specs.Messages.{results, IsResult, IsResultFault, result_of, result_text};
ghost use Rattle.nfs3_msgs.specs.Fits.{ReplyFits};

use nfs3_types::{
    Answer, CommitArguments, CommitSuccess, CreateArguments, CreateSuccess, DirectoryName,
    FileAttributes, FileHandle, Held, LookupSuccess, MkDirArguments, NfsCall, NfsReply, Optional,
    Procedure, ReadArguments, ReadDirArguments, ReadDirPlusArguments, ReadDirPlusSuccess,
    ReadDirSuccess, ReadLinkSuccess, ReadSuccess, RenameArguments, RenameWcc, SetAttrArguments,
    SymLinkArguments, WccData, WriteArguments, WriteSuccess,
};
use nfs3_values::{Kind, MessageFault, XdrValue, fault_at};
use std::alloc::{AllocError, Global};
use xdr_records::Reader;

// No message of this procedure is read.
fn not_judged(reader: &Reader<'_>) -> MessageFault
    ensures { result ≡ MessageFault.BadMessage reader.now.at Kind.NotJudged }
{
    MessageFault::BadMessage {
        at: reader.offset(),
        kind: Kind::NotJudged,
    }
}

// The arguments of a procedure at the front of what is left.
#[tactic(auto, unfolding(crate::specs::Messages::arguments))]
fn arguments_from(
    alloc: Global,
    procedure: u32,
    reader: &mut Reader<'_>,
) -> Result<NfsCall, MessageFault>
    ensures { Reads (arguments procedure) reader.old reader.new result }
{
    let Some(procedure) = Procedure::from_number(procedure) else {
        return Err(not_judged(reader));
    };
    match procedure {
        Procedure::GetAttr => Ok(NfsCall::GetAttr(FileHandle::read(alloc, reader)?)),
        Procedure::SetAttr => Ok(NfsCall::SetAttr(Held::<SetAttrArguments>::read(alloc, reader)?)),
        Procedure::Lookup => Ok(NfsCall::Lookup(DirectoryName::read(alloc, reader)?)),
        Procedure::ReadLink => Ok(NfsCall::ReadLink(FileHandle::read(alloc, reader)?)),
        Procedure::Read => Ok(NfsCall::Read(ReadArguments::read(alloc, reader)?)),
        Procedure::Write => Ok(NfsCall::Write(WriteArguments::read(alloc, reader)?)),
        Procedure::Create => Ok(NfsCall::Create(Held::<CreateArguments>::read(alloc, reader)?)),
        Procedure::MkDir => Ok(NfsCall::MkDir(Held::<MkDirArguments>::read(alloc, reader)?)),
        Procedure::SymLink => Ok(NfsCall::SymLink(Held::<SymLinkArguments>::read(alloc, reader)?)),
        Procedure::Remove => Ok(NfsCall::Remove(DirectoryName::read(alloc, reader)?)),
        Procedure::RmDir => Ok(NfsCall::RmDir(DirectoryName::read(alloc, reader)?)),
        Procedure::Rename => Ok(NfsCall::Rename(Held::<RenameArguments>::read(alloc, reader)?)),
        Procedure::ReadDir => Ok(NfsCall::ReadDir(ReadDirArguments::read(alloc, reader)?)),
        Procedure::ReadDirPlus => Ok(NfsCall::ReadDirPlus(ReadDirPlusArguments::read(
            alloc, reader,
        )?)),
        Procedure::Commit => Ok(NfsCall::Commit(CommitArguments::read(alloc, reader)?)),
        _ => Err(not_judged(reader)),
    }
}

// The result of a procedure at the front of what is left.
#[tactic(auto, unfolding(crate::specs::Messages::results))]
fn result_from(
    alloc: Global,
    procedure: u32,
    reader: &mut Reader<'_>,
) -> Result<NfsReply, MessageFault>
    ensures { Reads (results procedure) reader.old reader.new result }
{
    let Some(procedure) = Procedure::from_number(procedure) else {
        return Err(not_judged(reader));
    };
    match procedure {
        Procedure::GetAttr => Ok(NfsReply::GetAttr(Answer::<Held<FileAttributes>, ()>::read(
            alloc, reader,
        )?)),
        Procedure::SetAttr => Ok(NfsReply::SetAttr(Answer::<WccData, WccData>::read(
            alloc, reader,
        )?)),
        Procedure::Lookup => Ok(NfsReply::Lookup(Answer::<
            Held<LookupSuccess>,
            Optional<FileAttributes>,
        >::read(alloc, reader)?)),
        Procedure::ReadLink => Ok(NfsReply::ReadLink(Answer::<
            ReadLinkSuccess,
            Optional<FileAttributes>,
        >::read(alloc, reader)?)),
        Procedure::Read => Ok(NfsReply::Read(Answer::<ReadSuccess, Optional<FileAttributes>>::read(
            alloc, reader,
        )?)),
        Procedure::Write => Ok(NfsReply::Write(Answer::<WriteSuccess, WccData>::read(
            alloc, reader,
        )?)),
        Procedure::Create => Ok(NfsReply::Create(Answer::<Held<CreateSuccess>, WccData>::read(
            alloc, reader,
        )?)),
        Procedure::MkDir => Ok(NfsReply::MkDir(Answer::<Held<CreateSuccess>, WccData>::read(
            alloc, reader,
        )?)),
        Procedure::SymLink => Ok(NfsReply::SymLink(Answer::<Held<CreateSuccess>, WccData>::read(
            alloc, reader,
        )?)),
        Procedure::Remove => Ok(NfsReply::Remove(Answer::<WccData, WccData>::read(alloc, reader)?)),
        Procedure::RmDir => Ok(NfsReply::RmDir(Answer::<WccData, WccData>::read(alloc, reader)?)),
        Procedure::Rename => Ok(NfsReply::Rename(Answer::<Held<RenameWcc>, Held<RenameWcc>>::read(
            alloc, reader,
        )?)),
        Procedure::ReadDir => Ok(NfsReply::ReadDir(Answer::<
            Held<ReadDirSuccess>,
            Optional<FileAttributes>,
        >::read(alloc, reader)?)),
        Procedure::ReadDirPlus => Ok(NfsReply::ReadDirPlus(Answer::<
            Held<ReadDirPlusSuccess>,
            Optional<FileAttributes>,
        >::read(alloc, reader)?)),
        Procedure::Commit => Ok(NfsReply::Commit(Answer::<CommitSuccess, WccData>::read(
            alloc, reader,
        )?)),
        _ => Err(not_judged(reader)),
    }
}

// Nothing stands behind the last item.
fn ended(reader: &Reader<'_>) -> Result<(), MessageFault>
    ensures { IsButForMemory result (item_here kind_of reader.now.at (end_at reader.now)) }
{
    let at = reader.offset();
    reader.done().map_err(|fault| fault_at(at, fault))
}

// The arguments of a procedure, all of the bytes.
fn all_arguments(alloc: Global, procedure: u32, bytes: &[u8]) -> Result<NfsCall, MessageFault>
    ensures { IsButForMemory result (arguments_of procedure bytes.now) }
{
    let mut reader = Reader::new(bytes);
    let call = arguments_from(alloc, procedure, &mut reader)?;
    ended(&reader)?;
    Ok(call)
}

// The result of a procedure, all of the bytes.
fn all_results(alloc: Global, procedure: u32, bytes: &[u8]) -> Result<NfsReply, MessageFault>
    ensures { IsButForMemory result (result_of procedure bytes.now) }
{
    let mut reader = Reader::new(bytes);
    let reply = result_from(alloc, procedure, &mut reader)?;
    ended(&reader)?;
    Ok(reply)
}

/// The call of a procedure whose arguments the bytes are, all of them. Nothing is allocated for bytes that
/// are not there.
pub fn read_args(alloc: Global, procedure: u32, bytes: &[u8]) -> Result<NfsCall, MessageFault>
    // What is read is spelled by the bytes.
    ensures found { IfOk result (λ call. IsArguments procedure bytes.now call) }
    // What the bytes spell is read, memory aside.
    ensures only { (call : NfsCall) → IsArguments procedure bytes.now call → IsButForMemory result (Ok call) }
    // A fault is that of the first item at fault.
    ensures fault { (at : ℕ) (kind : Kind) → result ≡ Err (MessageFault.BadMessage at kind)
        → IsArgumentsFault procedure bytes.now at kind }
    // Where an item is at fault, it is named, memory aside.
    ensures named { (at : ℕ) (kind : Kind) → IsArgumentsFault procedure bytes.now at kind
        → IsButForMemory result (Err (record { at = at; kind = kind })) }
    // The same, as it is computed.
    ensures exact { IsButForMemory result (arguments_of procedure bytes.now) }
{
    all_arguments(alloc, procedure, bytes)
}

/// The reply of a procedure whose result the bytes are, all of them. Nothing is allocated for bytes that
/// are not there.
pub fn read_result(alloc: Global, procedure: u32, bytes: &[u8]) -> Result<NfsReply, MessageFault>
    // What is read is spelled by the bytes.
    ensures found { IfOk result (λ reply. IsResult procedure bytes.now reply) }
    // What the bytes spell is read, memory aside.
    ensures only { (reply : NfsReply) → IsResult procedure bytes.now reply → IsButForMemory result (Ok reply) }
    // A fault is that of the first item at fault.
    ensures fault { (at : ℕ) (kind : Kind) → result ≡ Err (MessageFault.BadMessage at kind)
        → IsResultFault procedure bytes.now at kind }
    // Where an item is at fault, it is named, memory aside.
    ensures named { (at : ℕ) (kind : Kind) → IsResultFault procedure bytes.now at kind
        → IsButForMemory result (Err (record { at = at; kind = kind })) }
    // The same, as it is computed.
    ensures exact { IsButForMemory result (result_of procedure bytes.now) }
{
    all_results(alloc, procedure, bytes)
}

// Appends the arguments of a call, or a part of them.
#[tactic(auto, unfolding(crate::specs::Messages::arguments_text, crate::specs::Fits::CallFits))]
fn append_arguments(out: &mut Vec<u8>, call: &NfsCall) -> Result<(), AllocError>
    ensures ok { OnOk result (out.new.items ≡ out.old.items ++ arguments_text call.now) }
    ensures fits { OnOk result (CallFits call.now) }
{
    match call {
        NfsCall::GetAttr(arguments) => arguments.put(out),
        NfsCall::SetAttr(arguments) => arguments.put(out),
        NfsCall::Lookup(arguments) => arguments.put(out),
        NfsCall::ReadLink(arguments) => arguments.put(out),
        NfsCall::Read(arguments) => arguments.put(out),
        NfsCall::Write(arguments) => arguments.put(out),
        NfsCall::Create(arguments) => arguments.put(out),
        NfsCall::MkDir(arguments) => arguments.put(out),
        NfsCall::SymLink(arguments) => arguments.put(out),
        NfsCall::Remove(arguments) => arguments.put(out),
        NfsCall::RmDir(arguments) => arguments.put(out),
        NfsCall::Rename(arguments) => arguments.put(out),
        NfsCall::ReadDir(arguments) => arguments.put(out),
        NfsCall::ReadDirPlus(arguments) => arguments.put(out),
        NfsCall::Commit(arguments) => arguments.put(out),
    }
}

// Appends a result, or a part of it.
#[tactic(auto, unfolding(crate::specs::Messages::result_text, crate::specs::Fits::ReplyFits))]
fn append_result(out: &mut Vec<u8>, reply: &NfsReply) -> Result<(), AllocError>
    ensures ok { OnOk result (out.new.items ≡ out.old.items ++ result_text reply.now) }
    ensures fits { OnOk result (ReplyFits reply.now) }
{
    match reply {
        NfsReply::GetAttr(answer) => answer.put(out),
        NfsReply::SetAttr(answer) => answer.put(out),
        NfsReply::Lookup(answer) => answer.put(out),
        NfsReply::ReadLink(answer) => answer.put(out),
        NfsReply::Read(answer) => answer.put(out),
        NfsReply::Write(answer) => answer.put(out),
        NfsReply::Create(answer) => answer.put(out),
        NfsReply::MkDir(answer) => answer.put(out),
        NfsReply::SymLink(answer) => answer.put(out),
        NfsReply::Remove(answer) => answer.put(out),
        NfsReply::RmDir(answer) => answer.put(out),
        NfsReply::Rename(answer) => answer.put(out),
        NfsReply::ReadDir(answer) => answer.put(out),
        NfsReply::ReadDirPlus(answer) => answer.put(out),
        NfsReply::Commit(answer) => answer.put(out),
    }
}

/// Appends the arguments of a call in the one spelling that is written, whose padding is zero.
#[tactic(auto, using(crate::specs::SpelledMessages::call_spelled, crate::proofs::ReadsBack::call_reads_back))]
pub fn put_args(out: &mut Vec<u8>, call: &NfsCall) -> Result<(), AllocError>
    ensures ok { OnOk result (out.new.items ≡ out.old.items ++ arguments_text call.now) }
    ensures err { OnErr result (out.new.items ≡ out.old.items) }
    // What is written spells the call, and is read back as it.
    ensures spelled { OnOk result
        (IsArguments (procedure_called call.now) (arguments_text call.now) call.now) }
    ensures reads_back { OnOk result
        (arguments_of (procedure_called call.now) (arguments_text call.now) ≡ Ok call.now) }
{
    let mut text = Vec::new(*out.allocator());
    append_arguments(&mut text, call)?;
    out.extend_from_slice(&text)
}

/// Appends a result in the one spelling that is written, whose padding is zero.
#[tactic(auto, using(crate::specs::SpelledMessages::reply_spelled, crate::proofs::ReadsBack::reply_reads_back))]
pub fn put_result(out: &mut Vec<u8>, reply: &NfsReply) -> Result<(), AllocError>
    ensures ok { OnOk result (out.new.items ≡ out.old.items ++ result_text reply.now) }
    ensures err { OnErr result (out.new.items ≡ out.old.items) }
    // What is written spells the reply, and is read back as it.
    ensures spelled { OnOk result
        (IsResult (procedure_answered reply.now) (result_text reply.now) reply.now) }
    ensures reads_back { OnOk result
        (result_of (procedure_answered reply.now) (result_text reply.now) ≡ Ok reply.now) }
{
    let mut text = Vec::new(*out.allocator());
    append_result(&mut text, reply)?;
    out.extend_from_slice(&text)
}
