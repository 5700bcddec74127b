//! Answers to calls that aren't recorded.

ghost use Rattle.std.specs.Prelude.{◌≡◌, ◌*◌, ◌++◌, [], replicate, IfOk, OnOk, None, option_map, option_and_then};
ghost use Rattle.xdr_records.specs.Texts.{word_text};
ghost use Rattle.rpc_reader.specs.Texts.{reply_text};
ghost use Rattle.rpc_reader.specs.Views.{call_value, body_value};
ghost use Rattle.nfs3_types.specs.Numbers.{status_number};
ghost use Rattle.nfs_history.specs.Outside.{outside};
ghost use Rattle.server_requests.specs.Handling.{failure_with, answer_of_procedure, answer_ahead, answer_outside};
ghost use Rattle.server_requests.specs.Plainly.{body_of, CountsItsData};

use journal::is_inside;
use nfs3_types::{Failure, NFS_PROGRAM, NFS_VERSION, NfsCall, Procedure};
use rpc_reader::{CallHead, ReplyBody, SEALED_FLAVOR, put_reply};
use std::alloc::{AllocError, Global};
use xdr_records::put_u32;

/// `AUTH_BADCRED` (RFC 5531, section 9).
const BAD_CREDENTIAL: u32 = 1;

/// An answer that stands in no history.
#[derive(Clone, Copy)]
pub(crate) enum Plain {
    NoProgram,
    OtherVersion,
    SealedCredential,
    NoProcedure,
    /// Of NULL.
    Nothing,
    /// A status with so many zero words behind it.
    Failed(Failure, u32),
    BadArguments,
}

/// What is answered to a call of a procedure, whatever its arguments.
fn answer_of_procedure(number: u32) -> Option<Plain>
    ensures { option_map body_of result ≡ answer_of_procedure number }
{
    let Some(procedure) = Procedure::from_number(number) else {
        return Some(Plain::NoProcedure);
    };
    match procedure {
        Procedure::Null => Some(Plain::Nothing),
        Procedure::Access | Procedure::FsStat | Procedure::FsInfo | Procedure::PathConf => {
            Some(Plain::Failed(Failure::NotSupported, 1))
        }
        Procedure::MkNod => Some(Plain::Failed(Failure::NotSupported, 2)),
        Procedure::Link => Some(Plain::Failed(Failure::NotSupported, 3)),
        _ => None,
    }
}

/// What is answered to a call with this head, whatever its arguments.
pub(crate) fn answer_ahead(head: &CallHead<'_>) -> Option<Plain>
    ensures { option_map body_of result ≡ answer_ahead (call_value head.now) }
{
    if head.program != NFS_PROGRAM {
        Some(Plain::NoProgram)
    } else if head.version != NFS_VERSION {
        Some(Plain::OtherVersion)
    } else if head.flavor == SEALED_FLAVOR {
        Some(Plain::SealedCredential)
    } else {
        answer_of_procedure(head.procedure)
    }
}

/// Whether a WRITE counts its data.
fn counts_its_data(call: &NfsCall) -> bool
    ensures { CountsItsData call.now result }
{
    match call {
        NfsCall::Write(write) => write.count as usize == write.bytes.as_slice().len(),
        _ => true,
    }
}

/// What is answered to a call that a history mightn't take.
pub(crate) fn answer_outside(call: &NfsCall) -> Option<Plain>
    ensures ahead { option_map body_of result ≡ option_and_then answer_outside (outside call.now None) }
    ensures inside { result ≡ None → outside call.now None ≡ None }
{
    if is_inside(call) {
        None
    } else if counts_its_data(call) {
        Some(Plain::Failed(Failure::FileTooLarge, 2))
    } else {
        Some(Plain::Failed(Failure::Invalid, 2))
    }
}

/// The results of a failure: its status, with zero words behind it.
fn put_failure(out: &mut Vec<u8>, status: Failure, words: u32) -> Result<(), AllocError>
    requires { out.old.items ≡ [] }
    ensures { OnOk result (out.new.items ≡ word_text (status_number status) ++ replicate (4 * words) 0) }
{
    let zeros = vec![in *out.allocator(); 0u8; 4 * words as usize]?;
    put_u32(out, status.number())?;
    out.extend_from_slice(zeros.as_slice())
}

/// A failure as a message.
fn failure_message(
    alloc: Global,
    xid: u32,
    status: Failure,
    words: u32,
) -> Result<Vec<u8>, AllocError>
    ensures { IfOk result (λ message. message.items ≡ reply_text xid (failure_with (status_number status) words)) }
{
    let mut results = Vec::new(alloc);
    put_failure(&mut results, status, words)?;
    let mut message = Vec::new(alloc);
    put_reply(&mut message, xid, &ReplyBody::Success(results.as_slice()))?;
    Ok(message)
}

/// An answer without results of a failure, as a message.
fn short_message(alloc: Global, xid: u32, body: &ReplyBody<'_>) -> Result<Vec<u8>, AllocError>
    ensures { IfOk result (λ message. message.items ≡ reply_text xid (body_value body.now)) }
{
    let mut message = Vec::new(alloc);
    put_reply(&mut message, xid, body)?;
    Ok(message)
}

impl Plain {
    /// The answer as a message, to the call with this transaction number.
    pub(crate) fn message(self, alloc: Global, xid: u32) -> Result<Vec<u8>, AllocError>
        ensures { IfOk result (λ message. message.items ≡ reply_text xid (body_of self)) }
    {
        match self {
            Plain::NoProgram => short_message(alloc, xid, &ReplyBody::ProgUnavail),
            Plain::OtherVersion => {
                short_message(
                    alloc,
                    xid,
                    &ReplyBody::ProgMismatch(NFS_VERSION, NFS_VERSION),
                )
            }
            Plain::SealedCredential => {
                short_message(alloc, xid, &ReplyBody::AuthError(BAD_CREDENTIAL))
            }
            Plain::NoProcedure => short_message(alloc, xid, &ReplyBody::ProcUnavail),
            Plain::Nothing => short_message(alloc, xid, &ReplyBody::Success(&[])),
            Plain::Failed(status, words) => failure_message(alloc, xid, status, words),
            Plain::BadArguments => short_message(alloc, xid, &ReplyBody::GarbageArgs),
        }
    }
}
