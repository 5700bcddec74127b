//! Calls and replies appended to some bytes, in the one spelling that is written.

ghost use Rattle.std.specs.Prelude.{◌≡◌, ◌++◌, OnOk, OnErr};
ghost use Rattle.xdr_records.specs.Texts.{word_text};
ghost use Rattle.rpc_reader.specs.Views.{body_value};
ghost use Rattle.rpc_reader.specs.Messages.{IsCall, IsReply};
ghost use Rattle.rpc_reader.specs.Texts.{no_auth_text, call_body_text, call_head_text, call_text, versions_text, accepted_text, denied_text, reply_body_text, reply_head_text, results_of, reply_text, BodyFits};

use crate::reply::ReplyBody;
use std::alloc::AllocError;
use xdr_records::{put_opaque, put_u32};

/// The bytes of a call's head.
const CALL_HEAD: usize = 40;

/// The most bytes of a reply's head.
const REPLY_HEAD: usize = 32;

// Appends both, or nothing.
fn append_both(out: &mut Vec<u8>, front: &[u8], back: &[u8]) -> Result<(), AllocError>
    ensures ok { OnOk result (out.new.items ≡ out.old.items ++ (front.now ++ back.now)) }
    ensures err { OnErr result (out.new.items ≡ out.old.items) }
{
    out.reserve(front.len() + back.len())?;
    out.extend_from_slice(front)?;
    out.extend_from_slice(back)
}

// A credential or a verifier of flavor 0 with no bytes.
#[tactic(auto, unfolding(crate::specs::Texts::no_auth_text))]
fn put_no_auth(out: &mut Vec<u8>) -> Result<(), AllocError>
    ensures { OnOk result (out.new.items ≡ out.old.items ++ no_auth_text) }
{
    put_u32(out, 0)?;
    put_opaque(out, &[])
}

// What a call asks for, up to its arguments.
#[tactic(auto, unfolding(crate::specs::Texts::call_body_text))]
fn put_call_body(
    out: &mut Vec<u8>,
    program: u32,
    version: u32,
    procedure: u32,
) -> Result<(), AllocError>
    ensures { OnOk result (out.new.items ≡ out.old.items ++ call_body_text program version procedure) }
{
    put_u32(out, 2)?;
    put_u32(out, program)?;
    put_u32(out, version)?;
    put_u32(out, procedure)?;
    put_no_auth(out)?;
    put_no_auth(out)
}

// A call up to its arguments.
#[tactic(auto, unfolding(crate::specs::Texts::call_head_text))]
fn put_call_head(
    out: &mut Vec<u8>,
    xid: u32,
    program: u32,
    version: u32,
    procedure: u32,
) -> Result<(), AllocError>
    ensures { OnOk result (out.new.items ≡ out.old.items ++ call_head_text xid program version procedure) }
{
    put_u32(out, xid)?;
    put_u32(out, 0)?;
    put_call_body(out, program, version, procedure)
}

/// Appends a call with an empty credential and an empty verifier, both of flavor 0 (RFC 5531, section 8.2).
/// The arguments stand behind the head as they are.
#[tactic(auto, unfolding(crate::specs::Texts::call_text), using(crate::proofs::Spelled::call_spelled))]
pub fn put_call(
    out: &mut Vec<u8>,
    xid: u32,
    program: u32,
    version: u32,
    procedure: u32,
    args: &[u8],
) -> Result<(), AllocError>
    ensures ok { OnOk result (out.new.items ≡ out.old.items ++ call_text xid program version procedure args.now) }
    ensures err { OnErr result (out.new.items ≡ out.old.items) }
    // What is written is this call.
    ensures spelled { OnOk result (IsCall (call_text xid program version procedure args.now)
        (record { xid = xid; program = program; version = version; procedure = procedure; flavor = 0; args = args.now })) }
{
    let mut head = Vec::with_capacity(*out.allocator(), CALL_HEAD)?;
    put_call_head(&mut head, xid, program, version, procedure)?;
    append_both(out, &head, args)
}

// The lowest and the highest version.
#[tactic(auto, unfolding(crate::specs::Texts::versions_text))]
fn put_versions(out: &mut Vec<u8>, low: u32, high: u32) -> Result<(), AllocError>
    ensures { OnOk result (out.new.items ≡ out.old.items ++ versions_text low high) }
{
    put_u32(out, low)?;
    put_u32(out, high)
}

// An accepted reply up to the words behind its status.
#[tactic(auto, unfolding(crate::specs::Texts::accepted_text))]
fn put_accepted(out: &mut Vec<u8>, status: u32) -> Result<(), AllocError>
    ensures { OnOk result (out.new.items ≡ out.old.items ++ accepted_text (word_text status)) }
{
    put_u32(out, 0)?;
    put_no_auth(out)?;
    put_u32(out, status)
}

// A denied reply up to the words behind its status.
#[tactic(auto, unfolding(crate::specs::Texts::denied_text))]
fn put_denied(out: &mut Vec<u8>, status: u32) -> Result<(), AllocError>
    ensures { OnOk result (out.new.items ≡ out.old.items ++ denied_text (word_text status)) }
{
    put_u32(out, 1)?;
    put_u32(out, status)
}

// What a reply says of its call, up to the results.
#[tactic(auto, unfolding(crate::specs::Texts::reply_body_text, crate::specs::Texts::accepted_text, crate::specs::Texts::denied_text, crate::specs::Texts::BodyFits))]
fn put_reply_body(out: &mut Vec<u8>, body: &ReplyBody<'_>) -> Result<(), AllocError>
    ensures ok { OnOk result (out.new.items ≡ out.old.items ++ reply_body_text (body_value body.now)) }
    ensures fits { OnOk result (BodyFits (body_value body.now)) }
{
    match body {
        ReplyBody::Success(_) => put_accepted(out, 0),
        ReplyBody::ProgUnavail => put_accepted(out, 1),
        ReplyBody::ProgMismatch(low, high) => {
            put_accepted(out, 2)?;
            put_versions(out, *low, *high)
        }
        ReplyBody::ProcUnavail => put_accepted(out, 3),
        ReplyBody::GarbageArgs => put_accepted(out, 4),
        ReplyBody::SystemErr => put_accepted(out, 5),
        ReplyBody::RpcMismatch(low, high) => {
            put_denied(out, 0)?;
            put_versions(out, *low, *high)
        }
        ReplyBody::AuthError(status) => {
            put_denied(out, 1)?;
            put_u32(out, *status)
        }
    }
}

// A reply up to its results.
#[tactic(auto, unfolding(crate::specs::Texts::reply_head_text))]
fn put_reply_head(out: &mut Vec<u8>, xid: u32, body: &ReplyBody<'_>) -> Result<(), AllocError>
    ensures ok { OnOk result (out.new.items ≡ out.old.items ++ reply_head_text xid (body_value body.now)) }
    ensures fits { OnOk result (BodyFits (body_value body.now)) }
{
    put_u32(out, xid)?;
    put_u32(out, 1)?;
    put_reply_body(out, body)
}

// The results, where there are any.
#[tactic(auto, unfolding(crate::specs::Texts::results_of))]
fn results<'a>(body: &ReplyBody<'a>) -> &'a [u8]
    ensures { result.now ≡ results_of (body_value body.now) }
{
    match body {
        ReplyBody::Success(results) => results,
        _ => &[],
    }
}

/// Appends a reply, which has an empty verifier of flavor 0 where its call was accepted (RFC 5531, section 8.2).
/// Results stand behind the head as they are.
#[tactic(auto, unfolding(crate::specs::Texts::reply_text), using(crate::proofs::Spelled::reply_spelled))]
pub fn put_reply(out: &mut Vec<u8>, xid: u32, body: &ReplyBody<'_>) -> Result<(), AllocError>
    ensures ok { OnOk result (out.new.items ≡ out.old.items ++ reply_text xid (body_value body.now)) }
    ensures err { OnErr result (out.new.items ≡ out.old.items) }
    // What is written is this reply.
    ensures spelled { OnOk result (IsReply (reply_text xid (body_value body.now))
        (record { xid = xid; body = body_value body.now })) }
{
    let mut head = Vec::with_capacity(*out.allocator(), REPLY_HEAD)?;
    put_reply_head(&mut head, xid, body)?;
    append_both(out, &head, results(body))
}
