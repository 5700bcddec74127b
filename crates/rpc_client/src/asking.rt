//! The message of a call.

ghost use Rattle.std.specs.Prelude.{ℕ, List, ◌≡◌, ◌++◌, OnOk};
ghost use Rattle.nfs3_types.specs.Procedures.{procedure_called};
ghost use Rattle.nfs3_msgs.specs.Messages.{arguments_text};
ghost use Rattle.rpc_reader.specs.Messages.{IsCall};
ghost use Rattle.rpc_client.specs.Asking.{body_text, credential_text, verifier_text, asked_text, head_text, called, message_text};

use nfs3_msgs::{NfsCall, put_args};
use nfs3_types::{NFS_PROGRAM, NFS_VERSION};
use std::alloc::AllocError;
use xdr_records::{put_opaque, put_u32};

/// Who asks: the user and the group of an AUTH_SYS credential (RFC 5531, appendix A).
#[derive(Clone, Copy)]
pub struct Credential {
    pub uid: u32,
    pub gid: u32,
}

/// Which procedure a call asks for, of which program in which version (RFC 5531, section 9).
#[derive(Clone, Copy)]
pub struct Asked {
    pub program: u32,
    pub version: u32,
    pub procedure: u32,
}

/// The flavor of AUTH_SYS (RFC 5531, section 8.2).
const AUTH_SYS: u32 = 1;

/// The name of the machine in a credential.
const MACHINE: &[u8] = b"nfsbench";

/// The bytes of a credential's body.
const BODY: usize = 28;

/// The body of a credential (RFC 5531, appendix A): a stamp of 0, the machine's name, user and group, and no further groups.
#[tactic(auto, unfolding(crate::specs::Asking::body_text))]
fn put_body(out: &mut Vec<u8>, who: Credential) -> Result<(), AllocError>
    ensures { OnOk result (out.new.items ≡ out.old.items ++ body_text who) }
{
    put_u32(out, 0)?;
    put_opaque(out, MACHINE)?;
    put_u32(out, who.uid)?;
    put_u32(out, who.gid)?;
    put_u32(out, 0)
}

/// A credential of AUTH_SYS.
#[tactic(auto, unfolding(crate::specs::Asking::credential_text), using(crate::proofs::Credentials::body_fits))]
fn put_credential(out: &mut Vec<u8>, who: Credential) -> Result<(), AllocError>
    ensures { OnOk result (out.new.items ≡ out.old.items ++ credential_text who) }
{
    let mut body = Vec::with_capacity(*out.allocator(), BODY)?;
    put_body(&mut body, who)?;
    put_u32(out, AUTH_SYS)?;
    put_opaque(out, body.as_slice())
}

/// A verifier of AUTH_NONE.
#[tactic(auto, unfolding(crate::specs::Asking::verifier_text))]
fn put_verifier(out: &mut Vec<u8>) -> Result<(), AllocError>
    ensures { OnOk result (out.new.items ≡ out.old.items ++ verifier_text) }
{
    put_u32(out, 0)?;
    put_opaque(out, &[])
}

/// What a call asks for, and who asks.
#[tactic(auto, unfolding(crate::specs::Asking::asked_text))]
fn put_asked(out: &mut Vec<u8>, who: Credential, asked: Asked) -> Result<(), AllocError>
    ensures { OnOk result (out.new.items ≡ out.old.items ++ asked_text who asked) }
{
    put_u32(out, 2)?;
    put_u32(out, asked.program)?;
    put_u32(out, asked.version)?;
    put_u32(out, asked.procedure)?;
    put_credential(out, who)?;
    put_verifier(out)
}

/// Appends the message of a call up to its arguments, without record marking, or a front of it if memory runs out.
#[tactic(auto, unfolding(crate::specs::Asking::head_text), using(crate::proofs::Credentials::call_spelled))]
pub fn put_call_head(
    out: &mut Vec<u8>,
    xid: u32,
    who: Credential,
    asked: Asked,
) -> Result<(), AllocError>
    ensures text { OnOk result (out.new.items ≡ out.old.items ++ head_text xid who asked) }
    // With any arguments after it, it is this call, with a credential of flavor 1.
    ensures spelled { OnOk result ((args : List ℕ) → IsCall (head_text xid who asked ++ args) (called xid asked args)) }
{
    put_u32(out, xid)?;
    put_u32(out, 0)?;
    put_asked(out, who, asked)
}

/// Appends the message of a call of NFS version 3, without record marking, or a front of it if memory runs out.
#[tactic(auto, using(crate::proofs::Credentials::message_spelled))]
pub fn put_message(
    out: &mut Vec<u8>,
    xid: u32,
    who: Credential,
    call: &NfsCall,
) -> Result<(), AllocError>
    ensures text { OnOk result (out.new.items ≡ out.old.items ++ message_text xid who call.now) }
    // What is written is this call, of program 100003 in version 3, with a credential of flavor 1.
    ensures spelled { OnOk result (IsCall (message_text xid who call.now)
        (record { xid = xid; program = 100003; version = 3; procedure = procedure_called call.now; flavor = 1; args = arguments_text call.now })) }
{
    let asked = Asked {
        program: NFS_PROGRAM,
        version: NFS_VERSION,
        procedure: call.procedure().number(),
    };
    put_call_head(out, xid, who, asked)?;
    put_args(out, call)
}
