//! The head of a call.

ghost use Rattle.std.specs.Prelude.{◌≡◌, IfOk, IfErr, IsOkAnd};
ghost use Rattle.xdr_records.specs.Grammar.Grammar.{named};
ghost use Rattle.xdr_records.specs.Kinds.{Tells, kind_reading};
ghost use Rattle.rpc_reader.specs.Heads.{kind_of, call_type, two, call_head};
ghost use Rattle.rpc_reader.specs.declared.fault.RpcFault.{RpcFault};
ghost use Rattle.rpc_reader.specs.Values.{CallValue};
ghost use Rattle.rpc_reader.specs.Views.{call_value};
ghost use Rattle.rpc_reader.specs.Messages.{call_start, IsCall, CallFails};

use crate::fault::RpcFault;
use crate::item::{auth, word};
use xdr_records::Reader;

/// The credential flavor of RPCSEC_GSS, which hides a call's arguments (RFC 5531, section 8.2; RFC 2203).
pub const SEALED_FLAVOR: u32 = 6;

/// A call of a procedure. Its arguments are the bytes of the message behind the head.
#[derive(Clone, Copy)]
pub struct CallHead<'a> {
    /// `xid`: the transaction identifier, which the reply repeats.
    pub xid: u32,
    /// `prog`: the number of the program.
    pub program: u32,
    /// `vers`: the version of the program.
    pub version: u32,
    /// `proc`: the number of the procedure.
    pub procedure: u32,
    /// The flavor of the credential.
    pub flavor: u32,
    /// The arguments: the bytes behind the verifier.
    pub args: &'a [u8],
}

fn call_type(reader: &mut Reader<'_>) -> Result<(), RpcFault>
    ensures { Tells (λ u. u) reader.new result (kind_reading kind_of (named call_type) reader.old) }
{
    match word(reader)? {
        0 => Ok(()),
        1 => Err(RpcFault::NotCall),
        _ => Err(RpcFault::BadEnum),
    }
}

fn rpc_version(reader: &mut Reader<'_>) -> Result<(), RpcFault>
    ensures { Tells (λ u. u) reader.new result (kind_reading kind_of (named two) reader.old) }
{
    if word(reader)? == 2 {
        Ok(())
    } else {
        Err(RpcFault::BadVersion)
    }
}

// The head at the front, with what is left as its arguments.
#[tactic(auto, unfolding(crate::specs::Heads::call_head))]
fn head<'a>(reader: &mut Reader<'a>) -> Result<CallHead<'a>, RpcFault>
    ensures start { Tells (λ call. call_start (call_value call)) reader.new result (kind_reading kind_of call_head reader.old) }
    ensures args { IfOk result (λ call. call.args.now ≡ reader.new.rest) }
{
    let xid = word(reader)?;
    call_type(reader)?;
    rpc_version(reader)?;
    let program = word(reader)?;
    let version = word(reader)?;
    let procedure = word(reader)?;
    let flavor = auth(reader)?;
    auth(reader)?;
    Ok(CallHead {
        xid,
        program,
        version,
        procedure,
        flavor,
        args: reader.rest(),
    })
}

/// The call that a message is. Nothing is copied.
pub fn read_call(message: &[u8]) -> Result<CallHead<'_>, RpcFault>
    // What is read is the message.
    ensures found { IfOk result (λ call. IsCall message.now (call_value call)) }
    // What the message is, is read.
    ensures only { (value : CallValue) → IsCall message.now value → IsOkAnd result (λ call. call_value call ≡ value) }
    // The fault is that of the first item at fault, and comes wherever one is.
    ensures fault { IfErr result (λ fault. CallFails message.now fault) }
    ensures fails { (fault : RpcFault) → CallFails message.now fault → result ≡ Err fault }
{
    head(&mut Reader::new(message))
}
