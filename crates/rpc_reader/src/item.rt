//! The items that heads are made of.

ghost use Rattle.std.specs.Prelude.{◌≡◌};
ghost use Rattle.xdr_records.specs.Grammar.Grammar.{one_word};
ghost use Rattle.xdr_records.specs.Kinds.{Tells, kind_reading};
ghost use Rattle.rpc_reader.specs.Heads.{kind_of, auth};

use crate::fault::RpcFault;
use xdr_records::{Reader, XdrFault};

/// The most bytes of a credential or a verifier.
const AUTH_LIMIT: u32 = 400;

// An item's fault in a head.
pub(crate) fn rpc_fault(fault: XdrFault) -> RpcFault
    ensures { result ≡ kind_of fault }
{
    match fault {
        XdrFault::Short => RpcFault::Short,
        XdrFault::BadFlag => RpcFault::BadEnum,
        XdrFault::TooLong => RpcFault::AuthTooLong,
        XdrFault::Trailing => RpcFault::Trailing,
    }
}

pub(crate) fn word(reader: &mut Reader<'_>) -> Result<u32, RpcFault>
    ensures { Tells (λ n. n) reader.new result (kind_reading kind_of one_word reader.old) }
{
    reader.u32().map_err(rpc_fault)
}

// A credential or a verifier: its flavor.
#[tactic(auto, unfolding(crate::specs::Heads::auth))]
pub(crate) fn auth(reader: &mut Reader<'_>) -> Result<u32, RpcFault>
    ensures { Tells (λ n. n) reader.new result (kind_reading kind_of auth reader.old) }
{
    let flavor = word(reader)?;
    reader.opaque(AUTH_LIMIT).map_err(rpc_fault)?;
    Ok(flavor)
}
