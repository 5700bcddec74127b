//! Which calls are known to have had no effect, by their heads and replies.

ghost use Rattle.std.specs.Prelude.{◌≡◌, ◌==◌, option_map};
ghost use Rattle.rpc_reader.specs.Values.{sealed_flavor};
ghost use Rattle.rpc_reader.specs.Views.{call_value, body_value};
ghost use Rattle.nfs3_types.specs.Procedures.{is_judged};
ghost use Rattle.nfs_history.specs.Matching.{bytes_of};
ghost use Rattle.nfs_history.specs.Effects.{was_refused, results_of, has_failed_status, is_left_out, has_no_effect};
ghost use Rattle.nfs_history.specs.CallFaults.{which_left_out};

use crate::fault::Which;
use byteorder::{BigEndian, ByteOrder};
use nfs3_types::{NFS_PROGRAM, NFS_VERSION, Procedure};
use rpc_reader::{CallHead, ReplyBody, SEALED_FLAVOR};

/// The result that a reply holds.
pub(crate) fn results_of<'a>(body: &Option<ReplyBody<'a>>) -> Option<&'a [u8]>
    ensures { bytes_of result ≡ results_of (option_map body_value body.now) }
{
    match body {
        Some(ReplyBody::Success(results)) => Some(*results),
        _ => None,
    }
}

/// Whether any reply but an accepted SUCCESS came.
fn was_refused(body: &Option<ReplyBody<'_>>) -> bool
    ensures { result ≡ was_refused (option_map body_value body.now) }
{
    match body {
        None | Some(ReplyBody::Success(_)) => false,
        Some(_) => true,
    }
}

/// Whether a result begins with a status other than 0.
#[tactic(auto, unfolding(xdr_records::specs::Items::word_of))]
fn has_failed_status(results: Option<&[u8]>) -> bool
    ensures { result ≡ has_failed_status (bytes_of results.entry) }
{
    match results {
        Some(results) => results.len() >= 4 && BigEndian::read_u32(results) != 0,
        None => false,
    }
}

/// Whether RPCSEC_GSS hides a call's arguments.
pub(crate) fn is_sealed(head: &CallHead<'_>) -> bool
    ensures { result ≡ (head.now.flavor == sealed_flavor) }
{
    head.flavor == SEALED_FLAVOR
}

/// Whether the procedure of this number is judged.
pub(crate) fn is_judged(number: u32) -> bool
    ensures { result ≡ is_judged number }
{
    match Procedure::from_number(number) {
        Some(procedure) => procedure.is_judged(),
        None => false,
    }
}

/// Whether it is MKNOD or LINK.
fn is_left_out(number: u32) -> bool
    ensures { result ≡ is_left_out number }
{
    matches!(
        Procedure::from_number(number),
        Some(Procedure::MkNod | Procedure::Link)
    )
}

/// Whether a call is known to have had no effect.
pub(crate) fn has_no_effect(head: &CallHead<'_>, body: &Option<ReplyBody<'_>>) -> bool
    ensures { result ≡ has_no_effect (call_value head.now) (option_map body_value body.now) }
{
    if was_refused(body) || head.program != NFS_PROGRAM || head.version != NFS_VERSION {
        return true;
    }
    if is_sealed(head) {
        return false;
    }
    if is_left_out(head.procedure) {
        has_failed_status(results_of(body))
    } else {
        !is_judged(head.procedure)
    }
}

/// MKNOD or LINK.
pub(crate) fn which_left_out(number: u32) -> Which
    ensures { result ≡ which_left_out number }
{
    if number == Procedure::Link.number() {
        Which::Link
    } else {
        Which::Node
    }
}
