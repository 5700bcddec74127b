//! The result of MNT.

ghost use Rattle.std.specs.Prelude.{◌≡◌};
ghost use Rattle.xdr_records.specs.Kinds.{Tells, kind_reading};
ghost use Rattle.mount_client.specs.Mounting.{mountres3};
ghost use Rattle.mount_client.specs.Hearing.{told_value, IsRead, value_of, result_of};

use crate::flavors::read_flavors;
use nfs3_types::HANDLE_LIMIT;
use xdr_records::{Reader, XdrFault};

/// What MNT results in.
#[derive(Clone, Copy)]
pub(crate) enum Told<'a> {
    /// The root's handle, and whether the export takes AUTH_SYS or AUTH_NONE.
    Mounted(&'a [u8], bool),
    /// A status other than `MNT3_OK`.
    Failed(u32),
}

/// The result at the front of what is left.
#[tactic(auto, unfolding(crate::specs::Mounting::mountres3))]
fn result_from<'a>(reader: &mut Reader<'a>) -> Result<Told<'a>, XdrFault>
    ensures { Tells told_value reader.new result (kind_reading (λ fault. fault) mountres3 reader.old) }
{
    match reader.u32()? {
        0 => {
            let root = reader.opaque(HANDLE_LIMIT as u32)?;
            let count = reader.u32()?;
            Ok(Told::Mounted(root, read_flavors(count, reader)?))
        }
        status => Ok(Told::Failed(status)),
    }
}

/// The result that is all of the bytes.
fn all_results(bytes: &[u8]) -> Result<Told<'_>, XdrFault>
    ensures { value_of result ≡ result_of bytes.now }
{
    let mut reader = Reader::new(bytes);
    let told = result_from(&mut reader)?;
    reader.done()?;
    Ok(told)
}

/// The result that is all of the bytes.
#[tactic(auto, using(crate::proofs::AllRead::is_read))]
pub(crate) fn read_mount(bytes: &[u8]) -> Result<Told<'_>, XdrFault>
    ensures { IsRead bytes.now result }
{
    all_results(bytes)
}
