//! The flavors of credentials that an export takes.

ghost use Rattle.std.specs.Prelude.{◌≡◌, ◌||◌};
ghost use Rattle.xdr_records.specs.Kinds.{Tells, kind_reading};
ghost use Rattle.mount_client.specs.Mounting.{is_ours, flavors};

use xdr_records::{Reader, XdrFault};

/// Whether one of the flavors so far, or this one, is AUTH_NONE (0) or AUTH_SYS (1), the flavors that are asked with (RFC 5531, section 8.2).
fn with_flavor(is_taken: bool, flavor: u32) -> bool
    ensures { result ≡ (is_taken || is_ours flavor) }
{
    is_taken || flavor == 0 || flavor == 1
}

/// Reads so many flavors, and tells whether AUTH_SYS or AUTH_NONE is one of them, or there are none.
pub(crate) fn read_flavors(count: u32, reader: &mut Reader<'_>) -> Result<bool, XdrFault>
    ensures { Tells (λ taken. taken) reader.new result (kind_reading (λ fault. fault) (flavors count) reader.old) }
{
    let mut is_taken = count == 0;
    for _ in 0..count {
        let flavor = reader.u32()?;
        is_taken = with_flavor(is_taken, flavor);
    }
    Ok(is_taken)
}
