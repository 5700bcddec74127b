//! The results of the procedures, and what they say of the bundled server.

ghost use Rattle.std.specs.Prelude.{◌≡◌, ◌++◌, OnOk, flat_map};
ghost use Rattle.xdr_records.specs.Texts.{word_text, long_text};
ghost use Rattle.server_requests.specs.Results.{done_text, root_text, exports_text, rights_text, space_text, transfers_text, names_text};
ghost use Rattle.server_requests.specs.MountPlainly.{results_text};

use nfs3_types::{FILE_LIMIT, TRANSFER_LIMIT};
use std::alloc::AllocError;
use xdr_records::{put_flag, put_opaque, put_u32, put_u64};

/// The path of the one export.
pub(crate) const ROOT_PATH: &[u8] = b"/";

/// The handle of the bundled server's root directory.
const ROOT_HANDLE: [u8; 8] = [0; 8];

/// How many flavors of credentials are taken, and which: `AUTH_SYS` and `AUTH_NONE` (RFC 5531, section 8.2).
const FLAVORS: [u32; 3] = [2, 1, 0];

/// `MNT3ERR_NOENT` (RFC 1813, section 5.1.5).
const NO_SUCH_PATH: u32 = 2;

/// What FSINFO tells of READ, WRITE and READDIR alike. A WRITE of so many bytes is within the bundled server's limit of a record, 2,097,152
/// bytes.
const TRANSFER: u32 = TRANSFER_LIMIT as u32;

/// In bytes: a number of this project's own. The bundled server has its files in memory, with no limit on all of them.
const ROOM: u64 = 1_099_511_627_776;

/// The most objects that the bundled server holds.
const OBJECTS: u64 = 4_294_967_295;

/// An object has one name, since LINK isn't served.
const LINKS: u32 = 1;

/// In bytes: what a client may count on. The bundled server has no limit on names and shortens none, so `no_trunc` is told. But two names
/// of a MiB are over the limit of a RENAME's record, and one is over that of a READDIR's reply. 255 is what most file systems have.
const NAME_LIMIT: u32 = 255;

/// `FSF3_SYMLINK` and `FSF3_HOMOGENEOUS` (RFC 1813, section 3.3.19). There are no hard links, and no times can be set.
const PROPERTIES: u32 = 0x2 + 0x8;

/// The results of a procedure.
#[derive(Clone, Copy)]
pub(crate) enum Results {
    /// Of NULL, UMNT and UMNTALL.
    Nothing,
    /// Of MNT, with the root's handle.
    Root,
    /// Of MNT.
    NoSuchPath,
    /// Of DUMP.
    NoMounts,
    /// Of EXPORT.
    Exports,
    /// Of ACCESS: those that were asked for.
    Rights(u32),
    /// Of FSSTAT.
    Space,
    /// Of FSINFO.
    Transfers,
    /// Of PATHCONF.
    Names,
}

/// Appends numbers as words.
fn put_words(out: &mut Vec<u8>, words: &[u32]) -> Result<(), AllocError>
    ensures { OnOk result (out.new.items ≡ out.old.items ++ flat_map word_text words.now) }
{
    for word in words {
        put_u32(out, *word)?;
    }
    Ok(())
}

/// Appends numbers as two words each.
fn put_longs(out: &mut Vec<u8>, longs: &[u64]) -> Result<(), AllocError>
    ensures { OnOk result (out.new.items ≡ out.old.items ++ flat_map long_text longs.now) }
{
    for long in longs {
        put_u64(out, *long)?;
    }
    Ok(())
}

/// Of MNT.
#[tactic(auto, unfolding(crate::specs::Results::root_text))]
fn put_root(out: &mut Vec<u8>) -> Result<(), AllocError>
    ensures { OnOk result (out.new.items ≡ out.old.items ++ root_text) }
{
    put_u32(out, 0)?;
    put_opaque(out, &ROOT_HANDLE)?;
    put_words(out, &FLAVORS)
}

/// Of EXPORT.
#[tactic(auto, unfolding(crate::specs::Results::exports_text))]
fn put_exports(out: &mut Vec<u8>) -> Result<(), AllocError>
    ensures { OnOk result (out.new.items ≡ out.old.items ++ exports_text) }
{
    put_flag(out, true)?;
    put_opaque(out, ROOT_PATH)?;
    put_flag(out, false)?;
    put_flag(out, false)
}

/// `NFS3_OK`, and no attributes.
#[tactic(auto, unfolding(crate::specs::Results::done_text))]
fn put_done(out: &mut Vec<u8>) -> Result<(), AllocError>
    ensures { OnOk result (out.new.items ≡ out.old.items ++ done_text) }
{
    put_u32(out, 0)?;
    put_flag(out, false)
}

/// Of ACCESS.
#[tactic(auto, unfolding(crate::specs::Results::rights_text))]
fn put_rights(out: &mut Vec<u8>, rights: u32) -> Result<(), AllocError>
    ensures { OnOk result (out.new.items ≡ out.old.items ++ rights_text rights) }
{
    put_done(out)?;
    put_u32(out, rights)
}

/// Of FSSTAT.
#[tactic(auto, unfolding(crate::specs::Results::space_text))]
fn put_space(out: &mut Vec<u8>) -> Result<(), AllocError>
    ensures { OnOk result (out.new.items ≡ out.old.items ++ space_text) }
{
    put_done(out)?;
    put_longs(out, &[ROOM, ROOM, ROOM, OBJECTS, OBJECTS, OBJECTS])?;
    put_u32(out, 0)
}

/// Of FSINFO.
#[tactic(auto, unfolding(crate::specs::Results::transfers_text))]
fn put_transfers(out: &mut Vec<u8>) -> Result<(), AllocError>
    ensures { OnOk result (out.new.items ≡ out.old.items ++ transfers_text) }
{
    put_done(out)?;
    put_words(
        out,
        &[TRANSFER, TRANSFER, 1, TRANSFER, TRANSFER, 1, TRANSFER],
    )?;
    put_u64(out, FILE_LIMIT)?;
    put_words(out, &[0, 1, PROPERTIES])
}

/// Of PATHCONF.
#[tactic(auto, unfolding(crate::specs::Results::names_text))]
fn put_names(out: &mut Vec<u8>) -> Result<(), AllocError>
    ensures { OnOk result (out.new.items ≡ out.old.items ++ names_text) }
{
    put_done(out)?;
    put_words(out, &[LINKS, NAME_LIMIT])?;
    put_flag(out, true)?;
    put_flag(out, true)?;
    put_flag(out, false)?;
    put_flag(out, true)
}

impl Results {
    /// Appends them.
    pub(crate) fn put(self, out: &mut Vec<u8>) -> Result<(), AllocError>
        ensures { OnOk result (out.new.items ≡ out.old.items ++ results_text self) }
    {
        match self {
            Results::Nothing => Ok(()),
            Results::Root => put_root(out),
            Results::NoSuchPath => put_u32(out, NO_SUCH_PATH),
            Results::NoMounts => put_flag(out, false),
            Results::Exports => put_exports(out),
            Results::Rights(rights) => put_rights(out, rights),
            Results::Space => put_space(out),
            Results::Transfers => put_transfers(out),
            Results::Names => put_names(out),
        }
    }
}
