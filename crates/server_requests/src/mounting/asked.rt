//! Which answer a call gets.

ghost use Rattle.std.specs.Prelude.{◌≡◌, option_map};
ghost use Rattle.xdr_records.specs.Kinds.{Tells, kind_reading};
ghost use Rattle.rpc_reader.specs.Views.{call_value};
ghost use Rattle.server_requests.specs.Mounting.{path_results, of_a_handle, of_rights, mount_procedure, nfs_procedure, asks_for_limits};
ghost use Rattle.server_requests.specs.MountPlainly.{results_text, body_of, results_of, text_of, body_with, mount_body, body_ahead};

use crate::mounting::answer::{Answer, MOUNT_VERSION};
use crate::mounting::results::{ROOT_PATH, Results};
use nfs3_types::{HANDLE_LIMIT, NFS_PROGRAM, NFS_VERSION};
use rpc_reader::{CallHead, SEALED_FLAVOR};
use xdr_records::{Reader, XdrFault};

/// The program number of the MOUNT service (RFC 1813, section 5.1.2).
const MOUNT_PROGRAM: u32 = 100_005;

/// The greatest procedure of the MOUNT service, EXPORT.
const LAST_PROCEDURE: u32 = 5;

/// In bytes: `MNTPATHLEN` (RFC 1813, section 5.1.4).
const PATH_LIMIT: u32 = 1024;

/// What MNT of a path results in.
fn path_results(path: &[u8]) -> Results
    ensures { results_text result ≡ path_results path.now }
{
    if path == ROOT_PATH {
        Results::Root
    } else {
        Results::NoSuchPath
    }
}

/// Reads the arguments of a procedure of the MOUNT service, at most the last one, and gives its results.
#[tactic(auto, unfolding(crate::specs::Mounting::mount_procedure))]
fn read_mount(procedure: u32, reader: &mut Reader<'_>) -> Result<Results, XdrFault>
    ensures { Tells results_text reader.new result (kind_reading (λ fault. fault) (mount_procedure procedure) reader.old) }
{
    match procedure {
        0 | 4 => Ok(Results::Nothing),
        1 => Ok(path_results(reader.opaque(PATH_LIMIT)?)),
        2 => Ok(Results::NoMounts),
        3 => {
            reader.opaque(PATH_LIMIT)?;
            Ok(Results::Nothing)
        }
        _ => Ok(Results::Exports),
    }
}

/// Reads the handle that is all of a procedure's arguments, and gives its results. What the handle names isn't asked.
fn read_handle(reader: &mut Reader<'_>, results: Results) -> Result<Results, XdrFault>
    ensures { Tells results_text reader.new result (kind_reading (λ fault. fault) (of_a_handle (results_text results)) reader.old) }
{
    reader.opaque(HANDLE_LIMIT as u32)?;
    Ok(results)
}

/// Reads the arguments of ACCESS, and gives its results: an answer for a server that checks no rights.
fn read_access(reader: &mut Reader<'_>) -> Result<Results, XdrFault>
    ensures { Tells results_text reader.new result (kind_reading (λ fault. fault) of_rights reader.old) }
{
    reader.opaque(HANDLE_LIMIT as u32)?;
    Ok(Results::Rights(reader.u32()?))
}

/// Reads the arguments of ACCESS, FSSTAT, FSINFO or PATHCONF, and gives its results.
#[tactic(auto, unfolding(crate::specs::Mounting::nfs_procedure))]
fn read_nfs(procedure: u32, reader: &mut Reader<'_>) -> Result<Results, XdrFault>
    ensures { Tells results_text reader.new result (kind_reading (λ fault. fault) (nfs_procedure procedure) reader.old) }
{
    match procedure {
        4 => read_access(reader),
        18 => read_handle(reader, Results::Space),
        19 => read_handle(reader, Results::Transfers),
        _ => read_handle(reader, Results::Names),
    }
}

/// The results of a procedure of the MOUNT service whose arguments are all of the bytes.
fn mount_results(procedure: u32, args: &[u8]) -> Result<Results, XdrFault>
    ensures { text_of result ≡ results_of (mount_procedure procedure) args.now }
{
    let mut reader = Reader::new(args);
    let results = read_mount(procedure, &mut reader)?;
    reader.done()?;
    Ok(results)
}

/// The results of a procedure of NFS whose arguments are all of the bytes.
fn nfs_results(procedure: u32, args: &[u8]) -> Result<Results, XdrFault>
    ensures { text_of result ≡ results_of (nfs_procedure procedure) args.now }
{
    let mut reader = Reader::new(args);
    let results = read_nfs(procedure, &mut reader)?;
    reader.done()?;
    Ok(results)
}

/// What is answered where arguments were read so.
fn answer_with(read: Result<Results, XdrFault>) -> Answer
    ensures { body_of result ≡ body_with (text_of read) }
{
    match read {
        Ok(results) => Answer::Done(results),
        Err(_) => Answer::BadArguments,
    }
}

/// What is answered to a call of the MOUNT service.
fn mount_answer(head: &CallHead<'_>) -> Answer
    ensures { body_of result ≡ mount_body (call_value head.now) }
{
    if head.version != MOUNT_VERSION {
        Answer::OtherVersion
    } else if head.procedure > LAST_PROCEDURE {
        Answer::NoProcedure
    } else {
        answer_with(mount_results(head.procedure, head.args))
    }
}

/// Whether a call asks NFS for rights or limits.
fn asks_for_limits(head: &CallHead<'_>) -> bool
    ensures { result ≡ asks_for_limits (call_value head.now) }
{
    head.program == NFS_PROGRAM
        && head.version == NFS_VERSION
        && head.flavor != SEALED_FLAVOR
        && matches!(head.procedure, 4 | 18 | 19 | 20)
}

/// What is answered to a call with this head.
pub(crate) fn answer_to(head: &CallHead<'_>) -> Option<Answer>
    ensures { option_map body_of result ≡ body_ahead (call_value head.now) }
{
    if head.program == MOUNT_PROGRAM {
        Some(mount_answer(head))
    } else if asks_for_limits(head) {
        Some(answer_with(nfs_results(head.procedure, head.args)))
    } else {
        None
    }
}
