//! From the bytes of a capture to a recorder's log.

use crate::fault::ImportFault;
use crate::gathering::{Gathered, gather};
use crate::import::{Import, import_lanes};
use crate::mount::root_in;
use crate::passed::PassedCounts;
use nfs3_types::{FileHandle, HANDLE_LIMIT};
use packet_capture::{CaptureFault, Packet, read_packets};
use std::alloc::Global;

/// What a capture says of an NFS server.
#[derive(Drop)]
pub struct CaptureLog {
    pub import: Import,
    /// How many connections it had.
    pub lanes: usize,
    /// Which packets have no part in it.
    pub passed: PassedCounts,
    /// Where the file is cut off amid a packet, if it is. What stands ahead of it was read.
    pub cut: Option<u64>,
}

/// The packets of a capture, and where it is cut off.
#[derive(Drop)]
struct Packets<'a> {
    all: Vec<Packet<'a>>,
    cut: Option<u64>,
}

/// The packets of a capture, or, if it is cut off behind its header, those that are whole.
fn packets_of<'a>(alloc: Global, capture: &'a [u8]) -> Result<Packets<'a>, ImportFault> {
    match read_packets(alloc, capture) {
        Ok(all) => Ok(Packets { all, cut: None }),
        Err(CaptureFault::Truncated(at)) if at > 0 => {
            let whole = &capture[..capture.len().min(at as usize)];
            Ok(Packets {
                all: read_packets(alloc, whole)?,
                cut: Some(at),
            })
        }
        Err(fault) => Err(ImportFault::from(fault)),
    }
}

/// The root handle that was given, or that the capture has: MOUNT mostly has a port of its own, so those of the server's are looked at last.
fn root_for(
    alloc: Global,
    gathered: &Gathered<'_>,
    root: Option<&[u8]>,
) -> Result<FileHandle, ImportFault> {
    if let Some(bytes) = root {
        if bytes.len() > HANDLE_LIMIT {
            return Err(ImportFault::LongRoot);
        }
        return Ok(FileHandle::from_slice(alloc, bytes)?);
    }
    if let Some(root) = root_in(alloc, gathered.others.as_slice())? {
        return Ok(root);
    }
    match root_in(alloc, gathered.lanes.as_slice())? {
        Some(root) => Ok(root),
        None => Err(ImportFault::NoRoot),
    }
}

/// The calls and replies of the connections of a capture to a port, each connection a lane. The root handle is the one that is given, or
/// else the one that a reply of MOUNT in the capture gives.
pub fn import_capture(
    alloc: Global,
    capture: &[u8],
    port: u16,
    root: Option<&[u8]>,
) -> Result<CaptureLog, ImportFault> {
    let packets = packets_of(alloc, capture)?;
    let gathered = gather(alloc, packets.all.as_slice(), port)?;
    let root = root_for(alloc, &gathered, root)?;
    let import = import_lanes(
        alloc,
        packets.all.as_slice(),
        root,
        gathered.lanes.as_slice(),
    )?;
    Ok(CaptureLog {
        import,
        lanes: gathered.lanes.len(),
        passed: gathered.passed,
        cut: packets.cut,
    })
}
