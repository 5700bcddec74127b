//! Calls that are answered before a server sees them, as RFC 1813 spells them, sections 3.3 and 5.2, and messages that are left to it.

use server_requests::mount_reply;
use std::alloc::Global;
use std::test::Fail;
use xdr_records::{put_opaque, put_u32};

/// A reply to call 7 up to its status: REPLY, MSG_ACCEPTED and an empty verifier (RFC 5531, section 9).
const ACCEPTED: &[u8] = b"\0\0\0\x07\0\0\0\x01\0\0\0\0\0\0\0\0\0\0\0\0";

/// A program, its version, and the flavor of an empty credential.
type Caller = [u32; 3];

const MOUNT: Caller = [100_005, 3, 0];

const NFS: Caller = [100_003, 3, 1];

/// The handle of the root directory, as an argument, in hex.
const ROOT: &str = "000000080000000000000000";

/// The same, and rights that are asked for.
const RIGHTS: &str = "0000000800000000000000000000001f";

/// What is said of the root that is mounted, of exports, of the limits of transfers, of the space, and of names.
const MOUNTED: &str = "0000000000000000000000080000000000000000000000020000000100000000";

const EXPORTS: &str = "0000000000000001000000012f0000000000000000000000";

const TRANSFERS: &str = "000000000000000000000000001000000010000000000001001000000010000000000001\
    00100000000000000100000000000000000000010000000a";

const SPACE: &str =
    "00000000000000000000000000000100000000000000010000000000000001000000000000000000\
    ffffffff00000000ffffffff00000000ffffffff00000000";

const NAMES: &str = "00000000000000000000000000000001000000ff00000001000000010000000000000001";

/// A call's procedure and arguments, and what its reply has after the verifier, in hex; nothing, if the message is left to the server.
const ASKED: [(Caller, u32, &str, Option<&str>); 19] = [
    (MOUNT, 1, "000000012f000000", Some(MOUNTED)),
    (MOUNT, 1, "00000000", Some("0000000000000002")),
    (MOUNT, 1, "000000022f780000", Some("0000000000000002")),
    (MOUNT, 2, "", Some("0000000000000000")),
    (MOUNT, 3, "000000012f000000", Some("00000000")),
    (MOUNT, 4, "", Some("00000000")),
    (MOUNT, 5, "", Some(EXPORTS)),
    (MOUNT, 5, "00000000", Some("00000004")),
    (MOUNT, 6, "", Some("00000003")),
    // The service has version 3 alone.
    ([100_005, 3, 6], 0, "", Some("00000000")),
    ([100_005, 1, 6], 0, "", Some("000000020000000300000003")),
    // The rights that are asked for are given.
    (NFS, 4, RIGHTS, Some("0000000000000000000000000000001f")),
    (NFS, 4, ROOT, Some("00000004")),
    (NFS, 19, ROOT, Some(TRANSFERS)),
    (NFS, 18, ROOT, Some(SPACE)),
    (NFS, 20, ROOT, Some(NAMES)),
    (NFS, 20, "0000000800000000", Some("00000004")),
    (NFS, 1, ROOT, None),
    ([100_003, 3, 6], 19, ROOT, None),
];

/// Call 7 of a procedure, with these arguments.
fn call(alloc: Global, caller: Caller, procedure: u32, arguments: &[u8]) -> Result<Vec<u8>, Fail> {
    let [program, version, flavor] = caller;
    let mut message = Vec::new(alloc);
    for word in [7, 0, 2, program, version, procedure, flavor, 0, 0, 0] {
        put_u32(&mut message, word)?;
    }
    message.extend_from_slice(arguments)?;
    Ok(message)
}

/// Whether a message gets a reply with these bytes after its verifier.
fn gets(alloc: Global, message: &[u8], want: &[u8]) -> Result<bool, Fail> {
    match mount_reply(alloc, message)? {
        Some(reply) => match reply.as_slice().split_at_checked(ACCEPTED.len()) {
            Some((head, rest)) => Ok(head == ACCEPTED && rest == want),
            None => Ok(false),
        },
        None => Ok(false),
    }
}

/// Whether a call gets this, in hex, or is left to the server.
fn is_answered(alloc: Global, message: &[u8], want: Option<&str>) -> Result<bool, Fail> {
    match want {
        Some(digits) => {
            let want = hex::decode(alloc, digits)?;
            gets(alloc, message, want.as_slice())
        }
        None => Ok(mount_reply(alloc, message)?.is_none()),
    }
}

/// Whether MNT of a path of so many bytes gets this.
fn long_path_gets(alloc: Global, length: u32, want: &[u8]) -> Result<bool, Fail> {
    let path = vec![in alloc; b'x'; length as usize]?;
    let mut arguments = Vec::new(alloc);
    put_opaque(&mut arguments, path.as_slice())?;
    let message = call(alloc, MOUNT, 1, arguments.as_slice())?;
    gets(alloc, message.as_slice(), want)
}

#[test]
fn calls_are_answered_or_left(rt: HostRuntime) -> Result<(), Fail> {
    let alloc = rt.alloc();
    for (caller, procedure, digits, want) in ASKED {
        let arguments = hex::decode(alloc, digits)?;
        let message = call(alloc, caller, procedure, arguments.as_slice())?;
        assert!(rt; is_answered(alloc, message.as_slice(), want)?);
    }
    assert!(rt; is_answered(alloc, b"\0\0\0", None)?);
    assert!(rt; long_path_gets(alloc, 1024, b"\0\0\0\0\0\0\0\x02")?);
    assert!(rt; long_path_gets(alloc, 1025, b"\0\0\0\x04")?);
    Ok(())
}
