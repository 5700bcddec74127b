//! What no clause says of calls: that the bytes of a WRITE tell their call, and that the call which is made is the one that was wished. The
//! arguments are written by hand (RFC 1813, section 3.3).

use call_making::{Called, Listing, Maker, Place, Range, Stamp, Wish, whose};
use nfs3_msgs::put_args;
use nfs3_types::{CreateMode, FileHandle, SetAttributes, SetTime, StableHow, Time, Verifier};
use rpc_client::{Asked, Credential, Refusal, put_call_head};
use std::alloc::{AllocError, Global};
use std::test::Fail;

/// The seed, the offset and the bytes of a WRITE, and the client and the call that they tell. Seed 7, client 3, call 18, block 2.
const LABELS: [(u64, u64, &[u8], Option<(u32, u32)>); 8] = [
    (7, 32, b"0070300001200002", Some((3, 18))),
    (7 + 4096, 32, b"0070300001200002", Some((3, 18))),
    (8, 32, b"0070300001200002", None),
    (7, 48, b"0070300001200002", None),
    (7, 32, b"070300001200002", None),
    (7, 32, b"0070300001200003", None),
    (7, 32, b"007030000120000g", None),
    (7, u64::MAX, b"0070300001200002", None),
];

#[test]
fn bytes_tell_their_call(rt: HostRuntime) {
    for (seed, offset, bytes, wanted) in LABELS {
        assert!(rt; whose(seed, offset, bytes) == wanted);
    }
}

/// MNT of MOUNT version 3 up to its arguments (RFC 5531, section 9 and appendix A; RFC 1813, section 5.2.1).
const MOUNT: &[u8] = b"\0\0\0\x01\0\0\0\0\0\0\0\x02\0\x01\x86\xa5\0\0\0\x03\0\0\0\x01\
\0\0\0\x01\0\0\0\x1c\0\0\0\0\0\0\0\x08nfsbench\0\0\0\x07\0\0\0\x09\0\0\0\0\0\0\0\0\0\0\0\0";

/// Why RPC refuses a call, and the words of it.
const REFUSALS: [(Refusal, &str); 2] = [
    (
        Refusal::ProgramMismatch(2, 4),
        "PROG_MISMATCH, versions 2 to 4",
    ),
    (Refusal::AuthError(5), "AUTH_ERROR, reason 5"),
];

#[test]
fn a_mount_is_asked_for_and_refused(rt: HostRuntime) -> Result<(), Fail> {
    let mut out = Vec::new(rt.alloc());
    let who = Credential { uid: 7, gid: 9 };
    let asked = Asked {
        program: 100_005,
        version: 3,
        procedure: 1,
    };
    put_call_head(&mut out, 1, who, asked)?;
    assert!(rt; out.as_slice() == MOUNT);
    for (refusal, words) in REFUSALS {
        assert!(rt; refusal.to_string(rt.alloc())?.as_str() == words);
    }
    Ok(())
}

/// Call 18 of client 3 in the night of seed 7.
const STAMP: Stamp = Stamp {
    seed: 7,
    client: 3,
    call: 18,
};

/// The arguments of a name, of a range of the file, and of the file.
const NAME: &[u8] = b"\0\0\0\x02d1\0\0\0\0\0\x01a\0\0\0";

const PART: &[u8] = b"\0\0\0\x02f1\0\0\0\0\0\0\0\0\0\x10\0\0\0\x02";

const FILE: &[u8] = b"\0\0\0\x02f1\0\0";

const BOTH_NAMES: &[u8] = b"\0\0\0\x02d1\0\0\0\0\0\x01a\0\0\0\0\0\0\x02d2\0\0\0\0\0\x02bc\0\0";

const EXCLUSIVE: &[u8] = b"\0\0\0\x02d1\0\0\0\0\0\x01a\0\0\0\0\0\0\x02\0\0\0\0\0\0\0\x09";

/// The bytes of block 1 are 0070300001200001.
const WRITTEN: &[u8] = b"\0\0\0\x02f1\0\0\0\0\0\0\0\0\0\x10\0\0\0\x02\0\0\0\x01\0\0\0\x0200\0\0";

/// Each attribute but the user, with a time of the client's and one of the server's, and the guard.
const SET: &[u8] = b"\0\0\0\x02f1\0\0\0\0\0\x01\0\0\x01\xa0\0\0\0\0\0\0\0\x01\0\0\0\x09\
\0\0\0\x01\0\0\0\0\0\0\0\x03\0\0\0\x02\0\0\0\x05\0\0\0\x06\0\0\0\x01\0\0\0\x01\0\0\0\x07\0\0\0\x08";

/// Of the bytes of READDIRPLUS' answer a quarter is for names and cookies.
const LIST: &[u8] = b"\0\0\0\x02d1\0\0\0\0\0\0\0\0\0\x04\0\0\0\0\0\0\0\x06\0\0\0\x64";

const LIST_PLUS: &[u8] =
    b"\0\0\0\x02d1\0\0\0\0\0\0\0\0\0\x04\0\0\0\0\0\0\0\x06\0\0\0\x64\0\0\x01\x90";

const RANGE: Range = Range {
    offset: 16,
    count: 2,
};

const ATTRIBUTES: SetAttributes = SetAttributes {
    mode: Some(0o640),
    user: None,
    group: Some(9),
    size: Some(3),
    access_time: SetTime::ClientTime(Time {
        seconds: 5,
        nanoseconds: 6,
    }),
    modify_time: SetTime::ServerTime,
};

const GUARD: Time = Time {
    seconds: 7,
    nanoseconds: 8,
};

/// The number of the procedure of the call into which a wish is made, and its arguments.
fn made(alloc: Global, wish: Wish<'_>) -> Result<(u32, Vec<u8>), AllocError> {
    let maker = Maker {
        alloc,
        stamp: STAMP,
    };
    let call = maker.make(wish)?;
    let mut arguments = Vec::new(alloc);
    put_args(&mut arguments, &call)?;
    Ok((call.procedure().number(), arguments))
}

/// Whether a wish is made into a call of this procedure with these arguments.
fn is_made(alloc: Global, wish: Wish<'_>, procedure: u32, wanted: &[u8]) -> bool {
    match made(alloc, wish) {
        Ok((number, arguments)) => number == procedure && arguments.as_slice() == wanted,
        Err(AllocError) => false,
    }
}

fn place<'k>(directory: &'k FileHandle, name: &'k [u8]) -> Place<'k> {
    Place {
        directory,
        name: Called::Bytes(name),
    }
}

fn listing(directory: &FileHandle, plus: bool) -> Wish<'_> {
    Wish::List(Listing {
        directory,
        plus,
        cookie: 4,
        verifier: Verifier { value: 6 },
        count: 100,
    })
}

#[test]
fn names_and_lists_are_of_their_directories(rt: HostRuntime) -> Result<(), Fail> {
    let alloc = rt.alloc();
    let one = FileHandle::from_slice(alloc, b"d1")?;
    let other = FileHandle::from_slice(alloc, b"d2")?;
    let from = place(&one, b"a");
    let to = place(&other, b"bc");
    let exclusive = CreateMode::Exclusive(Verifier { value: 9 });
    let is_well = is_made(alloc, Wish::LookUp(from), 3, NAME)
        && is_made(alloc, Wish::Remove(from), 12, NAME)
        && is_made(alloc, Wish::RmDir(from), 13, NAME)
        && is_made(alloc, Wish::Rename(from, to), 14, BOTH_NAMES)
        && is_made(alloc, Wish::Create(from, exclusive), 8, EXCLUSIVE)
        && is_made(alloc, listing(&one, false), 16, LIST)
        && is_made(alloc, listing(&one, true), 17, LIST_PLUS);
    assert!(rt; is_well);
    Ok(())
}

#[test]
fn ranges_and_attributes_are_of_their_files(rt: HostRuntime) -> Result<(), Fail> {
    let alloc = rt.alloc();
    let file = FileHandle::from_slice(alloc, b"f1")?;
    let write = Wish::Write(&file, RANGE, StableHow::DataSync);
    let set = Wish::SetAttr(&file, ATTRIBUTES, Some(GUARD));
    let is_well = is_made(alloc, Wish::Read(&file, RANGE), 6, PART)
        && is_made(alloc, Wish::Commit(&file, RANGE), 21, PART)
        && is_made(alloc, write, 7, WRITTEN)
        && is_made(alloc, set, 2, SET)
        && is_made(alloc, Wish::GetAttr(&file), 1, FILE)
        && is_made(alloc, Wish::ReadLink(&file), 5, FILE);
    assert!(rt; is_well);
    Ok(())
}
