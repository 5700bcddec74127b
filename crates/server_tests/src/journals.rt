//! Journals of a few records, of servers that held nothing at first or a file, under each profile; and records as bytes.

mod devices;

use crate::servers::one_file;
use file_tree::{FileTree, Profile};
use journal::{
    JournalDevice, RebuildFault, Record, RecordFault, SimDevice, put_record, read_record, rebuild,
    rebuild_from,
};
use replay_law::Replayable;
use std::alloc::{AllocError, Global};
use std::test::Fail;

/// A message in hex, in parts.
type Parts = &'static [&'static str];

/// A call's number, the parts of its message and of its reply's, and how many bytes of their record are kept at most.
type Entry = (u64, Parts, Parts, usize);

/// A CREATE in the root, whose handle is eight zeros, of transaction 1, up to a name of one letter.
const CREATE: &str = "000000010000000000000002000186a30000000300000008000000000000000000000000\
    0000000000000008000000000000000000000001";

/// After the letter: UNCHECKED, and no attributes that are set.
const UNCHECKED: &str = "00000000000000000000000000000000000000000000000000000000000000";

const CREATE_A: Parts = &[CREATE, "61", UNCHECKED];

const CREATE_B: Parts = &[CREATE, "62", UNCHECKED];

/// The reply to a CREATE, up to the handle.
const MADE: &str =
    "00000001000000010000000000000000000000000000000000000000000000010000000800000000";

/// The handle of object 1 or 2, and no attributes.
const MADE_ONE: Parts = &[MADE, "00000001", "000000000000000000000000"];

const MADE_TWO: Parts = &[MADE, "00000002", "000000000000000000000000"];

/// The attributes of a file, up to its size, and after it.
const FILE: &str = "000000010000000100000000000000010000000000000000";

const REST: &str =
    "00000000000000000000000000000000000000000000000000000000000000000000000000000000\
    000000000000000000000000000000000000000000000000";

/// Object 2 with attributes: a file of no bytes, and one of five.
const MADE_EMPTY: Parts = &[MADE, "00000002", FILE, "0000000000000000", REST];

const MADE_LONG: Parts = &[MADE, "00000002", FILE, "0000000000000005", REST];

/// A WRITE of `abc` to object 1, of transaction 2, and its reply.
const WRITE: Parts = &[
    "000000020000000000000002000186a3000000030000000700000000000000000000000000000000",
    "000000080000000000000001000000000000000000000003000000020000000361626300",
];

const WROTE: Parts = &[
    "00000002000000010000000000000000000000000000000000000000000000000000000000000003",
    "000000020000000000000001",
];

/// The tree of the root alone, as it is printed.
const NO_FILE: &[u8] = &[0, 0, 0, 1, 0, 0, 0, 0, 0, 0, 0, 0, 0, 0, 0, 0, 0, 0, 0, 2];

/// The tree of one file `abc` at the name `a`, of object 1, as it is printed.
const ONE_FILE: &[u8] = &[
    0, 0, 0, 2, 0, 0, 0, 0, 0, 0, 0, 0, 0, 0, 0, 0, 0, 0, 0, 2, 0, 0, 0, 1, 0, 0, 0, 1, 97, 0, 0,
    0, 0, 0, 0, 0, 0, 0, 0, 1, 0, 0, 0, 1, 0, 0, 0, 3, 97, 98, 99, 0, 0, 0, 0, 0,
];

/// The same beside an empty file at `b`, of object 2.
const TWO_FILES: &[u8] = &[
    0, 0, 0, 3, 0, 0, 0, 0, 0, 0, 0, 0, 0, 0, 0, 0, 0, 0, 0, 2, 0, 0, 0, 1, 0, 0, 0, 1, 97, 0, 0,
    0, 0, 0, 0, 0, 0, 0, 0, 1, 0, 0, 0, 1, 0, 0, 0, 3, 97, 98, 99, 0, 0, 0, 0, 0, 0, 0, 0, 1, 0, 0,
    0, 1, 98, 0, 0, 0, 0, 0, 0, 0, 0, 0, 0, 2, 0, 0, 0, 1, 0, 0, 0, 0, 0, 0, 0, 0,
];

/// The records of a CREATE and a WRITE.
const WRITTEN: &[Entry] = &[(1, CREATE_A, MADE_ONE, 1000), (2, WRITE, WROTE, 1000)];

/// A record that is cut short, between two that aren't.
const CUT_SHORT: &[Entry] = &[
    (1, CREATE_A, MADE_ONE, 1000),
    (2, WRITE, WROTE, 40),
    (2, WRITE, WROTE, 1000),
];

/// The records of a server that held nothing, and the tree's bytes, or why there is none. The file of a WRITE that comes first isn't there.
const FROM_NOTHING: [(&[Entry], Result<&[u8], RebuildFault>); 4] = [
    (&[], Ok(NO_FILE)),
    (WRITTEN, Ok(ONE_FILE)),
    (CUT_SHORT, Err(RebuildFault::NoRecord(2))),
    (&[(2, WRITE, WROTE, 1000)], Err(RebuildFault::NotLegal(1))),
];

/// How the replies were judged of a server that held the file `abc` at `a`, the number of a CREATE of `b` and its reply, and the tree's bytes, or
/// why there is none. A strict server says the true size, and an object over 64 bits has no number.
const FROM_ONE_FILE: [(Profile, u64, Parts, Result<&[u8], RebuildFault>); 7] = [
    (Profile::Plain, 1, MADE_TWO, Ok(TWO_FILES)),
    (Profile::Plain, 1, MADE_EMPTY, Ok(TWO_FILES)),
    (Profile::Plain, 1, MADE_LONG, Ok(TWO_FILES)),
    (Profile::Strict, 1, MADE_TWO, Ok(TWO_FILES)),
    (Profile::Strict, 1, MADE_EMPTY, Ok(TWO_FILES)),
    (
        Profile::Strict,
        1,
        MADE_LONG,
        Err(RebuildFault::NotLegal(1)),
    ),
    (
        Profile::Plain,
        u64::MAX,
        MADE_TWO,
        Err(RebuildFault::NotLegal(1)),
    ),
];

/// The bytes of a message. Messages here are short.
fn bytes_of(alloc: Global, parts: &[&str]) -> Result<Vec<u8>, Fail> {
    let mut out = Vec::new(alloc);
    for part in parts {
        let bytes = hex::decode(alloc, part)?;
        out.extend_from_slice(bytes.as_slice())?;
    }
    Ok(out)
}

/// The record of a call and its reply.
fn record(alloc: Global, number: u64, call: Parts, reply: Parts) -> Result<Vec<u8>, Fail> {
    let call = bytes_of(alloc, call)?;
    let reply = bytes_of(alloc, reply)?;
    let mut out = Vec::new(alloc);
    if call.len() <= 1000 && reply.len() <= 1000 {
        put_record(&mut out, number, call.as_slice(), reply.as_slice())?;
    }
    Ok(out)
}

/// A journal of these records.
fn journal(alloc: Global, entries: &[Entry]) -> Result<SimDevice, Fail> {
    let mut device = SimDevice::new(alloc, None, None, None);
    for (number, call, reply, length) in entries {
        let record = record(alloc, *number, call, reply)?;
        let bytes = record.as_slice();
        device.append(bytes.get(..*length).unwrap_or(bytes))?;
    }
    Ok(device)
}

/// The records of a journal, made of their bytes again, as of one that was kept in a file.
fn read_again(alloc: Global, device: &SimDevice) -> Result<Vec<Record>, AllocError> {
    let mut records = Vec::new(alloc);
    for record in device.records() {
        records.push(Record::from_slice(alloc, record.as_slice())?)?;
    }
    Ok(records)
}

/// A tree as it is printed.
fn printed(alloc: Global, tree: Result<FileTree, RebuildFault>) -> Result<Vec<u8>, RebuildFault> {
    let tree = tree?;
    let mut out = Vec::new(alloc);
    tree.print_state(&mut out)?;
    Ok(out)
}

/// Whether bytes are printed so, or there are none for this reason.
fn is_printed(printed: Result<Vec<u8>, RebuildFault>, want: Result<&[u8], RebuildFault>) -> bool {
    match printed {
        Ok(out) => want == Ok(out.as_slice()),
        Err(fault) => want == Err(fault),
    }
}

/// Whether the journal of a server that held nothing gives what is wanted, once it is read again.
fn gives(
    alloc: Global,
    entries: &[Entry],
    want: Result<&[u8], RebuildFault>,
) -> Result<bool, Fail> {
    let device = journal(alloc, entries)?;
    let records = read_again(alloc, &device)?;
    let tree = rebuild(alloc, records.as_slice());
    Ok(is_printed(printed(alloc, tree), want))
}

/// The same of a server that held one file, whose journal has one record.
fn gives_from_file(
    alloc: Global,
    profile: Profile,
    entry: Entry,
    want: Result<&[u8], RebuildFault>,
) -> Result<bool, Fail> {
    let start = one_file(alloc, b'a')?;
    let device = journal(alloc, &[entry])?;
    let tree = rebuild_from(alloc, profile, &start, device.records());
    Ok(is_printed(printed(alloc, tree), want))
}

#[test]
fn a_journal_gives_its_tree_or_its_first_fault(rt: HostRuntime) -> Result<(), Fail> {
    let alloc = rt.alloc();
    for (entries, want) in FROM_NOTHING {
        assert!(rt; gives(alloc, entries, want)?);
    }
    for (profile, number, reply, want) in FROM_ONE_FILE {
        let entry = (number, CREATE_B, reply, 1000);
        assert!(rt; gives_from_file(alloc, profile, entry, want)?);
    }
    Ok(())
}

/// The number of call 1, and the length of its message.
const FIRST: &str = "000000000000000100000054";

/// A CREATE of `a` in the root, of transaction 1.
const SHORT_CREATE: &str =
    "000000010000000000000002000186a30000000300000008000000000000000000000000\
    000000000000000100000000000000016100000000000000000000000000000000000000000000000000000000000000";

/// A reply that made the file, after its length and its transaction number, with the handle aa.
const SHORT_MADE: &str = "0000000100000000000000000000000000000000000000000000000100000001\
    aa000000000000000000000000000000";

/// A reply of transaction 1 that the name is taken (EXIST, 17), with its length.
const TAKEN: &str =
    "00000024000000010000000100000000000000000000000000000000000000110000000000000000";

/// A READ of ten bytes with its reply, as call 3.
const READ: Parts = &[
    "00000000000000030000003c000000030000000000000002000186a300000003000000060000000000000000",
    "000000000000000000000001aa00000000000000000000000000000a",
    "0000003000000003000000010000000000000000000000000000000000000000000000000000000300000001",
    "0000000361626300",
];

/// The parts of a record, whose call has number 1.
const WHOLE: Parts = &[FIRST, SHORT_CREATE, "00000034", "00000001", SHORT_MADE];

/// Parts of what is no record: one byte more, a reply of transaction 2, a failure, a READ, and a message without the rest.
const OTHERS: [Parts; 5] = [
    &[
        FIRST,
        SHORT_CREATE,
        "00000034",
        "00000001",
        SHORT_MADE,
        "00",
    ],
    &[FIRST, SHORT_CREATE, "00000034", "00000002", SHORT_MADE],
    &[FIRST, SHORT_CREATE, TAKEN],
    READ,
    &[SHORT_CREATE],
];

/// The number of the record that the bytes of these parts are, or why they are none.
fn number_of(alloc: Global, parts: Parts) -> Result<Result<u64, RecordFault>, Fail> {
    let bytes = bytes_of(alloc, parts)?;
    match read_record(alloc, bytes.as_slice()) {
        Ok(change) => Ok(Ok(change.written.number)),
        Err(fault) => Ok(Err(fault)),
    }
}

/// Whether the record of the messages as call 1 has the bytes of the whole.
fn is_written(alloc: Global) -> Result<bool, Fail> {
    let written = record(alloc, 1, &[SHORT_CREATE], &["00000001", SHORT_MADE])?;
    let want = bytes_of(alloc, WHOLE)?;
    Ok(written.as_slice() == want.as_slice())
}

#[test]
fn a_record_is_written_and_read_and_others_are_refused(rt: HostRuntime) -> Result<(), Fail> {
    assert!(rt; is_written(rt.alloc())?);
    assert!(rt; number_of(rt.alloc(), WHOLE)? == Ok(1));
    for parts in OTHERS {
        assert!(rt; number_of(rt.alloc(), parts)? == Err(RecordFault::NoRecord));
    }
    Ok(())
}
