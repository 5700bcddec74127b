//! What a first look finds in histories of a few calls.

use crate::histories::Happened::{Answered, Asked, Crashed, Done};
use crate::histories::{AA, CREATE_A, Exchange, Happened, NULL, PLAIN, file};
use first_look::look;
use nfs_history::read_calls;
use std::alloc::Global;

/// What a look finds: the era and the two calls of two verifiers, the call of an unknown handle, and whether no call uses the root handle.
type Found = (Option<(u64, u64, u64)>, Option<u64>, bool);

const NOTHING: Found = (None, None, false);

/// Two verifiers of an era, and an unknown handle at the first or the second call.
const TWO: Found = (Some((1, 2, 3)), None, false);

const FIRST: Found = (None, Some(1), false);

const SECOND: Found = (None, Some(2), false);

/// Handles, and names.
const BB: u32 = 0xbb00_0000;

const CC: u32 = 0xcc00_0000;

const DD: u32 = 0xdd00_0000;

const EE: u32 = 0xee00_0000;

const X: u32 = 0x7800_0000;

const Y: u32 = 0x7900_0000;

/// CREATE of `a`, whose handle is aa.
const CREATED: Happened = Done(1, 1, CREATE_A);

/// WRITE of `abc` to it, whose verifier is 7.
const ABC_TO_AA: &[u32] = &[1, AA, 0, 0, 3, 0, 3, 0x6162_6300];

const WRITE: Exchange = Exchange(7, ABC_TO_AA, &[0, 0, 0, 3, 0, 0, 7]);

/// COMMIT of it, whose verifier is 8.
const COMMIT: Exchange = Exchange(21, &[1, AA, 0, 0, 0], &[0, 0, 0, 0, 8]);

/// COMMITs of others, whose verifier is 0.
const ZEROS: &[u32] = &[0, 0, 0, 0, 0];

const COMMIT_BB: Exchange = Exchange(21, &[1, BB, 0, 0, 0], ZEROS);

const COMMIT_CC: Exchange = Exchange(21, &[1, CC, 0, 0, 0], ZEROS);

/// READs of ten bytes, of files that have none.
const READ_AA: Exchange = Exchange(6, &[1, AA, 0, 0, 10], &[0, 0, 0, 1, 0]);

const READ_BB: Exchange = Exchange(6, &[1, BB, 0, 0, 10], &[0, 0, 0, 1, 0]);

/// GETATTR of bb, which fails as stale.
const STALE: Exchange = Exchange(1, &[1, BB], &[70]);

/// RENAMEs of `x` to `y`, from aa to the root and back.
const FROM_AA: Exchange = Exchange(14, &[1, AA, 1, X, 1, 0, 1, Y], ZEROS);

const TO_AA: Exchange = Exchange(14, &[1, 0, 1, X, 1, AA, 1, Y], ZEROS);

/// MKDIR of `d`, SYMLINK of `l` to `t`, LOOKUP of `f` and READDIRPLUS of `g`, which give cc, dd, bb and ee.
const NAMED_D: &[u32] = &[1, 0, 1, 0x6400_0000, 0, 0, 0, 0, 0, 0];

const MKDIR: Exchange = Exchange(9, NAMED_D, &[0, 1, 1, CC, 0, 0, 0]);

const LINK_L: &[u32] = &[1, 0, 1, 0x6c00_0000, 0, 0, 0, 0, 0, 0, 1, 0x7400_0000];

const SYMLINK: Exchange = Exchange(10, LINK_L, &[0, 1, 1, DD, 0, 0, 0]);

const LISTED: &[u32] = &[0, 0, 0, 0, 1, 0, 1, 1, 0x6700_0000, 0, 1, 0, 1, 1, EE, 0, 1];

const LIST: Exchange = Exchange(17, &[1, 0, 0, 0, 0, 0, 4096, 4096], LISTED);

/// These, and COMMIT of each.
const EACH_GIVEN: &[Happened] = &[
    Done(1, 1, MKDIR),
    Done(1, 2, SYMLINK),
    Done(
        1,
        3,
        Exchange(3, &[1, 0, 1, 0x6600_0000], &[0, 1, BB, 0, 0]),
    ),
    Done(1, 4, LIST),
    Done(1, 5, COMMIT_CC),
    Done(1, 6, Exchange(21, &[1, DD, 0, 0, 0], ZEROS)),
    Done(1, 7, COMMIT_BB),
    Done(1, 8, Exchange(21, &[1, EE, 0, 0, 0], ZEROS)),
];

/// A READ that begins before the reply to the CREATE that gives its handle.
const EARLY: &[Happened] = &[
    Asked(1, 1, CREATE_A),
    Asked(2, 1, READ_AA),
    Answered(1, 1, CREATE_A),
    Answered(2, 1, READ_AA),
];

/// What happened, and what a look finds.
const LOOKS: &[(&[Happened], Found)] = &[
    // Two verifiers of an era are found; those of two eras may differ.
    (&[CREATED, Done(1, 2, WRITE), Done(1, 3, COMMIT)], TWO),
    (
        &[CREATED, Done(1, 2, WRITE), Crashed, Done(2, 3, COMMIT)],
        NOTHING,
    ),
    // A handle that no reply gave is found, and one that is given later; of two the first.
    (&[CREATED, Done(1, 2, READ_BB)], SECOND),
    (EARLY, SECOND),
    (
        &[CREATED, Done(1, 2, COMMIT_CC), Done(1, 3, COMMIT_BB)],
        SECOND,
    ),
    // A call that fails uses no handle.
    (&[CREATED, Done(1, 2, STALE)], NOTHING),
    // Each reply that gives a handle is looked at, and both handles of a RENAME.
    (EACH_GIVEN, NOTHING),
    (&[Done(1, 1, FROM_AA)], FIRST),
    (&[Done(1, 1, TO_AA)], FIRST),
    // A root handle that no call uses is told, but not where no call is judged.
    (&[Done(1, 1, READ_AA)], (None, Some(1), true)),
    (&[Done(1, 1, NULL)], NOTHING),
];

/// Whether a look finds this.
fn is_found(alloc: Global, happened: &[Happened], wanted: Found) -> bool {
    let Ok(bytes) = file(alloc, PLAIN, happened) else {
        return false;
    };
    let Ok(known) = read_calls(alloc, bytes.as_slice()) else {
        return false;
    };
    let Ok(seen) = look(alloc, &known) else {
        return false;
    };
    let two = match seen.two_verifiers {
        Some(two) => Some((two.era, two.one, two.other)),
        None => None,
    };
    (two, seen.unknown_handle, seen.lacks_root) == wanted
}

#[test]
fn a_look_finds_what_is_amiss(rt: HostRuntime) {
    for (happened, wanted) in LOOKS {
        assert!(rt; is_found(rt.alloc(), happened, *wanted));
    }
}
