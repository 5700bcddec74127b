//! What is said of a history: how often its calls failed for each cause.

mod looks;
mod pictures;

use crate::histories::Happened::{Crashed, Done};
use crate::histories::{Exchange, Happened, NAMED_A, file};
use failure_causes::{CauseCounts, cause_name, count_causes};
use std::alloc::{AllocError, Global};
use std::test::Fail;
use tree_answers::{Cause, causes};

/// The front of a file whose root handle is of eight zeros.
const LONG_ROOT: &[u8] = b"NFSHIST1\0\0\0\x08\0\0\0\0\0\0\0\0";

/// LOOKUP of `a` in that root, answered NOENT (RFC 1813, section 3.3.3).
const LOOKUP_A: Exchange = Exchange(3, &[8, 0, 0, 1, 0x6100_0000], &[2, 0]);

/// GETATTR of a handle that nothing gave, answered STALE (section 3.3.1).
const GETATTR_7: Exchange = Exchange(1, &[8, 0, 7], &[70]);

/// RMDIR of `.`, answered INVAL (section 3.3.13).
const RMDIR_DOT: Exchange = Exchange(13, &[8, 0, 0, 1, 0x2e00_0000], &[22, 0, 0]);

/// Three calls that fail, and after a crash the LOOKUP once more.
const FAILING: &[Happened] = &[
    Done(1, 1, LOOKUP_A),
    Done(1, 2, GETATTR_7),
    Done(1, 3, RMDIR_DOT),
    Crashed,
    Done(2, 1, LOOKUP_A),
];

/// The calls in their order; the crash leaves the first one.
const ONE_LEFT: &[u8] = b"witness 1\nplace 1\nplace 2\nplace 3\ncut 1\nplace 4\nend\n";

/// The front of a plain file of version 2, whose server held the file `f` at first.
const STARTED: &[u8] =
    b"NFSHIST2\0\0\0\x01\0\0\0\0\0\0\0\0\0\0\0\x01\0\0\0\0\0\0\0\0\0\0\0\x01f\0\0\0\0\0\0\x01\0\0\0\0";

/// CREATE of `a` in the root, which gives the handle 01.
const CREATE_1: Exchange = Exchange(8, NAMED_A, &[0, 1, 1, 0x0100_0000, 0, 0, 0]);

/// LOOKUP of `g` in the root, answered NOENT.
const LOOKUP_G: Exchange = Exchange(3, &[1, 0, 1, 0x6700_0000], &[2, 0]);

/// Both calls in order. What the first one made is object 2, after the one that was there.
const IN_ORDER: &[u8] = b"witness 1\nbind 01 2\nplace 1\nplace 2\nend\n";

/// Fronts of files, what happened, the certificate, and the causes that are counted, with how often. Others are counted not at all.
const COUNTED: &[(&[u8], &[Happened], &[u8], &[(Cause, u64)])] = &[
    (
        LONG_ROOT,
        FAILING,
        ONE_LEFT,
        &[
            (Cause::NameIsAbsent, 2),
            (Cause::HandleIsntLive, 1),
            (Cause::NameIsntPlain, 1),
        ],
    ),
    (
        STARTED,
        &[Done(1, 1, CREATE_1), Done(1, 2, LOOKUP_G)],
        IN_ORDER,
        &[(Cause::NameIsAbsent, 1)],
    ),
];

/// Whether just these causes are counted.
fn are_all(counts: &CauseCounts, wanted: &[(Cause, u64)]) -> bool {
    for cause in causes() {
        let mut want: u64 = 0;
        for (named, count) in wanted {
            if *named == cause {
                want = *count;
            }
        }
        if counts.of(cause) != want {
            return false;
        }
    }
    true
}

/// Whether just these causes are counted of a file and a certificate; where none are wanted, that nothing is counted.
fn are_counted(
    alloc: Global,
    history: &[u8],
    certificate: &[u8],
    wanted: Option<&[(Cause, u64)]>,
) -> Result<bool, AllocError> {
    match (count_causes(alloc, history, certificate)?, wanted) {
        (Some(counts), Some(wanted)) => Ok(are_all(&counts, wanted)),
        (None, None) => Ok(true),
        _ => Ok(false),
    }
}

#[test]
fn causes_are_counted_over_a_crash_and_after_a_start(rt: HostRuntime) -> Result<(), Fail> {
    for (front, happened, certificate, wanted) in COUNTED {
        let history = file(rt.alloc(), front, happened)?;
        assert!(rt; are_counted(rt.alloc(), &history, certificate, Some(*wanted))?);
    }
    Ok(())
}

#[test]
fn what_is_not_well_formed_has_no_causes(rt: HostRuntime) -> Result<(), Fail> {
    let history = file(rt.alloc(), LONG_ROOT, FAILING)?;
    assert!(rt; are_counted(rt.alloc(), b"", ONE_LEFT, None)?);
    assert!(rt; are_counted(rt.alloc(), &history, b"witness 1\n", None)?);
    Ok(())
}

#[test]
fn causes_have_names(rt: HostRuntime) -> Result<(), Fail> {
    let wanted = [
        "HandleIsntLive",
        "HandleOfNoDirectory",
        "ReadLinkOfNoLink",
        "FileIsDirectory",
        "FileIsLink",
        "NameIsAbsent",
        "NameIsPresent",
        "CreateOverDirectory",
        "RemoveOfDirectory",
        "RmDirOfNoDirectory",
        "RmDirOfFilledDirectory",
        "RenameOntoNoDirectory",
        "RenameOntoDirectory",
        "RenameOntoFilledDirectory",
        "RenameBelowItself",
        "NameIsntPlain",
        "NameHasOddByte",
        "SetAttrWithGuard",
        "ListingWithCookie",
        "AnyListing",
    ];
    assert!(rt; causes().map(cause_name) == wanted);
    Ok(())
}
