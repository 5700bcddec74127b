//! Files of which one byte is changed. The sample is a history with its certificate, in which a file is made and written on one connection
//! and read on another.

mod pieces;

use std::alloc::Global;
use std::mem;
use std::test::Fail;
use witness_check::{FileVerdict, check_files};

/// The history in hex. Its items, each on lines of its own: the head (magic, root handle, number of events), then CREATE
/// of `a` in the root, its reply with the handle aa, WRITE of `abc`, its reply, READ of ten bytes, its reply with `abc`.
const HISTORY: &str = "4e46534849535431000000010000000000000006\
    000000000000000100000054000000010000000000000002000186a30000000300000008000000000000000000000000\
    000000000000000100000000000000016100000000000000000000000000000000000000000000000000000000000000\
    000000010000000100000034000000010000000100000000000000000000000000000000000000000000000100000001\
    aa000000000000000000000000000000\
    000000000000000100000048000000020000000000000002000186a30000000300000007000000000000000000000000\
    0000000000000001aa000000000000000000000000000003000000020000000361626300\
    000000010000000100000034000000020000000100000000000000000000000000000000000000000000000000000000\
    00000003000000020000000000000001\
    00000000000000020000003c000000030000000000000002000186a30000000300000006000000000000000000000000\
    0000000000000001aa00000000000000000000000000000a\
    000000010000000200000030000000030000000100000000000000000000000000000000000000000000000000000003\
    000000010000000361626300";

/// The certificate: the three calls in the order in which they were sent.
const CERTIFICATE: &str = "witness 1\nbind aa 1\nplace 1\nplace 2\nplace 3\nend\n";

/// Whether the files are accepted just if they should be.
fn are_judged_well(alloc: Global, history: &[u8], certificate: &[u8], want: bool) -> bool {
    match check_files(alloc, history, certificate) {
        Ok(verdict) => (verdict == FileVerdict::Yes) == want,
        Err(_) => false,
    }
}

/// Puts a byte in the place of another, which is given.
fn change(bytes: &mut [u8], at: usize, byte: u8) -> Option<u8> {
    match bytes.get_mut(at) {
        Some(place) => Some(mem::replace(place, byte)),
        None => None,
    }
}

/// Whether a history with this byte there is still accepted with its certificate, by the layout of the sample and by
/// what the profile leaves free.
fn is_left_free(at: usize, byte: u8) -> bool {
    match at {
        // Padding is read as any bytes: of the handles (the root's first), of the name, of the data.
        13..=15 | 77..=79 | 165..=167 | 237..=239 | 385..=387 => true,
        85..=87 => true,
        263 | 459 => true,
        // The flavors of verifiers, in calls and in replies: nobody looks at them.
        64..=67 | 140..=143 | 224..=227 | 288..=291 | 372..=375 | 424..=427 => true,
        // The flavors of credentials, but for RPCSEC_GSS.
        56..=58 | 216..=218 | 364..=366 => true,
        59 | 219 | 367 => byte != 6,
        // The length of the name: what was its padding is then in the name, which may have zeros.
        83 => matches!(byte, 1..=4),
        // The name of the file, by which nothing else calls it; `.` is none that can be made.
        84 => byte != b'.',
        // The mode of CREATE: UNCHECKED or GUARDED, since the name is absent.
        91 => matches!(byte, 0..=1),
        // The times that CREATE sets: kept, or the server's.
        111 | 115 => matches!(byte, 0..=1),
        // The level that WRITE asks for: any up to the answered one.
        255 => matches!(byte, 0..=2),
        // The write verifier: the history has one, so there is none to compare it with.
        320..=327 => true,
        // How many bytes READ asks for: three or more.
        396..=398 => true,
        399 => byte >= 3,
        _ => false,
    }
}

/// Whether the history, with this byte there, is judged as it should be. The history is left as it was.
fn is_judged_well(alloc: Global, history: &mut [u8], at: usize, byte: u8) -> bool {
    let Some(kept) = change(history, at, byte) else {
        return false;
    };
    let want = byte == kept || is_left_free(at, byte);
    let well = are_judged_well(alloc, history, CERTIFICATE.as_bytes(), want);
    well && change(history, at, kept).is_some()
}

/// Whether this byte is tried there: those at the bounds of what is free, some far from them, and all where some are free and others not.
fn is_tried(at: usize, byte: u8) -> bool {
    matches!(byte, 0..=6 | 8 | 46 | 127 | 128 | 255)
        || matches!(at, 59 | 83 | 84 | 91 | 111 | 115 | 219 | 255 | 367 | 399)
}

#[test]
fn a_changed_byte_of_a_history_is_accepted_only_where_it_is_free(
    rt: HostRuntime,
) -> Result<(), Fail> {
    let mut history = hex::decode(rt.alloc(), HISTORY)?;
    for at in 0..history.len() {
        for byte in 0..=255u8 {
            let well = !is_tried(at, byte) || is_judged_well(rt.alloc(), &mut history, at, byte);
            assert!(rt; well, "byte {byte} at {at}");
        }
    }
    Ok(())
}

/// Whether the certificate, with this byte there, is accepted just where that is the byte that was there.
fn is_text_judged_well(
    alloc: Global,
    history: &[u8],
    text: &mut [u8],
    at: usize,
    byte: u8,
) -> bool {
    let Some(kept) = change(text, at, byte) else {
        return false;
    };
    let well = are_judged_well(alloc, history, text, byte == kept);
    well && change(text, at, kept).is_some()
}

#[test]
fn a_certificate_has_no_byte_that_is_free(rt: HostRuntime) -> Result<(), Fail> {
    let history = hex::decode(rt.alloc(), HISTORY)?;
    let mut text = CERTIFICATE.as_bytes().to_vec(rt.alloc())?;
    for at in 0..text.len() {
        for byte in 0..=255u8 {
            let well = is_text_judged_well(rt.alloc(), &history, &mut text, at, byte);
            assert!(rt; well, "byte {byte} at {at}");
        }
    }
    Ok(())
}
