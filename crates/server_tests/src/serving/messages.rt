//! The messages of `client_calls`, written by hand (RFC 5531, section 9; RFC 1813, section 3.3).

use client_calls::{
    Creation, commit, create, get_attributes, look_up, make_directory, make_link, plain_call, read,
    read_directory, read_directory_plus, read_link, remove, remove_directory, rename, set_size,
    write,
};
use nfs3_types::StableHow;
use std::alloc::{AllocError, Global};

/// The head of call 9 up to its procedure: a call of RPC 2, of program 100003 in version 3.
const HEAD: &[u8] = b"\0\0\0\x09\0\0\0\0\0\0\0\x02\0\x01\x86\xa3\0\0\0\x03";

/// A credential and a verifier of AUTH_NONE.
const NOBODY: &[u8] = b"\0\0\0\0\0\0\0\0\0\0\0\0\0\0\0\0";

/// The handle of object 2.
const TWO: &[u8] = b"\0\0\0\x08\0\0\0\0\0\0\0\x02";

/// The handle of object 2, and the name `a`.
const A_IN_TWO: &[u8] = b"\0\0\0\x08\0\0\0\0\0\0\0\x02\0\0\0\x01a\0\0\0";

/// Attributes of which none is set.
const NONE_SET: &[u8] = b"\0\0\0\0\0\0\0\0\0\0\0\0\0\0\0\0\0\0\0\0\0\0\0\0";

/// Attributes of which the size is set, to 3.
const SIZED: &[u8] = b"\0\0\0\0\0\0\0\0\0\0\0\0\0\0\0\x01\0\0\0\0\0\0\0\x03\0\0\0\0\0\0\0\0";

/// What follows these parts in a message, if it begins with them.
fn rest_after<'a>(message: &'a [u8], parts: &[&[u8]]) -> Option<&'a [u8]> {
    let mut rest = message;
    for part in parts {
        match rest.split_at_checked(part.len()) {
            Some((front, after)) if front == *part => rest = after,
            _ => return None,
        }
    }
    Some(rest)
}

/// Whether a message is call 9 of this procedure, with these arguments in parts.
fn is_call(made: Result<Vec<u8>, AllocError>, procedure: u8, arguments: &[&[u8]]) -> bool {
    let Ok(message) = made else {
        return false;
    };
    let number = [0, 0, 0, procedure];
    match rest_after(message.as_slice(), &[HEAD, number.as_slice(), NOBODY]) {
        Some(rest) => rest_after(rest, arguments) == Some(b"".as_slice()),
        None => false,
    }
}

/// Whether calls on objects are spelled so. After the attributes no guard is asked for. The verifier of a list is 0.
fn are_calls_on_objects(alloc: Global) -> bool {
    let part = b"\0\0\0\0\0\0\0\x05\0\0\0\x07".as_slice();
    let no_guard = b"\0\0\0\0".as_slice();
    let list = b"\0\0\0\0\0\0\0\x04\0\0\0\0\0\0\0\0\0\0\0\x64".as_slice();
    let listed = read_directory_plus(alloc, 9, 2, 4, 100);
    is_call(listed, 17, &[TWO, list, b"\0\0\0\x64"])
        && is_call(read_directory(alloc, 9, 2, 4, 100), 16, &[TWO, list])
        && is_call(plain_call(alloc, 9, 0), 0, &[])
        && is_call(get_attributes(alloc, 9, 2), 1, &[TWO])
        && is_call(read_link(alloc, 9, 2), 5, &[TWO])
        && is_call(read(alloc, 9, 2, 5, 7), 6, &[TWO, part])
        && is_call(commit(alloc, 9, 2, 5, 7), 21, &[TWO, part])
        && is_call(set_size(alloc, 9, 2, Some(3)), 2, &[TWO, SIZED, no_guard])
        && is_call(set_size(alloc, 9, 2, None), 2, &[TWO, NONE_SET, no_guard])
}

/// Whether a WRITE of two bytes at this level is spelled so.
fn is_write(alloc: Global, level: StableHow, number: &[u8]) -> bool {
    let place = b"\0\0\0\0\0\0\0\x05\0\0\0\x02".as_slice();
    let bytes = b"\0\0\0\x02ab\0\0".as_slice();
    let message = write(alloc, 9, 2, 5, level, b"ab");
    is_call(message, 7, &[TWO, place, number, bytes])
}

/// Whether a CREATE of this mode is spelled so.
fn is_create(alloc: Global, mode: Creation, number: &[u8], rest: &[u8]) -> bool {
    let message = create(alloc, 9, 2, b"a", mode);
    is_call(message, 8, &[A_IN_TWO, number, rest])
}

/// Whether each level of a WRITE, and each mode of a CREATE, is spelled so.
fn are_levels_and_modes(alloc: Global) -> bool {
    let verifier = b"\0\0\0\0\0\0\0\x04";
    is_write(alloc, StableHow::Unstable, b"\0\0\0\0")
        && is_write(alloc, StableHow::DataSync, b"\0\0\0\x01")
        && is_write(alloc, StableHow::FileSync, b"\0\0\0\x02")
        && is_create(alloc, Creation::Unchecked(None), b"\0\0\0\0", NONE_SET)
        && is_create(alloc, Creation::Guarded(Some(3)), b"\0\0\0\x01", SIZED)
        && is_create(alloc, Creation::Exclusive(4), b"\0\0\0\x02", verifier)
}

/// Whether calls in directories are spelled so.
fn are_calls_in_directories(alloc: Global) -> bool {
    let target = b"\0\0\0\x01t\0\0\0".as_slice();
    let other = b"\0\0\0\x08\0\0\0\0\0\0\0\x03\0\0\0\x02bc\0\0".as_slice();
    let linked = make_link(alloc, 9, 2, b"a", b"t");
    let moved = rename(alloc, 9, (2, b"a"), (3, b"bc"));
    is_call(linked, 10, &[A_IN_TWO, NONE_SET, target])
        & is_call(moved, 14, &[A_IN_TWO, other])
        & is_call(look_up(alloc, 9, 2, b"a"), 3, &[A_IN_TWO])
        & is_call(remove(alloc, 9, 2, b"a"), 12, &[A_IN_TWO])
        & is_call(remove_directory(alloc, 9, 2, b"a"), 13, &[A_IN_TWO])
        & is_call(make_directory(alloc, 9, 2, b"a"), 9, &[A_IN_TWO, NONE_SET])
}

#[test]
fn calls_are_spelled(rt: HostRuntime) {
    assert!(rt; are_calls_on_objects(rt.alloc()));
    assert!(rt; are_levels_and_modes(rt.alloc()));
    assert!(rt; are_calls_in_directories(rt.alloc()));
}
