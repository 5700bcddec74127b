//! Records that come in pieces (RFC 5531, section 11).

use std::alloc::{AllocError, Global};
use std::test::Fail;
use xdr_records::{FeedFault, RecordFeed, frame};

/// Bytes one after the other.
type Parts = &'static [&'static [u8]];

/// Pieces that are taken, pieces after them whose record is too long, and the whole records that there are then.
const STREAMS: &[(Parts, Parts, Parts)] = &[
    // A header may come in pieces.
    (
        &[b"\x80\0", b"\0\x05a", b"bcde\x80\0\0\0"],
        &[],
        &[b"abcde", b""],
    ),
    // A fragment that isn't the last gives no record. Fragments are joined.
    (&[b"\0\0\0\x02ab\x80\0\0\x01"], &[], &[]),
    (&[b"\0\0\0\x02ab\x80\0\0\x01", b"c"], &[], &[b"abc"]),
    // The limit is allowed, for one fragment and for two, and counts all of them.
    (&[b"\x80\x20\0\0"], &[], &[]),
    (&[b"\0\0\0\x01a\x80\x1f\xff\xff"], &[], &[]),
    (&[], &[b"\0\0\0\x01a\x80\x20\0\0"], &[]),
    // Past the limit no byte is taken.
    (
        &[b"\x80\0"],
        &[b"\0\x01a\x80\x20\0\x01", b"\x80\0\0\0"],
        &[b"a"],
    ),
    // A refused growth changes nothing.
    (
        &[
            b"\0\0\0\x02a",
            b"b\x80\0\0\x01c\x80\0\0\x01d\x80\0\0\x02e",
            b"f",
        ],
        &[],
        &[b"abc", b"d", b"ef"],
    ),
];

// A piece is fed once more where a growth was refused.
fn feed_again(feed: &mut RecordFeed, piece: &[u8]) -> Result<(), FeedFault> {
    match feed.feed(piece) {
        Err(FeedFault::NoMemory) => feed.feed(piece),
        answer => answer,
    }
}

/// Whether feeding each piece ends so.
fn end(feed: &mut RecordFeed, pieces: &[&[u8]], want: Result<(), FeedFault>) -> bool {
    for piece in pieces {
        if feed_again(feed, piece) != want {
            return false;
        }
    }
    true
}

/// Whether these are the whole records that a feed has.
fn has_records(feed: &mut RecordFeed, want: &[&[u8]]) -> bool {
    for record in want {
        match feed.take() {
            Some(text) if text.as_slice() == *record => {}
            _ => return false,
        }
    }
    feed.take().is_none()
}

/// Whether a feed answers a stream as it has to.
fn is_fed(alloc: Global, fine: Parts, too_long: Parts, records: Parts) -> bool {
    let mut feed = RecordFeed::new(alloc);
    end(&mut feed, fine, Ok(()))
        && end(&mut feed, too_long, Err(FeedFault::RecordTooLong))
        && has_records(&mut feed, records)
}

// It passes as well where any one allocation is refused, as by `rt try --test --fail-alloc N`.
#[test]
fn records_come_in_pieces(rt: HostRuntime) {
    for (fine, too_long, records) in STREAMS {
        assert!(rt; is_fed(rt.alloc(), fine, too_long, records));
    }
}

/// Whether a record comes after so many empty fragments. A feed that looked again at what it holds would take some seven billion steps.
fn comes_after_empty(alloc: Global, count: u32) -> Result<bool, FeedFault> {
    let mut feed = RecordFeed::new(alloc);
    for _ in 0..count {
        feed.feed(b"\0\0\0\0")?;
    }
    feed.feed(b"\x80\0\0\x01a")?;
    Ok(has_records(&mut feed, &[b"a"]))
}

#[test]
fn empty_fragments_cost_their_bytes(rt: HostRuntime) -> Result<(), Fail> {
    assert!(rt; comes_after_empty(rt.alloc(), 60_000)?);
    Ok(())
}

/// Whether these bytes, made a record, are those; it is made once more where memory was refused.
fn is_framed(alloc: Global, bytes: &[u8; 3], want: &[u8]) -> Result<bool, AllocError> {
    let text = match frame(alloc, bytes) {
        Err(_) => frame(alloc, bytes)?,
        Ok(text) => text,
    };
    Ok(text.as_slice() == want)
}

// It passes as well where any one allocation is refused.
#[test]
fn a_frame_is_one_fragment(rt: HostRuntime) -> Result<(), Fail> {
    assert!(rt; is_framed(rt.alloc(), b"abc", b"\x80\0\0\x03abc")?);
    Ok(())
}
