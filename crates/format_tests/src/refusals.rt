//! What can't be written is refused by name.

use certificate::{Bind, Certificate, CertificateFault, EraPlan};
use nfs_history::{Event, Message, WriteFault, write_history};
use nfs3_types::{FileHandle, ItemList};
use std::alloc::{AllocError, Global};
use std::test::Fail;

/// Binds of handles of these bytes, of none where there are too many.
fn binds(alloc: Global, handles: &[&[u8]]) -> Result<Vec<Bind>, AllocError> {
    let mut binds = Vec::new(alloc);
    for bytes in handles {
        let handle = FileHandle::from_slice(alloc, &bytes[..bytes.len().min(64)])?;
        binds.push(Bind { handle, object: 1 })?;
    }
    Ok(binds)
}

/// Eras without places, with these cuts.
fn eras(alloc: Global, cuts: &[Option<u64>]) -> Result<Vec<EraPlan>, AllocError> {
    let mut eras = Vec::new(alloc);
    for cut in cuts {
        eras.push(EraPlan {
            places: ItemList::new(Vec::new(alloc)),
            cut: *cut,
        })?;
    }
    Ok(eras)
}

/// Why there is no certificate, at a bind or at an era; none where there is one.
type Why = Option<CertificateFault>;

const BAD_BIND_1: Why = Some(CertificateFault::BadBind(1));

const BAD_BIND_2: Why = Some(CertificateFault::BadBind(2));

const BAD_BIND_3: Why = Some(CertificateFault::BadBind(3));

const NO_ERA: Why = Some(CertificateFault::BadEra(1));

const LATE_CUT: Why = Some(CertificateFault::BadEra(2));

const NO_CUT: Why = Some(CertificateFault::BadEra(2));

/// Handles of binds, cuts of eras, and why there is no certificate of these.
const PLANS: &[(&[&[u8]], &[Option<u64>], Why)] = &[
    // A handle without bytes, one that is bound again later, and one that is bound twice.
    (&[b""], &[None], BAD_BIND_1),
    (&[b"a", b"b", b"a"], &[None], BAD_BIND_3),
    (&[b"a", b"a"], &[None], BAD_BIND_2),
    (&[], &[], NO_ERA),
    (&[], &[Some(0), Some(0)], LATE_CUT),
    (&[], &[Some(0), None, None], NO_CUT),
    (&[b"a"], &[Some(0), None], None),
];

/// Whether a plan is refused so.
fn is_refused(
    alloc: Global,
    handles: &[&[u8]],
    cuts: &[Option<u64>],
    want: Why,
) -> Result<bool, AllocError> {
    let binds = binds(alloc, handles)?;
    match Certificate::new(binds, eras(alloc, cuts)?) {
        Ok(_) => Ok(want.is_none()),
        Err(fault) => Ok(want == Some(fault)),
    }
}

#[test]
fn what_is_no_certificate_is_named(rt: HostRuntime) -> Result<(), Fail> {
    for (handles, cuts, want) in PLANS {
        assert!(rt; is_refused(rt.alloc(), handles, cuts, *want)?);
    }
    Ok(())
}

/// Bytes of a root handle and of a reply's message, and why a history of these isn't written.
const SIZES: &[(usize, usize, Option<WriteFault>)] = &[
    (64, 0, None),
    (65, 0, Some(WriteFault::TooLarge)),
    (1, 2_097_152, None),
    (1, 2_097_153, Some(WriteFault::TooLarge)),
];

/// Why a history of such a root handle, with one reply, isn't written.
fn fault_of(alloc: Global, root: usize, size: usize) -> Result<Option<WriteFault>, AllocError> {
    let root = Vec::from_elem(alloc, 0u8, root)?;
    let bytes = Vec::from_elem(alloc, 0u8, size)?;
    let message = Message::from_slice(alloc, bytes.as_slice())?;
    let events = [Event::Reply { lane: 1, message }];
    Ok(write_history(alloc, root.as_slice(), &events).err())
}

#[test]
fn what_is_over_its_limit_is_not_written(rt: HostRuntime) -> Result<(), Fail> {
    for (root, size, want) in SIZES {
        assert!(rt; fault_of(rt.alloc(), *root, *size)? == *want);
    }
    Ok(())
}
