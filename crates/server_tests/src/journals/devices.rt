//! A device that fails once at a call of each kind.

use journal::{DevFault, JournalDevice, SimDevice};

/// A call of a device.
#[derive(Clone, Copy)]
enum DeviceCall {
    Append(&'static [u8]),
    Barrier,
    /// Goes on with so many records.
    Recover(u64),
}

/// A call, how it ends, and after it how many records the device has, how many are safe, and how often it failed.
type Step = (DeviceCall, Result<(), DevFault>, [u64; 3]);

/// Whether a call ends so. None goes on with more records than are there, or with fewer than are safe.
fn ends(device: &mut SimDevice, call: DeviceCall, want: Result<(), DevFault>) -> bool {
    match call {
        DeviceCall::Append(bytes) => device.append(bytes) == want,
        DeviceCall::Barrier => device.barrier() == want,
        DeviceCall::Recover(keep) => {
            device.mark() <= keep && keep <= device.len() && device.recover(keep) == want
        }
    }
}

/// Whether calls one after the other end so.
fn all_end(device: &mut SimDevice, steps: &[Step]) -> bool {
    for (call, want, numbers) in steps {
        if !ends(device, *call, *want) {
            return false;
        }
        if [device.len(), device.mark(), device.faults()] != *numbers {
            return false;
        }
    }
    true
}

/// Whether a record has these bytes.
fn has(device: &SimDevice, index: usize, bytes: &[u8]) -> bool {
    match device.records().get(index) {
        Some(found) => found.as_slice() == bytes,
        None => false,
    }
}

/// An append that fails, between two that don't.
const SECOND_FAILS: &[Step] = &[
    (DeviceCall::Append(b"one"), Ok(()), [1, 0, 0]),
    (DeviceCall::Append(b"two"), Err(DevFault::Failed), [1, 0, 1]),
    (DeviceCall::Append(b"three"), Ok(()), [2, 0, 1]),
    (DeviceCall::Barrier, Ok(()), [2, 2, 1]),
    (DeviceCall::Recover(2), Ok(()), [2, 2, 1]),
];

/// A barrier and a recovery that fail, and one that goes on with two of three records.
const TWO_ARE_KEPT: &[Step] = &[
    (DeviceCall::Append(b"one"), Ok(()), [1, 0, 0]),
    (DeviceCall::Barrier, Ok(()), [1, 1, 0]),
    (DeviceCall::Append(b"two"), Ok(()), [2, 1, 0]),
    (DeviceCall::Barrier, Err(DevFault::Failed), [2, 1, 1]),
    (DeviceCall::Append(b"three"), Ok(()), [3, 1, 1]),
    (DeviceCall::Recover(2), Err(DevFault::Failed), [3, 1, 2]),
    (DeviceCall::Recover(2), Ok(()), [2, 2, 2]),
];

#[test]
fn a_failed_append_adds_nothing_and_a_crash_keeps_some(rt: HostRuntime) {
    let mut device = SimDevice::new(rt.alloc(), Some(2), None, None);
    assert!(rt; all_end(&mut device, SECOND_FAILS));
    assert!(rt; has(&device, 0, b"one") && has(&device, 1, b"three"));
    let mut device = SimDevice::new(rt.alloc(), Some(0), Some(2), Some(1));
    assert!(rt; all_end(&mut device, TWO_ARE_KEPT));
    assert!(rt; has(&device, 1, b"two") && !has(&device, 2, b"three"));
}
