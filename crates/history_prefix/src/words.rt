//! What is wanted of a history where a fault is (`docs/FORMATS.md`).

use nfs_history::{HistoryFault, Which};

/// What is wanted of a call of which a part lies outside what is judged.
fn wanted_of(which: Which) -> &'static str {
    match which {
        Which::Link => "no LINK, or one that failed: hard links aren't judged",
        Which::Node => "no MKNOD, or one that failed: devices, sockets and fifos aren't judged",
        Which::CountDiffers => "a WRITE whose count is the length of its data",
        Which::TooFar => "no file that passes 16777216 bytes",
    }
}

/// What is wanted where a fault is.
pub fn wanted(fault: HistoryFault) -> &'static str {
    match fault {
        HistoryFault::BadMagic => "8 bytes at the file's beginning: NFSHIST1 or NFSHIST2",
        HistoryFault::TooLarge => {
            "at most 268435456 bytes, 1000000 events and 1000000 starting objects, with at most 2097152 bytes a message, 64 in the root handle, 1048576 a name or a link's text, and 16777216 a starting file"
        }
        HistoryFault::Truncated => "all bytes of each item, and as many events as the file says",
        HistoryFault::BadEvent(_) => "the kind word of an event: 0 call, 1 reply, 2 close, 3 crash",
        HistoryFault::Trailing => "nothing after the last event",
        HistoryFault::BadStart(_) => {
            "a starting object in directory 0 or in a starting directory before it, with a name that is neither empty nor `.` nor `..` nor given there, and a kind word: 1 file, 2 directory, 5 link"
        }
        HistoryFault::BadProfile => "the profile word: 0 plain, 1 strict",
        HistoryFault::LaneClosed(_) =>
            "a lane that is neither closed nor older than the last crash",
        HistoryFault::BadRpc(_) => {
            "the head of an RPC message (RFC 5531, section 9), of a call where the event is a call, and of a reply where it is a reply"
        }
        HistoryFault::XidInUse(_) => {
            "a transaction number that no call of the lane has which waits for its reply"
        }
        HistoryFault::NoSuchCall(_) => {
            "a call of the lane with this transaction number that waits for its reply"
        }
        HistoryFault::Sealed(_) => {
            "a credential that doesn't hide the arguments, such as AUTH_SYS: that of the call is of RPCSEC_GSS (RFC 2203)"
        }
        HistoryFault::BadArgs(_) =>
            "the arguments of the procedure, and nothing after them (RFC 1813, section 3.3)",
        HistoryFault::BadResult(_) => {
            "a status of RFC 1813, section 2.6, with the result of the procedure, and nothing after it (section 3.3)"
        }
        HistoryFault::Outside { call: _, which } => wanted_of(which),
        HistoryFault::NoMemory => "more memory",
    }
}
