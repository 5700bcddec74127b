//! What MOUNT says, and a mount over sockets.

use crate::server::{Answer, Manner, Message, RIGHT, Seen, Server, begin};
use mount_client::{MountFault, mount, root_in, unmount};
use night_clients::ClientsRuntime;
use rpc_client::Credential;
use rpc_reader::read_call;
use std::alloc::{AllocError, Global};
use std::net::{SocketAddr, TcpListener, TcpStream};
use std::thread;
use std::time::Duration;

/// What is said of a reply with these words after its transaction number, empty if it gives a root.
fn said(alloc: Global, reply: &[u32]) -> Result<String, AllocError> {
    let mut message = Message::new(alloc);
    message.word(1);
    message.words(reply);
    let message = message.finish()?;
    match root_in(alloc, message.as_slice()) {
        Ok(_) => Ok(String::new(alloc)),
        Err(fault) => format!(in alloc; "{fault}"),
    }
}

/// Whether such a reply is told so.
fn is_said(alloc: Global, reply: &[u32], words: &str) -> bool {
    match said(alloc, reply) {
        Ok(text) => text.as_str() == words,
        Err(_) => false,
    }
}

/// Replies to MNT, and what is said of them; nothing is of those that give a root (RFC 5531, section 9; RFC 1813, section 5.2.1).
const SAID: [(&[u32], &str); 13] = [
    (
        &[1, 0, 0, 0, 1],
        "the program at the port of MOUNT isn't MOUNT: say the port of the mount daemon (rpcinfo -p tells it) by --mount",
    ),
    (
        &[1, 0, 0, 0, 2, 1, 2],
        "the server has MOUNT in versions 1 to 2, and not in version 3: have it serve NFS version 3",
    ),
    (
        &[1, 1, 1, 5],
        "AUTH_TOOWEAK: MOUNT wants a port below 1024: allow ports above 1023 (`insecure` in /etc/exports, `PrivilegedPort = false` in nfs-ganesha)",
    ),
    (
        &[1, 0, 0, 0, 5],
        "RPC refused MNT, SYSTEM_ERR: look at the server's log",
    ),
    (
        &[1, 0, 0, 0, 0, 13],
        "MNT3ERR_ACCES: the server doesn't let this machine mount it: export it to this address, and allow ports above 1023 (`insecure` in /etc/exports, `PrivilegedPort = false` in nfs-ganesha)",
    ),
    (
        &[1, 0, 0, 0, 0, 2],
        "MNT3ERR_NOENT: no such export: showmount -e lists them",
    ),
    (
        &[1, 0, 0, 0, 0, 10_006],
        "MNT3ERR_SERVERFAULT: the mount daemon failed: look at its log",
    ),
    (
        &[1, 0, 0, 0, 0, 3],
        "MNT failed with status 3, which RFC 1813 doesn't have: look at the server's log",
    ),
    (&[1, 0, 0, 0, 0, 0, 4, 9, 0], ""),
    (&[1, 0, 0, 0, 0, 0, 4, 9, 2, 390_003, 1], ""),
    (&[1, 0, 0, 0, 0, 0, 4, 9, 1, 0], ""),
    (
        &[1, 0, 0, 0, 0, 0, 4, 9, 1, 390_003],
        "the export takes neither AUTH_SYS nor AUTH_NONE: allow AUTH_SYS for it (`sec=sys` in /etc/exports, `SecType = sys` in nfs-ganesha)",
    ),
    (
        &[1, 0, 0, 0, 0, 0, 4, 9, 1],
        "the result of MNT isn't in the grammar of RFC 1813: the server's reply is wrong",
    ),
];

/// Whether what is said of a reply with this status begins so.
fn is_named(alloc: Global, status: u32, name: &str) -> bool {
    match said(alloc, [1, 0, 0, 0, 0, status].as_slice()) {
        Ok(text) => text.as_str().starts_with(name),
        Err(_) => false,
    }
}

/// The names of RFC 1813, section 5.1.5.
const NAMES: [(u32, &str); 9] = [
    (1, "MNT3ERR_PERM: "),
    (2, "MNT3ERR_NOENT: "),
    (5, "MNT3ERR_IO: "),
    (13, "MNT3ERR_ACCES: "),
    (20, "MNT3ERR_NOTDIR: "),
    (22, "MNT3ERR_INVAL: "),
    (63, "MNT3ERR_NAMETOOLONG: "),
    (10_004, "MNT3ERR_NOTSUPP: "),
    (10_006, "MNT3ERR_SERVERFAULT: "),
];

#[test]
fn replies_have_words(rt: HostRuntime) {
    for (reply, words) in SAID {
        assert!(rt; is_said(rt.alloc(), reply, words));
    }
    for (status, name) in NAMES {
        assert!(rt; is_named(rt.alloc(), status, name));
    }
}

const WHO: Credential = Credential { uid: 7, gid: 9 };

/// A mount daemon that answers with MNT3_OK, the handle `root`, and one flavor, AUTH_SYS.
const DAEMON: Manner = Manner {
    answer: Answer::Words(&[1, 0, 0, 0, 0, 0, 4, 0x726f_6f74, 1, 1]),
    last: 1,
    ..RIGHT
};

/// Whether MNT of a path gives the handle that the daemon gives.
fn mounts<R: ClientsRuntime>(rt: &R, server: &SocketAddr) -> bool {
    match mount(rt, server, b"/export", WHO, Duration::from_secs(5)) {
        Ok(root) => root.as_slice() == b"root".as_slice(),
        Err(_) => false,
    }
}

/// Whether a daemon was asked for this procedure of MOUNT version 3 alone, of the path, with AUTH_SYS.
fn is_asked(seen: Option<Vec<Seen>>, procedure: u32) -> Option<bool> {
    let seen = seen?;
    let [connection] = seen.as_slice() else {
        return None;
    };
    let [call] = connection.calls.as_slice() else {
        return None;
    };
    let head = read_call(call.as_slice()).ok()?;
    Some(
        (head.program, head.version, head.procedure, head.flavor) == (100_005, 3, procedure, 1)
            && head.args == b"\0\0\0\x07/export\0".as_slice(),
    )
}

/// Whether an export is mounted, and unmounted again.
fn comes_and_goes<R: ClientsRuntime>(rt: &R) -> Option<bool> {
    let server = Server::new(rt, 1)?;
    thread::scope(thread::scope_env(), rt, |scope| {
        let first = begin(scope, rt, &server, DAEMON)?;
        let is_mounted = mounts(rt, &server.address);
        let is_first = is_asked(first.join(rt), 1)?;
        let second = begin(scope, rt, &server, DAEMON)?;
        unmount(rt, &server.address, b"/export", WHO, Duration::from_secs(5));
        let is_second = is_asked(second.join(rt), 3)?;
        Some(is_mounted && is_first && is_second)
    })
}

/// Whether nothing is asked of a path that is too long.
fn is_too_long<R: ClientsRuntime>(rt: &R) -> Option<bool> {
    let server = Server::new(rt, 1)?;
    match mount(
        rt,
        &server.address,
        &[b'/'; 1025],
        WHO,
        Duration::from_secs(1),
    ) {
        Ok(_) => Some(false),
        Err(fault) => Some(fault == MountFault::PathTooLong),
    }
}

#[test]
fn exports_are_mounted(rt: HostRuntime) {
    let _listener: Option<TcpListener> = None;
    let _stream: Option<TcpStream> = None;
    assert!(rt; comes_and_goes(&rt) == Some(true));
    assert!(rt; is_too_long(&rt) == Some(true));
}
