//! Whole nights of the bundled server: what is said at the end, and what is in their folders.

use super::served::{START, serves};
use super::wrong::changes_replies;
use super::{ends_with, free_port, listen, port_of, says, take_file};
use recording_command::RecordingRuntime;
use std::net::{TcpListener, TcpStream};
use std::test::Fail;
use std::{fs, io, thread};

/// A night of two clients, and what becomes of it. A night has six connections: one to see that the server is up, one each for MOUNT, the walk, the two
/// clients and UMNT; one with a crash has six before it.
#[derive(Clone, Copy)]
struct Night {
    /// The options of the server; a start is at its port's path.
    serve: &'static str,
    /// Whether the server's replies are changed on their way.
    is_wrong: bool,
    /// The options of the night.
    test: &'static str,
    status: u8,
    /// How its last line begins.
    last: &'static [u8],
    /// What is in its folder beside the history and the reports.
    files: &'static [&'static str],
}

const NIGHTS: [Night; 5] = [
    Night {
        serve: "--lanes 6 --calls 100000 --mountable",
        is_wrong: false,
        test: "--calls 40",
        status: 0,
        last: b"yes\n",
        files: &["night/certificate"],
    },
    // The export holds a file at first.
    Night {
        serve: "--lanes 6 --calls 100000 --mountable --strict --start",
        is_wrong: false,
        test: "--calls 40 --strict",
        status: 0,
        last: b"yes\n",
        files: &["night/certificate"],
    },
    // The server ends connections while clients call.
    Night {
        serve: "--lanes 6 --calls 20 --mountable",
        is_wrong: false,
        test: "--calls 40",
        status: 1,
        last: b"no: client ",
        files: &["night/certificate", "night/explanation"],
    },
    // No tree explains the replies.
    Night {
        serve: "--lanes 6 --calls 100000 --mountable",
        is_wrong: true,
        test: "--calls 40",
        status: 1,
        last: b"no: no witness: event ",
        files: &["night/explanation", "night/picture.html"],
    },
    // Nobody says that the server is up again.
    Night {
        serve: "--lanes 6 --calls 100000 --mountable",
        is_wrong: false,
        test: "--calls 40 --rounds 1 --order-seconds 1 --orders /dev/null",
        status: 2,
        last: b"undecided: no order came for crash 1",
        files: &["night/certificate", "night/explanation"],
    },
];

/// Whether the night at a place, on a server that is to come up at a port, ends as it should.
fn is_night<R: RecordingRuntime>(rt: &R, port: u16, at: usize) -> bool {
    let Some(night) = NIGHTS.get(at) else {
        return false;
    };
    let options = night.test;
    let line = format!(in rt.alloc();
        "nfsbench test --port {port} --mount {port} --export / --seed 7 --clients 2 {options} --up-seconds 60 --quiet --out /tmp/nfsbench_{port}.night"
    );
    ends_with(rt, line, night.last, night.status)
}

/// How many connections a night has, where the server's replies are changed on their way.
const LANES: u32 = 6;

/// Whether the server at a port serves the night at a place.
fn is_served<R: RecordingRuntime>(rt: &R, port: u16, at: usize) -> bool {
    let Some(night) = NIGHTS.get(at) else {
        return false;
    };
    let options = night.serve;
    let line = if options.ends_with("--start") {
        format!(in rt.alloc(); "{options} /tmp/nfsbench_{port}.start")
    } else {
        String::from_str(rt.alloc(), options)
    };
    match line {
        Ok(line) => serves(rt, port, line.as_str(), b"yes\n", 0),
        Err(_) => false,
    }
}

/// Whether `check` accepts the certificate of a night for its history.
fn is_accepted<R: RecordingRuntime>(rt: &R, port: u16) -> bool {
    let line = format!(in rt.alloc();
        "nfsbench check /tmp/nfsbench_{port}.night/history /tmp/nfsbench_{port}.night/certificate"
    );
    says(rt, line, &mut b"".as_slice(), b"yes\n", 0)
}

/// Removes what a server wrote and was given.
fn remove_served<R: RecordingRuntime>(rt: &R, port: u16) -> io::Result<()> {
    for kind in ["served", "certificate", "start"] {
        take_file(rt, port, kind)?;
    }
    Ok(())
}

/// Removes a night's folder, if it has the files that it should and no other.
fn remove_night<R: RecordingRuntime>(rt: &R, port: u16, night: &Night) -> io::Result<()> {
    for kind in ["night/history", "night/report.json", "night/junit.xml"] {
        take_file(rt, port, kind)?;
    }
    for kind in night.files {
        take_file(rt, port, *kind)?;
    }
    let path = format!(in rt.alloc(); "/tmp/nfsbench_{port}.night")?;
    fs::remove_dir(rt, path.as_str())
}

/// Where a night is, and its server: through the listener go so many connections.
#[derive(Drop)]
struct Places {
    listener: TcpListener,
    lanes: u32,
    port: u16,
    server: u16,
}

/// The places of a night, with a start at its server's.
fn places_of<R: RecordingRuntime>(rt: &R, night: &Night) -> io::Result<Places> {
    let listener = listen(rt)?;
    let server = free_port(rt)?;
    let path = format!(in rt.alloc(); "/tmp/nfsbench_{server}.start")?;
    fs::write(rt, path.as_str(), START)?;
    let (port, lanes) = if night.is_wrong {
        (port_of(&listener)?, LANES)
    } else {
        (server, 0)
    };
    Ok(Places {
        listener,
        lanes,
        port,
        server,
    })
}

/// Whether a night that ended left what it should, which is removed.
fn is_left<R: RecordingRuntime>(rt: &R, (port, server): (u16, u16), night: &Night) -> bool {
    let is_so = night.status != 0 || is_accepted(rt, port);
    is_so && remove_night(rt, port, night).is_ok() && remove_served(rt, server).is_ok()
}

#[test]
fn each_night_ends_as_it_should(rt: HostRuntime) -> Result<(), Fail> {
    // The prover knows the types that a function names.
    let _listener: Option<TcpListener> = None;
    let _stream: Option<TcpStream> = None;
    for (at, night) in NIGHTS.iter().enumerate() {
        let Places {
            listener,
            lanes,
            port,
            server,
        } = places_of(&rt, night).expect(&rt, "a port and a start");
        let is_so = thread::scope(thread::scope_env(), &rt, |scope| {
            let _listener: Option<TcpListener> = None;
            let _stream: Option<TcpStream> = None;
            let served = scope.spawn(|| {
                let _listener: Option<TcpListener> = None;
                let _stream: Option<TcpStream> = None;
                is_served(&rt, server, at)
            });
            let changed = scope.spawn(|| {
                let _stream: Option<TcpStream> = None;
                changes_replies(&rt, listener, server, lanes)
            });
            let is_so = is_night(&rt, port, at);
            let (Ok(served), Ok(changed)) = (served, changed) else {
                return false;
            };
            is_so && served.join(&rt) && changed.join(&rt)
        });
        assert!(rt; is_so, "{}", night.test);
        assert!(rt; is_left(&rt, (port, server), night), "{}", night.test);
    }
    Ok(())
}
