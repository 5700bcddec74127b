//! The commands, with what may be said after each.

use crate::rows::Need::{Free, Unless, Wanted, With, WithBut, Without};
use crate::rows::Row::{Count, Flag, Number, OneOf, Path, Text};
use crate::rows::{Row, Verb};

/// The most of a number of seconds, calls or states.
const MOST: u64 = 1_000_000;

const MOST_PORT: u64 = 65_535;

/// The most connections, clients, workers, or calls of a client on their way.
const MOST_LANES: u64 = 64;

const MOST_LANE: u64 = u32::MAX as u64;

const HISTORY: Row = Path("HISTORY", Wanted, "What the clients of a server saw");

const HISTORY_OUT: Row = Path("HISTORY", Wanted, "The file to write");

const RUN_HISTORY: Row = Path("HISTORY", Wanted, "The file for what the clients saw");

const RUN_CERTIFICATE: Row = Path("CERTIFICATE", Wanted, "The file for the order of the calls");

const RUN_START: Row = Text(
    "start",
    Free,
    "FILE",
    "A history: the server holds its starting objects at first, and takes its profile",
);

const JSON: Row = Flag("json", "Prints one JSON object on one line");

const STATES: Row = Number(
    "states",
    1,
    MOST,
    Free,
    "states",
    "How many states may stand at once, 10000 if not said",
);

const SECONDS: Row = Number(
    "seconds",
    1,
    MOST,
    Free,
    "seconds",
    "After how many seconds it gives up, 60 if not said",
);

const TWO_FILES: &[Row] = &[
    JSON,
    HISTORY,
    Path("CERTIFICATE", Wanted, "A serial order of their calls"),
];

const SHOW: &[Row] = &[
    Number(
        "from",
        1,
        u64::MAX,
        Free,
        "from",
        "The first event that is shown",
    ),
    Number(
        "to",
        1,
        u64::MAX,
        Free,
        "to",
        "The last event that is shown",
    ),
    Number(
        "call",
        1,
        u64::MAX,
        Free,
        "call",
        "Only this call and the reply to it",
    ),
    Number(
        "lane",
        0,
        MOST_LANE,
        Free,
        "lane",
        "Only the events of this connection, and crashes",
    ),
    Text(
        "procedure",
        Free,
        "NAME",
        "Only calls of this procedure, such as WRITE, and their replies",
    ),
    Text(
        "handle",
        Free,
        "HEX",
        "Only calls that touch the object with this handle, by its names too, and their replies",
    ),
    Text(
        "name",
        Free,
        "NAME",
        "Only calls and replies with this name in a directory",
    ),
    Flag(
        "short",
        "Writes a handle as # and twelve digits of its digest",
    ),
    HISTORY,
    Path(
        "CERTIFICATE",
        Free,
        "A serial order of their calls, which is judged too",
    ),
];

const DRAW: &[Row] = &[
    Number(
        "from",
        1,
        u64::MAX,
        Free,
        "N",
        "The first event that is drawn",
    ),
    Number("to", 1, u64::MAX, Free, "N", "The last event that is drawn"),
    Number(
        "call",
        1,
        u64::MAX,
        Without("from", "to"),
        "N",
        "The events around this call",
    ),
    HISTORY,
    Path(
        "CERTIFICATE",
        Free,
        "A serial order of their calls, whose fault is drawn",
    ),
];

const SEARCH: &[Row] = &[
    Number(
        "workers",
        1,
        MOST_LANES,
        Free,
        "workers",
        "How many threads search, 4 if not said",
    ),
    Number(
        "turns",
        1,
        10_000_000,
        Free,
        "turns",
        "How many branches each tries at most, 10000000 if not said",
    ),
    Number(
        "seconds",
        1,
        MOST,
        Free,
        "seconds",
        "After how many seconds it ends, never if not said",
    ),
    Flag("quiet", "Tells nothing on standard error"),
    JSON,
    HISTORY,
];

const DECIDE: &[Row] = &[
    Text(
        "certificate",
        Free,
        "FILE",
        "Writes the certificate of a yes to this file",
    ),
    STATES,
    SECONDS,
    Number(
        "go-on",
        1,
        1_000,
        Free,
        "N",
        "Leaves out the call of a no, and decides again, up to N times",
    ),
    Text(
        "front",
        Free,
        "FOLDER",
        "Where it isn't decided, writes the first events that an order explains to FOLDER/history, and the order to FOLDER/certificate",
    ),
    HISTORY,
];

const EXPLAIN: &[Row] = &[
    STATES,
    SECONDS,
    JSON,
    HISTORY,
    Path("CERTIFICATE", Free, "A serial order of their calls"),
];

const PREFIX: &[Row] = &[
    HISTORY,
    Count(
        "EVENTS",
        0,
        u64::MAX,
        "How many of its first events are kept",
    ),
    Path("PREFIX", Wanted, "The file to write"),
];

const RUN: &[Row] = &[
    RUN_START,
    Path(
        "PLAN",
        Wanted,
        "What the clients ask for, and when the server crashes",
    ),
    RUN_HISTORY,
    RUN_CERTIFICATE,
];

const SERVE: &[Row] = &[
    Number(
        "port",
        1,
        MOST_PORT,
        Wanted,
        "port",
        "Where clients connect, on 127.0.0.1",
    ),
    Number(
        "lanes",
        1,
        MOST_LANES,
        Wanted,
        "lanes",
        "How many connections are served",
    ),
    Number(
        "calls",
        1,
        MOST,
        Wanted,
        "calls",
        "How many calls of each are answered at most",
    ),
    Flag(
        "mountable",
        "Lets stock clients mount the server: answers MOUNT, ACCESS, FSSTAT, FSINFO and PATHCONF too",
    ),
    Flag(
        "strict",
        "Puts attributes into the replies, and has their types and sizes judged",
    ),
    Flag(
        "strict-connections",
        "Ends with status 1 after a yes if a connection ended otherwise than by a close",
    ),
    RUN_START,
    RUN_HISTORY,
    RUN_CERTIFICATE,
];

const TAP: &[Row] = &[
    Text(
        "root",
        Unless("mount"),
        "HEX",
        "The handle of the export's root; not needed with --mount and --export",
    ),
    Number(
        "mount",
        1,
        MOST_PORT,
        WithBut("export", "root"),
        "mount",
        "The port of the server's MOUNT service, which tells the root's handle",
    ),
    Text("export", With("mount"), "PATH", "The path that is mounted"),
    Number(
        "port",
        1,
        MOST_PORT,
        Wanted,
        "port",
        "Where clients connect, on 127.0.0.1",
    ),
    Number(
        "server",
        1,
        MOST_PORT,
        Wanted,
        "server",
        "The server's port",
    ),
    Text(
        "host",
        Free,
        "ADDRESS",
        "The server's IP address or localhost, where it isn't 127.0.0.1",
    ),
    Number(
        "lanes",
        1,
        MOST_LANES,
        Free,
        "lanes",
        "Ends with so many connections; else with standard input",
    ),
    Number("seconds", 1, MOST, Free, "N", "Ends after so many seconds"),
    Number(
        "idle",
        1,
        MOST,
        Free,
        "N",
        "Ends where nothing came for so many seconds",
    ),
    Text(
        "orders",
        Free,
        "FILE",
        "A file with the lines crash and end, read as it grows, in place of standard input",
    ),
    Text(
        "start",
        Free,
        "FOLDER",
        "What the export holds at first, as this machine sees it",
    ),
    OneOf(
        "profile",
        &["plain", "strict"],
        "PROFILE",
        "How the replies are judged: plain, or strict with their attributes",
    ),
    Flag(
        "strict",
        "Ends with status 1 where the server wasn't in health",
    ),
    Flag(
        "stop-at-outside",
        "Ends before the first call that has the history refused, such as a LINK that succeeds",
    ),
    Flag("quiet", "Doesn't tell once a second how far it is"),
    HISTORY_OUT,
];

const MEND: &[Row] = &[
    Path("PART", Wanted, "What tap left beside its history"),
    HISTORY_OUT,
];

const IMPORT: &[Row] = &[
    Number(
        "port",
        1,
        MOST_PORT,
        Wanted,
        "N",
        "The server's port of NFS",
    ),
    Text(
        "root",
        Free,
        "HEX",
        "The root's handle, where no MNT was captured",
    ),
    Flag(
        "strict",
        "End with status 1 if the capture lacks something of a connection",
    ),
    Path("CAPTURE", Wanted, "A file of tcpdump: pcap or pcapng"),
    HISTORY_OUT,
];

const TEST: &[Row] = &[
    Number(
        "port",
        1,
        MOST_PORT,
        Wanted,
        "N",
        "The server's port of NFS",
    ),
    Number(
        "mount",
        1,
        MOST_PORT,
        Wanted,
        "N",
        "The server's port of MOUNT",
    ),
    Text(
        "host",
        Free,
        "ADDRESS",
        "The server's IP address or localhost, 127.0.0.1 if not said",
    ),
    Text("export", Wanted, "PATH", "The export, as MOUNT names it"),
    Flag("empty", "Refuses an export that holds anything"),
    Flag("strict", "Judges the types and sizes in attributes too"),
    Number(
        "seed",
        0,
        u64::MAX,
        Free,
        "N",
        "What the calls follow from, 0 if not said",
    ),
    Number(
        "clients",
        1,
        MOST_LANES,
        Free,
        "N",
        "How many clients call, 4 if not said",
    ),
    Number(
        "calls",
        1,
        MOST,
        Free,
        "N",
        "How many calls each makes in an era, 1000 if not said",
    ),
    Number(
        "seconds",
        1,
        MOST,
        Free,
        "N",
        "After how many seconds an era's calls end",
    ),
    Number(
        "depth",
        1,
        MOST_LANES,
        Free,
        "N",
        "How many calls of a client are on their way, 4 if not said",
    ),
    OneOf(
        "mix",
        &["private", "shared", "race", "turns"],
        "MIX",
        "How the clients share names, turns of the other three if not said",
    ),
    Number(
        "least-page",
        1,
        65_536,
        Free,
        "N",
        "The least bytes that a page of a list is asked for, if small ones are answered wrongly",
    ),
    Number(
        "uid",
        0,
        MOST_LANE,
        Free,
        "N",
        "The user of the calls, 0 if not said",
    ),
    Number(
        "gid",
        0,
        MOST_LANE,
        Free,
        "N",
        "The group of the calls, 0 if not said",
    ),
    Number(
        "rounds",
        0,
        1_000,
        Free,
        "N",
        "How many crashes there are, 0 if not said",
    ),
    Text(
        "orders",
        Free,
        "FILE",
        "A file that gets the lines crash and up as it grows; standard input if not said",
    ),
    Number(
        "order-seconds",
        1,
        MOST,
        Free,
        "N",
        "How long an order in a file may take, 600 if not said",
    ),
    Number(
        "up-seconds",
        1,
        MOST,
        Free,
        "N",
        "How long the server may take to come up, 60 if not said",
    ),
    Number(
        "reply-seconds",
        1,
        MOST,
        Free,
        "N",
        "How long a reply may take, 30 if not said",
    ),
    Number(
        "at-least",
        1,
        MOST,
        Free,
        "N",
        "How many judged calls have to be answered; a yes wants 100, or a tenth of --calls, if not said",
    ),
    Number(
        "search-seconds",
        1,
        MOST,
        Free,
        "N",
        "How long the history may be judged, 60 if not said",
    ),
    Number(
        "states",
        1,
        MOST,
        Free,
        "N",
        "How many states may be kept at once meanwhile, 10000 if not said",
    ),
    Text(
        "out",
        Wanted,
        "FOLDER",
        "The folder to make for the history and the reports",
    ),
    Flag("json", "Prints one object of JSON"),
    Flag("quiet", "Tells nothing on standard error"),
];

/// The commands that judge, in the order in which `--help` lists them; then those that decide or run; then those that record.
pub(crate) const JUDGING: &[Verb] = &[
    Verb {
        name: "check",
        about: "Judges the history and the certificate in two files",
        rows: TWO_FILES,
    },
    Verb {
        name: "report",
        about: "Counts the calls of a history, and judges it as check does",
        rows: TWO_FILES,
    },
    Verb {
        name: "show",
        about: "Prints a line for each event of a history, and the verdict where a certificate is given",
        rows: SHOW,
    },
    Verb {
        name: "draw",
        about: "Prints a page of HTML with a picture of a history",
        rows: DRAW,
    },
    Verb {
        name: "search",
        about: "Searches a certificate of a history, and prints it",
        rows: SEARCH,
    },
];

pub(crate) const RUNNING: &[Verb] = &[
    Verb {
        name: "decide",
        about: "Decides whether a history has any certificate",
        rows: DECIDE,
    },
    Verb {
        name: "explain",
        about: "Judges as check does, and says why not; without a certificate, as decide does",
        rows: EXPLAIN,
    },
    Verb {
        name: "prefix",
        about: "Writes the first events of a history, with the replies to the calls that are open then",
        rows: PREFIX,
    },
    Verb {
        name: "run",
        about: "Runs a plan of clients and crashes over the bundled server, and judges its history",
        rows: RUN,
    },
    Verb {
        name: "serve",
        about: "Serves connections by the bundled server, and judges its history",
        rows: SERVE,
    },
];

pub(crate) const RECORDING: &[Verb] = &[
    Verb {
        name: "tap",
        about: "Records the calls between clients and a server into a history",
        rows: TAP,
    },
    Verb {
        name: "mend",
        about: "Makes a history of what a recorder left on disk when it was ended",
        rows: MEND,
    },
    Verb {
        name: "import",
        about: "Makes a history of a capture of packets",
        rows: IMPORT,
    },
    Verb {
        name: "test",
        about: "Drives a server with clients over crashes, and says what became of it",
        rows: TEST,
    },
];
