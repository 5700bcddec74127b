//! The words that ask for a night.

use clap::ArgMatches;
use night_calls::Mix;
use recording_command::host_address;
use rpc_client::Credential;
use std::net::SocketAddr;

/// What a night is to be.
#[derive(Clone, Copy)]
pub struct TestRequest<'a> {
    /// The server's address, with its port of NFS.
    pub server: SocketAddr,
    /// The same with its port of MOUNT.
    pub mount: SocketAddr,
    /// The path that is mounted.
    pub export: &'a str,
    /// The folder that is made.
    pub folder: &'a str,
    /// Whether the export has to be empty.
    pub is_empty: bool,
    /// Whether the profile is strict.
    pub is_strict: bool,
    pub clients: ClientsWords<'a>,
    pub crashes: CrashWords<'a>,
    pub limits: LimitWords,
    /// Whether one object of JSON is printed in place of lines.
    pub is_json: bool,
    /// Whether nothing is told on standard error.
    pub is_quiet: bool,
}

/// What the clients do.
#[derive(Clone, Copy)]
pub struct ClientsWords<'a> {
    pub seed: u64,
    /// From 1 to 64.
    pub clients: u32,
    /// How many calls each makes in an era.
    pub calls: Option<u64>,
    /// After how many seconds of an era no call is made.
    pub seconds: Option<u32>,
    /// How many calls of a client may be on their way, from 1 to 64.
    pub depth: u32,
    /// The word of the mix.
    pub mix: &'a str,
    /// The least bytes that a page of a list is asked for.
    pub least_page: u32,
    pub credential: Credential,
}

/// When the server goes down.
#[derive(Clone, Copy)]
pub struct CrashWords<'a> {
    /// How many crashes there are.
    pub rounds: u32,
    /// The path of the orders, if they don't come from standard input.
    pub orders: Option<&'a str>,
    /// How many seconds an order may take.
    pub order_seconds: u32,
    /// How many seconds the server may take to answer NULL, at the beginning and after a crash.
    pub up_seconds: u32,
}

/// What a night may take, and what it has to come to.
#[derive(Clone, Copy)]
pub struct LimitWords {
    /// How many seconds a reply may take.
    pub reply_seconds: u32,
    /// How many judged calls have to be answered, where that is said.
    pub at_least: Option<u64>,
    /// How many seconds it may take to judge the history.
    pub search_seconds: u32,
    /// How many states may stand at once meanwhile.
    pub states: u32,
}

/// What is taken where the words don't say.
const CLIENTS: u32 = 4;

const CALLS: u64 = 1_000;

const DEPTH: u32 = 4;

const REPLY_SECONDS: u32 = 30;

const UP_SECONDS: u32 = 60;

const ORDER_SECONDS: u32 = 600;

const SEARCH_SECONDS: u32 = 60;

const STATES: u32 = 10_000;

/// How many calls have to be answered for a yes, where the words don't say.
const ENOUGH: u64 = 100;

/// The mix that a word names.
pub(crate) fn mix_of(word: &str) -> Option<Mix> {
    match word {
        "private" => Some(Mix::Private),
        "shared" => Some(Mix::Shared),
        "race" => Some(Mix::Race),
        "turns" => Some(Mix::Turns),
        _ => None,
    }
}

fn clients_words<'a>(test: &ArgMatches<'a>) -> ClientsWords<'a> {
    ClientsWords {
        seed: test.get_one("seed").unwrap_or(0),
        clients: test.get_one("clients").unwrap_or(CLIENTS),
        calls: test.get_one("calls"),
        seconds: test.get_one("seconds"),
        depth: test.get_one("depth").unwrap_or(DEPTH),
        mix: test.get_str("mix").unwrap_or("turns"),
        least_page: test.get_one("least-page").unwrap_or(0),
        credential: Credential {
            uid: test.get_one("uid").unwrap_or(0),
            gid: test.get_one("gid").unwrap_or(0),
        },
    }
}

fn crash_words<'a>(test: &ArgMatches<'a>) -> CrashWords<'a> {
    CrashWords {
        rounds: test.get_one("rounds").unwrap_or(0),
        orders: test.get_str("orders"),
        order_seconds: test.get_one("order-seconds").unwrap_or(ORDER_SECONDS),
        up_seconds: test.get_one("up-seconds").unwrap_or(UP_SECONDS),
    }
}

fn limit_words(test: &ArgMatches<'_>) -> LimitWords {
    LimitWords {
        reply_seconds: test.get_one("reply-seconds").unwrap_or(REPLY_SECONDS),
        at_least: test.get_one("at-least"),
        search_seconds: test.get_one("search-seconds").unwrap_or(SEARCH_SECONDS),
        states: test.get_one("states").unwrap_or(STATES),
    }
}

/// What the words after `test` ask for, unless the server's address is none.
pub fn test_request<'a>(test: &ArgMatches<'a>) -> Option<TestRequest<'a>> {
    let host = host_address(test)?;
    // The parser asks for the ports and the paths.
    Some(TestRequest {
        server: SocketAddr::new(host, test.get_one("port").unwrap_or(1)),
        mount: SocketAddr::new(host, test.get_one("mount").unwrap_or(1)),
        export: test.get_str("export").unwrap_or(""),
        folder: test.get_str("out").unwrap_or(""),
        is_empty: test.get_flag("empty"),
        is_strict: test.get_flag("strict"),
        clients: clients_words(test),
        crashes: crash_words(test),
        limits: limit_words(test),
        is_json: test.get_flag("json"),
        is_quiet: test.get_flag("quiet"),
    })
}

impl TestRequest<'_> {
    /// How many judged calls have to be answered, so that the server isn't at fault.
    pub(crate) fn at_least(&self) -> u64 {
        self.limits.at_least.unwrap_or(1)
    }

    /// How many have to be answered for a yes: as many as is said, or else a hundred, or a tenth of the calls of an era where that is less.
    pub(crate) fn wanted(&self) -> u64 {
        match self.limits.at_least {
            Some(calls) => calls,
            None => {
                let all = u64::from(self.clients.clients).saturating_mul(self.clients.calls_each());
                ENOUGH.min(all / 10)
            }
        }
    }
}

impl ClientsWords<'_> {
    /// How many calls each client makes in an era. Seconds without calls don't limit them.
    pub(crate) fn calls_each(&self) -> u64 {
        match (self.calls, self.seconds) {
            (Some(calls), _) => calls,
            (None, Some(_)) => u64::MAX,
            (None, None) => CALLS,
        }
    }
}
