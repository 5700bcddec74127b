//! The words that ask for a recording.

use clap::ArgMatches;
use std::net::{IpAddr, Ipv4Addr, SocketAddr};
use tree_starts::Profile;

/// Where the root's handle comes from.
#[derive(Clone, Copy)]
pub enum RootWords<'a> {
    /// From the words, in hex.
    Handle(&'a str),
    /// From the MOUNT service at an address, for a path that it exports.
    Mounted(SocketAddr, &'a str),
}

/// What ends a recording, beside its connections and standard input. Where any is said, standard input isn't read.
#[derive(Clone, Copy)]
pub struct EndWords<'a> {
    /// After so many seconds.
    pub seconds: Option<u32>,
    /// Where nothing was noted for so many seconds.
    pub idle: Option<u32>,
    /// The file that the orders come from: `crash`, `end`.
    pub orders: Option<&'a str>,
}

impl EndWords<'_> {
    /// Whether any is said.
    pub(crate) fn is_any(&self) -> bool {
        self.seconds.is_some() || self.idle.is_some() || self.orders.is_some()
    }
}

/// What is to be recorded, and where to.
#[derive(Clone, Copy)]
pub struct TapRequest<'a> {
    /// The root's handle.
    pub root: RootWords<'a>,
    /// The port on 127.0.0.1 to which clients connect.
    pub port: u16,
    /// The address of the server, to which connections are relayed.
    pub server: SocketAddr,
    /// How many connections are relayed, where that is limited.
    pub lanes: Option<u32>,
    /// What else ends it.
    pub ends: EndWords<'a>,
    /// The folder that has what the server held at first, if it held anything.
    pub start: Option<&'a str>,
    /// How strictly the replies are to be judged.
    pub profile: Profile,
    /// Whether a server that wasn't in health makes the status 1.
    pub is_strict: bool,
    /// Whether the first call that has the history refused ends it, and the history ends before that call.
    pub stops_at_outside: bool,
    /// Whether it isn't told once a second how far the recording is.
    pub is_quiet: bool,
    /// The path of the history.
    pub history: &'a str,
}

/// The address that `--host` names: 127.0.0.1 for `localhost`, and where it isn't said; none where its value is no IP address.
pub fn host_address(words: &ArgMatches<'_>) -> Option<IpAddr> {
    match words.get_str("host") {
        None | Some("localhost") => Some(IpAddr::V4(Ipv4Addr::new(127, 0, 0, 1))),
        Some(host) => host.parse().ok(),
    }
}

/// Where the root's handle comes from.
fn root_words<'a>(tap: &ArgMatches<'a>, host: IpAddr) -> Option<RootWords<'a>> {
    if let Some(root) = tap.get_str("root") {
        return Some(RootWords::Handle(root));
    }
    let mount = SocketAddr::new(host, tap.get_one("mount")?);
    Some(RootWords::Mounted(mount, tap.get_str("export")?))
}

fn end_words<'a>(tap: &ArgMatches<'a>) -> EndWords<'a> {
    EndWords {
        seconds: tap.get_one("seconds"),
        idle: tap.get_one("idle"),
        orders: tap.get_str("orders"),
    }
}

fn profile_word(tap: &ArgMatches<'_>) -> Profile {
    match tap.get_str("profile") {
        Some("strict") => Profile::Strict,
        _ => Profile::Plain,
    }
}

/// What the words behind `tap` ask for, unless the server's address is none.
pub fn tap_request<'a>(tap: &ArgMatches<'a>) -> Option<TapRequest<'a>> {
    let host = host_address(tap)?;
    Some(TapRequest {
        root: root_words(tap, host)?,
        port: tap.get_one("port")?,
        server: SocketAddr::new(host, tap.get_one("server")?),
        lanes: tap.get_one("lanes"),
        ends: end_words(tap),
        start: tap.get_str("start"),
        profile: profile_word(tap),
        is_strict: tap.get_flag("strict"),
        stops_at_outside: tap.get_flag("stop-at-outside"),
        is_quiet: tap.get_flag("quiet"),
        history: tap.get_str("HISTORY")?,
    })
}
