//! The words that ask for a run of the bundled server.

use clap::ArgMatches;
use server_connection::Export;

/// What is to be run, and where to its history and certificate are written.
#[derive(Clone, Copy)]
pub struct RunRequest<'a> {
    /// The path of the history with whose starting objects and profile the server begins, if not with nothing.
    pub start: Option<&'a str>,
    /// The path of the plan.
    pub plan: &'a str,
    /// The path of the history that is written.
    pub history: &'a str,
    /// The path of the certificate that is written.
    pub certificate: &'a str,
}

/// Which connections are served, and where to what they say is written.
#[derive(Clone, Copy)]
pub struct ServeRequest<'a> {
    /// The port on 127.0.0.1 to which clients connect.
    pub port: u16,
    /// How many connections are served, from 1 to 64.
    pub lanes: u32,
    /// How many records of each connection are answered at most, from 1 to 1,000,000.
    pub calls: u64,
    /// Whether stock clients may mount the server.
    pub export: Export,
    /// Whether the profile is strict, also where that of the start isn't.
    pub is_strict: bool,
    /// Whether the status is 1 where a connection ended otherwise than by a close.
    pub needs_closes: bool,
    /// The path of the history with whose starting objects and profile the server begins, if not with nothing.
    pub start: Option<&'a str>,
    /// The path of the history that is written.
    pub history: &'a str,
    /// The path of the certificate that is written.
    pub certificate: &'a str,
}

/// What the words behind `run` ask for.
pub fn run_request<'a>(run: &ArgMatches<'a>) -> RunRequest<'a> {
    // The parser asks for all three paths but that of the start.
    RunRequest {
        start: run.get_str("start"),
        plan: run.get_str("PLAN").unwrap_or(""),
        history: run.get_str("HISTORY").unwrap_or(""),
        certificate: run.get_str("CERTIFICATE").unwrap_or(""),
    }
}

/// What the words behind `serve` ask for.
pub fn serve_request<'a>(serve: &ArgMatches<'a>) -> ServeRequest<'a> {
    // The parser asks for the three numbers and the last two paths.
    ServeRequest {
        port: serve.get_one("port").unwrap_or(1),
        lanes: serve.get_one("lanes").unwrap_or(1),
        calls: serve.get_one("calls").unwrap_or(1),
        export: if serve.get_flag("mountable") {
            Export::Mountable
        } else {
            Export::Plain
        },
        is_strict: serve.get_flag("strict"),
        needs_closes: serve.get_flag("strict-connections"),
        start: serve.get_str("start"),
        history: serve.get_str("HISTORY").unwrap_or(""),
        certificate: serve.get_str("CERTIFICATE").unwrap_or(""),
    }
}
