//! Tests of a journal server and of a recording, through public calls: servers that threads call and for which memory runs out, streams that
//! are served, plans, journals; folders as starts, what was left on disk, a server's health, and packet captures.
#![tactic(auto)]

#[cfg(test)]
mod captures;
#[cfg(test)]
mod journals;
#[cfg(test)]
mod recordings;
#[cfg(test)]
mod servers;
#[cfg(test)]
mod serving;
