//! Tests of a night's parts: what a client of RPC, of MOUNT and of an export's walk says and hears, what the clients of a night draw, note, send and
//! hear, its eras, and the texts kept of it. One little server answers in threads of the test, or doesn't.
#![tactic(auto)]

#[cfg(test)]
mod calls;
#[cfg(test)]
mod connections;
#[cfg(test)]
mod lanes;
#[cfg(test)]
mod messages;
#[cfg(test)]
mod mounts;
#[cfg(test)]
mod nights;
#[cfg(test)]
mod reports;
#[cfg(test)]
mod server;
#[cfg(test)]
mod walks;
