//! Tests of `nfsbench_engine`, of the verdict, and of what is said of a history: files that are cut off or changed at each byte, streams
//! that fail or come in pieces, recordings and servers over sockets, pictures and numbers.
#![tactic(auto)]

#[cfg(test)]
mod files;
#[cfg(test)]
mod histories;
#[cfg(test)]
mod sockets;
#[cfg(test)]
mod told;
