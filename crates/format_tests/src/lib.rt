//! Tests of what is read and written: growth that is refused, records in pieces, messages that are copied; histories, a
//! recorder's log and its pumps; trees and their replay; the table of seen states and the gates of a search; and what decides.
#![tactic(auto)]

#[cfg(test)]
mod appending;
#[cfg(test)]
mod decisions;
#[cfg(test)]
mod gates;
#[cfg(test)]
mod histories;
#[cfg(test)]
mod holes;
#[cfg(test)]
mod items;
#[cfg(test)]
mod log;
#[cfg(test)]
mod placing;
#[cfg(test)]
mod printing;
#[cfg(test)]
mod pumps;
#[cfg(test)]
mod reading;
#[cfg(test)]
mod records;
#[cfg(test)]
mod refusals;
#[cfg(test)]
mod register;
#[cfg(test)]
mod registers;
#[cfg(test)]
mod requests;
#[cfg(test)]
mod runs;
#[cfg(test)]
mod starting;
#[cfg(test)]
mod streams;
#[cfg(test)]
mod threads;
