//! Whether the accounts are exactly the names that the lists gave, in their order.

ghost use Rattle.std.specs.Prelude.{◌≡◌, IfSome, IsTrue, map};
ghost use Rattle.std.specs.List.{flat_map};
ghost use Rattle.walk_accounts.specs.Exchanges.{place, places_in};
ghost use Rattle.walk_accounts.specs.Accounts.{place_of, places_told, all_places};
ghost use Rattle.walk_accounts.specs.Stripping.{IsStripped};

use crate::account::Account;
use crate::exchange::Exchange;
use crate::judging::part_of;
use nfs3_types::{Answer, DirectoryEntry, DirectoryEntryPlus, NfsReply};
use tree_starts::is_plain;

/// What is left of the accounts behind the one of this name, if the name is one that an entry can have.
fn strip_name<'a>(rest: &'a [Account], number: u64, name: &[u8]) -> Option<&'a [Account]>
    ensures { IfSome result (λ left. IsStripped (place number name.now) rest.now left.now) }
{
    if !is_plain(name) {
        return Some(rest);
    }
    match rest.split_first() {
        Some((account, left)) => {
            if account.parent == number && account.name.as_slice() == name {
                Some(left)
            } else {
                None
            }
        }
        None => None,
    }
}

/// What is left of the accounts behind those of these entries.
fn strip_entries<'a>(
    rest: &'a [Account],
    number: u64,
    entries: &[DirectoryEntry],
) -> Option<&'a [Account]>
    ensures { IfSome result (λ left. IsStripped (flat_map (λ entry. place number entry.name) entries.now) rest.now left.now) }
{
    let mut left = rest;
    for entry in entries {
        match strip_name(left, number, entry.name.as_slice()) {
            Some(more) => left = more,
            None => return None,
        }
    }
    Some(left)
}

/// What is left of the accounts behind those of these entries.
fn strip_entries_plus<'a>(
    rest: &'a [Account],
    number: u64,
    entries: &[DirectoryEntryPlus],
) -> Option<&'a [Account]>
    ensures { IfSome result (λ left. IsStripped (flat_map (λ entry. place number entry.name) entries.now) rest.now left.now) }
{
    let mut left = rest;
    for entry in entries {
        match strip_name(left, number, entry.name.as_slice()) {
            Some(more) => left = more,
            None => return None,
        }
    }
    Some(left)
}

/// What is left of the accounts behind those of a reply.
fn strip_reply<'a>(rest: &'a [Account], number: u64, reply: &NfsReply) -> Option<&'a [Account]>
    ensures { IfSome result (λ left. IsStripped (places_in number reply.now) rest.now left.now) }
{
    match reply {
        NfsReply::ReadDir(answer) => match answer {
            Answer::Done(success) => strip_entries(rest, number, success.entries.as_slice()),
            Answer::Failed(_, _) => Some(rest),
        },
        NfsReply::ReadDirPlus(answer) => match answer {
            Answer::Done(success) => strip_entries_plus(rest, number, success.entries.as_slice()),
            Answer::Failed(_, _) => Some(rest),
        },
        _ => Some(rest),
    }
}

/// What is left of the accounts behind those of a directory's exchanges.
fn strip_part<'a>(rest: &'a [Account], number: u64, part: &[Exchange]) -> Option<&'a [Account]>
    ensures { IfSome result (λ left. IsStripped (flat_map (λ e. places_in number e.reply) part.now) rest.now left.now) }
{
    let mut left = rest;
    for exchange in part {
        match strip_reply(left, number, &exchange.reply) {
            Some(more) => left = more,
            None => return None,
        }
    }
    Some(left)
}

/// Whether the found objects are those that the lists of the accounts gave.
pub(crate) fn is_complete(exchanges: &[Exchange], accounts: &[Account], found: &[Account]) -> bool
    ensures { IsTrue result → map place_of found.now ≡ all_places exchanges.now 0 accounts.now }
{
    let mut left = found;
    for (index, account) in accounts.iter().enumerate() {
        match strip_part(left, index as u64, part_of(exchanges, account.part)) {
            Some(more) => left = more,
            None => return false,
        }
    }
    left.is_empty()
}
