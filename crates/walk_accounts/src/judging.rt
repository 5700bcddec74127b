//! Whether accounts say what the exchanges say.

ghost use Rattle.std.specs.Prelude.{◌≡◌, ◌∷◌, IsTrue};
ghost use Rattle.std.specs.List.{list_all};
ghost use Rattle.walk_accounts.specs.Accounts.{part_of, is_piece, is_reading, is_link_read, is_listing, front, is_seen, is_told, is_accounted, is_given, is_named, is_root, IsExplained};

use crate::account::{Account, Kind, Part};
use crate::exchange::{
    Cursor, Exchange, Page, asks_attributes, asks_bytes, asks_text, bytes_in, is_at_end, is_text,
    tells,
};
use crate::places::is_complete;
use nfs3_types::FILE_LIMIT;

/// The exchanges of a part.
pub(crate) fn part_of(exchanges: &[Exchange], part: Part) -> &[Exchange]
    ensures { result.now ≡ part_of exchanges.now part }
{
    if part.from <= part.to && part.to <= exchanges.len() {
        &exchanges[part.from..part.to]
    } else {
        &[]
    }
}

/// Whether it is a READ of a file from an offset on, within the limit of files.
fn is_piece(exchange: &Exchange, file: &[u8], offset: u64) -> bool
    ensures { result ≡ is_piece file.now offset exchange.now }
{
    if !asks_bytes(&exchange.call, file, offset) {
        return false;
    }
    let count = bytes_in(&exchange.reply).len() as u64;
    offset <= FILE_LIMIT && count <= FILE_LIMIT - offset
}

/// Whether these READs give a file of this size, to its end.
fn is_reading(part: &[Exchange], file: &[u8], size: u64) -> bool
    ensures { result ≡ is_reading file.now size 0 part.now }
{
    let mut offset = 0u64;
    for (index, exchange) in part.iter().enumerate() {
        if !is_piece(exchange, file, offset) {
            return false;
        }
        let next = offset + bytes_in(&exchange.reply).len() as u64;
        if is_at_end(&exchange.reply) {
            return next == size && index + 1 == part.len();
        }
        offset = next;
    }
    false
}

/// Whether this is one READLINK of the link.
fn is_link_read(part: &[Exchange], link: &[u8]) -> bool
    ensures { result ≡ is_link_read link.now part.now }
{
    match part.first() {
        Some(exchange) => {
            asks_text(&exchange.call, link) && is_text(&exchange.reply) && part.len() == 1
        }
        None => false,
    }
}

/// Whether these pages list a directory to its end.
fn is_listing(part: &[Exchange], directory: &[u8]) -> bool
    ensures { result ≡ is_listing directory.now front part.now }
{
    let mut cursor = Cursor::FRONT;
    for (index, exchange) in part.iter().enumerate() {
        match exchange.page(directory, cursor) {
            Page::Other => return false,
            Page::Last => return index + 1 == part.len(),
            Page::More(next) => cursor = next,
        }
    }
    false
}

/// Whether these exchanges show an object whole.
fn is_seen(kind: Kind, handle: &[u8], size: u64, part: &[Exchange]) -> bool
    ensures { result ≡ is_seen kind handle.now size part.now }
{
    match kind {
        Kind::File => is_reading(part, handle, size),
        Kind::Directory => is_listing(part, handle),
        Kind::Link => is_link_read(part, handle),
    }
}

/// Whether a GETATTR tells the kind and size of an account.
fn is_told(account: &Account, exchange: &Exchange) -> bool
    ensures { result ≡ is_told account.now exchange.now }
{
    asks_attributes(&exchange.call, account.handle.as_slice())
        && tells(&exchange.reply, account.kind, account.size)
}

/// Whether the exchanges tell of an object what its account says.
fn is_accounted(exchanges: &[Exchange], account: &Account) -> bool
    ensures { result ≡ is_accounted exchanges.now account.now }
{
    let told = match exchanges.get(account.told_by) {
        Some(exchange) => is_told(account, exchange),
        None => false,
    };
    told && is_seen(
        account.kind,
        account.handle.as_slice(),
        account.size,
        part_of(exchanges, account.part),
    )
}

/// Whether the object's handle was given for its name in this directory.
fn is_given(exchanges: &[Exchange], account: &Account, directory: &[u8]) -> bool
    ensures { result ≡ is_given exchanges.now account.now directory.now }
{
    match exchanges.get(account.named_by) {
        Some(exchange) => exchange.gives(
            directory,
            account.name.as_slice(),
            account.handle.as_slice(),
            account.entry,
        ),
        None => false,
    }
}

/// Whether the object's handle was given for its name in the directory that it lies in.
fn is_named(exchanges: &[Exchange], accounts: &[Account], account: &Account) -> bool
    ensures { result ≡ is_named exchanges.now accounts.now account.now }
{
    match accounts.get(account.parent as usize) {
        Some(parent) => is_given(exchanges, account, parent.handle.as_slice()),
        None => false,
    }
}

/// Whether it is the account of a directory with the root's handle.
fn is_root(root: &[u8], account: &Account) -> bool
    ensures { result ≡ is_root root.now account.now }
{
    account.handle.as_slice() == root && account.kind == Kind::Directory
}

/// Whether the exchanges tell of each object what its account says.
fn are_accounted(exchanges: &[Exchange], accounts: &[Account]) -> bool
    ensures { result ≡ list_all (is_accounted exchanges.now) accounts.now }
{
    accounts
        .iter()
        .all(|account| is_accounted(exchanges, account))
}

/// Whether the handle of each found object was given for its name.
fn are_named(exchanges: &[Exchange], accounts: &[Account], found: &[Account]) -> bool
    ensures { result ≡ list_all (is_named exchanges.now accounts.now) found.now }
{
    found
        .iter()
        .all(|account| is_named(exchanges, accounts, account))
}

/// Whether the accounts, of which the first is the root's, say what the exchanges say.
pub(crate) fn is_explained(
    root: &[u8],
    exchanges: &[Exchange],
    accounts: &[Account],
    first: &Account,
    found: &[Account],
) -> bool
    requires { accounts.now ≡ first.now ∷ found.now }
    ensures { IsTrue result → IsExplained root.now exchanges.now first.now found.now }
{
    if !is_root(root, first) {
        return false;
    }
    if !are_accounted(exchanges, accounts) {
        return false;
    }
    if !are_named(exchanges, accounts, found) {
        return false;
    }
    is_complete(exchanges, accounts, found)
}
