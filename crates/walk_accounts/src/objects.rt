//! The objects that the exchanges tell.

ghost use Rattle.std.specs.Prelude.{◌≡◌, map, IfOk};
ghost use Rattle.std.specs.List.{flat_map};
ghost use Rattle.walk_accounts.specs.Exchanges.{bytes_in, text_in};
ghost use Rattle.walk_accounts.specs.Accounts.{node_told, object_told};

use crate::account::{Account, Kind};
use crate::exchange::{Exchange, bytes_in, text_in};
use crate::judging::part_of;
use nfs3_types::{Data, LinkText};
use std::alloc::{AllocError, Global};
use tree_starts::{StartFault, StartNode, StartObject};

/// The bytes of READs, put together.
fn contents(alloc: Global, part: &[Exchange]) -> Result<Vec<u8>, AllocError>
    ensures { IfOk result (λ v. v.items ≡ flat_map (λ e. bytes_in e.reply) part.now) }
{
    let mut bytes = Vec::new(alloc);
    for exchange in part {
        bytes.extend_from_slice(bytes_in(&exchange.reply))?;
    }
    Ok(bytes)
}

/// The text of a READLINK.
fn text(alloc: Global, part: &[Exchange]) -> Result<Vec<u8>, AllocError>
    ensures { IfOk result (λ v. v.items ≡ flat_map (λ e. text_in e.reply) part.now) }
{
    let mut bytes = Vec::new(alloc);
    for exchange in part {
        bytes.extend_from_slice(text_in(&exchange.reply))?;
    }
    Ok(bytes)
}

/// The file of these READs. Bytes that no file can have are too large.
fn file_node(alloc: Global, part: &[Exchange]) -> Result<StartNode, StartFault>
    ensures { IfOk result (λ node. node ≡ node_told Kind.File part.now) }
{
    let bytes = contents(alloc, part)?;
    if bytes.len() > u32::MAX as usize {
        return Err(StartFault::TooLarge(0));
    }
    let data = Data::from_slice(alloc, bytes.as_slice())?;
    Ok(StartNode::File(data))
}

/// The link of this READLINK.
fn link_node(alloc: Global, part: &[Exchange]) -> Result<StartNode, StartFault>
    ensures { IfOk result (λ node. node ≡ node_told Kind.Link part.now) }
{
    let bytes = text(alloc, part)?;
    if bytes.len() > u32::MAX as usize {
        return Err(StartFault::TooLarge(0));
    }
    let target = LinkText::from_slice(alloc, bytes.as_slice())?;
    Ok(StartNode::Link(target))
}

/// What an object is.
fn node_of(alloc: Global, kind: Kind, part: &[Exchange]) -> Result<StartNode, StartFault>
    ensures { IfOk result (λ node. node ≡ node_told kind part.now) }
{
    match kind {
        Kind::File => file_node(alloc, part),
        Kind::Directory => Ok(StartNode::Directory),
        Kind::Link => link_node(alloc, part),
    }
}

/// The object of an account.
fn object_of(
    alloc: Global,
    exchanges: &[Exchange],
    account: &Account,
) -> Result<StartObject, StartFault>
    ensures { IfOk result (λ object. object ≡ object_told exchanges.now account.now) }
{
    let name = account.name.clone()?;
    let node = node_of(alloc, account.kind, part_of(exchanges, account.part))?;
    Ok(StartObject {
        parent: account.parent,
        name,
        node,
    })
}

/// The objects of accounts.
pub(crate) fn objects_of(
    alloc: Global,
    exchanges: &[Exchange],
    found: &[Account],
) -> Result<Vec<StartObject>, StartFault>
    ensures { IfOk result (λ v. v.items ≡ map (object_told exchanges.now) found.now) }
{
    let mut objects = Vec::with_capacity(alloc, found.len())?;
    for account in found {
        let object = object_of(alloc, exchanges, account)?;
        objects.push(object)?;
    }
    Ok(objects)
}
