//! What a book or a server begins with. A command says it by the calls of its device that fail, of each kind one, counted from 1 (0: none),
//! the profile, and the objects that are there at first, a word each: the directory's number, the kind word, the name, and a file's bytes
//! or a link's text, joined by slashes.

ghost use Rattle.std.specs.Prelude.{◌≡◌, ◌<◌, ◌^◌, [], IfOk, length};

use crate::command::{Command, split_off};
use crate::letters::read_letters;
use anyhow::{Context, Result, bail};
use journal_server::SimDevice;
use nfs_history::{Profile, Start, StartNode, StartObject};
use nfs3_types::{Data, FILE_LIMIT, LinkText, Name};
use std::alloc::Global;

/// The most bytes of a name, a file or a text.
const MOST_BYTES: usize = FILE_LIMIT as usize;

/// An empty device, which fails as a command says.
pub fn device_of(alloc: Global, command: Command<'_>) -> SimDevice
    ensures { result.device ≡ record { records = []; mark = 0; faults = 0 } }
{
    let [append, barrier, recover, _] = command.numbers;
    SimDevice::new(alloc, Some(append), Some(barrier), Some(recover))
}

// The bytes that a part of a word spells.
fn read_part(alloc: Global, text: &str) -> Result<Vec<u8>>
    ensures { IfOk result (λ bytes. length bytes.items < 2 ^ 32) }
{
    let bytes = read_letters(alloc, text)?;
    if bytes.len() > MOST_BYTES {
        bail!("too many bytes");
    }
    Ok(bytes)
}

// What an object of this kind is, with these bytes.
fn node_of(alloc: Global, kind: &str, bytes: &[u8]) -> Result<StartNode>
    requires { length bytes.now < 2 ^ 32 }
{
    match kind {
        "1" => Ok(StartNode::File(Data::from_slice(alloc, bytes)?)),
        "2" => Ok(StartNode::Directory),
        "5" => Ok(StartNode::Link(LinkText::from_slice(alloc, bytes)?)),
        _ => bail!("no kind"),
    }
}

// The object that a word spells.
fn read_object(alloc: Global, word: &str) -> Result<StartObject> {
    let (parent, word) = split_off(word, '/');
    let (kind, word) = split_off(word, '/');
    let (name, content) = split_off(word, '/');
    let name = read_part(alloc, name)?;
    let content = read_part(alloc, content)?;
    Ok(StartObject {
        parent: parent.parse().context("no number")?,
        name: Name::from_slice(alloc, name.as_slice())?,
        node: node_of(alloc, kind, content.as_slice())?,
    })
}

// The objects that words spell, one after the other.
fn read_objects(alloc: Global, words: &str) -> Result<Vec<StartObject>> {
    let mut objects = Vec::new(alloc);
    if !words.is_empty() {
        for word in words.split(' ') {
            objects.push(read_object(alloc, word)?)?;
        }
    }
    Ok(objects)
}

/// How strictly replies are judged, and what is there at first.
pub fn start_of(alloc: Global, command: Command<'_>) -> Result<(Profile, Start)> {
    let (word, objects) = split_off(command.text, ' ');
    let profile = match word {
        "" | "plain" => Profile::Plain,
        "strict" => Profile::Strict,
        _ => bail!("no profile"),
    };
    let objects = read_objects(alloc, objects)?;
    Ok((profile, Start::new(alloc, objects)?))
}
