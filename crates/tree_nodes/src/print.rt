//! Trees as bytes, in the items of XDR (RFC 4506).

ghost use Rattle.std.specs.Prelude.{◌≡◌, ◌+◌, ◌<◌, ◌^◌, ◌++◌, length, OnOk, All};
ghost use Rattle.std.specs.List.{flat_map};
ghost use Rattle.tree_stores.specs.nfs3_types_specs.Numbers.{type_number};
ghost use Rattle.tree_nodes.specs.Printed.{word_text, long_text, opaque_text, verifier_text, content_text, path_text, entry_text, IsShort, VerifierFits, ContentFits, EntryFits};

use crate::bytes::Path;
use crate::node::{Content, File, Node};
use std::alloc::AllocError;
use tree_stores::FileBytes;
use tree_stores::nfs3_types::{FileType, Verifier};

/// Four bytes.
#[tactic(auto, unfolding(crate::specs::Printed::word_text))]
pub(crate) fn put_word(out: &mut Vec<u8>, number: u32) -> Result<(), AllocError>
    ensures { OnOk result (out.new.items ≡ out.old.items ++ word_text number) }
{
    out.extend_from_slice(&number.to_be_bytes())
}

/// Eight bytes.
#[tactic(auto, unfolding(crate::specs::Printed::long_text))]
fn put_long(out: &mut Vec<u8>, number: u64) -> Result<(), AllocError>
    ensures { OnOk result (out.new.items ≡ out.old.items ++ long_text number) }
{
    out.extend_from_slice(&number.to_be_bytes())
}

/// A length, the bytes and their padding.
#[tactic(auto, unfolding(crate::specs::Printed::opaque_text))]
fn put_opaque(out: &mut Vec<u8>, bytes: &[u8]) -> Result<(), AllocError>
    requires { length bytes.now < 2 ^ 32 }
    ensures { OnOk result (out.new.items ≡ out.old.items ++ opaque_text bytes.now) }
{
    put_word(out, bytes.len() as u32)?;
    out.extend_from_slice(bytes)?;
    out.resize(out.len() + (4 - bytes.len() % 4) % 4, 0)
}

/// The length of a file's bytes, the bytes and their padding.
#[tactic(auto, unfolding(crate::specs::Printed::opaque_text))]
fn put_file_bytes(out: &mut Vec<u8>, bytes: &FileBytes) -> Result<(), AllocError>
    ensures ok { OnOk result (out.new.items ≡ out.old.items ++ opaque_text bytes.now) }
    ensures fits { OnOk result (IsShort bytes.now) }
{
    put_word(out, bytes.len() as u32)?;
    bytes.put(out)?;
    out.resize(out.len() + ((4 - bytes.len() % 4) % 4) as usize, 0)
}

/// A flag, and the verifier behind it.
#[tactic(auto, unfolding(crate::specs::Printed::verifier_text))]
fn put_verifier(out: &mut Vec<u8>, verifier: &Option<Verifier>) -> Result<(), AllocError>
    ensures ok { OnOk result (out.new.items ≡ out.old.items ++ verifier_text verifier.now) }
    ensures fits { OnOk result (VerifierFits verifier.now) }
{
    match verifier {
        None => put_word(out, 0),
        Some(verifier) => {
            put_word(out, 1)?;
            put_long(out, verifier.value)
        }
    }
}

/// What a file holds.
fn put_file(out: &mut Vec<u8>, file: &File) -> Result<(), AllocError>
    ensures ok { OnOk result (out.new.items ≡ out.old.items ++ (word_text (type_number FileType.Regular) ++ (opaque_text file.now.bytes ++ verifier_text file.now.verifier))) }
    ensures fits { OnOk result (IsShort file.now.bytes × VerifierFits file.now.verifier) }
{
    put_word(out, FileType::Regular.number())?;
    put_file_bytes(out, &file.bytes)?;
    put_verifier(out, &file.verifier)
}

/// The type, and what the object holds.
#[tactic(auto, unfolding(crate::specs::Printed::content_text))]
fn put_content(out: &mut Vec<u8>, content: &Content) -> Result<(), AllocError>
    ensures ok { OnOk result (out.new.items ≡ out.old.items ++ content_text content.now) }
    ensures fits { OnOk result (ContentFits content.now) }
{
    match content {
        Content::Directory => put_word(out, FileType::Directory.number()),
        Content::File(file) => put_file(out, file),
        Content::Link(text) => {
            put_word(out, FileType::SymbolicLink.number())?;
            put_opaque(out, text.as_slice())
        }
    }
}

/// The names behind their number.
#[tactic(auto, unfolding(crate::specs::Printed::path_text))]
fn put_path(out: &mut Vec<u8>, path: &Path) -> Result<(), AllocError>
    requires { length path.now < 2 ^ 32 }
    ensures ok { OnOk result (out.new.items ≡ out.old.items ++ path_text path.now) }
    ensures fits { OnOk result (All IsShort path.now) }
{
    put_word(out, path.names().len() as u32)?;
    for name in path.names() {
        put_opaque(out, name.as_slice())?;
    }
    Ok(())
}

/// One entry.
#[tactic(auto, unfolding(crate::specs::Printed::entry_text))]
pub(crate) fn put_entry(out: &mut Vec<u8>, path: &Path, node: &Node) -> Result<(), AllocError>
    requires { length path.now < 2 ^ 32 }
    ensures ok { OnOk result (out.new.items ≡ out.old.items ++ entry_text (path.now, node.now)) }
    ensures fits { OnOk result (EntryFits (path.now, node.now)) }
{
    put_path(out, path)?;
    put_long(out, node.object)?;
    put_content(out, &node.content)
}
