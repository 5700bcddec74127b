//! Calls about one object: its attributes, its bytes, its text.

ghost use Rattle.std.specs.Prelude.{◌≤◌, length};

use crate::attributes::Known;
use crate::change::Change;
use crate::decision::{Decision, Stop};
use crate::scene::Scene;
use nfs3_types::{
    Answer, CommitArguments, CommitSuccess, Data, Failure, FileHandle, Held, LinkText, NfsReply,
    ReadArguments, ReadLinkSuccess, ReadSuccess, SetAttrArguments, TRANSFER_LIMIT, Verifier,
    WriteArguments, WriteSuccess,
};
use object_store::Content;

pub(crate) fn get_attributes<'a>(
    scene: &Scene<'_>,
    object: &FileHandle,
) -> Result<Decision<'a>, Stop> {
    let node = scene.live(object)?;
    let attributes = Held::new(scene.alloc, Known::of(node).attributes())?;
    Ok(Decision::look(NfsReply::GetAttr(Answer::Done(attributes))))
}

pub(crate) fn set_attributes<'a>(
    scene: &Scene<'_>,
    call: &'a SetAttrArguments,
) -> Result<Decision<'a>, Stop> {
    let change = match call.attributes.size {
        Some(size) => {
            let (object, _) = scene.file(&call.object)?;
            Change::Resize { object, size }
        }
        None => {
            scene.live(&call.object)?;
            Change::Nothing
        }
    };
    let wcc = scene.wcc(&call.object, &change)?;
    Ok(Decision {
        reply: NfsReply::SetAttr(Answer::Done(wcc)),
        change,
    })
}

pub(crate) fn read_link<'a>(scene: &Scene<'_>, link: &FileHandle) -> Result<Decision<'a>, Stop> {
    let node = scene.live(link)?;
    let Content::Link(text) = &node.content else {
        return Err(Stop::Failed(Failure::Invalid));
    };
    if text.len() > TRANSFER_LIMIT {
        return Err(Stop::Failed(Failure::NameTooLong));
    }
    let success = ReadLinkSuccess {
        attributes: scene.attributes(link)?,
        target: LinkText::from_slice(scene.alloc, text.as_slice())?,
    };
    Ok(Decision::look(NfsReply::ReadLink(Answer::Done(success))))
}

/// The bytes from an offset on, at most so many.
fn part(bytes: &[u8], offset: u64, count: usize) -> &[u8]
    ensures { length result.now ≤ count }
{
    let start = offset.min(bytes.len() as u64) as usize;
    let behind = &bytes[start..];
    &behind[..behind.len().min(count)]
}

pub(crate) fn read<'a>(scene: &Scene<'_>, call: &'a ReadArguments) -> Result<Decision<'a>, Stop> {
    let (_, file) = scene.file(&call.file)?;
    let count = (call.count as usize).min(TRANSFER_LIMIT);
    let found = part(file.bytes.as_slice(), call.offset, count);
    let left = (file.bytes.len() as u64).saturating_sub(call.offset);
    let success = ReadSuccess {
        attributes: scene.attributes(&call.file)?,
        count: found.len() as u32,
        eof: left <= found.len() as u64,
        bytes: Data::from_slice(scene.alloc, found)?,
    };
    Ok(Decision::look(NfsReply::Read(Answer::Done(success))))
}

pub(crate) fn write<'a>(scene: &Scene<'_>, call: &'a WriteArguments) -> Result<Decision<'a>, Stop> {
    let (object, _) = scene.file(&call.file)?;
    let bytes = call.bytes.as_slice();
    // A WRITE of no bytes may lie anywhere, and makes no file longer.
    let change = if bytes.is_empty() {
        Change::Nothing
    } else {
        Change::Write {
            object,
            offset: call.offset,
            bytes,
        }
    };
    let success = WriteSuccess {
        wcc: scene.wcc(&call.file, &change)?,
        count: bytes.len() as u32,
        level: call.level,
        verifier: Verifier { value: scene.era },
    };
    Ok(Decision {
        reply: NfsReply::Write(Answer::Done(success)),
        change,
    })
}

pub(crate) fn commit<'a>(
    scene: &Scene<'_>,
    call: &'a CommitArguments,
) -> Result<Decision<'a>, Stop> {
    scene.file(&call.file)?;
    let success = CommitSuccess {
        wcc: scene.wcc(&call.file, &Change::Nothing)?,
        verifier: Verifier { value: scene.era },
    };
    Ok(Decision::look(NfsReply::Commit(Answer::Done(success))))
}
