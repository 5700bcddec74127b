//! RENAME (RFC 1813, section 3.3.14).

use crate::change::{Change, Renaming};
use crate::decision::{Decision, Stop};
use crate::scene::{Scene, is_plain};
use nfs3_types::{Answer, Failure, NfsReply, RenameArguments};
use object_store::Node;

/// Why an object can't take the place of another.
fn check_replaced(source: &Node, target: &Node) -> Result<(), Failure> {
    match (source.is_directory(), target.names()) {
        (true, Some(names)) if !names.is_empty() => Err(Failure::NotEmpty),
        (true, Some(_)) | (false, None) => Ok(()),
        (true, None) | (false, Some(_)) => Err(Failure::Exists),
    }
}

/// Why a directory can't go there: it would lie below itself.
fn check_below(scene: &Scene<'_>, source: &Node, to: u64) -> Result<(), Failure> {
    match scene.held.parents() {
        Some(parents) if source.is_directory() && parents.is_within(to, source.number) => {
            Err(Failure::Invalid)
        }
        _ => Ok(()),
    }
}

/// What a RENAME does.
fn rename_change<'a>(scene: &Scene<'_>, call: &'a RenameArguments) -> Result<Change<'a>, Failure> {
    scene.live(&call.from.directory)?;
    scene.live(&call.to.directory)?;
    let (from, sources) = scene.directory(&call.from.directory)?;
    let (to, targets) = scene.directory(&call.to.directory)?;
    let from_name = call.from.name.as_slice();
    let to_name = call.to.name.as_slice();
    let source = scene.entry(sources, from_name).ok_or(Failure::NoEntry)?;
    if from == to && from_name == to_name {
        return Ok(Change::Nothing);
    }
    let target = scene.entry(targets, to_name);
    if let Some(target) = target {
        check_replaced(source, target)?;
    }
    check_below(scene, source, to)?;
    if !is_plain(to_name) {
        return Err(Failure::Invalid);
    }
    Ok(Change::Rename(Renaming {
        from,
        from_name,
        to,
        to_name,
        object: source.number,
        is_directory: source.is_directory(),
        replaced: target.map(|target| target.number),
    }))
}

pub(crate) fn rename<'a>(
    scene: &Scene<'_>,
    call: &'a RenameArguments,
) -> Result<Decision<'a>, Stop> {
    let change = rename_change(scene, call)?;
    let both = scene.wcc_of_both(call, &change)?;
    Ok(Decision {
        reply: NfsReply::Rename(Answer::Done(both)),
        change,
    })
}
