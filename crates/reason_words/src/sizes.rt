//! Which call set the size of a file last, of those before a place.

use crate::changes::{Change, Changed, changing_at, last_change, push_change, size_set};
use crate::objects::maker_of;
use crate::places::cut_places;
use crate::scene::Scene;
use certificate::Place;
use fault_reasons::Placed;
use history_lines::Text;
use nfs3_types::{Answer, NfsCall, NfsReply, Outcome, WriteArguments};
use std::alloc::AllocError;

/// What a call does to the size of a file.
#[derive(Clone, Copy)]
enum Resize {
    /// It sets it to so many bytes.
    To(u64),
    /// It writes up to here, and so sets it where the file was shorter.
    UpTo(u64),
}

/// The place after the last byte that a WRITE wrote.
fn end_of(call: &WriteArguments, outcome: &Outcome) -> u64 {
    let count = match outcome {
        Outcome::Received(NfsReply::Write(Answer::Done(success))) => success.count,
        Outcome::Received(_) => 0,
        Outcome::Taken(count) => count.unwrap_or(call.count),
    };
    call.offset.saturating_add(u64::from(count))
}

/// What a call that changed the bytes of a file did to its size.
fn resize_of(placed: &Placed) -> Option<Resize> {
    match &placed.call {
        NfsCall::Create(call) => Some(Resize::To(size_set(&call.mode)?)),
        NfsCall::SetAttr(call) => Some(Resize::To(call.attributes.size?)),
        NfsCall::Write(call) => Some(Resize::UpTo(end_of(call, &placed.outcome))),
        _ => None,
    }
}

/// A walk over places from the last on, to the call that set the size of a file.
#[derive(Clone, Copy)]
struct Walk {
    object: u64,
    /// The size of the file at the end.
    size: u64,
    /// The call that makes the file, if one does.
    maker: Option<u64>,
    found: Option<Change>,
    is_over: bool,
}

impl Walk {
    /// Takes the call that came before those that were taken.
    fn take(&mut self, placed: &Placed) {
        match resize_of(placed) {
            Some(Resize::To(size)) => {
                if size == self.size {
                    self.found = Some(Change::of(placed));
                }
                self.is_over = true;
            }
            Some(Resize::UpTo(end)) if end == self.size => {
                self.found = Some(Change::of(placed));
            }
            _ => {}
        }
    }

    /// Takes places, the last first.
    fn go(&mut self, scene: &Scene<'_, '_>, places: &[Place]) -> Result<(), AllocError> {
        for place in places.iter().rev() {
            if self.is_over {
                return Ok(());
            }
            if let Some(placed) = changing_at(scene, *place, Changed::Bytes(self.object))? {
                self.take(&placed);
            }
            if self.maker == Some(place.number()) {
                self.is_over = true;
            }
        }
        Ok(())
    }
}

/// The last call before the place that set the size of a file which has so many bytes there: a WRITE that came later and reaches no
/// further doesn't.
fn last_resize(
    scene: &Scene<'_, '_>,
    object: u64,
    size: u64,
) -> Result<Option<Change>, AllocError> {
    let mut walk = Walk {
        object,
        size,
        maker: maker_of(scene, object),
        found: None,
        is_over: false,
    };
    walk.go(scene, scene.front)?;
    for era in scene.ahead.iter().rev() {
        let (kept, _) = cut_places(era);
        walk.go(scene, kept)?;
    }
    Ok(walk.found)
}

/// Appends the call that wrote bytes of a file last, and the one that set its size last, where that is another.
pub(crate) fn push_file_changes(
    text: &mut Text<'_>,
    scene: &Scene<'_, '_>,
    object: u64,
    size: u64,
) -> Result<(), AllocError> {
    let written = last_change(scene, Changed::Bytes(object))?;
    push_change(text, ", written last by call ", written)?;
    let Some(written) = written else {
        return Ok(());
    };
    match last_resize(scene, object, size)? {
        Some(sized) if sized.number != written.number => {
            push_change(text, ", its size set last by call ", Some(sized))
        }
        _ => Ok(()),
    }
}
