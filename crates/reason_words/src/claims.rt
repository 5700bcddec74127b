//! That a failure has no cause in the tree (`docs/PROFILE.md`, on failures).

use crate::scene::{Scene, push_line};
use history_lines::{Text, status_name};
use nfs3_types::{Failure, NfsCall, Outcome};
use std::alloc::AllocError;
use tree_answers::is_permitted;
use tree_handles::View;
use tree_nodes::Nodes;

/// What would have to be so under a status that is judged, and isn't (RFC 1813, section 2.6).
fn lack_of(failure: Failure) -> Option<&'static str> {
    match failure {
        Failure::NoEntry => Some("no name is missing from a directory that is there"),
        Failure::Exists => Some("no name is there that may not be"),
        Failure::NotDirectory => Some("each object that has to be a directory is one"),
        Failure::IsDirectory => Some("no directory is where another object has to be"),
        Failure::NotEmpty => Some("no directory that has to be empty has a name in it"),
        Failure::Stale | Failure::BadHandle => Some("each handle is that of an object there"),
        Failure::NotSynchronized => Some("the call has no guard"),
        Failure::BadCookie => Some("no list is asked for from a cookie other than 0"),
        Failure::TooSmall => Some("it is no call for a directory's list"),
        _ => None,
    }
}

/// A line of a status that has no cause.
fn push_no_cause(
    lines: &mut Vec<u8>,
    scene: &Scene<'_, '_>,
    failure: Failure,
) -> Result<(), AllocError> {
    let (Some(name), Some(lack)) = (status_name(failure.number()), lack_of(failure)) else {
        return Ok(());
    };
    let mut text = Text::new(scene.alloc);
    text.push_words("  ")?;
    text.push_words(name)?;
    text.push_words(" has no cause there: ")?;
    text.push_words(lack)?;
    push_line(lines, text)
}

/// A line of a failure, where no cause of it holds in the tree.
pub(crate) fn push_claim(
    lines: &mut Vec<u8>,
    scene: &Scene<'_, '_>,
    nodes: &Nodes,
    call: &NfsCall,
    outcome: &Outcome,
) -> Result<(), AllocError> {
    let Outcome::Received(reply) = outcome else {
        return Ok(());
    };
    let Some(failure) = reply.failure() else {
        return Ok(());
    };
    let view = View {
        binds: scene.binds,
        nodes,
    };
    if is_permitted(&view, call, failure) {
        return Ok(());
    }
    push_no_cause(lines, scene, failure)
}
