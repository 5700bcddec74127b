//! What is known at a place of a plan.

use certificate::{Certificate, EraPlan, Place};
use history_lines::Text;
use nfs_history::KnownCalls;
use std::alloc::{AllocError, Global};
use tree_handles::Binds;
use tree_nodes::Nodes;

/// What a line is made of.
#[derive(Clone, Copy)]
pub(crate) struct Scene<'s, 'a> {
    pub(crate) alloc: Global,
    pub(crate) history: &'s KnownCalls<'a>,
    pub(crate) certificate: &'s Certificate,
    pub(crate) binds: &'s Binds,
    /// The tree at a place, where one is looked at.
    pub(crate) nodes: Option<&'s Nodes>,
    /// The eras ahead of that place.
    pub(crate) ahead: &'s [EraPlan],
    /// The places ahead of it in its era.
    pub(crate) front: &'s [Place],
    /// The history is the front of one in which replies may come later.
    pub(crate) is_front: bool,
}

/// Appends a line.
pub(crate) fn push_line(lines: &mut Vec<u8>, text: Text<'_>) -> Result<(), AllocError> {
    let line = text.into_line()?;
    lines.extend_from_slice(line.as_slice())?;
    Ok(())
}
