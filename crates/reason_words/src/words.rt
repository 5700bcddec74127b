//! The words of a reason.

use crate::calls::{push_recorded, push_unexplained};
use crate::early::push_early;
use crate::faults::push_fault;
use crate::illegal::push_illegal;
use crate::lost::push_lost;
use crate::scene::Scene;
use certificate::Certificate;
use cut_check::bindings_of_plan;
use fault_reasons::{Reason, explain};
use nfs_history::KnownCalls;
use nfs3_types::ItemList;
use std::alloc::{AllocError, Global};
use tree_handles::Binds;

/// Lines of a reason.
fn push_reason(
    lines: &mut Vec<u8>,
    scene: &Scene<'_, '_>,
    reason: &Reason,
) -> Result<(), AllocError> {
    match reason {
        Reason::Illegal(told) => push_illegal(lines, scene, told),
        Reason::Early { call, other } => push_early(lines, scene, call.number, other.number),
        Reason::ShortCut(told) => push_lost(lines, scene, *told),
        Reason::Other(fault) => push_fault(lines, scene, *fault),
    }
}

/// Lines of a reason, where it is known what the handles name.
fn reason_lines<'s>(
    alloc: Global,
    history: &'s KnownCalls<'_>,
    certificate: &'s Certificate,
    binds: &'s Binds,
    reason: &Reason,
    is_front: bool,
) -> Result<Vec<u8>, AllocError> {
    let scene = Scene {
        alloc,
        history,
        certificate,
        binds,
        nodes: None,
        ahead: &[],
        front: &[],
        is_front,
    };
    let mut lines = Vec::new(alloc);
    push_reason(&mut lines, &scene, reason)?;
    Ok(lines)
}

/// The words of a reason, over a whole history or the front of one.
fn text_of(
    alloc: Global,
    history: &KnownCalls<'_>,
    certificate: &Certificate,
    reason: &Reason,
    is_front: bool,
) -> Result<Vec<u8>, AllocError> {
    let binds = bindings_of_plan(alloc, &history.lend(), certificate)?;
    reason_lines(alloc, history, certificate, &binds, reason, is_front)
}

/// The words of a reason that `fault_reasons::explain` gave of this history and this certificate, as lines of printable bytes. An `Err` means
/// that memory ran out.
pub fn reason_text(
    alloc: Global,
    history: &KnownCalls<'_>,
    certificate: &Certificate,
    reason: &Reason,
) -> Result<Vec<u8>, AllocError> {
    text_of(alloc, history, certificate, reason, false)
}

/// The words of the reason why a certificate is no witness of the front of a history, as lines of printable bytes; none where it is one. Of a call that
/// has no reply in the front it isn't said that none came. An `Err` means that memory ran out.
pub fn plan_text(
    alloc: Global,
    history: &KnownCalls<'_>,
    certificate: &Certificate,
) -> Result<Vec<u8>, AllocError> {
    match explain(alloc, history, certificate)? {
        Some(reason) => text_of(alloc, history, certificate, &reason, true),
        None => Ok(Vec::new(alloc)),
    }
}

/// What lines are of where nothing is placed.
#[derive(Clone, Copy)]
enum Told {
    /// A call with its reply.
    Recorded,
    /// The same, of a reply that no order explains.
    Unexplained,
}

/// Lines of a call, over a certificate of nothing.
fn told_lines<'s>(
    alloc: Global,
    history: &'s KnownCalls<'_>,
    certificate: &'s Certificate,
    binds: &'s Binds,
    call: u64,
    told: Told,
) -> Result<Vec<u8>, AllocError> {
    let scene = Scene {
        alloc,
        history,
        certificate,
        binds,
        nodes: None,
        ahead: &[],
        front: &[],
        is_front: false,
    };
    let mut lines = Vec::new(alloc);
    match told {
        Told::Recorded => push_recorded(&mut lines, &scene, call)?,
        Told::Unexplained => push_unexplained(&mut lines, &scene, call)?,
    }
    Ok(lines)
}

/// Lines of a call where there is no certificate.
fn told_text(
    alloc: Global,
    history: &KnownCalls<'_>,
    call: u64,
    told: Told,
) -> Result<Vec<u8>, AllocError> {
    let nothing = Certificate {
        binds: ItemList::new(Vec::new(alloc)),
        eras: ItemList::new(Vec::new(alloc)),
    };
    let binds = bindings_of_plan(alloc, &history.lend(), &nothing)?;
    told_lines(alloc, history, &nothing, &binds, call, told)
}

/// The words of a call with its reply, as lines of printable bytes; none where there is no such call. An `Err` means that memory ran out.
pub fn call_text(
    alloc: Global,
    history: &KnownCalls<'_>,
    call: u64,
) -> Result<Vec<u8>, AllocError> {
    told_text(alloc, history, call, Told::Recorded)
}

/// The words of a call whose reply no order of the calls before it explains, as lines of printable bytes. An `Err` means that memory ran out.
pub fn unexplained_text(
    alloc: Global,
    history: &KnownCalls<'_>,
    call: u64,
) -> Result<Vec<u8>, AllocError> {
    told_text(alloc, history, call, Told::Unexplained)
}
