//! Asking a tree whether it takes a reply.

ghost use Rattle.std.specs.Prelude.{◌≡◌, IfOk, IfSome, MatchBool, IsSome, ⊤};
ghost use Rattle.nfs3_types.specs.declared.replies.Outcome.TheVariants.{Received};
ghost use Rattle.fault_reasons.specs.Running.{next_by};

use crate::candidates::{Site, done};
use crate::failing::failed;
use crate::placed::Placed;
use crate::running::{Rule, object_made};
use file_tree::FileTree;
use nfs3_types::{NfsReply, Outcome};
use replay_law::{Replayable, StepFault};
use std::alloc::AllocError;
use tree_handles::View;

/// A tree that was asked, as it was, and what it said.
#[derive(Drop)]
struct Asked {
    tree: FileTree,
    is_taken: bool,
}

/// Whether a tree takes a reply to the call of a step. The step is taken back.
#[tactic(auto, using(crate::proofs::Taken::is_taken))]
fn ask(
    tree: FileTree,
    rule: &Rule<'_, '_>,
    step: &Placed,
    reply: &NfsReply,
) -> Result<Asked, AllocError>
    ensures said { IfOk result (λ asked. MatchBool asked.is_taken (IsSome (next_by rule.now tree step.now.number step.now.call (Received reply.now))) ⊤) }
    ensures same { IfOk result (λ asked. asked.tree ≡ tree) }
{
    let Some(object) = object_made(rule, step.number) else {
        return Err(AllocError);
    };
    let profile = rule.history.profile();
    let outcome = Outcome::Received(reply.copy()?);
    let mut tree = tree;
    match tree.step_under(profile, rule.binds, object, &step.call, &outcome) {
        Ok(undo) => {
            let tree = tree.undo(undo)?;
            Ok(Asked {
                tree,
                is_taken: true,
            })
        }
        Err(StepFault::NotAllowed) => Ok(Asked {
            tree,
            is_taken: false,
        }),
        Err(StepFault::NoMemory) => Err(AllocError),
    }
}

/// A tree, as it was, and a reply that it takes, where one was found.
#[derive(Drop)]
pub(crate) struct Answered {
    pub(crate) tree: FileTree,
    pub(crate) right: Option<NfsReply>,
}

/// A reply that may be right, where the tree takes it.
fn taken(
    tree: FileTree,
    rule: &Rule<'_, '_>,
    step: &Placed,
    candidate: Option<NfsReply>,
) -> Result<Answered, AllocError>
    ensures right { IfOk result (λ answered. IfSome answered.right (λ reply. IsSome (next_by rule.now tree step.now.number step.now.call (Received reply)))) }
    ensures same { IfOk result (λ answered. answered.tree ≡ tree) }
{
    let Some(reply) = candidate else {
        return Ok(Answered { tree, right: None });
    };
    let Asked { tree, is_taken } = ask(tree, rule, step, &reply)?;
    let right = if is_taken { Some(reply) } else { None };
    Ok(Answered { tree, right })
}

/// What a reply to the call of a step is made of.
fn site_of<'a>(tree: &'a FileTree, rule: &Rule<'a, '_>, object: u64) -> Site<'a> {
    Site {
        alloc: rule.alloc,
        view: View {
            binds: rule.binds,
            nodes: tree.nodes(),
        },
        root: rule.history.root(),
        handles: rule.plan.binds.as_slice(),
        object,
    }
}

/// A success that may be right.
fn success(
    tree: &FileTree,
    rule: &Rule<'_, '_>,
    step: &Placed,
) -> Result<Option<NfsReply>, AllocError> {
    let Some(object) = object_made(rule, step.number) else {
        return Ok(None);
    };
    done(&site_of(tree, rule, object), &step.call)
}

/// A failure that may be right.
fn failure(
    tree: &FileTree,
    rule: &Rule<'_, '_>,
    step: &Placed,
) -> Result<Option<NfsReply>, AllocError> {
    let view = View {
        binds: rule.binds,
        nodes: tree.nodes(),
    };
    failed(rule.alloc, &view, &step.call)
}

/// A reply to the call of a step that the tree takes: a success where there is one, else a failure. The tree is handed back as it was.
pub(crate) fn right_reply(
    tree: FileTree,
    rule: &Rule<'_, '_>,
    step: &Placed,
) -> Result<Answered, AllocError>
    ensures right { IfOk result (λ answered. IfSome answered.right (λ reply. IsSome (next_by rule.now tree step.now.number step.now.call (Received reply)))) }
    ensures same { IfOk result (λ answered. answered.tree ≡ tree) }
{
    let candidate = success(&tree, rule, step)?;
    let answered = taken(tree, rule, step, candidate)?;
    if answered.right.is_some() {
        return Ok(answered);
    }
    let Answered { tree, right: _ } = answered;
    let candidate = failure(&tree, rule, step)?;
    taken(tree, rule, step, candidate)
}
