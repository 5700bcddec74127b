//! The walk of an export.

ghost use Rattle.std.specs.Prelude.{◌≡◌, IfOk};
ghost use Rattle.export_walk.specs.Noted.{AreMessages, IsWalked};
ghost use Rattle.export_walk.specs.Walking.{Journey, IsBegun, IsOn};

use crate::asking::{Answered, ask_patiently};
use crate::end::WalkEnd;
use crate::noting::{NotedExchange, is_noted, note};
use nfs3_types::{FileHandle, NfsCall};
use night_start::{Settings, Walk};
use rpc_client::Credential;
use rpc_connection::{Connection, ConnectionRuntime};
use std::alloc::{AllocError, Global};
use std::marker::Model;
use std::net::SocketAddr;
use std::time::Duration;
use tree_starts::Start;

/// The tree that is at an export, and the messages by which the server gave the handles.
#[derive(Drop)]
pub struct WalkedExport {
    /// The objects of the tree.
    pub start: Start,
    /// The LOOKUPs and READDIRPLUSes that succeeded, in order. Each handle of an object is given by one of them.
    pub noted: Vec<NotedExchange>,
    /// How many calls the walk made, without those that it made again.
    pub calls: u64,
}

/// A walk, and what is noted of it so far.
struct Walking {
    who: Credential,
    walk: Walk,
    noted: Vec<NotedExchange>,
    calls: u64,
}

impl Model for Walking {
    ghost use Rattle.export_walk.specs.Noted.{AreNoted};
    ghost use Rattle.export_walk.specs.Walking.{Journey};

    ghost Value = { Journey };

    ghost view = { λ w. record { who = w.who; walked = w.walk; noted = w.noted.items } };

    // What is noted are the messages of those exchanges of the walk that are to be noted.
    ghost invariant = { λ w. AreNoted w.who w.walk.exchanges w.noted.items };
}

impl Drop for Walking {
    fn drop(self) {
        let Walking {
            who: _,
            walk,
            noted,
            calls: _,
        } = self;
        drop(walk);
        drop(noted);
    }
}

impl Walking {
    /// A walk of the export with this root.
    fn new(
        alloc: Global,
        root: FileHandle,
        who: Credential,
        settings: Settings,
    ) -> Result<Walking, AllocError>
        ensures { IfOk result (IsBegun root who) }
    {
        let walk = Walk::new(alloc, root, settings)?;
        Ok(Walking {
            who,
            walk,
            noted: Vec::new(alloc),
            calls: 0,
        })
    }

    /// Takes in the reply to what the walk asked, with the call.
    #[tactic(auto, using(crate::proofs::Steps::taken_in))]
    fn take_in(self, call: NfsCall, answered: Answered) -> Result<Walking, WalkEnd>
        requires { AreMessages self.who call answered.reply answered.messages }
        ensures { IfOk result (IsOn self) }
    {
        let Walking {
            who,
            mut walk,
            mut noted,
            calls,
        } = self;
        let Answered { reply, messages } = answered;
        let is_due = is_noted(&call, &reply);
        note(&mut noted, is_due, messages)?;
        walk.learn(call, reply)?;
        Ok(Walking {
            who,
            walk,
            noted,
            calls: calls.saturating_add(1),
        })
    }

    /// What was walked.
    #[tactic(auto, using(crate::proofs::Steps::walked_so))]
    fn finish(self) -> Result<WalkedExport, WalkEnd>
        ensures { IfOk result (IsWalked self.walked.root self.who) }
    {
        let Walking {
            who: _,
            walk,
            noted,
            calls,
        } = self;
        let start = walk.finish()?;
        Ok(WalkedExport {
            start,
            noted,
            calls,
        })
    }
}

/// Walks the export with this root, at the server at an address, which is asked with this credential. The connection may take so long, as
/// each reply may, and as a server may say that it needs more time for a call. The calls change nothing; their transaction numbers are 1, 2,
/// 3, ..
#[tactic(auto, using(crate::proofs::Steps::walked_from))]
pub fn walk_export<R: ConnectionRuntime>(
    rt: &R,
    server: &SocketAddr,
    root: FileHandle,
    who: Credential,
    settings: Settings,
    patience: Duration,
) -> Result<WalkedExport, WalkEnd>
    // The tree is what some exchanges with the server say, and noted are those of them that give handles.
    ensures { IfOk result (IsWalked root who) }
{
    let mut walking = Walking::new(rt.alloc(), root, who, settings)?;
    let mut connection = Connection::connect(rt, server, patience)?;
    let mut xid = 0u32;
    for _ in rt.forever() {
        let Some(call) = walking.walk.next()? else {
            return walking.finish();
        };
        let answered = ask_patiently(
            rt,
            &mut connection,
            who,
            &mut xid,
            &call,
            patience.as_secs(),
        )?;
        walking = walking.take_in(call, answered)?;
    }
    unreachable!()
}
