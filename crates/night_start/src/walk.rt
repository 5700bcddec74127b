//! The walk of an export.

ghost use Rattle.std.specs.Prelude.{◌≡◌, [], IfOk, IfSome, OnOk, false};
ghost use Rattle.nfs3_types.specs.Procedures.{changes_the_tree, procedure_called};
ghost use Rattle.walk_accounts.specs.Accounts.{IsTold};
ghost use Rattle.night_start.specs.Walked.{learned};

use crate::explorer::Explorer;
use crate::refusal::WalkFault;
use crate::settings::Settings;
use nfs3_types::{FileHandle, NfsCall, NfsReply};
use std::alloc::{AllocError, Global};
use std::marker::Model;
use tree_starts::Start;
use walk_accounts::{Exchange, start_of};

/// The walk of an export: calls out, replies in, and at the end the objects that stand there. A contract sees the root's handle and the
/// exchanges so far.
pub struct Walk {
    alloc: Global,
    root: FileHandle,
    exchanges: Vec<Exchange>,
    pub(crate) explorer: Explorer,
}

impl Model for Walk {
    ghost use Rattle.night_start.specs.Walked.{Walked};

    ghost Value = { Walked };

    ghost view = { λ w. record { root = w.root; exchanges = w.exchanges.items } };
}

impl Drop for Walk {
    fn drop(self) {
        let Walk {
            alloc: _,
            root,
            exchanges,
            explorer,
        } = self;
        drop(root);
        drop(exchanges);
        drop(explorer);
    }
}

impl Walk {
    /// A walk of the export with this root.
    pub fn new(alloc: Global, root: FileHandle, settings: Settings) -> Result<Walk, AllocError>
        ensures { IfOk result (λ walk. walk ≡ record { root = root; exchanges = [] }) }
    {
        let explorer = Explorer::new(alloc, &root, settings)?;
        Ok(Walk {
            alloc,
            root,
            exchanges: Vec::new(alloc),
            explorer,
        })
    }

    /// What is asked next; nothing at the end. One call is on its way at a time.
    pub fn next(&self) -> Result<Option<NfsCall>, AllocError>
        // It changes nothing.
        ensures { IfOk result (λ next. IfSome next (λ call. changes_the_tree (procedure_called call) ≡ false)) }
    {
        self.explorer.next()
    }

    /// Takes in the reply to what was asked, with the call. Behind a fault the walk can't go on.
    pub fn learn(&mut self, call: NfsCall, reply: NfsReply) -> Result<(), WalkFault>
        ensures { OnOk result (self.new ≡ learned self.old call reply) }
    {
        self.exchanges.reserve(1)?;
        self.explorer.learn(self.exchanges.len(), &call, &reply)?;
        self.exchanges.push(Exchange { call, reply }).unwrap();
        Ok(())
    }

    /// The objects that stand at the export, behind the last reply.
    pub fn finish(&self) -> Result<Start, WalkFault>
        // They are what the exchanges say.
        ensures { IfOk result (λ start. IsTold self.now.root self.now.exchanges start) }
    {
        let found = start_of(
            self.alloc,
            self.root.as_slice(),
            self.exchanges.as_slice(),
            self.explorer.known.accounts.as_slice(),
        );
        match found {
            Ok(Some(start)) => Ok(start),
            Ok(None) => Err(self.explorer.unfinished()),
            Err(fault) => Err(self.explorer.no_start(fault)),
        }
    }
}
