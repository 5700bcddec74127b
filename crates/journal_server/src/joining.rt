//! Clients that come and go.

ghost use Rattle.std.specs.Prelude.{◌≡◌, [], IfOk};

use crate::fault::{CallFault, JoinFault};
use crate::gate::Gate;
use crate::server::Server;
use recorder::JournalDevice;
use server_passes::Pass;
use std::sync::Wait;

impl<G: Gate, D: JournalDevice> Server<G, D> {
    /// A pass of a lane of its own: lanes 1, 2 and so on in the order of joining, at most 65,535.
    pub fn join_lane<R: Wait>(&self, rt: &R) -> Result<Pass, JoinFault>
        ensures { IfOk result (λ pass. pass.exchanges ≡ []) }
    {
        self.lock_desk(rt).join(self.alloc)
    }

    /// Closes the pass's lane. What the pass knows stays, for `close`.
    pub fn leave<R: Wait>(&self, rt: &R, pass: &mut Pass) -> Result<(), CallFault>
        ensures { pass.new ≡ pass.old }
    {
        self.lock_desk(rt).leave(pass.lane())
    }
}
