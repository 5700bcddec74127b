//! Taking back several steps.
ghost use Rattle.std.specs.Prelude.{◌≡◌, IfOk};
ghost use Rattle.replay_law.specs.Undone.{UndoesAll};

use crate::replay::Replayable;
use std::alloc::AllocError;

/// Takes back the steps that these values are of, the oldest first, and gives the state before the first one. The state is
/// spent where there is no memory.
pub fn undo_all<R: Replayable>(state: R, undos: Vec<R::Undo>) -> Result<R, AllocError>
    requires { (before : R) × UndoesAll R.undoes undos.items state before }
    ensures { IfOk result (λ first. (before : R) → UndoesAll R.undoes undos.items state before → first ≡ before) }
{
    let mut state = state;
    let mut undos = undos;
    while let Some(undo) = undos.pop() {
        state = state.undo(undo)?;
    }
    Ok(state)
}
