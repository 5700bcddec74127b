//! Why a run gave no history.

ghost use Rattle.std.specs.Prelude.{◌≡◌, ◌<◌, IfOk, IsErr};
ghost use Rattle.serving_commands.specs.Told.{fault_status, fault_line, IsWant};

use crash_harness::RunEnd;
use crash_harness::journal_server::{CloseFault, CrashFault, JoinFault};
use history_file::WriteFault;
use nfs_history::HistoryFault;
use plan_text::PlanFault;
use program_streams::{Report, line_of};
use std::alloc::{AllocError, AllocFailed, Global};

/// Why a run gave no history.
#[derive(Clone, Copy, PartialEq, Eq, Drop)]
pub enum RunFault {
    /// The first line of a plan with which it is none.
    BadPlan(u64),
    /// The start's file holds no history, for this fault.
    Start(HistoryFault),
    /// The start's file can't be read.
    CannotReadStart,
    /// The port can't be listened on.
    CannotListen,
    /// No thread could be made for a connection. None was served.
    NoThread,
    /// What an earlier run left on disk stands beside the history.
    PartStands,
    /// A file can't be written, or the history is over the limits of one.
    CannotWrite,
    /// A crash of the plan failed.
    Crash(CrashFault),
    /// The server didn't close.
    Close(CloseFault),
    /// Memory ran out.
    NoMemory,
}

impl From<AllocError> for RunFault {
    ghost use Rattle.std.specs.Prelude.{◌≡◌};
    ghost use Rattle.serving_commands.specs.declared.fault.RunFault.TheVariants.{NoMemory};

    ghost from_gives = { λ _ told. told ≡ NoMemory };

    fn from(_error: AllocError) -> RunFault {
        RunFault::NoMemory
    }
}

impl<T: Drop> From<AllocFailed<T>> for RunFault {
    ghost use Rattle.std.specs.Prelude.{◌≡◌};
    ghost use Rattle.serving_commands.specs.declared.fault.RunFault.TheVariants.{NoMemory};

    ghost from_gives = { λ _ told. told ≡ NoMemory };

    fn from(_error: AllocFailed<T>) -> RunFault {
        RunFault::NoMemory
    }
}

impl From<JoinFault> for RunFault {
    ghost use Rattle.std.specs.Prelude.{◌≡◌};
    ghost use Rattle.serving_commands.specs.declared.fault.RunFault.TheVariants.{NoMemory};

    ghost from_gives = { λ _ told. told ≡ NoMemory };

    // A server gives out more lanes than are asked for.
    fn from(_fault: JoinFault) -> RunFault {
        RunFault::NoMemory
    }
}

impl From<PlanFault> for RunFault {
    ghost use Rattle.std.specs.Prelude.{◌≡◌};
    ghost use Rattle.serving_commands.specs.Told.{plan_told};

    ghost from_gives = { λ fault told. told ≡ plan_told fault };

    fn from(fault: PlanFault) -> RunFault {
        match fault {
            PlanFault::BadPlan(line) => RunFault::BadPlan(line),
            PlanFault::NoMemory => RunFault::NoMemory,
        }
    }
}

impl From<HistoryFault> for RunFault {
    ghost use Rattle.std.specs.Prelude.{◌≡◌};
    ghost use Rattle.serving_commands.specs.Told.{start_told};

    ghost from_gives = { λ fault told. told ≡ start_told fault };

    fn from(fault: HistoryFault) -> RunFault {
        match fault {
            HistoryFault::NoMemory => RunFault::NoMemory,
            fault => RunFault::Start(fault),
        }
    }
}

impl From<WriteFault> for RunFault {
    ghost use Rattle.std.specs.Prelude.{◌≡◌};
    ghost use Rattle.serving_commands.specs.Told.{write_told};

    ghost from_gives = { λ fault told. told ≡ write_told fault };

    fn from(fault: WriteFault) -> RunFault {
        match fault {
            WriteFault::TooLarge => RunFault::CannotWrite,
            WriteFault::NoMemory => RunFault::NoMemory,
        }
    }
}

impl From<CloseFault> for RunFault {
    ghost use Rattle.std.specs.Prelude.{◌≡◌};
    ghost use Rattle.serving_commands.specs.Told.{close_told};

    ghost from_gives = { λ fault told. told ≡ close_told fault };

    fn from(fault: CloseFault) -> RunFault {
        match fault {
            CloseFault::NoMemory => RunFault::NoMemory,
            fault => RunFault::Close(fault),
        }
    }
}

impl From<RunEnd> for RunFault {
    ghost use Rattle.std.specs.Prelude.{◌≡◌};
    ghost use Rattle.serving_commands.specs.Told.{end_told};

    ghost from_gives = { λ fault told. told ≡ end_told fault };

    fn from(end: RunEnd) -> RunFault {
        match end {
            RunEnd::Crash(CrashFault::NoMemory) | RunEnd::NoMemory => RunFault::NoMemory,
            RunEnd::Crash(fault) => RunFault::Crash(fault),
            RunEnd::Close(fault) => RunFault::from(fault),
        }
    }
}

/// What is said of a fault; of want of memory, that is the answer.
pub fn fault_report(alloc: Global, fault: RunFault) -> Result<Report, AllocError>
    ensures said { IfOk result (λ report. (report.status ≡ fault_status fault) × (report.line ≡ fault_line fault)) }
    ensures memory { IsWant fault → IsErr result }
    ensures known { IfOk result (λ report. report.status < 3) }
{
    match fault {
        RunFault::BadPlan(line) => {
            let fault = PlanFault::BadPlan(line);
            Ok(Report::new(2, line_of(alloc, "refused: ", &fault)?))
        }
        RunFault::Start(fault) => Ok(Report::new(2, line_of(alloc, "refused: start: ", &fault)?)),
        RunFault::CannotReadStart => Report::refused(alloc, "start: cannot read"),
        RunFault::CannotListen => Report::refused(alloc, "cannot listen"),
        RunFault::NoThread => Report::refused(alloc, "no thread"),
        RunFault::PartStands => Report::refused(
            alloc,
            "a .part of an earlier recording is there: mend it, or remove it",
        ),
        RunFault::CannotWrite => Report::refused(alloc, "cannot write"),
        RunFault::Crash(fault) => Ok(Report::new(1, line_of(alloc, "crash: ", &fault)?)),
        RunFault::Close(fault) => Ok(Report::new(1, line_of(alloc, "close: ", &fault)?)),
        RunFault::NoMemory => Err(AllocError),
    }
}
