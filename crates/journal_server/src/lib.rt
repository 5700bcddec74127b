//! A journal server of NFS version 3 in memory, for any number of threads. It records its own history in a book, which judges each of its
//! replies, and gives the history with its certificate at the end.
#![tactic(auto)]

mod calling;
mod closing;
mod crashing;
mod desk;
mod fault;
mod gate;
mod joining;
mod noted;
mod placing;
mod server;

pub use closing::{Closed, close_book};
pub use desk::{Begun, Desk};
pub use fault::{CallFault, CrashFault, JoinFault};
pub use gate::{Gate, OpenGate, Point};
pub use recorder::{JournalDevice, Profile, SimDevice, SpelledReply, Start, Undo};
pub use server::Server;
pub use server_passes::{CloseFault, Exchange, Pass, match_passes};
