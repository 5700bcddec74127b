//! What a client of a night notes, sends and hears on one lane, over any reader, writer and log; what hinders its calls; and how many
//! there are. Without threads.
#![tactic(auto)]

mod counts;
mod hearing;
mod incoming;
mod lane;
mod notes;
mod open_calls;
mod outgoing;
mod settings;
mod troubles;
mod waiting;

pub use counts::{Counts, FailureCount, ProcedureCounts};
pub use hearing::{Heard, hear, note_heard};
pub use incoming::{Arrival, receive};
pub use lane::Lane;
pub use notes::{Notes, Unnoted};
pub use open_calls::{OpenCall, OpenCalls, Standing};
pub use outgoing::{Outgoing, SendFault};
pub use settings::{Depth, Quota, Settings};
pub use troubles::{Trouble, TroubleKind, Troubles};
pub use waiting::Waiting;
