//! Why a step isn't decided.

/// Why a walk doesn't decide a step. It claims nothing of the history.
#[derive(Clone, Copy, Drop)]
pub enum Why {
    /// This call names a handle that no reply gave before it.
    HandleNotGiven(u64),
    /// This call is a WRITE without a reply that brought more bytes than are tried one by one.
    LongWrite(u64),
    /// A state couldn't be made again from its way. No history is known where that is so.
    WayLost,
}
