//! The limits of a history file, this project's own.

use tree_starts::nfs3_types::HANDLE_LIMIT;

/// The most bytes of a history file.
pub const HISTORY_LIMIT: usize = 268_435_456;
/// The most events of a history.
pub const EVENT_LIMIT: u32 = 1_000_000;
/// The most bytes of the root handle, which is a handle as any other.
pub const ROOT_LIMIT: u32 = HANDLE_LIMIT as u32;
