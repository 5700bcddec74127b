//! What is in the messages of calls and replies.

ghost use Rattle.std.specs.Prelude.{◌≤◌, length};

use nfs3_types::Procedure;
use rpc_reader::read_call;

/// What is written.
const BYTES: &[u8; 64] = b"0123456789abcdef0123456789abcdef0123456789abcdef0123456789abcdef";

/// The first so many bytes, at most 64.
pub fn bytes_of(count: u64) -> &'static [u8]
    ensures { length result.now ≤ 64 }
{
    let all = BYTES.as_slice();
    all.get(..count as usize).unwrap_or(all)
}

/// The number that so many bytes spell from a place on; 0 if there are fewer.
pub fn number_at(message: &[u8], place: usize, length: usize) -> u64 {
    let mut number = 0u64;
    for index in 0..length {
        match message.get(place.saturating_add(index)) {
            Some(byte) => number = number.wrapping_mul(256).wrapping_add(u64::from(*byte)),
            None => return 0,
        }
    }
    number
}

/// The procedure of a call.
pub fn procedure_of(message: &[u8]) -> Option<Procedure> {
    Procedure::from_number(read_call(message).ok()?.procedure)
}

/// The object that the reply to a CREATE, a MKDIR or a SYMLINK names, if it succeeded.
pub fn made_object(reply: &[u8]) -> Option<u64> {
    let is_made = number_at(reply, 20, 8) == 0 && number_at(reply, 28, 8) == 0x1_0000_0008;
    if is_made && reply.len() >= 44 {
        Some(number_at(reply, 36, 8))
    } else {
        None
    }
}
