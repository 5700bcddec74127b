//! Who asks a call, and the bytes by which a WRITE tells it.

ghost use Rattle.std.specs.Prelude.{◌≡◌, ◌+◌, ◌<◌, ◌^◌, IfOk, IfSome, length};
ghost use Rattle.call_making.specs.Tag.{block_word, hex_letter, tag, tags, next_stamp};

use std::alloc::{AllocError, Global};

/// How many bytes of a file tell together whose they are: those from a multiple of this on.
const BLOCK: usize = 16;

/// How many seeds, clients, calls and blocks of a file the bytes tell apart: three, two, six and five hexadecimal digits.
const NIGHTS: u64 = 1 << 12;

const CLIENTS: u64 = 1 << 8;

const CALLS: u64 = 1 << 24;

const BLOCKS: u64 = 1 << 20;

/// Who asks a call.
#[derive(Clone, Copy)]
pub struct Stamp {
    /// The seed of the night. The bytes of a WRITE tell its lowest 12 bits.
    pub seed: u64,
    /// The number of the client. The bytes of a WRITE tell its lowest 8 bits.
    pub client: u32,
    /// How many calls the client drew before this one. The bytes of a WRITE tell its lowest 24 bits.
    pub call: u32,
}

/// The letter of a digit.
pub(crate) fn hex_letter(digit: u8) -> u8
    requires { digit < 16 }
    ensures { result ≡ hex_letter digit }
{
    if digit < 10 {
        b'0' + digit
    } else {
        b'a' - 10 + digit
    }
}

/// The digit of a letter.
fn hex_digit(letter: u8) -> Option<u8>
    ensures { IfSome result (λ digit. digit < 16) }
{
    match letter {
        b'0'..=b'9' => Some(letter - b'0'),
        b'a'..=b'f' => Some(letter - b'a' + 10),
        _ => None,
    }
}

/// The number whose hexadecimal digits these are, the highest first; of many the last sixteen count.
fn number_of(letters: &[u8]) -> Option<u64> {
    let mut number = 0u64;
    for letter in letters {
        let digit = hex_digit(*letter)?;
        number = number.wrapping_mul(16).wrapping_add(u64::from(digit));
    }
    Some(number)
}

impl Stamp {
    /// The number whose digits are the bytes of a block of a file.
    fn block_word(self, block: u64) -> u64
        ensures { result ≡ block_word self block }
    {
        let night = self.seed % NIGHTS;
        let client = u64::from(self.client) % CLIENTS;
        let call = u64::from(self.call) % CALLS;
        ((night * CLIENTS + client) * CALLS + call) * BLOCKS + block % BLOCKS
    }

    /// The byte that a WRITE puts at an offset of a file.
    fn tag(self, offset: u64) -> u8
        ensures { result ≡ tag self offset }
    {
        let word = self.block_word(offset / 16);
        let digit = (word >> (60 - 4 * (offset % 16))) % 16;
        hex_letter(digit as u8)
    }

    /// Puts the bytes that stand at an offset of a file into a buffer.
    fn fill(self, offset: u64, bytes: &mut [u8])
        requires { offset + length bytes.old < 2 ^ 64 }
        ensures { bytes.new ≡ tags self offset (length bytes.old) }
    {
        for index in 0..bytes.len() {
            bytes[index] = self.tag(offset + index as u64);
        }
    }

    /// The bytes that a WRITE of the call puts at an offset of a file.
    pub(crate) fn bytes(self, alloc: Global, offset: u64, count: u32) -> Result<Vec<u8>, AllocError>
        requires { offset + count < 2 ^ 64 }
        ensures told { IfOk result (λ bytes. bytes.items ≡ tags self offset count) }
        ensures count { IfOk result (λ bytes. length bytes.items ≡ count) }
    {
        let mut bytes = vec![in alloc; 0u8; count as usize]?;
        self.fill(offset, bytes.as_mut_slice());
        Ok(bytes)
    }

    /// The stamp of the client's next call.
    pub fn next(self) -> Stamp
        ensures { result ≡ next_stamp self }
    {
        Stamp {
            seed: self.seed,
            client: self.client,
            call: self.call.wrapping_add(1),
        }
    }
}

/// The client and the call, below 256 and 2^24, whose WRITE in the night of this seed left these sixteen bytes at this offset of a file,
/// a multiple of 16; nothing where no WRITE of the night leaves such bytes there. That nothing is said only then is tested.
pub fn whose(seed: u64, offset: u64, block: &[u8]) -> Option<(u32, u32)>
    ensures { IfSome result (λ who. block.now ≡ tags (record { seed = seed; client = who.0; call = who.1 }) offset 16) }
{
    if offset > u64::MAX - BLOCK as u64 || block.len() != BLOCK {
        return None;
    }
    let word = number_of(block)?;
    let client = word / BLOCKS / CALLS % CLIENTS;
    let call = word / BLOCKS % CALLS;
    let stamp = Stamp {
        seed,
        client: client as u32,
        call: call as u32,
    };
    let mut expected = [0u8; BLOCK];
    stamp.fill(offset, expected.as_mut_slice());
    if expected.as_slice() == block {
        Some((stamp.client, stamp.call))
    } else {
        None
    }
}
