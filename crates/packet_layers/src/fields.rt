//! Parts of bytes, and the numbers in a header, the highest byte first.

ghost use Rattle.std.specs.Prelude.{◌≡◌, ◌+◌, ◌<◌, ◌≤◌, length, take, drop, IfSome, IfNone};
ghost use Rattle.packet_layers.specs.Packets.{short, word, long};

/// Bytes in two parts.
#[derive(Clone, Copy)]
pub struct Parts<'a> {
    pub front: &'a [u8],
    pub behind: &'a [u8],
}

/// The first so many bytes, and those behind them.
pub fn split(bytes: &[u8], count: usize) -> Option<Parts<'_>>
    ensures some { IfSome result (λ parts. (parts.front.now ≡ take count bytes.now) × (parts.behind.now ≡ drop count bytes.now)
        × (count ≤ length bytes.now)) }
    ensures none { IfNone result (length bytes.now < count) }
{
    if bytes.len() < count {
        return None;
    }
    let (front, behind) = bytes.split_at(count);
    Some(Parts { front, behind })
}

/// The number of two bytes at a place.
#[tactic(auto, unfolding(crate::specs::Packets::short))]
pub fn short_at(bytes: &[u8], place: usize) -> u16
    requires { place + 1 < length bytes.now }
    ensures { result ≡ short place bytes.now }
{
    u16::from(bytes[place]) * 256 + u16::from(bytes[place + 1])
}

/// The number of four bytes at a place.
#[tactic(auto, unfolding(crate::specs::Packets::word))]
pub fn word_at(bytes: &[u8], place: usize) -> u32
    requires { place + 3 < length bytes.now }
    ensures { result ≡ word place bytes.now }
{
    u32::from(short_at(bytes, place)) * 65_536 + u32::from(short_at(bytes, place + 2))
}

/// The number of eight bytes at a place.
#[tactic(auto, unfolding(crate::specs::Packets::long))]
pub fn long_at(bytes: &[u8], place: usize) -> u64
    requires { place + 7 < length bytes.now }
    ensures { result ≡ long place bytes.now }
{
    u64::from(word_at(bytes, place)) * 4_294_967_296 + u64::from(word_at(bytes, place + 4))
}

/// The first so many bytes, or all of them where there are fewer.
pub fn front(bytes: &[u8], count: usize) -> &[u8]
    ensures { result.now ≡ take count bytes.now }
{
    if count < bytes.len() {
        &bytes[..count]
    } else {
        bytes
    }
}
