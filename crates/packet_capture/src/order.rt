//! Numbers in either byte order, and parts of bytes.

ghost use Rattle.std.specs.Prelude.{◌≡◌, ◌++◌, ◌<◌, length, IfSome, IfNone, nat_lt};

/// In which order the bytes of a number stand.
#[derive(Clone, Copy)]
pub enum ByteOrder {
    /// The highest first.
    Big,
    /// The lowest first.
    Little,
}

/// Bytes in two parts.
#[derive(Clone, Copy)]
pub struct Parts<'a> {
    pub front: &'a [u8],
    pub behind: &'a [u8],
}

/// The first so many bytes, and those behind them.
pub fn split(bytes: &[u8], count: usize) -> Option<Parts<'_>>
    ensures some { IfSome result (λ parts. (bytes.now ≡ parts.front.now ++ parts.behind.now) × (length parts.front.now ≡ count)) }
    ensures none { IfNone result (length bytes.now < count) }
{
    if bytes.len() < count {
        return None;
    }
    let (front, behind) = bytes.split_at(count);
    Some(Parts { front, behind })
}

/// The word at the front of some bytes.
pub fn word(order: ByteOrder, bytes: &[u8]) -> Option<u32> {
    let [a, b, c, d, ..] = bytes else {
        return None;
    };
    let digits = [*a, *b, *c, *d];
    Some(match order {
        ByteOrder::Big => u32::from_be_bytes(digits),
        ByteOrder::Little => u32::from_le_bytes(digits),
    })
}

/// The word that stands so many bytes behind the front.
pub fn word_at(order: ByteOrder, bytes: &[u8], at: usize) -> Option<u32> {
    let parts = split(bytes, at)?;
    word(order, parts.behind)
}

/// The number of two bytes that stands so many bytes behind the front.
pub fn short_at(order: ByteOrder, bytes: &[u8], at: usize) -> Option<u32> {
    let parts = split(bytes, at)?;
    let [a, b, ..] = parts.behind else {
        return None;
    };
    let (high, low) = match order {
        ByteOrder::Big => (*a, *b),
        ByteOrder::Little => (*b, *a),
    };
    Some(u32::from(high) * 256 + u32::from(low))
}
