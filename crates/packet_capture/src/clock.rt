//! Times of packets in nanoseconds, from ticks of any length.

/// How long a tick is: 10 or 2 to so many powers are a second (draft-ietf-opsawg-pcapng, if_tsresol).
#[derive(Clone, Copy)]
pub enum Resolution {
    /// So many decimal places.
    Decimal(u8),
    /// So many binary places.
    Binary(u8),
}

impl Resolution {
    /// What the byte of an option says.
    pub fn from_byte(byte: u8) -> Resolution {
        if byte < 128 {
            Resolution::Decimal(byte)
        } else {
            Resolution::Binary(byte - 128)
        }
    }

    /// So many ticks in nanoseconds. Parts of one are left out.
    pub fn nanoseconds(self, ticks: u64) -> u64 {
        match self {
            Resolution::Decimal(places) => decimal(ticks, places),
            Resolution::Binary(places) => binary(ticks, places),
        }
    }
}

/// A number with so many decimal places, with nine.
fn decimal(ticks: u64, places: u8) -> u64 {
    let mut count = ticks;
    for _ in places..9 {
        count = count.saturating_mul(10);
    }
    for _ in 9..places {
        count /= 10;
    }
    count
}

/// A number with so many binary places, with nine decimal ones.
fn binary(ticks: u64, places: u8) -> u64 {
    if places >= 64 {
        return 0;
    }
    let seconds = ticks >> places;
    let part = ticks.saturating_sub(seconds << places) >> places.saturating_sub(30);
    let nanoseconds = part.saturating_mul(1_000_000_000) >> places.min(30);
    seconds
        .saturating_mul(1_000_000_000)
        .saturating_add(nanoseconds)
}
