//! Items from the front of a message.

ghost use Rattle.std.specs.Prelude.{◌≡◌, ◌≤◌, ◌↔◌, [], length, IsOk};
ghost use Rattle.xdr_records.specs.Unread.{whole, behind};
ghost use Rattle.xdr_records.specs.Items.{word_at, long_at, flag_at, fixed_at, opaque_at, end_at};
ghost use Rattle.xdr_records.specs.Reading.{Gives};

use crate::fault::XdrFault;
use byteorder::{BigEndian, ByteOrder};
use std::marker::Model;

/// Takes items from the front of some bytes, and copies none of them. At an error it stands where
/// it stood.
#[derive(Drop)]
pub struct Reader<'a> {
    at: usize,
    rest: &'a [u8],
}

impl<'a> Model for Reader<'a> {
    ghost use Rattle.std.specs.Prelude.{◌+◌, ◌<◌, ◌^◌, length};
    ghost use Rattle.xdr_records.specs.Unread.{Unread};

    ghost Value = { Unread };

    ghost view = { λ r. record { at = r.at; rest = r.rest.now } };

    ghost invariant = { λ r. r.at + length r.rest.now < 2 ^ 64 };
}

impl<'a> Reader<'a> {
    /// Stands before the first of the bytes.
    pub fn new(bytes: &'a [u8]) -> Reader<'a>
        ensures { result ≡ whole bytes.now }
    {
        Reader { at: 0, rest: bytes }
    }

    /// How many bytes stand before the next item.
    pub fn offset(&self) -> usize
        ensures { result ≡ self.now.at }
    {
        self.at
    }

    /// How many bytes are left.
    pub fn left(&self) -> usize
        ensures { result ≡ length self.now.rest }
    {
        self.rest.len()
    }

    /// The bytes that are left.
    pub fn rest(&self) -> &'a [u8]
        ensures { result.now ≡ self.now.rest }
    {
        self.rest
    }

    // A second reader at the same place.
    fn again(&self) -> Reader<'a>
        ensures { result ≡ self.now }
    {
        Reader {
            at: self.at,
            rest: self.rest,
        }
    }

    // Steps over `n` bytes.
    fn skip(&mut self, n: usize)
        requires { n ≤ length self.old.rest }
        ensures { self.new ≡ behind n self.old }
    {
        self.at += n;
        self.rest = &self.rest[n..];
    }

    /// The next word as a number.
    #[tactic(auto, unfolding(crate::specs::Items::word_at, crate::specs::Items::word_of))]
    pub fn u32(&mut self) -> Result<u32, XdrFault>
        ensures { Gives (λ n. n) self.old self.new result (word_at self.old) }
    {
        if self.rest.len() < 4 {
            return Err(XdrFault::Short);
        }
        let number = BigEndian::read_u32(self.rest);
        self.skip(4);
        Ok(number)
    }

    /// The next two words as one number.
    #[tactic(auto, unfolding(crate::specs::Items::long_at, crate::specs::Items::long_of))]
    pub fn u64(&mut self) -> Result<u64, XdrFault>
        ensures { Gives (λ n. n) self.old self.new result (long_at self.old) }
    {
        if self.rest.len() < 8 {
            return Err(XdrFault::Short);
        }
        let number = BigEndian::read_u64(self.rest);
        self.skip(8);
        Ok(number)
    }

    /// The next word as a flag.
    #[tactic(auto, unfolding(crate::specs::Items::flag_at))]
    pub fn flag(&mut self) -> Result<bool, XdrFault>
        ensures { Gives (λ flag. flag) self.old self.new result (flag_at self.old) }
    {
        let mut ahead = self.again();
        let flag = match ahead.u32()? {
            0 => false,
            1 => true,
            _ => return Err(XdrFault::BadFlag),
        };
        *self = ahead;
        Ok(flag)
    }

    /// The next `n` bytes, behind which padding of any bytes fills up to a multiple of 4.
    #[tactic(auto, unfolding(crate::specs::Items::fixed_at))]
    pub fn fixed(&mut self, n: usize) -> Result<&'a [u8], XdrFault>
        ensures { Gives (λ bytes. bytes.now) self.old self.new result (fixed_at n self.old) }
    {
        let padding = (4 - n % 4) % 4;
        if self.rest.len() < n || self.rest.len() - n < padding {
            return Err(XdrFault::Short);
        }
        let bytes = &self.rest[..n];
        self.skip(n + padding);
        Ok(bytes)
    }

    /// The next bytes behind their length, which is at most `max`.
    #[tactic(auto, unfolding(crate::specs::Items::opaque_at))]
    pub fn opaque(&mut self, max: u32) -> Result<&'a [u8], XdrFault>
        ensures { Gives (λ bytes. bytes.now) self.old self.new result (opaque_at max self.old) }
    {
        let mut ahead = self.again();
        let len = ahead.u32()?;
        if len > max {
            return Err(XdrFault::TooLong);
        }
        let bytes = ahead.fixed(len as usize)?;
        *self = ahead;
        Ok(bytes)
    }

    /// Whether nothing stands behind the last item.
    #[tactic(auto, unfolding(crate::specs::Items::end_at))]
    pub fn done(&self) -> Result<(), XdrFault>
        ensures exact { result ≡ end_at self.now }
        ensures ok { IsOk result ↔ (self.now.rest ≡ []) }
    {
        if self.rest.is_empty() {
            Ok(())
        } else {
            Err(XdrFault::Trailing)
        }
    }
}
