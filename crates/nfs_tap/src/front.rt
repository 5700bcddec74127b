//! The record at the front of some bytes, where it came as one fragment (RFC 5531, section 11).

ghost use Rattle.std.specs.Prelude.{◌≡◌, ◌≤◌, ◌+◌, length, take, IfSome};
ghost use Rattle.xdr_records.specs.Record.{record_limit};
ghost use Rattle.xdr_records.specs.Texts.{word_text};
ghost use Rattle.nfs_tap.specs.Whole.{IsFirst};

use xdr_records::RECORD_LIMIT;

/// The bit of a header that says that its fragment is its record's last.
const LAST: u32 = 1 << 31;

/// How many bytes a header has.
const HEADER_SIZE: usize = 4;

/// A record that came as one fragment, and what stands behind it.
#[derive(Clone, Copy)]
pub(crate) struct FirstRecord<'a> {
    /// The record with its header, as it came.
    pub(crate) text: &'a [u8],
    pub(crate) content: &'a [u8],
    pub(crate) behind: &'a [u8],
}

/// The number that the four bytes of a header are.
fn header_word(bytes: &[u8]) -> u32
    requires { 4 ≤ length bytes.now }
{
    u32::from_be_bytes([bytes[0], bytes[1], bytes[2], bytes[3]])
}

/// How many bytes the record at the front has, if it comes as one fragment and is within the limit.
pub(crate) fn announced(bytes: &[u8]) -> Option<usize>
    ensures limit { IfSome result (λ count. count ≤ record_limit) }
    ensures header { IfSome result (λ count. take 4 bytes.now ≡ word_text (2147483648 + count)) }
    ensures bound { IfSome result (λ count. 4 ≤ length bytes.now) }
{
    if bytes.len() < HEADER_SIZE {
        return None;
    }
    let word = header_word(bytes);
    if word < LAST {
        return None;
    }
    if !bytes.starts_with(&word.to_be_bytes()) {
        return None;
    }
    let count = (word - LAST) as usize;
    if count > RECORD_LIMIT {
        return None;
    }
    Some(count)
}

/// The record at the front, if it is whole and came as one fragment.
pub(crate) fn first_record(bytes: &[u8]) -> Option<FirstRecord<'_>>
    ensures { IfSome result (λ first. IsFirst bytes.now first.text.now first.content.now first.behind.now) }
{
    let count = announced(bytes)?;
    if bytes.len() - HEADER_SIZE < count {
        return None;
    }
    let (text, behind) = bytes.split_at(HEADER_SIZE + count);
    let (_, content) = text.split_at(HEADER_SIZE);
    Some(FirstRecord {
        text,
        content,
        behind,
    })
}

/// Whether a record stands at the front that comes as one fragment, or too few bytes for a header.
pub(crate) fn may_be_plain(bytes: &[u8]) -> bool {
    bytes.len() < HEADER_SIZE || announced(bytes).is_some()
}
