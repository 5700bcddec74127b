//! The limit of files, and where a READ reaches the end.

ghost use Rattle.std.specs.Prelude.{◌≡◌, ◌+◌, ◌^◌, ◌<◌, length, take, max, nat_le};
ghost use Rattle.tree_stores.specs.nfs3_types_specs.Limits.{file_limit};

use tree_stores::nfs3_types::FILE_LIMIT;

/// The first bytes, as many as there are.
pub fn front(bytes: &[u8], count: usize) -> &[u8]
    ensures { result.now ≡ take count bytes.now }
{
    &bytes[..count.min(bytes.len())]
}

/// Whether a file stays within the limit.
pub fn is_within_limit(len: usize, offset: u64, count: usize) -> bool
    requires { count < 2 ^ 32 }
    ensures { result ≡ nat_le (max len (offset + count)) file_limit }
{
    len as u64 <= FILE_LIMIT && offset <= FILE_LIMIT && offset + count as u64 <= FILE_LIMIT
}

/// Whether bytes read from an offset reach the file's end.
pub fn reaches_end(len: usize, offset: u64, count: usize) -> bool
    ensures { result ≡ nat_le len (offset + count) }
{
    len.saturating_sub(count) as u64 <= offset
}
