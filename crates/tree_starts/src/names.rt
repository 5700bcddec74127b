//! Which names an entry of a directory can have.

ghost use Rattle.std.specs.Prelude.{◌≡◌};
ghost use Rattle.tree_starts.specs.Names.{is_dot, is_two_dots, is_plain};

/// Whether a name is `.`, the directory itself.
pub fn is_dot(name: &[u8]) -> bool
    ensures { result ≡ is_dot name.now }
{
    name == b".".as_slice()
}

/// Whether a name is `..`, the directory that a directory lies in.
pub fn is_two_dots(name: &[u8]) -> bool
    ensures { result ≡ is_two_dots name.now }
{
    name == b"..".as_slice()
}

/// Whether an entry can have a name: it isn't empty, `.` or `..`.
pub fn is_plain(name: &[u8]) -> bool
    ensures { result ≡ is_plain name.now }
{
    !(name.is_empty() || is_dot(name) || is_two_dots(name))
}
