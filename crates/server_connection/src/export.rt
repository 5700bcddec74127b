//! For which clients a server is.

/// For which clients a server is.
#[derive(Clone, Copy)]
pub enum Export {
    /// Those that know the root's handle. What isn't judged is answered by NFS3ERR_NOTSUPP.
    Plain,
    /// Stock clients too: they can mount `/` (RFC 1813, appendix I) on the same port, and ask for rights and limits.
    Mountable,
}
