//! What to do where the server refuses calls for who makes them.

use night_lanes::Counts;

const DENIED: &str =
    "More than a quarter of the replies are NFS3ERR_PERM or NFS3ERR_ACCES. Export with no_root_squash in /etc/exports, or \
    with Squash = No_Root_Squash in nfs-ganesha's EXPORT, or call as the owner of the export by --uid and --gid.";

const TOO_WEAK: &str =
    "Calls were refused by AUTH_TOOWEAK. Export with sec=sys in /etc/exports, or with SecType = sys in nfs-ganesha's \
    EXPORT.";

/// What to change, if the server refused many calls for who made them: a line without its end.
pub fn rights_hint(counts: &Counts) -> Option<&'static str> {
    if counts.denied() > counts.replies() / 4 {
        return Some(DENIED);
    }
    if counts.too_weak() > 0 {
        return Some(TOO_WEAK);
    }
    None
}
