//! The arguments and results of NFS version 3 (RFC 1813, section 3.3) as bytes: read, with the first item at
//! fault where they are none, and written in one spelling.
#![tactic(auto)]

mod messages;

pub use messages::{put_args, put_result, read_args, read_result};
pub use nfs3_types::{NfsCall, NfsReply, Outcome};
pub use nfs3_values;
pub use nfs3_values::{Kind, MessageFault};
pub use reply_attributes::{Role, post_attr, pre_size};
