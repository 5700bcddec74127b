//! Calls of NFS version 3 (RFC 1813) as the messages that a client sends to a journal server. Each object stands for its
//! handle: eight bytes that spell its number; the root directory is 0.
#![tactic(auto)]

mod arguments;
mod directories;
mod files;

pub use directories::{
    look_up, make_directory, make_link, read_directory, read_directory_plus, remove,
    remove_directory, rename,
};
pub use files::{
    Creation, commit, create, get_attributes, plain_call, read, read_link, set_size, write,
};
