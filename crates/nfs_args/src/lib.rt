//! The arguments of the procedures of NFS version 3 and of MOUNT version 3 (RFC 1813), read from
//! records, and their results, written as it encodes them.
#![tactic(auto)]

pub mod access;
pub mod answer;
pub mod args;
pub mod attributes;
pub mod byte_range;
pub mod chain;
pub mod committed;
pub mod create;
pub mod dir_op;
pub mod dir_page;
pub mod entry;
pub mod entry_plus;
pub mod exported;
pub mod failed;
pub mod found;
pub mod items;
pub mod largest;
pub mod laws;
pub mod limits;
pub mod link;
pub mod link_path;
pub mod linked;
pub mod made;
pub mod mkdir;
pub mod mknod;
pub mod mount_answer;
pub mod mount_args;
pub mod mounted;
pub mod opaque;
pub mod path_limits;
pub mod procedure;
pub mod program;
pub mod read_data;
pub mod readdir;
pub mod rename;
pub mod renamed;
pub mod rights;
pub mod server_limits;
pub mod setattr;
pub mod symlink;
pub mod unreadable;
pub mod volume_space;
pub mod write;
pub mod written;
