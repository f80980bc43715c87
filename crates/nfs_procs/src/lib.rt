//! The procedures of NFS: each call is judged, done where no rule fails, and answered.
#![tactic(auto)]

pub mod access;
pub mod call_context;
pub mod commit;
pub mod create;
pub mod creation;
pub mod denial;
pub mod done;
pub mod fsinfo;
pub mod fsstat;
pub mod getattr;
pub mod limits;
pub mod link;
pub mod lookup;
pub mod mkdir;
pub mod mknod;
pub mod new_files;
pub mod pathconf;
pub mod perform;
pub mod plan;
pub mod read;
pub mod readdir;
pub mod readdirplus;
pub mod readlink;
pub mod removal;
pub mod remove;
pub mod rename;
pub mod replies;
pub mod rmdir;
pub mod setattr;
pub mod settings;
pub mod subjects;
pub mod symlink;
pub mod write;
