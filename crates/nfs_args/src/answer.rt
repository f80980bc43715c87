//! The results of the procedures of NFS (RFC 1813, section 3.3).
ghost use Rattle.std.specs.Prelude.{◌≡◌, ◌≤◌, length};
ghost use Rattle.nfs_xdr.specs.Written.{Appends};
ghost use Rattle.nfs_args.specs.Answers.{IsAnswerOf, answered, nfs_text, NfsFits};

use crate::attributes::{write_change_result, write_getattr_result};
use crate::committed::{Committed, write_commit_result};
use crate::dir_page::{DirPage, write_readdir_result, write_readdirplus_result};
use crate::entry::Entry;
use crate::entry_plus::EntryPlus;
use crate::failed::Failed;
use crate::found::{Found, write_lookup_result};
use crate::items::Items;
use crate::link_path::{LinkPath, write_readlink_result};
use crate::linked::{Linked, write_link_result};
use crate::made::{Made, write_make_result};
use crate::path_limits::{PathLimits, write_pathconf_result};
use crate::read_data::{ReadData, write_read_result};
use crate::renamed::{Renamed, write_rename_result};
use crate::rights::{Rights, write_access_result};
use crate::server_limits::{ServerLimits, write_fsinfo_result};
use crate::volume_space::{VolumeSpace, write_fsstat_result};
use crate::written::{Written, write_write_result};
use nfs_attrs::fattr::Fattr;
use nfs_attrs::wcc::Wcc;
use nfs_xdr::output::Output;

/// What a procedure of NFS answers, in the order of their numbers: what was asked for, or why not.
/// NULL has no result. Handles, paths, names and data are lent.
#[derive(Drop)]
pub enum NfsAnswer<'a> {
    /// The attributes of a file.
    Getattr(Result<Fattr, Failed<()>>),
    /// The file whose attributes were set.
    Setattr(Result<Wcc, Failed<Wcc>>),
    /// The file that was found.
    Lookup(Result<Found<'a>, Failed<Option<Fattr>>>),
    /// The rights that a caller has.
    Access(Result<Rights, Failed<Option<Fattr>>>),
    /// The path that a symbolic link stands for.
    Readlink(Result<LinkPath<'a>, Failed<Option<Fattr>>>),
    /// The bytes that were read.
    Read(Result<ReadData<'a>, Failed<Option<Fattr>>>),
    /// The bytes that were written.
    Write(Result<Written, Failed<Wcc>>),
    /// The regular file that was made.
    Create(Result<Made<'a>, Failed<Wcc>>),
    /// The directory that was made.
    Mkdir(Result<Made<'a>, Failed<Wcc>>),
    /// The symbolic link that was made.
    Symlink(Result<Made<'a>, Failed<Wcc>>),
    /// The special file that was made.
    Mknod(Result<Made<'a>, Failed<Wcc>>),
    /// The directory of the name that was taken away.
    Remove(Result<Wcc, Failed<Wcc>>),
    /// The directory of the name that was taken away.
    Rmdir(Result<Wcc, Failed<Wcc>>),
    /// Both directories of the name that was changed.
    Rename(Result<Renamed, Failed<Renamed>>),
    /// The file that got a hard link.
    Link(Result<Linked, Failed<Linked>>),
    /// Entries of a directory.
    Readdir(Result<DirPage<Items<'a, Entry<'a>>>, Failed<Option<Fattr>>>),
    /// Entries of a directory with what their files are.
    Readdirplus(Result<DirPage<Items<'a, EntryPlus<'a>>>, Failed<Option<Fattr>>>),
    /// How much room a volume has.
    Fsstat(Result<VolumeSpace, Failed<Option<Fattr>>>),
    /// What the server bears.
    Fsinfo(Result<ServerLimits, Failed<Option<Fattr>>>),
    /// What names may be.
    Pathconf(Result<PathLimits, Failed<Option<Fattr>>>),
    /// The bytes that were made safe.
    Commit(Result<Committed, Failed<Wcc>>),
}

/// Writes a result: the status, and the arm that it has.
pub fn write_nfs(out: &mut Output, answer: &NfsAnswer<'_>)
    requires fits { NfsFits answer.now }
    requires room { length (nfs_text answer.now) ≤ out.old.room }
    ensures text { Appends (nfs_text answer.now) out.old out.new }
    ensures encoded { IsAnswerOf (answered answer.now) answer.now (nfs_text answer.now) }
{
    match answer {
        NfsAnswer::Getattr(answer) => write_getattr_result(out, answer),
        NfsAnswer::Setattr(answer) => write_change_result(out, answer),
        NfsAnswer::Lookup(answer) => write_lookup_result(out, answer),
        NfsAnswer::Access(answer) => write_access_result(out, answer),
        NfsAnswer::Readlink(answer) => write_readlink_result(out, answer),
        NfsAnswer::Read(answer) => write_read_result(out, answer),
        NfsAnswer::Write(answer) => write_write_result(out, answer),
        NfsAnswer::Create(answer) => write_make_result(out, answer),
        NfsAnswer::Mkdir(answer) => write_make_result(out, answer),
        NfsAnswer::Symlink(answer) => write_make_result(out, answer),
        NfsAnswer::Mknod(answer) => write_make_result(out, answer),
        NfsAnswer::Remove(answer) => write_change_result(out, answer),
        NfsAnswer::Rmdir(answer) => write_change_result(out, answer),
        NfsAnswer::Rename(answer) => write_rename_result(out, answer),
        NfsAnswer::Link(answer) => write_link_result(out, answer),
        NfsAnswer::Readdir(answer) => write_readdir_result(out, answer),
        NfsAnswer::Readdirplus(answer) => write_readdirplus_result(out, answer),
        NfsAnswer::Fsstat(answer) => write_fsstat_result(out, answer),
        NfsAnswer::Fsinfo(answer) => write_fsinfo_result(out, answer),
        NfsAnswer::Pathconf(answer) => write_pathconf_result(out, answer),
        NfsAnswer::Commit(answer) => write_commit_result(out, answer),
    }
}
