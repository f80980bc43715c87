//! The procedures of NFS, each by the module of its name.
ghost use Rattle.std.specs.Prelude.{◌≡◌, ◌≤◌};
ghost use Rattle.nfs_args.specs.Encoding.{HasCountedBytes};
ghost use Rattle.nfs_procs.specs.Procedures.{PerformsAs, doing_of, room_for};
ghost use Rattle.nfs_procs.specs.Scenes.{scene};

use crate::access::access;
use crate::call_context::CallContext;
use crate::commit::commit;
use crate::create::create;
use crate::done::Done;
use crate::fsinfo::fsinfo;
use crate::fsstat::fsstat;
use crate::getattr::getattr;
use crate::link::link;
use crate::lookup::lookup;
use crate::mkdir::mkdir;
use crate::mknod::mknod;
use crate::pathconf::pathconf;
use crate::read::read;
use crate::readdir::readdir;
use crate::readdirplus::readdirplus;
use crate::readlink::readlink;
use crate::remove::remove;
use crate::rename::rename;
use crate::rmdir::rmdir;
use crate::setattr::setattr;
use crate::symlink::symlink;
use crate::write::write;
use nfs_args::args::NfsArgs;
use nfs_inodes::tree::Tree;
use nfs_xdr::output::Output;

/// Does what a call asks for where no rule of it fails, and writes its result: what was asked for, or
/// the status of the first rule that fails, and then the tree is as before. At `Memory` the tree is as
/// before and nothing is written. `None` for NULL, which has no result.
pub fn perform(
    tree: &mut Tree,
    call: &CallContext<'_>,
    args: &NfsArgs<'_>,
    out: &mut Output,
) -> Option<Done>
    requires room { room_for (doing_of args.now) ≤ out.old.room }
    requires counted { HasCountedBytes args.now }
    ensures { PerformsAs (scene tree.old call.now args.now) (doing_of args.now) result tree.new out.old out.new }
{
    match args {
        NfsArgs::Null => None,
        NfsArgs::Getattr(file) => Some(getattr(tree, call, file, out)),
        NfsArgs::Setattr(args) => Some(setattr(tree, call, args, out)),
        NfsArgs::Lookup(args) => Some(lookup(tree, call, args, out)),
        NfsArgs::Access(args) => Some(access(tree, call, args, out)),
        NfsArgs::Readlink(file) => Some(readlink(tree, call, file, out)),
        NfsArgs::Read(args) => Some(read(tree, call, args, out)),
        NfsArgs::Write(args) => Some(write(tree, call, args, out)),
        NfsArgs::Create(args) => Some(create(tree, call, args, out)),
        NfsArgs::Mkdir(args) => Some(mkdir(tree, call, args, out)),
        NfsArgs::Symlink(args) => Some(symlink(tree, call, args, out)),
        NfsArgs::Mknod(args) => Some(mknod(tree, call, args, out)),
        NfsArgs::Remove(args) => Some(remove(tree, call, args, out)),
        NfsArgs::Rmdir(args) => Some(rmdir(tree, call, args, out)),
        NfsArgs::Rename(args) => Some(rename(tree, call, args, out)),
        NfsArgs::Link(args) => Some(link(tree, call, args, out)),
        NfsArgs::Readdir(args) => Some(readdir(tree, call, args, out)),
        NfsArgs::Readdirplus(args) => Some(readdirplus(tree, call, args, out)),
        NfsArgs::Fsstat(file) => Some(fsstat(tree, call, file, out)),
        NfsArgs::Fsinfo(file) => Some(fsinfo(tree, call, file, out)),
        NfsArgs::Pathconf(file) => Some(pathconf(tree, call, file, out)),
        NfsArgs::Commit(args) => Some(commit(tree, call, args, out)),
    }
}
