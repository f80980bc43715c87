//! The arguments of the procedures of NFS (RFC 1813, section 3.3).
ghost use Rattle.std.specs.Prelude.{◌≡◌, ℕ, List, IfOk, OnOk, IsErr};
ghost use Rattle.nfs_xdr.specs.Encoding.{Begins, BeginsNone};
ghost use Rattle.nfs_args.specs.Encoding.{IsArgsOf, HasCountedBytes, procedure_of};
ghost use Rattle.nfs_args.specs.Reading.{Answers, Fills, TakesInto, args_at};

use crate::access::{Access, access_of};
use crate::byte_range::{ByteRange, byte_range_of};
use crate::create::{Create, create_of};
use crate::dir_op::{DirOp, dir_op_of};
use crate::link::{Link, link_of};
use crate::mkdir::{Mkdir, mkdir_of};
use crate::mknod::{Mknod, mknod_of};
use crate::opaque::{Opaque, handle_of};
use crate::procedure::Procedure;
use crate::readdir::{Readdir, Readdirplus, readdir_of, readdirplus_of};
use crate::rename::{Rename, rename_of};
use crate::setattr::{Setattr, setattr_of};
use crate::symlink::{Symlink, symlink_of};
use crate::unreadable::Unreadable;
use crate::write::{Write, write_of};
use nfs_xdr::fault::XdrFault;
use nfs_xdr::input::Input;

/// What a procedure of NFS is asked for, in the order of their numbers. Handles, names, paths and
/// data are lent from the record.
#[derive(Drop)]
pub enum NfsArgs<'a> {
    /// Nothing.
    Null,
    /// The file whose attributes are asked for.
    Getattr(Opaque<'a>),
    /// The attributes to be set.
    Setattr(Setattr<'a>),
    /// The name to be looked up.
    Lookup(DirOp<'a>),
    /// The rights to be tested.
    Access(Access<'a>),
    /// The symbolic link to be read.
    Readlink(Opaque<'a>),
    /// The bytes to be read.
    Read(ByteRange<'a>),
    /// The bytes to be written.
    Write(Write<'a>),
    /// The regular file to be made.
    Create(Create<'a>),
    /// The directory to be made.
    Mkdir(Mkdir<'a>),
    /// The symbolic link to be made.
    Symlink(Symlink<'a>),
    /// The special file to be made.
    Mknod(Mknod<'a>),
    /// The name to be taken away.
    Remove(DirOp<'a>),
    /// The name of the directory to be taken away.
    Rmdir(DirOp<'a>),
    /// The name to be changed.
    Rename(Rename<'a>),
    /// The hard link.
    Link(Link<'a>),
    /// The entries to be read.
    Readdir(Readdir<'a>),
    /// The entries to be read with what their files are.
    Readdirplus(Readdirplus<'a>),
    /// A file of the volume whose room is asked for.
    Fsstat(Opaque<'a>),
    /// A file of the volume that is asked about.
    Fsinfo(Opaque<'a>),
    /// The file whose names are asked about.
    Pathconf(Opaque<'a>),
    /// The bytes to be made safe.
    Commit(ByteRange<'a>),
}

/// Reads the arguments of a procedure. What follows them is not looked at, nor what their padding
/// is. `Unreadable` where no arguments of the procedure stand there.
pub fn read_nfs(proc: Procedure, input: Input<'_>) -> Result<NfsArgs<'_>, Unreadable>
    ensures exact { Answers result (args_at proc input.entry) }
    ensures read { IfOk result (λ args. (rest : List ℕ) × Begins (IsArgsOf proc) args input.entry rest) }
    ensures unreadable { IsErr result → BeginsNone (IsArgsOf proc) input.entry }
{
    let mut args = NfsArgs::Null;
    match args.read(proc, input) {
        Ok(()) => Ok(args),
        Err(unreadable) => Err(unreadable),
    }
}

impl<'a> NfsArgs<'a> {
    /// The procedure whose arguments these are.
    #[inline(always)]
    pub fn procedure(&self) -> Procedure
        ensures { result ≡ procedure_of self.now }
    {
        match self {
            NfsArgs::Null => Procedure::Null,
            NfsArgs::Getattr(_) => Procedure::Getattr,
            NfsArgs::Setattr(_) => Procedure::Setattr,
            NfsArgs::Lookup(_) => Procedure::Lookup,
            NfsArgs::Access(_) => Procedure::Access,
            NfsArgs::Readlink(_) => Procedure::Readlink,
            NfsArgs::Read(_) => Procedure::Read,
            NfsArgs::Write(_) => Procedure::Write,
            NfsArgs::Create(_) => Procedure::Create,
            NfsArgs::Mkdir(_) => Procedure::Mkdir,
            NfsArgs::Symlink(_) => Procedure::Symlink,
            NfsArgs::Mknod(_) => Procedure::Mknod,
            NfsArgs::Remove(_) => Procedure::Remove,
            NfsArgs::Rmdir(_) => Procedure::Rmdir,
            NfsArgs::Rename(_) => Procedure::Rename,
            NfsArgs::Link(_) => Procedure::Link,
            NfsArgs::Readdir(_) => Procedure::Readdir,
            NfsArgs::Readdirplus(_) => Procedure::Readdirplus,
            NfsArgs::Fsstat(_) => Procedure::Fsstat,
            NfsArgs::Fsinfo(_) => Procedure::Fsinfo,
            NfsArgs::Pathconf(_) => Procedure::Pathconf,
            NfsArgs::Commit(_) => Procedure::Commit,
        }
    }

    /// Reads the arguments of a procedure in the place of these, as `read_nfs` does. `Unreadable` where
    /// none stand there; then these stay as they were.
    pub fn read(&mut self, proc: Procedure, input: Input<'a>) -> Result<(), Unreadable>
        ensures exact { Fills self.old self.new result (args_at proc input.entry) }
        ensures read { OnOk result ((rest : List ℕ) × Begins (IsArgsOf proc) self.new input.entry rest) }
        ensures counted { OnOk result (HasCountedBytes self.new) }
        ensures unreadable { IsErr result → BeginsNone (IsArgsOf proc) input.entry }
    {
        // Read where they are to stand, since a result as large as these is copied at each step that
        // hands it on, which takes longer than most of them take to be read.
        let mut ahead = Input::new(input.rest());
        match self.take(proc, &mut ahead) {
            Ok(()) => Ok(()),
            Err(_) => Err(Unreadable),
        }
    }

    fn take(&mut self, proc: Procedure, input: &mut Input<'a>) -> Result<(), XdrFault>
        ensures { TakesInto self.old self.new input.new result (args_at proc input.old) }
    {
        match proc {
            Procedure::Null => *self = NfsArgs::Null,
            Procedure::Getattr => *self = NfsArgs::Getattr(handle_of(input)?),
            Procedure::Setattr => *self = NfsArgs::Setattr(setattr_of(input)?),
            Procedure::Lookup => *self = NfsArgs::Lookup(dir_op_of(input)?),
            Procedure::Access => *self = NfsArgs::Access(access_of(input)?),
            Procedure::Readlink => *self = NfsArgs::Readlink(handle_of(input)?),
            Procedure::Read => *self = NfsArgs::Read(byte_range_of(input)?),
            Procedure::Write => *self = NfsArgs::Write(write_of(input)?),
            Procedure::Create => *self = NfsArgs::Create(create_of(input)?),
            Procedure::Mkdir => *self = NfsArgs::Mkdir(mkdir_of(input)?),
            Procedure::Symlink => *self = NfsArgs::Symlink(symlink_of(input)?),
            Procedure::Mknod => *self = NfsArgs::Mknod(mknod_of(input)?),
            Procedure::Remove => *self = NfsArgs::Remove(dir_op_of(input)?),
            Procedure::Rmdir => *self = NfsArgs::Rmdir(dir_op_of(input)?),
            Procedure::Rename => *self = NfsArgs::Rename(rename_of(input)?),
            Procedure::Link => *self = NfsArgs::Link(link_of(input)?),
            Procedure::Readdir => *self = NfsArgs::Readdir(readdir_of(input)?),
            Procedure::Readdirplus => *self = NfsArgs::Readdirplus(readdirplus_of(input)?),
            Procedure::Fsstat => *self = NfsArgs::Fsstat(handle_of(input)?),
            Procedure::Fsinfo => *self = NfsArgs::Fsinfo(handle_of(input)?),
            Procedure::Pathconf => *self = NfsArgs::Pathconf(handle_of(input)?),
            Procedure::Commit => *self = NfsArgs::Commit(byte_range_of(input)?),
        }
        Ok(())
    }
}
