//! What an operation asks for, as the arguments of its call.

use nfs_args::access::Access;
use nfs_args::args::NfsArgs;
use nfs_args::byte_range::ByteRange;
use nfs_args::create::{Create, CreateHow};
use nfs_args::dir_op::DirOp;
use nfs_args::link::Link;
use nfs_args::mkdir::Mkdir;
use nfs_args::mknod::{Mknod, NodeData};
use nfs_args::opaque::Opaque;
use nfs_args::readdir::{Readdir, Readdirplus};
use nfs_args::rename::Rename;
use nfs_args::setattr::Setattr;
use nfs_args::symlink::Symlink;
use nfs_args::write::{Stability, Write};
use nfs_ask::operation::Operation;
use nfs_ask::user::id;
use nfs_attrs::moment::Moment;
use nfs_attrs::sattr::Sattr;
use nfs_attrs::time_setting::TimeSetting;
use nfs_text::number::decimal;

/// The handles of a call, and the names and the word beside them.
#[derive(Clone, Copy)]
pub struct Asked<'a> {
    /// The handle of the first file.
    pub one: &'a [u8],
    /// The handle of the second, where there is one.
    pub two: &'a [u8],
    /// The name in the first file.
    pub name: &'a [u8],
    /// The name in the second.
    pub new_name: &'a [u8],
    /// The word after the path.
    pub second: &'a [u8],
}

// No attribute at all.
const NOTHING: Sattr = Sattr {
    mode: None,
    uid: None,
    gid: None,
    size: None,
    atime: TimeSetting::Leave,
    mtime: TimeSetting::Leave,
};

// The mode that is set.
const MODE: u32 = 0o644;

// All rights that ACCESS knows.
const ALL_RIGHTS: u32 = 0x3f;

// How many bytes a page of a directory has at most.
const PAGE_BYTES: u32 = 4_096;

// The verifier of a first page.
const FIRST_PAGE: [u8; 8] = [0; 8];

impl<'a> Asked<'a> {
    /// The arguments of an operation's call.
    pub(crate) fn args(&self, operation: Operation) -> NfsArgs<'a> {
        match operation {
            Operation::Lookup => NfsArgs::Lookup(self.place()),
            Operation::Create => NfsArgs::Create(Create {
                place: self.place(),
                how: CreateHow::Unchecked(NOTHING),
            }),
            Operation::Mkdir => NfsArgs::Mkdir(Mkdir {
                place: self.place(),
                attributes: NOTHING,
            }),
            Operation::Symlink => NfsArgs::Symlink(Symlink {
                place: self.place(),
                attributes: NOTHING,
                path: Opaque::new(self.second),
            }),
            Operation::Mknod => NfsArgs::Mknod(Mknod {
                place: self.place(),
                node: NodeData::Fifo(NOTHING),
            }),
            Operation::Remove => NfsArgs::Remove(self.place()),
            Operation::Rmdir => NfsArgs::Rmdir(self.place()),
            Operation::Rename => NfsArgs::Rename(Rename {
                from: self.place(),
                to: self.new_place(),
            }),
            Operation::Link => NfsArgs::Link(Link {
                file: Opaque::new(self.one),
                place: self.new_place(),
            }),
            _ => self.args_of_file(operation),
        }
    }

    // The arguments of an operation on a file.
    fn args_of_file(&self, operation: Operation) -> NfsArgs<'a> {
        let file = Opaque::new(self.one);
        match operation {
            Operation::Access => NfsArgs::Access(Access {
                file,
                rights: ALL_RIGHTS,
            }),
            Operation::Readlink => NfsArgs::Readlink(file),
            Operation::Read => NfsArgs::Read(ByteRange {
                file,
                offset: 0,
                count: 1,
            }),
            Operation::Write => NfsArgs::Write(Write {
                file,
                offset: 0,
                stable: Stability::Unstable,
                content: Opaque::new(b"\0"),
            }),
            Operation::Commit => NfsArgs::Commit(ByteRange {
                file,
                offset: 0,
                count: 0,
            }),
            Operation::List => NfsArgs::Readdir(Readdir {
                dir: file,
                cookie: 0,
                verifier: Opaque::new(&FIRST_PAGE),
                count: PAGE_BYTES,
            }),
            Operation::ListPlus => NfsArgs::Readdirplus(Readdirplus {
                dir: file,
                cookie: 0,
                verifier: Opaque::new(&FIRST_PAGE),
                dircount: PAGE_BYTES,
                maxcount: PAGE_BYTES,
            }),
            Operation::Room => NfsArgs::Fsstat(file),
            Operation::Limits => NfsArgs::Fsinfo(file),
            Operation::PathLimits => NfsArgs::Pathconf(file),
            Operation::Stat => NfsArgs::Getattr(file),
            _ => NfsArgs::Setattr(Setattr {
                file,
                attributes: self.attributes(operation),
                guard: None,
            }),
        }
    }

    // What an operation sets.
    fn attributes(&self, operation: Operation) -> Sattr {
        let mut given = NOTHING;
        match operation {
            Operation::SetMode => given.mode = Some(MODE),
            Operation::SetOwner => given.uid = id(self.second),
            Operation::SetGroup => given.gid = id(self.second),
            Operation::Truncate => given.size = Some(decimal(self.second, u64::MAX).unwrap_or(0)),
            Operation::Touch => {
                given.atime = TimeSetting::ServerTime;
                given.mtime = TimeSetting::ServerTime;
            }
            _ => {
                let moment = Moment {
                    seconds: 0,
                    nanos: 0,
                };
                given.atime = TimeSetting::ClientTime(moment);
                given.mtime = TimeSetting::ClientTime(moment);
            }
        }
        given
    }

    fn place(&self) -> DirOp<'a> {
        DirOp {
            dir: Opaque::new(self.one),
            name: Opaque::new(self.name),
        }
    }

    fn new_place(&self) -> DirOp<'a> {
        DirOp {
            dir: Opaque::new(self.two),
            name: Opaque::new(self.new_name),
        }
    }
}
