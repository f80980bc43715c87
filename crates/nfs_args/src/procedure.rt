//! The procedures, and one row for each with what there is to say of it.
ghost use Rattle.std.specs.Prelude.{◌≡◌, true, false};
ghost use Rattle.nfs_xdr.specs.Reading.{numbered};
ghost use Rattle.nfs_args.specs.Procedures.{procedure_number, procedures, mount_number, mount_procedures};
ghost use Rattle.nfs_args.specs.Procedures.{procedure_name, mount_procedure_name};
ghost use Rattle.nfs_args.specs.Procedures as spec;
ghost use Rattle.nfs_args.specs.Sizes.{largest_of};

use crate::largest::{
    ATTRIBUTES, CHANGE, HANDLE, HEAD, HYPER, MADE, MAX_RESULT_BYTES, MOMENT, POST_OP_ATTRIBUTES,
    STATUS, WORD,
};
use crate::limits::{MAX_PAGE_BYTES, MAX_PATH_BYTES};

/// A procedure of NFS (RFC 1813, section 3.3).
#[derive(Clone, Copy)]
pub enum Procedure {
    /// NULL: does nothing.
    Null,
    /// GETATTR: the attributes of a file.
    Getattr,
    /// SETATTR: sets attributes of a file.
    Setattr,
    /// LOOKUP: the file under a name.
    Lookup,
    /// ACCESS: which rights a caller has.
    Access,
    /// READLINK: the path that a symbolic link stands for.
    Readlink,
    /// READ: bytes of a file.
    Read,
    /// WRITE: writes bytes to a file.
    Write,
    /// CREATE: makes a regular file.
    Create,
    /// MKDIR: makes a directory.
    Mkdir,
    /// SYMLINK: makes a symbolic link.
    Symlink,
    /// MKNOD: makes a special file.
    Mknod,
    /// REMOVE: takes a name of a file away.
    Remove,
    /// RMDIR: takes an empty directory away.
    Rmdir,
    /// RENAME: changes the name of a file.
    Rename,
    /// LINK: gives a file a hard link.
    Link,
    /// READDIR: entries of a directory.
    Readdir,
    /// READDIRPLUS: entries of a directory with what their files are.
    Readdirplus,
    /// FSSTAT: how much room a volume has.
    Fsstat,
    /// FSINFO: what the server bears.
    Fsinfo,
    /// PATHCONF: what names may be.
    Pathconf,
    /// COMMIT: makes written bytes safe.
    Commit,
}

impl Procedure {
    /// The procedure of this number, if there is one.
    pub fn of(number: u32) -> Option<Procedure>
        ensures { result ≡ numbered procedure_number procedures number }
    {
        match number {
            0 => Some(Procedure::Null),
            1 => Some(Procedure::Getattr),
            2 => Some(Procedure::Setattr),
            3 => Some(Procedure::Lookup),
            4 => Some(Procedure::Access),
            5 => Some(Procedure::Readlink),
            6 => Some(Procedure::Read),
            7 => Some(Procedure::Write),
            8 => Some(Procedure::Create),
            9 => Some(Procedure::Mkdir),
            10 => Some(Procedure::Symlink),
            11 => Some(Procedure::Mknod),
            12 => Some(Procedure::Remove),
            13 => Some(Procedure::Rmdir),
            14 => Some(Procedure::Rename),
            15 => Some(Procedure::Link),
            16 => Some(Procedure::Readdir),
            17 => Some(Procedure::Readdirplus),
            18 => Some(Procedure::Fsstat),
            19 => Some(Procedure::Fsinfo),
            20 => Some(Procedure::Pathconf),
            21 => Some(Procedure::Commit),
            _ => None,
        }
    }

    /// What there is to say of it.
    #[inline(always)]
    pub fn row(self) -> ProcedureRow
        ensures number { result.number ≡ procedure_number self }
        ensures name { result.name.now ≡ procedure_name self }
        ensures may_change { result.may_change ≡ spec.may_change self }
        ensures handles { result.handles ≡ spec.handles_of self }
        ensures largest { result.largest ≡ largest_of self }
    {
        match self {
            Procedure::Null => reads(0, b"NULL", 0, 0),
            Procedure::Getattr => reads(1, b"GETATTR", 1, STATUS + ATTRIBUTES),
            Procedure::Setattr => changes(2, b"SETATTR", 1, STATUS + CHANGE),
            Procedure::Lookup => reads(3, b"LOOKUP", 1, STATUS + HANDLE + 2 * POST_OP_ATTRIBUTES),
            Procedure::Access => reads(4, b"ACCESS", 1, HEAD + WORD),
            Procedure::Readlink => reads(5, b"READLINK", 1, HEAD + WORD + MAX_PATH_BYTES),
            Procedure::Read => reads(6, b"READ", 1, MAX_RESULT_BYTES),
            Procedure::Write => changes(7, b"WRITE", 1, STATUS + CHANGE + 2 * WORD + HYPER),
            Procedure::Create => changes(8, b"CREATE", 1, STATUS + MADE),
            Procedure::Mkdir => changes(9, b"MKDIR", 1, STATUS + MADE),
            Procedure::Symlink => changes(10, b"SYMLINK", 1, STATUS + MADE),
            Procedure::Mknod => reads(11, b"MKNOD", 1, STATUS + MADE),
            Procedure::Remove => changes(12, b"REMOVE", 1, STATUS + CHANGE),
            Procedure::Rmdir => changes(13, b"RMDIR", 1, STATUS + CHANGE),
            Procedure::Rename => changes(14, b"RENAME", 2, STATUS + 2 * CHANGE),
            Procedure::Link => changes(15, b"LINK", 2, HEAD + CHANGE),
            Procedure::Readdir => reads(16, b"READDIR", 1, STATUS + MAX_PAGE_BYTES),
            Procedure::Readdirplus => reads(17, b"READDIRPLUS", 1, STATUS + MAX_PAGE_BYTES),
            Procedure::Fsstat => reads(18, b"FSSTAT", 1, HEAD + 6 * HYPER + WORD),
            Procedure::Fsinfo => reads(19, b"FSINFO", 1, HEAD + 8 * WORD + HYPER + MOMENT),
            Procedure::Pathconf => reads(20, b"PATHCONF", 1, HEAD + 6 * WORD),
            Procedure::Commit => reads(21, b"COMMIT", 1, STATUS + CHANGE + HYPER),
        }
    }

    /// Its number.
    pub fn number(self) -> u32
        ensures { result ≡ procedure_number self }
    {
        self.row().number
    }

    /// Its name.
    pub fn name(self) -> &'static [u8]
        ensures { result.now ≡ procedure_name self }
    {
        self.row().name
    }
}

/// What there is to say of a procedure of NFS.
#[derive(Clone, Copy)]
pub struct ProcedureRow {
    /// Its number.
    pub number: u32,
    /// Its name.
    pub name: &'static [u8],
    /// Whether it may change the tree.
    pub may_change: bool,
    /// How many handles its arguments have.
    pub handles: usize,
    /// How many bytes its longest result has, as `largest` says.
    pub largest: usize,
}

// The row of a procedure that leaves the tree as it is.
#[inline(always)]
fn reads(number: u32, name: &'static [u8], handles: usize, largest: usize) -> ProcedureRow
    ensures number { result.number ≡ number }
    ensures name { result.name.now ≡ name.entry.now }
    ensures may_change { result.may_change ≡ false }
    ensures handles { result.handles ≡ handles }
    ensures largest { result.largest ≡ largest }
{
    ProcedureRow {
        number,
        name,
        may_change: false,
        handles,
        largest,
    }
}

// The row of one that may change it.
#[inline(always)]
fn changes(number: u32, name: &'static [u8], handles: usize, largest: usize) -> ProcedureRow
    ensures number { result.number ≡ number }
    ensures name { result.name.now ≡ name.entry.now }
    ensures may_change { result.may_change ≡ true }
    ensures handles { result.handles ≡ handles }
    ensures largest { result.largest ≡ largest }
{
    ProcedureRow {
        number,
        name,
        may_change: true,
        handles,
        largest,
    }
}

/// A procedure of MOUNT (RFC 1813, appendix I, section 5.2).
#[derive(Clone, Copy)]
pub enum MountProcedure {
    /// NULL: does nothing.
    Null,
    /// MNT: the handle of a volume.
    Mount,
    /// DUMP: who has asked for which volume.
    Dump,
    /// UMNT: a client has done with a volume.
    Unmount,
    /// UMNTALL: a client has done with all volumes.
    UnmountAll,
    /// EXPORT: the volumes, and who may use them.
    Export,
}

impl MountProcedure {
    /// The procedure of this number, if there is one.
    pub fn of(number: u32) -> Option<MountProcedure>
        ensures { result ≡ numbered mount_number mount_procedures number }
    {
        match number {
            0 => Some(MountProcedure::Null),
            1 => Some(MountProcedure::Mount),
            2 => Some(MountProcedure::Dump),
            3 => Some(MountProcedure::Unmount),
            4 => Some(MountProcedure::UnmountAll),
            5 => Some(MountProcedure::Export),
            _ => None,
        }
    }

    /// What there is to say of it.
    pub fn row(self) -> MountProcedureRow
        ensures number { result.number ≡ mount_number self }
        ensures name { result.name.now ≡ mount_procedure_name self }
    {
        match self {
            MountProcedure::Null => mount_row(0, b"NULL"),
            MountProcedure::Mount => mount_row(1, b"MNT"),
            MountProcedure::Dump => mount_row(2, b"DUMP"),
            MountProcedure::Unmount => mount_row(3, b"UMNT"),
            MountProcedure::UnmountAll => mount_row(4, b"UMNTALL"),
            MountProcedure::Export => mount_row(5, b"EXPORT"),
        }
    }

    /// Its number.
    pub fn number(self) -> u32
        ensures { result ≡ mount_number self }
    {
        self.row().number
    }

    /// Its name.
    pub fn name(self) -> &'static [u8]
        ensures { result.now ≡ mount_procedure_name self }
    {
        self.row().name
    }
}

/// What there is to say of a procedure of MOUNT, none of which has a handle or changes the tree.
#[derive(Clone, Copy)]
pub struct MountProcedureRow {
    /// Its number.
    pub number: u32,
    /// Its name.
    pub name: &'static [u8],
}

fn mount_row(number: u32, name: &'static [u8]) -> MountProcedureRow
    ensures number { result.number ≡ number }
    ensures name { result.name.now ≡ name.entry.now }
{
    MountProcedureRow { number, name }
}
