//! The arguments of the procedures of MOUNT (RFC 1813, appendix I, section 5.2).
ghost use Rattle.std.specs.Prelude.{◌≡◌, ℕ, List, IfOk, IsErr};
ghost use Rattle.nfs_xdr.specs.Encoding.{Begins, BeginsNone};
ghost use Rattle.nfs_args.specs.Encoding.{IsMountArgsOf};
ghost use Rattle.nfs_args.specs.Reading.{Takes, mount_args_at, Answers};

use crate::opaque::{Opaque, string_of};
use crate::procedure::MountProcedure;
use crate::unreadable::Unreadable;
use nfs_xdr::fault::XdrFault;
use nfs_xdr::input::Input;

/// What a procedure of MOUNT is asked for, in the order of their numbers. Paths are lent from the
/// record, and have no bound here.
#[derive(Drop)]
pub enum MountArgs<'a> {
    /// Nothing, for NULL.
    Null,
    /// The path of the volume that is asked for.
    Mount(Opaque<'a>),
    /// Nothing, for DUMP.
    Dump,
    /// The path of the volume that a client has done with.
    Unmount(Opaque<'a>),
    /// Nothing, for UMNTALL.
    UnmountAll,
    /// Nothing, for EXPORT.
    Export,
}

/// Reads the arguments of a procedure. What follows them is not looked at, nor what their padding
/// is. `Unreadable` where no arguments of the procedure stand there.
pub fn read_mount(proc: MountProcedure, input: Input<'_>) -> Result<MountArgs<'_>, Unreadable>
    ensures exact { Answers result (mount_args_at proc input.entry) }
    ensures read { IfOk result (λ args. (rest : List ℕ) × Begins (IsMountArgsOf proc) args input.entry rest) }
    ensures unreadable { IsErr result → BeginsNone (IsMountArgsOf proc) input.entry }
{
    let mut ahead = Input::new(input.rest());
    match mount_args_of(proc, &mut ahead) {
        Ok(args) => Ok(args),
        Err(_) => Err(Unreadable),
    }
}

fn mount_args_of<'a>(proc: MountProcedure, input: &mut Input<'a>) -> Result<MountArgs<'a>, XdrFault>
    ensures { Takes input.old input.new result (mount_args_at proc input.old) }
{
    match proc {
        MountProcedure::Null => Ok(MountArgs::Null),
        MountProcedure::Mount => Ok(MountArgs::Mount(string_of(input)?)),
        MountProcedure::Dump => Ok(MountArgs::Dump),
        MountProcedure::Unmount => Ok(MountArgs::Unmount(string_of(input)?)),
        MountProcedure::UnmountAll => Ok(MountArgs::UnmountAll),
        MountProcedure::Export => Ok(MountArgs::Export),
    }
}
