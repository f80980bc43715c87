//! What a call of NFS asks for.
ghost use Rattle.std.specs.Prelude.{◌≡◌, ℕ, Some, OnOk};
ghost use Rattle.nfs_args.specs.Encoding.{HasCountedBytes};
ghost use Rattle.nfs_args.specs.Procedures.{procedure_number, procedures};
ghost use Rattle.nfs_server.specs.Requests.{args_in, args_read};
ghost use Rattle.nfs_xdr.specs.Reading.{numbered};

use nfs_args::args::NfsArgs;
use nfs_args::procedure::Procedure;
use nfs_args::unreadable::Unreadable;
use nfs_xdr::input::Input;

/// Reads the arguments of a procedure of NFS in the place of others. What follows them is not looked at.
/// `Unreadable` where no arguments of the procedure stand there.
#[inline(always)]
pub(crate) fn read_args<'a>(
    procedure: Procedure,
    input: Input<'a>,
    args: &mut NfsArgs<'a>,
) -> Result<(), Unreadable>
    ensures read { (number : ℕ) → numbered procedure_number procedures number ≡ Some procedure
        → args_read result args.new ≡ args_in number input.entry }
    ensures counted { OnOk result (HasCountedBytes args.new) }
{
    args.read(procedure, input)
}
