//! Calls of MOUNT (RFC 1813, appendix I, section 5.2): what they ask for, and what is done.
ghost use Rattle.std.specs.Prelude.{◌≡◌, ◌+◌, ◌≤◌, ℕ, length, None, Some};
ghost use Rattle.std.specs.Result.{result_ok};
ghost use Rattle.nfs_args.specs.Procedures.{mount_number, mount_procedures};
ghost use Rattle.nfs_rpc.specs.Calls.{call_of};
ghost use Rattle.nfs_server.specs.Noted as noted;
ghost use Rattle.nfs_server.specs.OneEvent.{AnswersMount, MountsAs};
ghost use Rattle.nfs_server.specs.ReplyRoom.{Adds, HasReplyRoom, after};
ghost use Rattle.nfs_server.specs.Requests.{mount_args_in};
ghost use Rattle.nfs_server.specs.InMemory.{reported};
ghost use Rattle.nfs_xdr.specs.Reading.{numbered};

use crate::audit_line::{AuditLine, DenialReason};
use crate::reply::give_up;
use nfs_args::mount_args::{MountArgs, read_mount};
use nfs_args::procedure::MountProcedure;
use nfs_args::unreadable::Unreadable;
use nfs_exports::addr::Addr;
use nfs_exports::export_table::ExportTable;
use nfs_inodes::tree::Tree;
use nfs_mount::exports::write_export;
use nfs_mount::limits::MAX_DUMP_BYTES;
use nfs_mount::mount_list::MountList;
use nfs_mount::outcome::MountOutcome;
use nfs_rpc::call::CallHead;
use nfs_rpc::reply::{Accept, write_accepted};
use nfs_xdr::input::Input;
use nfs_xdr::output::Output;

/// Reads the arguments of a procedure. What follows them is not looked at. `Unreadable` where no
/// arguments of the procedure stand there.
pub(crate) fn read_mount_args(
    procedure: MountProcedure,
    input: Input<'_>,
) -> Result<MountArgs<'_>, Unreadable>
    ensures { (number : ℕ) → numbered mount_number mount_procedures number ≡ Some procedure
        → result_ok result ≡ mount_args_in number input.entry }
{
    read_mount(procedure, input)
}

/// Whether these are arguments of a procedure that may change the mount list.
pub(crate) fn may_change_mounts(args: &MountArgs<'_>) -> bool
    ensures { result ≡ noted.may_change_mounts args.now }
{
    match args {
        MountArgs::Mount(_) | MountArgs::Unmount(_) | MountArgs::UnmountAll => true,
        MountArgs::Null | MountArgs::Dump | MountArgs::Export => false,
    }
}

/// The reply to a call other than NULL: what it asks for is done where no rule fails, and there is
/// memory. A call that is denied leaves its line.
pub(crate) fn answer_mount(
    out: &mut Output,
    head: &CallHead<'_>,
    tree: &Tree,
    table: &ExportTable,
    mounts: &mut MountList,
    addr: Addr,
    args: &MountArgs<'_>,
    line: &mut Option<AuditLine>,
)
    requires room { HasReplyRoom out.old }
    requires line { line.old ≡ None }
    ensures adds { Adds out.old out.new }
    ensures answers { AnswersMount args.now table.now (record { tree = tree.now; mounts = mounts.old }) addr (call_of head.now)
        (reported (after out.old out.new) line.new) mounts.new }
{
    let start = out.bytes().len();
    write_accepted(out, head.xid, Accept::Success);
    match mount(tree, table, mounts, addr, args, out) {
        MountOutcome::Granted => {}
        MountOutcome::Denied(rule) => {
            let reason = DenialReason::Rule(rule, None);
            *line = Some(AuditLine::of(addr, head, reason));
        }
        MountOutcome::Memory(refused) => {
            give_up(out, start, head.xid, refused);
            *line = Some(AuditLine::of(addr, head, DenialReason::Memory));
        }
    }
}

// Does what a client at this address asks for, and writes the result. `Denied` by the first rule of
// MNT that fails; the mount list is then as before. `Memory` of MNT alone; then the list is as
// before, and nothing is written.
fn mount(
    tree: &Tree,
    table: &ExportTable,
    mounts: &mut MountList,
    addr: Addr,
    args: &MountArgs<'_>,
    out: &mut Output,
) -> MountOutcome
    requires { MAX_DUMP_BYTES ≤ out.old.room }
    ensures mounts { MountsAs args.now tree.now table.now addr result mounts.old mounts.new out.old out.new }
    ensures adds { Adds out.old out.new }
{
    match args {
        MountArgs::Null => {}
        MountArgs::Mount(path) => return mounts.mnt(tree, table, addr, path.bytes(), out),
        MountArgs::Dump => mounts.write_dump(tree, out),
        MountArgs::Unmount(path) => mounts.umnt(tree, addr, path.bytes()),
        MountArgs::UnmountAll => mounts.umnt_all(addr),
        MountArgs::Export => write_export(tree, table, out),
    }
    MountOutcome::Granted
}
