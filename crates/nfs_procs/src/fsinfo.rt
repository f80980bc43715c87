//! FSINFO: what the server bears (RFC 1813, section 3.3.19).
ghost use Rattle.std.specs.Prelude.{◌≡◌, ◌≤◌, Ok};
ghost use Rattle.nfs_args.specs.Sizes.{largest_of};
ghost use Rattle.nfs_args.specs.declared.procedure.Procedure.TheVariants as proc;
ghost use Rattle.nfs_args.specs.declared.answer.NfsAnswer.TheVariants as answer;
ghost use Rattle.nfs_args.specs.declared.args.NfsArgs.TheVariants as nfs;
ghost use Rattle.nfs_procs.specs.Performing.{AppendsAnswer, Performs};
ghost use Rattle.nfs_procs.specs.Readers as procedure;
ghost use Rattle.nfs_procs.specs.Scenes.{scene};

use crate::call_context::CallContext;
use crate::done::Done;
use crate::limits::{MAX_TRANSFER, PREFERRED_PAGE, TRANSFER_MULTIPLE};
use crate::replies::write_denied_attributes;
use crate::subjects::file_of;
use nfs_args::opaque::Opaque;
use nfs_args::server_limits::{ServerLimits, Transfer, write_server_limits};
use nfs_attrs::fattr::Fattr;
use nfs_attrs::moment::Moment;
use nfs_inodes::tree::Tree;
use nfs_xdr::output::Output;

pub(crate) fn fsinfo(
    tree: &Tree,
    call: &CallContext<'_>,
    handle: &Opaque<'_>,
    out: &mut Output,
) -> Done
    requires { (procedure.fsinfo handle.now).largest ≤ out.old.room }
    ensures { Performs (scene tree.now call.now (nfs.Fsinfo handle.now))
        (procedure.fsinfo handle.now) result tree.now out.old out.new }
{
    match file_of(tree, call, handle) {
        Ok(file) => {
            write_granted(out, tree, &file.attributes());
            Done::Granted
        }
        Err(denial) => write_denied_attributes(out, &denial),
    }
}

// Hard and symbolic links, the same limits for all files, and times that can be set: FSF3_LINK,
// FSF3_SYMLINK, FSF3_HOMOGENEOUS and FSF3_CANSETTIME.
const PROPERTIES: u32 = 0x1b;

fn write_granted(out: &mut Output, tree: &Tree, file: &Fattr)
    requires { largest_of proc.Fsinfo ≤ out.old.room }
    ensures { AppendsAnswer (answer.Fsinfo (Ok (procedure.server_limits tree.now.limits file.now))) out.old out.new }
{
    out.u32(0);
    write_server_limits(out, &server_limits(tree, file));
}

fn server_limits(tree: &Tree, file: &Fattr) -> ServerLimits
    ensures { result ≡ procedure.server_limits tree.now.limits file.now }
{
    ServerLimits {
        attributes: Some(*file),
        read: transfer(),
        write: transfer(),
        readdir: PREFERRED_PAGE,
        max_file_size: tree.limits().file_size as u64,
        time_delta: Moment {
            seconds: 0,
            nanos: 1,
        },
        properties: PROPERTIES,
    }
}

fn transfer() -> Transfer
    ensures { result ≡ procedure.transfer }
{
    Transfer {
        max: MAX_TRANSFER,
        preferred: MAX_TRANSFER,
        multiple: TRANSFER_MULTIPLE,
    }
}
