//! ACCESS: the rights of the caller (RFC 1813, section 3.3.4).
ghost use Rattle.std.specs.Prelude.{◌≡◌, ◌≤◌, Some, Ok};
ghost use Rattle.nfs_args.specs.Sizes.{largest_of};
ghost use Rattle.nfs_args.specs.declared.procedure.Procedure.TheVariants as proc;
ghost use Rattle.nfs_args.specs.declared.answer.NfsAnswer.TheVariants as answer;
ghost use Rattle.nfs_args.specs.declared.args.NfsArgs.TheVariants as nfs;
ghost use Rattle.nfs_procs.specs.Performing.{AppendsAnswer, Performs};
ghost use Rattle.nfs_procs.specs.Readers as procedure;
ghost use Rattle.nfs_procs.specs.Scenes.{scene};

use crate::call_context::CallContext;
use crate::done::Done;
use crate::replies::write_denied_attributes;
use crate::subjects::file_of;
use nfs_args::access::Access;
use nfs_args::rights::{Rights, write_rights};
use nfs_attrs::fattr::Fattr;
use nfs_inodes::tree::Tree;
use nfs_xdr::output::Output;

pub(crate) fn access(
    tree: &Tree,
    call: &CallContext<'_>,
    args: &Access<'_>,
    out: &mut Output,
) -> Done
    requires { (procedure.access args.now).largest ≤ out.old.room }
    ensures { Performs (scene tree.now call.now (nfs.Access args.now))
        (procedure.access args.now) result tree.now out.old out.new }
{
    match file_of(tree, call, &args.file) {
        Ok(file) => {
            let file = file.subject();
            write_granted(out, &file.attributes(), file.access_bits(args.rights));
            Done::Granted
        }
        Err(denial) => write_denied_attributes(out, &denial),
    }
}

fn write_granted(out: &mut Output, file: &Fattr, rights: u32)
    requires { largest_of proc.Access ≤ out.old.room }
    ensures { AppendsAnswer (answer.Access (Ok (record { attributes = Some file.now; rights = rights }))) out.old out.new }
{
    out.u32(0);
    write_rights(
        out,
        &Rights {
            attributes: Some(*file),
            rights,
        },
    );
}
