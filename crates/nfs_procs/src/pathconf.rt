//! PATHCONF: what names may be (RFC 1813, section 3.3.20).
ghost use Rattle.std.specs.Prelude.{◌≡◌, ◌≤◌, Ok};
ghost use Rattle.nfs_args.specs.Sizes.{largest_of};
ghost use Rattle.nfs_args.specs.declared.procedure.Procedure.TheVariants as proc;
ghost use Rattle.nfs_args.specs.declared.answer.NfsAnswer.TheVariants as answer;
ghost use Rattle.nfs_args.specs.declared.args.NfsArgs.TheVariants as nfs;
ghost use Rattle.nfs_procs.specs.Performing.{AppendsAnswer, Performs};
ghost use Rattle.nfs_procs.specs.Readers as procedure;
ghost use Rattle.nfs_procs.specs.Scenes.{scene};

use crate::call_context::CallContext;
use crate::done::Done;
use crate::replies::write_denied_attributes;
use crate::subjects::file_of;
use nfs_args::opaque::Opaque;
use nfs_args::path_limits::{PathLimits, write_path_limits};
use nfs_attrs::fattr::Fattr;
use nfs_inodes::limits::MAX_NAME_BYTES;
use nfs_inodes::tree::Tree;
use nfs_xdr::output::Output;

pub(crate) fn pathconf(
    tree: &Tree,
    call: &CallContext<'_>,
    handle: &Opaque<'_>,
    out: &mut Output,
) -> Done
    requires { (procedure.pathconf handle.now).largest ≤ out.old.room }
    ensures { Performs (scene tree.now call.now (nfs.Pathconf handle.now))
        (procedure.pathconf handle.now) result tree.now out.old out.new }
{
    match file_of(tree, call, handle) {
        Ok(file) => {
            write_granted(out, tree, &file.attributes());
            Done::Granted
        }
        Err(denial) => write_denied_attributes(out, &denial),
    }
}

fn write_granted(out: &mut Output, tree: &Tree, file: &Fattr)
    requires { largest_of proc.Pathconf ≤ out.old.room }
    ensures { AppendsAnswer (answer.Pathconf (Ok (procedure.path_limits tree.now.limits file.now))) out.old out.new }
{
    out.u32(0);
    write_path_limits(out, &path_limits(tree, file));
}

fn path_limits(tree: &Tree, file: &Fattr) -> PathLimits
    ensures { result ≡ procedure.path_limits tree.now.limits file.now }
{
    PathLimits {
        attributes: Some(*file),
        linkmax: tree.limits().links,
        name_max: MAX_NAME_BYTES as u32,
        no_trunc: true,
        chown_restricted: true,
        case_insensitive: false,
        case_preserving: true,
    }
}
