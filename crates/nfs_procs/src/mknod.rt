//! MKNOD: no special file is made (RFC 1813, section 3.3.11).
ghost use Rattle.std.specs.Prelude.{◌≡◌, ◌≤◌};
ghost use Rattle.nfs_args.specs.declared.args.NfsArgs.TheVariants as nfs;
ghost use Rattle.nfs_procs.specs.Denials.{IsDenied};
ghost use Rattle.nfs_procs.specs.Performing.{Performs};
ghost use Rattle.nfs_procs.specs.Readers as procedure;
ghost use Rattle.nfs_procs.specs.Scenes.{scene};

use crate::call_context::CallContext;
use crate::denial::Denial;
use crate::done::Done;
use crate::replies::write_denied_change;
use crate::subjects::file_of;
use nfs_args::mknod::Mknod;
use nfs_inodes::tree::Tree;
use nfs_rules::rule::Rule;
use nfs_xdr::output::Output;

pub(crate) fn mknod(tree: &Tree, call: &CallContext<'_>, args: &Mknod<'_>, out: &mut Output) -> Done
    requires { (procedure.mknod args.now).largest ≤ out.old.room }
    ensures { Performs (scene tree.now call.now (nfs.Mknod args.now))
        (procedure.mknod args.now) result tree.now out.old out.new }
{
    let denial = deny(tree, call, args);
    write_denied_change(out, &denial)
}

fn deny(tree: &Tree, call: &CallContext<'_>, args: &Mknod<'_>) -> Denial
    ensures { IsDenied (scene tree.now call.now (nfs.Mknod args.now)) args.now.place.dir result }
{
    match file_of(tree, call, &args.place.dir) {
        Ok(dir) => Denial::of_rule(&dir.subject(), Rule::NoMknod),
        Err(denial) => denial,
    }
}
