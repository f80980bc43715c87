//! GETATTR: the attributes of a file (RFC 1813, section 3.3.1).
ghost use Rattle.std.specs.Prelude.{◌≡◌, ◌≤◌, Ok, Err};
ghost use Rattle.nfs_args.specs.Sizes.{largest_of, status_size};
ghost use Rattle.nfs_args.specs.declared.procedure.Procedure.TheVariants as proc;
ghost use Rattle.nfs_args.specs.declared.answer.NfsAnswer.TheVariants as answer;
ghost use Rattle.nfs_args.specs.declared.args.NfsArgs.TheVariants as nfs;
ghost use Rattle.nfs_procs.specs.Performing.{AppendsAnswer, Performs};
ghost use Rattle.nfs_procs.specs.Readers as procedure;
ghost use Rattle.nfs_procs.specs.Scenes.{scene};
ghost use Rattle.nfs_rules.specs.Rules.{status_of};

use crate::call_context::CallContext;
use crate::done::Done;
use crate::subjects::file_of;
use nfs_args::opaque::Opaque;
use nfs_attrs::fattr::{Fattr, write_fattr};
use nfs_inodes::tree::Tree;
use nfs_rules::rule::Rule;
use nfs_xdr::output::Output;

pub(crate) fn getattr(
    tree: &Tree,
    call: &CallContext<'_>,
    handle: &Opaque<'_>,
    out: &mut Output,
) -> Done
    requires { procedure.getattr.largest ≤ out.old.room }
    ensures { Performs (scene tree.now call.now
        (nfs.Getattr handle.now)) procedure.getattr result tree.now out.old out.new }
{
    match file_of(tree, call, handle) {
        Ok(file) => {
            write_granted(out, &file.attributes());
            Done::Granted
        }
        Err(denial) => {
            write_denied(out, denial.rule);
            Done::Denied(denial.rule, denial.uid)
        }
    }
}

fn write_granted(out: &mut Output, file: &Fattr)
    requires { largest_of proc.Getattr ≤ out.old.room }
    ensures { AppendsAnswer (answer.Getattr (Ok file.now)) out.old out.new }
{
    out.u32(0);
    write_fattr(out, file);
}

#[cold]
fn write_denied(out: &mut Output, rule: Rule)
    requires { status_size ≤ out.old.room }
    ensures { AppendsAnswer (answer.Getattr (Err (record { status = status_of rule; shown = tt }))) out.old out.new }
{
    out.u32(rule.status());
}
