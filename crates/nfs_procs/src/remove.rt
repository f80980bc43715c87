//! REMOVE: a name of a file is taken away (RFC 1813, section 3.3.12).
ghost use Rattle.std.specs.Prelude.{◌≡◌, ◌≤◌};
ghost use Rattle.nfs_args.specs.declared.args.NfsArgs.TheVariants as nfs;
ghost use Rattle.nfs_procs.specs.Changers as procedure;
ghost use Rattle.nfs_procs.specs.Denials.{Decides};
ghost use Rattle.nfs_procs.specs.Performing.{Performs};
ghost use Rattle.nfs_procs.specs.Plans.{PlansRemoval};
ghost use Rattle.nfs_procs.specs.Scenes.{scene};

use crate::call_context::CallContext;
use crate::denial::Denial;
use crate::done::Done;
use crate::plan::RemovalPlan;
use crate::removal::{plan_of, remove_entry};
use crate::replies::write_denied_change;
use crate::subjects::subject_of;
use nfs_args::dir_op::DirOp;
use nfs_inodes::tree::Tree;
use nfs_rules::table::remove_rules;
use nfs_xdr::output::Output;

pub(crate) fn remove(
    tree: &mut Tree,
    call: &CallContext<'_>,
    args: &DirOp<'_>,
    out: &mut Output,
) -> Done
    requires { (procedure.remove args.now).largest ≤ out.old.room }
    ensures { Performs (scene tree.old call.now (nfs.Remove args.now))
        (procedure.remove args.now) result tree.new out.old out.new }
{
    match decide(tree, call, args) {
        Ok(plan) => {
            remove_entry(tree, &plan, args.name.bytes(), call.moment, out);
            Done::Granted
        }
        Err(denial) => write_denied_change(out, &denial),
    }
}

fn decide(tree: &Tree, call: &CallContext<'_>, args: &DirOp<'_>) -> Result<RemovalPlan, Denial>
    ensures { Decides (scene tree.now call.now (nfs.Remove args.now)) args.now.dir
        (PlansRemoval tree.now args.now.name) result }
{
    let dir = subject_of(tree, call, &args.dir)?;
    plan_of(&dir, remove_rules(&dir, args.name.bytes()))
}
