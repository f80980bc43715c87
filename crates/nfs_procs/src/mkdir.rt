//! MKDIR: a new directory (RFC 1813, section 3.3.9).
ghost use Rattle.std.specs.Prelude.{◌≡◌, ◌≤◌};
ghost use Rattle.nfs_args.specs.declared.args.NfsArgs.TheVariants as nfs;
ghost use Rattle.nfs_procs.specs.Denials.{Decides};
ghost use Rattle.nfs_procs.specs.Performing.{Performs};
ghost use Rattle.nfs_procs.specs.Plans.{PlansDirectory};
ghost use Rattle.nfs_procs.specs.Changers as procedure;
ghost use Rattle.nfs_procs.specs.Scenes.{scene};

use crate::call_context::CallContext;
use crate::denial::Denial;
use crate::done::Done;
use crate::new_files::new_file_of;
use crate::plan::{FileBefore, Plan};
use crate::replies::{change, write_denied_change, write_new_file};
use crate::subjects::subject_of;
use nfs_args::mkdir::Mkdir;
use nfs_handles::number::Number;
use nfs_inodes::tree::Tree;
use nfs_rules::table::mkdir_rules;
use nfs_xdr::output::Output;

/// The mode of a directory where none is given.
const DIRECTORY_MODE: u32 = 0o700;

pub(crate) fn mkdir(
    tree: &mut Tree,
    call: &CallContext<'_>,
    args: &Mkdir<'_>,
    out: &mut Output,
) -> Done
    requires { (procedure.mkdir args.now).largest ≤ out.old.room }
    ensures { Performs (scene tree.old call.now (nfs.Mkdir args.now))
        (procedure.mkdir args.now) result tree.new out.old out.new }
{
    let plan = match decide(tree, call, args) {
        Ok(plan) => plan,
        Err(denial) => return write_denied_change(out, &denial),
    };
    let dir = Number(plan.dir.attributes.fileid, plan.dir.hint);
    let made = match tree.mkdir(dir, args.place.name.bytes(), &plan.given, call.moment) {
        Ok(made) => made,
        Err(refused) => return Done::Memory(refused),
    };
    out.u32(0);
    write_new_file(
        out,
        tree,
        made,
        change(Some(plan.dir.attributes), tree.attributes(dir)),
    );
    Done::Granted
}

fn decide(tree: &Tree, call: &CallContext<'_>, args: &Mkdir<'_>) -> Result<Plan, Denial>
    ensures { Decides (scene tree.now call.now (nfs.Mkdir args.now)) args.now.place.dir
        (PlansDirectory tree.now call.now.moment args.now) result }
{
    let dir = subject_of(tree, call, &args.place.dir)?;
    match mkdir_rules(&dir, args.place.name.bytes()) {
        Ok(()) => Ok(Plan {
            dir: FileBefore::of(dir.view()),
            given: new_file_of(DIRECTORY_MODE, &dir, call.moment, &args.attributes),
        }),
        Err(rule) => Err(Denial::of_rule(&dir, rule)),
    }
}
