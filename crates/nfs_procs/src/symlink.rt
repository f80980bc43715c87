//! SYMLINK: a new symbolic link (RFC 1813, section 3.3.10).
ghost use Rattle.std.specs.Prelude.{◌≡◌, ◌≤◌};
ghost use Rattle.nfs_args.specs.declared.args.NfsArgs.TheVariants as nfs;
ghost use Rattle.nfs_procs.specs.Denials.{Decides};
ghost use Rattle.nfs_procs.specs.Performing.{Performs};
ghost use Rattle.nfs_procs.specs.Plans.{PlansSymlink};
ghost use Rattle.nfs_procs.specs.Changers as procedure;
ghost use Rattle.nfs_procs.specs.Scenes.{scene};

use crate::call_context::CallContext;
use crate::denial::Denial;
use crate::done::Done;
use crate::new_files::new_file_of;
use crate::plan::{FileBefore, Plan};
use crate::replies::{change, write_denied_change, write_new_file};
use crate::subjects::subject_of;
use nfs_args::symlink::Symlink;
use nfs_handles::number::Number;
use nfs_inodes::new_file::NewFile;
use nfs_inodes::tree::Tree;
use nfs_rules::table::symlink_rules;
use nfs_xdr::output::Output;

/// The mode of each link; one that is given is not looked at.
const LINK_MODE: u32 = 0o777;

pub(crate) fn symlink(
    tree: &mut Tree,
    call: &CallContext<'_>,
    args: &Symlink<'_>,
    out: &mut Output,
) -> Done
    requires { (procedure.symlink args.now).largest ≤ out.old.room }
    ensures { Performs (scene tree.old call.now (nfs.Symlink args.now))
        (procedure.symlink args.now) result tree.new out.old out.new }
{
    let plan = match decide(tree, call, args) {
        Ok(plan) => plan,
        Err(denial) => return write_denied_change(out, &denial),
    };
    let dir = Number(plan.dir.attributes.fileid, plan.dir.hint);
    let made = match tree.make_link(
        dir,
        args.place.name.bytes(),
        args.path.bytes(),
        &plan.given,
        call.moment,
    ) {
        Ok(made) => made,
        Err(refused) => return Done::Memory(refused),
    };
    out.u32(0);
    write_new_file(
        out,
        tree,
        made,
        change(Some(plan.dir.attributes), tree.attributes(dir)),
    );
    Done::Granted
}

fn decide(tree: &Tree, call: &CallContext<'_>, args: &Symlink<'_>) -> Result<Plan, Denial>
    ensures { Decides (scene tree.now call.now (nfs.Symlink args.now)) args.now.place.dir
        (PlansSymlink tree.now call.now.moment args.now) result }
{
    let dir = subject_of(tree, call, &args.place.dir)?;
    match symlink_rules(&dir, args.place.name.bytes(), args.path.bytes()) {
        Ok(()) => Ok(Plan {
            dir: FileBefore::of(dir.view()),
            given: NewFile {
                mode: LINK_MODE,
                ..new_file_of(LINK_MODE, &dir, call.moment, &args.attributes)
            },
        }),
        Err(rule) => Err(Denial::of_rule(&dir, rule)),
    }
}
