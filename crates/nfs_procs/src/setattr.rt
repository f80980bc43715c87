//! SETATTR: attributes of a file (RFC 1813, section 3.3.2).
ghost use Rattle.std.specs.Prelude.{◌≡◌, ◌≤◌};
ghost use Rattle.nfs_args.specs.declared.args.NfsArgs.TheVariants as nfs;
ghost use Rattle.nfs_procs.specs.Denials.{Decides};
ghost use Rattle.nfs_procs.specs.Performing.{Performs};
ghost use Rattle.nfs_procs.specs.Plans.{PlansSettings};
ghost use Rattle.nfs_procs.specs.Changers as procedure;
ghost use Rattle.nfs_procs.specs.Scenes.{scene};

use crate::call_context::CallContext;
use crate::denial::Denial;
use crate::done::Done;
use crate::plan::FileBefore;
use crate::replies::{change, write_denied_change, write_granted_change};
use crate::settings::{set_given, with_cleared_mode};
use crate::subjects::subject_of;
use nfs_args::setattr::Setattr;
use nfs_attrs::sattr::Sattr;
use nfs_handles::number::Number;
use nfs_inodes::tree::Tree;
use nfs_rules::table::setattr_rules;
use nfs_xdr::output::Output;

pub(crate) fn setattr(
    tree: &mut Tree,
    call: &CallContext<'_>,
    args: &Setattr<'_>,
    out: &mut Output,
) -> Done
    requires { (procedure.setattr args.now).largest ≤ out.old.room }
    ensures { Performs (scene tree.old call.now (nfs.Setattr args.now))
        (procedure.setattr args.now) result tree.new out.old out.new }
{
    let (file, given) = match decide(tree, call, args) {
        Ok(plan) => plan,
        Err(denial) => return write_denied_change(out, &denial),
    };
    let number = Number(file.attributes.fileid, file.hint);
    match set_given(tree, number, &given, call.moment) {
        Ok(()) => {}
        Err(refused) => return Done::Memory(refused),
    }
    write_granted_change(out, change(Some(file.attributes), tree.attributes(number)));
    Done::Granted
}

// The file before the call, and what is set of it.
fn decide(
    tree: &Tree,
    call: &CallContext<'_>,
    args: &Setattr<'_>,
) -> Result<(FileBefore, Sattr), Denial>
    ensures { Decides (scene tree.now call.now (nfs.Setattr args.now)) args.now.file
        (PlansSettings tree.now args.now) result }
{
    let file = subject_of(tree, call, &args.file)?;
    match setattr_rules(&file, args) {
        Ok(()) => {
            let before = FileBefore::of(file.view());
            let given = with_cleared_mode(file.uid(), &before.attributes, &args.attributes);
            Ok((before, given))
        }
        Err(rule) => Err(Denial::of_rule(&file, rule)),
    }
}
