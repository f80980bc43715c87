//! LOOKUP: the file under a name (RFC 1813, section 3.3.3).
ghost use Rattle.std.specs.Prelude.{◌≡◌, ◌≤◌, Some, Ok};
ghost use Rattle.nfs_args.specs.Sizes.{largest_of};
ghost use Rattle.nfs_args.specs.declared.procedure.Procedure.TheVariants as proc;
ghost use Rattle.nfs_args.specs.declared.answer.NfsAnswer.TheVariants as answer;
ghost use Rattle.nfs_args.specs.declared.args.NfsArgs.TheVariants as nfs;
ghost use Rattle.nfs_procs.specs.Denials.{Decides};
ghost use Rattle.nfs_procs.specs.Performing.{AppendsAnswer, Performs};
ghost use Rattle.nfs_procs.specs.Plans.{PlansFound};
ghost use Rattle.nfs_procs.specs.Readers as procedure;
ghost use Rattle.nfs_procs.specs.Scenes.{scene};

use crate::call_context::CallContext;
use crate::denial::Denial;
use crate::done::Done;
use crate::replies::write_denied_attributes;
use crate::subjects::subject_of;
use nfs_args::dir_op::DirOp;
use nfs_args::found::{Found, write_found};
use nfs_args::opaque::Opaque;
use nfs_attrs::fattr::Fattr;
use nfs_inodes::tree::Tree;
use nfs_inodes::view::FileView;
use nfs_rules::subject::Subject;
use nfs_rules::table::lookup_rules;
use nfs_xdr::output::Output;

pub(crate) fn lookup(
    tree: &Tree,
    call: &CallContext<'_>,
    args: &DirOp<'_>,
    out: &mut Output,
) -> Done
    requires { (procedure.lookup args.now).largest ≤ out.old.room }
    ensures { Performs (scene tree.now call.now (nfs.Lookup args.now))
        (procedure.lookup args.now) result tree.now out.old out.new }
{
    match decide(tree, call, args) {
        Ok((dir, file)) => {
            let handle = tree.handle(&file);
            write_granted(out, &handle, &file.attributes(), &dir.attributes());
            Done::Granted
        }
        Err(denial) => write_denied_attributes(out, &denial),
    }
}

fn decide<'a>(
    tree: &'a Tree,
    call: &CallContext<'a>,
    args: &DirOp<'_>,
) -> Result<(Subject<'a>, FileView<'a>), Denial>
    ensures { Decides (scene tree.entry.now call.now (nfs.Lookup args.now)) args.now.dir
        (PlansFound tree.entry.now args.now.name) result }
{
    let dir = subject_of(tree, call, &args.dir)?;
    match lookup_rules(&dir, args.name.bytes()) {
        Ok(file) => Ok((dir, file)),
        Err(rule) => Err(Denial::of_rule(&dir, rule)),
    }
}

fn write_granted(out: &mut Output, handle: &[u8; 24], file: &Fattr, dir: &Fattr)
    requires { largest_of proc.Lookup ≤ out.old.room }
    ensures { AppendsAnswer (answer.Lookup (Ok
        (record { file = handle.now; attributes = Some file.now; dir = Some dir.now }))) out.old out.new }
{
    out.u32(0);
    write_found(
        out,
        &Found {
            file: Opaque::new(handle),
            attributes: Some(*file),
            dir: Some(*dir),
        },
    );
}
