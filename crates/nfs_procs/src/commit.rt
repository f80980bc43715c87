//! COMMIT: bytes made safe, as all are at once (RFC 1813, section 3.3.21).
ghost use Rattle.std.specs.Prelude.{◌≡◌, ◌≤◌, Some, Ok};
ghost use Rattle.nfs_args.specs.Sizes.{largest_of};
ghost use Rattle.nfs_args.specs.declared.procedure.Procedure.TheVariants as proc;
ghost use Rattle.nfs_args.specs.declared.answer.NfsAnswer.TheVariants as answer;
ghost use Rattle.nfs_args.specs.declared.args.NfsArgs.TheVariants as nfs;
ghost use Rattle.nfs_procs.specs.Denials.{Decides};
ghost use Rattle.nfs_procs.specs.Doing.{no_change};
ghost use Rattle.nfs_procs.specs.Performing.{AppendsAnswer, Performs};
ghost use Rattle.nfs_procs.specs.Plans.{PlansReading};
ghost use Rattle.nfs_procs.specs.Readers as procedure;
ghost use Rattle.nfs_procs.specs.Scenes.{scene};

use crate::call_context::CallContext;
use crate::denial::Denial;
use crate::done::Done;
use crate::replies::{change, verifier_of, write_denied_change};
use crate::subjects::subject_of;
use nfs_args::byte_range::ByteRange;
use nfs_args::committed::{Committed, write_committed};
use nfs_attrs::fattr::Fattr;
use nfs_inodes::tree::Tree;
use nfs_rules::subject::Subject;
use nfs_xdr::output::Output;

pub(crate) fn commit(
    tree: &Tree,
    call: &CallContext<'_>,
    args: &ByteRange<'_>,
    out: &mut Output,
) -> Done
    requires { (procedure.commit args.now).largest ≤ out.old.room }
    ensures { Performs (scene tree.now call.now (nfs.Commit args.now))
        (procedure.commit args.now) result tree.now out.old out.new }
{
    match decide(tree, call, args) {
        Ok(file) => {
            write_granted(out, tree, &file.attributes());
            Done::Granted
        }
        Err(denial) => write_denied_change(out, &denial),
    }
}

fn decide<'a>(
    tree: &'a Tree,
    call: &CallContext<'a>,
    args: &ByteRange<'_>,
) -> Result<Subject<'a>, Denial>
    ensures { Decides (scene tree.entry.now call.now (nfs.Commit args.now)) args.now.file
        (PlansReading tree.entry.now) result }
{
    let file = subject_of(tree, call, &args.file)?;
    match file.must_be_regular() {
        Ok(()) => Ok(file),
        Err(rule) => Err(Denial::of_rule(&file, rule)),
    }
}

fn write_granted(out: &mut Output, tree: &Tree, file: &Fattr)
    requires { largest_of proc.Commit ≤ out.old.room }
    ensures { AppendsAnswer (answer.Commit (Ok
        (record { file = no_change (Some file.now); verifier = procedure.verifier_of tree.now }))) out.old out.new }
{
    out.u32(0);
    write_committed(
        out,
        &Committed {
            file: change(Some(*file), Some(*file)),
            verifier: verifier_of(tree),
        },
    );
}
