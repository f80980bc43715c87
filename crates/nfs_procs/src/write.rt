//! WRITE: bytes into a file, which are safe at once (RFC 1813, section 3.3.7).
ghost use Rattle.std.specs.Prelude.{◌≡◌, ◌<◌, ◌≤◌, ◌^◌, Ok};
ghost use Rattle.nfs_args.specs.Encoding.{HasCountedBytes};
ghost use Rattle.nfs_args.specs.Sizes.{largest_of};
ghost use Rattle.nfs_args.specs.declared.procedure.Procedure.TheVariants as proc;
ghost use Rattle.nfs_args.specs.declared.answer.NfsAnswer.TheVariants as answer;
ghost use Rattle.nfs_args.specs.declared.args.NfsArgs.TheVariants as nfs;
ghost use Rattle.nfs_args.specs.declared.write.Stability.TheVariants.{FileSync};
ghost use Rattle.nfs_procs.specs.Denials.{Decides};
ghost use Rattle.nfs_procs.specs.Performing.{AppendsAnswer, Performs};
ghost use Rattle.nfs_procs.specs.Plans.{PlansBytes};
ghost use Rattle.nfs_procs.specs.Changers as procedure;
ghost use Rattle.nfs_procs.specs.Scenes.{scene};

use crate::call_context::CallContext;
use crate::denial::Denial;
use crate::done::Done;
use crate::plan::FileBefore;
use crate::replies::{change, write_denied_change};
use crate::settings::{cleared_mode, set_mode};
use crate::subjects::subject_of;
use nfs_args::write::{Stability, Write};
use nfs_args::written::{Written, write_written};
use nfs_attrs::wcc::Wcc;
use nfs_handles::number::Number;
use nfs_inodes::tree::Tree;
use nfs_rules::table::write_rules;
use nfs_xdr::output::Output;

pub(crate) fn write(
    tree: &mut Tree,
    call: &CallContext<'_>,
    args: &Write<'_>,
    out: &mut Output,
) -> Done
    requires room { (procedure.write args.now).largest ≤ out.old.room }
    requires counted { HasCountedBytes (nfs.Write args.now) }
    ensures { Performs (scene tree.old call.now (nfs.Write args.now))
        (procedure.write args.now) result tree.new out.old out.new }
{
    let (file, mode) = match decide(tree, call, args) {
        Ok(plan) => plan,
        Err(denial) => return write_denied_change(out, &denial),
    };
    let number = Number(file.attributes.fileid, file.hint);
    let bytes = args.content.bytes();
    let verifier = u64::from_be_bytes(tree.key());
    match tree.write_at(number, args.offset as usize, bytes, call.moment) {
        Ok(()) => {}
        Err(refused) => return Done::Memory(refused),
    }
    set_mode(tree, number, mode, call.moment);
    write_granted(
        out,
        change(Some(file.attributes), tree.attributes(number)),
        bytes.len(),
        verifier,
    );
    Done::Granted
}

// The file before the call, and the mode that it gets, if it loses bits.
fn decide(
    tree: &Tree,
    call: &CallContext<'_>,
    args: &Write<'_>,
) -> Result<(FileBefore, Option<u32>), Denial>
    ensures { Decides (scene tree.now call.now (nfs.Write args.now)) args.now.file (PlansBytes tree.now args.now) result }
{
    let file = subject_of(tree, call, &args.file)?;
    match write_rules(&file, args) {
        Ok(()) => {
            let before = FileBefore::of(file.view());
            let mode = cleared_mode(
                file.uid(),
                &before.attributes,
                !args.content.bytes().is_empty(),
            );
            Ok((before, mode))
        }
        Err(rule) => Err(Denial::of_rule(&file, rule)),
    }
}

fn write_granted(out: &mut Output, file: Wcc, count: usize, verifier: u64)
    requires room { largest_of proc.Write ≤ out.old.room }
    requires count { count < 2 ^ 32 }
    ensures { AppendsAnswer (answer.Write (Ok
        (record { file = file; count = count; committed = FileSync; verifier = verifier }))) out.old out.new }
{
    out.u32(0);
    write_written(
        out,
        &Written {
            file,
            count: count as u32,
            committed: Stability::FileSync,
            verifier,
        },
    );
}
