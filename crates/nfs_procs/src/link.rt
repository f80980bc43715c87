//! LINK: a hard link for a file (RFC 1813, section 3.3.15).
ghost use Rattle.std.specs.Prelude.{◌≡◌, ◌≤◌, ◌++◌};
ghost use Rattle.std.specs.Int.{w32, to_be_bytes};
ghost use Rattle.nfs_args.specs.Results.{IsFailed, IsLinked, linked_text};
ghost use Rattle.nfs_args.specs.Sizes.{largest_of};
ghost use Rattle.nfs_args.specs.declared.procedure.Procedure.TheVariants as proc;
ghost use Rattle.nfs_args.specs.declared.args.NfsArgs.TheVariants as nfs;
ghost use Rattle.nfs_procs.specs.Changers as procedure;
ghost use Rattle.nfs_procs.specs.Denials.{DecidesPair};
ghost use Rattle.nfs_procs.specs.Doing as doing;
ghost use Rattle.nfs_procs.specs.Performing.{Performs};
ghost use Rattle.nfs_procs.specs.Plans.{PlansLink};
ghost use Rattle.nfs_procs.specs.Scenes.{scene};
ghost use Rattle.nfs_procs.specs.declared.done.Done.TheVariants as done;
ghost use Rattle.nfs_rules.specs.Rules.{status_of};
ghost use Rattle.nfs_xdr.specs.Written.{Appends};

use crate::call_context::CallContext;
use crate::denial::PairDenial;
use crate::done::Done;
use crate::plan::FileBefore;
use crate::replies::change;
use crate::subjects::pair_of;
use nfs_args::link::Link;
use nfs_args::linked::{Linked, write_linked};
use nfs_handles::number::Number;
use nfs_inodes::tree::Tree;
use nfs_rules::table::link_rules;
use nfs_xdr::output::Output;

pub(crate) fn link(
    tree: &mut Tree,
    call: &CallContext<'_>,
    args: &Link<'_>,
    out: &mut Output,
) -> Done
    requires { (procedure.link args.now).largest ≤ out.old.room }
    ensures { Performs (scene tree.old call.now (nfs.Link args.now))
        (procedure.link args.now) result tree.new out.old out.new }
{
    let (file, dir) = match decide(tree, call, args) {
        Ok(plan) => plan,
        Err(denial) => return write_denied(out, &denial),
    };
    let number = Number(file.attributes.fileid, file.hint);
    let place = Number(dir.attributes.fileid, dir.hint);
    match tree.link(number, place, args.place.name.bytes(), call.moment) {
        Ok(()) => {}
        Err(refused) => return Done::Memory(refused),
    }
    let attributes = tree.attributes(number);
    let dir = change(Some(dir.attributes), tree.attributes(place));
    out.u32(0);
    write_linked(out, &Linked { attributes, dir });
    Done::Granted
}

fn decide(
    tree: &Tree,
    call: &CallContext<'_>,
    args: &Link<'_>,
) -> Result<(FileBefore, FileBefore), PairDenial>
    ensures { DecidesPair (scene tree.now call.now (nfs.Link args.now)) args.now.file args.now.place.dir
        (PlansLink tree.now args.now.place.name) result }
{
    let (file, dir) = pair_of(tree, call, &args.file, &args.place.dir)?;
    match link_rules(&file, &dir, args.place.name.bytes()) {
        Ok(()) => Ok((FileBefore::of(file.view()), FileBefore::of(dir.view()))),
        Err(rule) => Err(PairDenial::of_rule(&file, &dir, rule)),
    }
}

#[cold]
fn write_denied(out: &mut Output, denial: &PairDenial) -> Done
    requires { largest_of proc.Link ≤ out.old.room }
    ensures text { Appends (to_be_bytes w32 (status_of denial.now.rule) ++ linked_text
        (record { attributes = denial.now.one; dir = doing.no_change denial.now.two })) out.old out.new }
    ensures encoded { IsFailed IsLinked (record {
      status = status_of denial.now.rule;
      shown = record { attributes = denial.now.one; dir = doing.no_change denial.now.two };
    }) (to_be_bytes w32 (status_of denial.now.rule) ++ linked_text
        (record { attributes = denial.now.one; dir = doing.no_change denial.now.two })) }
    ensures done { result ≡ done.Denied denial.now.rule denial.now.uid }
{
    out.u32(denial.rule.status());
    write_linked(
        out,
        &Linked {
            attributes: denial.one,
            dir: change(denial.two, denial.two),
        },
    );
    Done::Denied(denial.rule, denial.uid)
}
