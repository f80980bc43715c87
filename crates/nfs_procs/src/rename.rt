//! RENAME: a name is changed (RFC 1813, section 3.3.14).
ghost use Rattle.std.specs.Prelude.{◌≡◌, ◌≤◌, ◌++◌, Some, option_map};
ghost use Rattle.std.specs.Int.{w32, to_be_bytes};
ghost use Rattle.nfs_args.specs.Results.{IsFailed, IsRenamed, renamed_text};
ghost use Rattle.nfs_args.specs.Sizes.{largest_of};
ghost use Rattle.nfs_args.specs.declared.procedure.Procedure.TheVariants as proc;
ghost use Rattle.nfs_args.specs.declared.args.NfsArgs.TheVariants as nfs;
ghost use Rattle.nfs_procs.specs.Changers as procedure;
ghost use Rattle.nfs_procs.specs.Denials.{DecidesPair};
ghost use Rattle.nfs_procs.specs.Doing as doing;
ghost use Rattle.nfs_procs.specs.Performing.{Performs};
ghost use Rattle.nfs_procs.specs.Plans.{PlansRename, RoutesRename};
ghost use Rattle.nfs_procs.specs.Scenes.{scene};
ghost use Rattle.nfs_procs.specs.declared.done.Done.TheVariants as done;
ghost use Rattle.nfs_rules.specs.Rules.{status_of};
ghost use Rattle.nfs_xdr.specs.Written.{Appends};

use crate::call_context::CallContext;
use crate::denial::PairDenial;
use crate::done::Done;
use crate::plan::RenamePlan;
use crate::replies::change;
use crate::subjects::pair_of;
use nfs_args::rename::Rename;
use nfs_args::renamed::{Renamed, write_renamed};
use nfs_handles::number::Number;
use nfs_inodes::renaming::Route;
use nfs_inodes::tree::Tree;
use nfs_inodes::view::FileView;
use nfs_rules::subject::Subject;
use nfs_rules::table::rename_rules;
use nfs_xdr::output::Output;

pub(crate) fn rename(
    tree: &mut Tree,
    call: &CallContext<'_>,
    args: &Rename<'_>,
    out: &mut Output,
) -> Done
    requires { (procedure.rename args.now).largest ≤ out.old.room }
    ensures { Performs (scene tree.old call.now (nfs.Rename args.now))
        (procedure.rename args.now) result tree.new out.old out.new }
{
    let plan = match decide(tree, call, args) {
        Ok(plan) => plan,
        Err(denial) => return write_denied(out, &denial),
    };
    let (name, new_name) = (args.from.name.bytes(), args.to.name.bytes());
    match tree.rename_seen(plan.route, name, new_name, call.moment) {
        Ok(()) => {}
        Err(refused) => return Done::Memory(refused),
    }
    let from = change(Some(plan.from), tree.attributes(plan.route.from));
    let to = change(Some(plan.to), tree.attributes(plan.route.to));
    out.u32(0);
    write_renamed(out, &Renamed { from, to });
    Done::Granted
}

fn decide(tree: &Tree, call: &CallContext<'_>, args: &Rename<'_>) -> Result<RenamePlan, PairDenial>
    ensures { DecidesPair (scene tree.now call.now (nfs.Rename args.now)) args.now.from.dir args.now.to.dir
        (PlansRename tree.now args.now) result }
{
    let (from, to) = pair_of(tree, call, &args.from.dir, &args.to.dir)?;
    match rename_rules(&from, &to, args) {
        Ok((moved, replaced)) => Ok(plan_of(&from, &to, &moved, &replaced)),
        Err(rule) => Err(PairDenial::of_rule(&from, &to, rule)),
    }
}

// What is to be done where the rules are kept and have found these files.
fn plan_of(
    from: &Subject<'_>,
    to: &Subject<'_>,
    moved: &FileView<'_>,
    replaced: &Option<FileView<'_>>,
) -> RenamePlan
    ensures { RoutesRename from.now to.now (Some moved.now.attributes) (option_map (λ f. f.attributes) replaced.now) result }
{
    RenamePlan {
        from: from.attributes(),
        to: to.attributes(),
        route: Route {
            number: moved.number(),
            from: from.view().number(),
            to: to.view().number(),
            replaced: number_of(replaced),
        },
    }
}

fn number_of(file: &Option<FileView<'_>>) -> Option<Number>
    ensures { option_map (λ n. n.0) result ≡ option_map (λ f. f.attributes.fileid) file.now }
{
    match file {
        Some(file) => Some(file.number()),
        None => None,
    }
}

#[cold]
fn write_denied(out: &mut Output, denial: &PairDenial) -> Done
    requires { largest_of proc.Rename ≤ out.old.room }
    ensures text { Appends (to_be_bytes w32 (status_of denial.now.rule) ++ renamed_text
        (record { from = doing.no_change denial.now.one; to = doing.no_change denial.now.two })) out.old out.new }
    ensures encoded { IsFailed IsRenamed (record {
      status = status_of denial.now.rule;
      shown = record { from = doing.no_change denial.now.one; to = doing.no_change denial.now.two };
    }) (to_be_bytes w32 (status_of denial.now.rule) ++ renamed_text
        (record { from = doing.no_change denial.now.one; to = doing.no_change denial.now.two })) }
    ensures done { result ≡ done.Denied denial.now.rule denial.now.uid }
{
    out.u32(denial.rule.status());
    write_renamed(
        out,
        &Renamed {
            from: change(denial.one, denial.one),
            to: change(denial.two, denial.two),
        },
    );
    Done::Denied(denial.rule, denial.uid)
}
