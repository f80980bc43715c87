//! Names that are taken away.
ghost use Rattle.std.specs.Prelude.{◌≡◌, ◌+◌, ◌≤◌, ◌++◌, Some};
ghost use Rattle.std.specs.Int.{w32, to_be_bytes};
ghost use Rattle.nfs_args.specs.Sizes.{change_size, status_size};
ghost use Rattle.nfs_attrs.specs.Encoding.{IsWcc, wcc_text};
ghost use Rattle.nfs_inodes.specs.Changes.{after_unlink};
ghost use Rattle.nfs_inodes.specs.Conditions.{MayUnlinkSeen};
ghost use Rattle.nfs_inodes.specs.Reading.{attributes_at};
ghost use Rattle.nfs_procs.specs.Doing as doing;
ghost use Rattle.nfs_procs.specs.Plans.{PlansEntry, directory_change};
ghost use Rattle.nfs_xdr.specs.Written.{Appends};

use crate::denial::Denial;
use crate::plan::{FileBefore, RemovalPlan};
use crate::replies::change;
use nfs_attrs::moment::Moment;
use nfs_attrs::wcc::write_wcc;
use nfs_handles::number::Number;
use nfs_inodes::tree::Tree;
use nfs_inodes::view::FileView;
use nfs_rules::rule::Rule;
use nfs_rules::subject::Subject;
use nfs_xdr::output::Output;

/// The removal of an entry that the rules grant, or the denial by the first rule that fails.
pub(crate) fn plan_of(
    dir: &Subject<'_>,
    judged: Result<FileView<'_>, Rule>,
) -> Result<RemovalPlan, Denial>
    ensures { PlansEntry dir.now judged.entry result }
{
    match judged {
        Ok(file) => Ok(RemovalPlan {
            dir: FileBefore::of(dir.view()),
            number: file.number(),
            file: file.standing(),
        }),
        Err(rule) => Err(Denial::of_rule(dir, rule)),
    }
}

/// Takes the entry of a name out of a directory, and answers what it was and what it is.
#[inline(always)]
pub(crate) fn remove_entry(
    tree: &mut Tree,
    plan: &RemovalPlan,
    name: &[u8],
    now: Moment,
    out: &mut Output,
)
    requires may { MayUnlinkSeen tree.old plan.now.dir.attributes.fileid name.now plan.now.number.0 plan.now.file }
    requires room { status_size + change_size ≤ out.old.room }
    ensures tree { tree.new ≡ after_unlink tree.old plan.now.dir.attributes.fileid name.now now }
    ensures text { Appends (to_be_bytes w32 0 ++ wcc_text (directory_change tree.new plan.now)) out.old out.new }
    ensures encoded { IsWcc (directory_change tree.new plan.now) (wcc_text (directory_change tree.new plan.now)) }
{
    let dir = Number(plan.dir.attributes.fileid, plan.dir.hint);
    tree.unlink_seen(dir, name, plan.number, plan.file, now);
    out.u32(0);
    write_wcc(
        out,
        &change(Some(plan.dir.attributes), tree.attributes(dir)),
    );
}
