//! READDIRPLUS: entries of a directory with what their files are (RFC 1813, section 3.3.17).
ghost use Rattle.std.specs.Prelude.{◌≤◌, Ok};
ghost use Rattle.nfs_args.specs.declared.args.NfsArgs.TheVariants as nfs;
ghost use Rattle.nfs_procs.specs.Denials.{Decides};
ghost use Rattle.nfs_procs.specs.Performing.{Performs};
ghost use Rattle.nfs_procs.specs.Plans.{PlansPagePlus};
ghost use Rattle.nfs_procs.specs.Readers as procedure;
ghost use Rattle.nfs_procs.specs.Scenes.{scene};

use crate::call_context::CallContext;
use crate::denial::Denial;
use crate::done::Done;
use crate::limits::COOKIE_VERIFIER;
use crate::replies::write_denied_attributes;
use crate::subjects::subject_of;
use nfs_args::dir_page::write_page_head;
use nfs_args::readdir::Readdirplus;
use nfs_dirs::open_page::OpenPagePlus;
use nfs_inodes::tree::Tree;
use nfs_rules::subject::Subject;
use nfs_rules::table::readdirplus_rules;
use nfs_xdr::output::Output;

pub(crate) fn readdirplus(
    tree: &Tree,
    call: &CallContext<'_>,
    args: &Readdirplus<'_>,
    out: &mut Output,
) -> Done
    requires { (procedure.readdirplus args.now).largest ≤ out.old.room }
    ensures { Performs (scene tree.now call.now (nfs.Readdirplus args.now))
        (procedure.readdirplus args.now) result tree.now out.old out.new }
{
    match decide(tree, call, args) {
        Ok((dir, page)) => {
            out.u32(0);
            write_page_head(out, Some(&dir.attributes()), COOKIE_VERIFIER);
            let _ = page.write(tree, args.dircount, out);
            Done::Granted
        }
        Err(denial) => write_denied_attributes(out, &denial),
    }
}

fn decide<'a>(
    tree: &'a Tree,
    call: &CallContext<'a>,
    args: &Readdirplus<'_>,
) -> Result<(Subject<'a>, OpenPagePlus<'a>), Denial>
    ensures { Decides (scene tree.entry.now call.now (nfs.Readdirplus args.now)) args.now.dir
        (PlansPagePlus tree.entry.now args.now) result }
{
    let dir = subject_of(tree, call, &args.dir)?;
    match readdirplus_rules(&dir, args) {
        Ok(page) => Ok((dir, page)),
        Err(rule) => Err(Denial::of_rule(&dir, rule)),
    }
}
