//! READLINK: the path of a symbolic link (RFC 1813, section 3.3.5).
ghost use Rattle.std.specs.Prelude.{◌≡◌, ◌≤◌, [], length, Some, Ok};
ghost use Rattle.nfs_args.specs.Sizes.{largest_of, max_path};
ghost use Rattle.nfs_args.specs.declared.procedure.Procedure.TheVariants as proc;
ghost use Rattle.nfs_args.specs.declared.answer.NfsAnswer.TheVariants as answer;
ghost use Rattle.nfs_args.specs.declared.args.NfsArgs.TheVariants as nfs;
ghost use Rattle.nfs_inodes.specs.Reading.{path_at};
ghost use Rattle.nfs_inodes.specs.Tree.{on_some};
ghost use Rattle.nfs_inodes.specs.Views.{IsSeen};
ghost use Rattle.nfs_procs.specs.Denials.{Decides};
ghost use Rattle.nfs_procs.specs.Performing.{AppendsAnswer, Performs};
ghost use Rattle.nfs_procs.specs.Plans.{PlansReading};
ghost use Rattle.nfs_procs.specs.Readers as procedure;
ghost use Rattle.nfs_procs.specs.Scenes.{scene};

use crate::call_context::CallContext;
use crate::denial::Denial;
use crate::done::Done;
use crate::replies::write_denied_attributes;
use crate::subjects::subject_of;
use nfs_args::link_path::{LinkPath, write_link_path};
use nfs_args::opaque::Opaque;
use nfs_inodes::tree::Tree;
use nfs_inodes::view::FileView;
use nfs_rules::subject::Subject;
use nfs_xdr::output::Output;

pub(crate) fn readlink(
    tree: &Tree,
    call: &CallContext<'_>,
    handle: &Opaque<'_>,
    out: &mut Output,
) -> Done
    requires { (procedure.readlink handle.now).largest ≤ out.old.room }
    ensures { Performs (scene tree.now call.now (nfs.Readlink handle.now))
        (procedure.readlink handle.now) result tree.now out.old out.new }
{
    match decide(tree, call, handle) {
        Ok(file) => {
            write_granted(out, tree, file.view());
            Done::Granted
        }
        Err(denial) => write_denied_attributes(out, &denial),
    }
}

fn decide<'a>(
    tree: &'a Tree,
    call: &CallContext<'a>,
    handle: &Opaque<'_>,
) -> Result<Subject<'a>, Denial>
    ensures { Decides (scene tree.entry.now call.now (nfs.Readlink handle.now)) handle.now
        (PlansReading tree.entry.now) result }
{
    let file = subject_of(tree, call, handle)?;
    match file.must_be_link() {
        Ok(()) => Ok(file),
        Err(rule) => Err(Denial::of_rule(&file, rule)),
    }
}

fn write_granted(out: &mut Output, tree: &Tree, file: &FileView<'_>)
    requires room { largest_of proc.Readlink ≤ out.old.room }
    requires seen { IsSeen tree.now file.now }
    ensures { AppendsAnswer (answer.Readlink (Ok (record {
      attributes = Some file.now.attributes;
      path = on_some (path_at tree.now file.now.attributes.fileid) [] (λ path. path);
    }))) out.old out.new }
{
    let path = path_of(tree, file);
    out.u32(0);
    write_link_path(
        out,
        &LinkPath {
            attributes: Some(file.attributes()),
            path: Opaque::new(path),
        },
    );
}

// The path of a link; of another file none.
fn path_of<'a>(tree: &Tree, file: &FileView<'a>) -> &'a [u8]
    requires { IsSeen tree.now file.now }
    ensures path { result.now ≡ on_some (path_at tree.now file.now.attributes.fileid) [] (λ path. path) }
    ensures bound { length result.now ≤ max_path }
{
    tree.law();
    match tree.link_path_of(file) {
        Some(path) => path,
        None => &[],
    }
}
