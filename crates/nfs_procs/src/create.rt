//! CREATE: a regular file that is made, or taken where it is there (RFC 1813, section 3.3.8).
ghost use Rattle.std.specs.Prelude.{◌≡◌, ◌≤◌, option_map};
ghost use Rattle.nfs_args.specs.declared.args.NfsArgs.TheVariants as nfs;
ghost use Rattle.nfs_procs.specs.Changers as procedure;
ghost use Rattle.nfs_procs.specs.Denials.{Decides};
ghost use Rattle.nfs_procs.specs.Performing.{Performs};
ghost use Rattle.nfs_procs.specs.Plans.{PlansFile};
ghost use Rattle.nfs_procs.specs.Scenes.{scene};

use crate::call_context::CallContext;
use crate::creation::make_or_take;
use crate::denial::Denial;
use crate::done::Done;
use crate::new_files::new_file_of;
use crate::plan::{FileBefore, FilePlan};
use crate::replies::{change, write_denied_change, write_new_file};
use crate::settings::size_alone;
use crate::subjects::subject_of;
use nfs_args::create::{Create, CreateHow};
use nfs_attrs::sattr::Sattr;
use nfs_handles::number::Number;
use nfs_inodes::tree::Tree;
use nfs_inodes::view::FileView;
use nfs_rules::table::create_rules;
use nfs_xdr::output::Output;

/// The mode of a file where none is given.
const FILE_MODE: u32 = 0o600;

pub(crate) fn create(
    tree: &mut Tree,
    call: &CallContext<'_>,
    args: &Create<'_>,
    out: &mut Output,
) -> Done
    requires { (procedure.create args.now).largest ≤ out.old.room }
    ensures { Performs (scene tree.old call.now (nfs.Create args.now))
        (procedure.create args.now) result tree.new out.old out.new }
{
    let plan = match decide(tree, call, args) {
        Ok(plan) => plan,
        Err(denial) => return write_denied_change(out, &denial),
    };
    let file = match make_or_take(tree, &plan, args, call.moment) {
        Ok(file) => file,
        Err(refused) => return Done::Memory(refused),
    };
    let dir = Number(plan.dir.attributes.fileid, plan.dir.hint);
    let dir = change(Some(plan.dir.attributes), tree.attributes(dir));
    out.u32(0);
    write_new_file(out, tree, file, dir);
    Done::Granted
}

fn decide(tree: &Tree, call: &CallContext<'_>, args: &Create<'_>) -> Result<FilePlan, Denial>
    ensures { Decides (scene tree.now call.now (nfs.Create args.now)) args.now.place.dir
        (PlansFile tree.now call.now.moment args.now) result }
{
    let dir = subject_of(tree, call, &args.place.dir)?;
    match create_rules(&dir, args) {
        Ok(present) => Ok(FilePlan {
            dir: FileBefore::of(dir.view()),
            present: before_of(&present),
            uid: dir.uid(),
            given: new_file_of(FILE_MODE, &dir, call.moment, &given_in(&args.how)),
        }),
        Err(rule) => Err(Denial::of_rule(&dir, rule)),
    }
}

fn before_of(file: &Option<FileView<'_>>) -> Option<FileBefore>
    ensures { option_map (λ f. f.attributes) result ≡ option_map (λ f. f.attributes) file.now }
{
    match file {
        Some(file) => Some(FileBefore::of(file)),
        None => None,
    }
}

fn given_in(how: &CreateHow) -> Sattr
    ensures { result ≡ procedure.attributes_in how.now }
{
    match how {
        CreateHow::Unchecked(given) | CreateHow::Guarded(given) => *given,
        CreateHow::Exclusive(_) => size_alone(None),
    }
}
