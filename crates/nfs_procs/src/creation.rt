//! Regular files that are made, or taken where they are there.
ghost use Rattle.std.specs.Prelude.{◌≡◌, true, OnOk, OnErr, IfOk};
ghost use Rattle.nfs_inodes.specs.Changes.{Makes};
ghost use Rattle.nfs_inodes.specs.Conditions.{MayMake};
ghost use Rattle.nfs_inodes.specs.Tree.{on_some};
ghost use Rattle.nfs_procs.specs.Changers as changers;
ghost use Rattle.nfs_procs.specs.Plans.{MayTake, MayMakeOrTake, after_making, after_making_or_taking};
ghost use Rattle.nfs_procs.specs.Plans.{number_of, present_in};
ghost use Rattle.nfs_rules.specs.Table.{size_in};

use crate::plan::{FileBefore, FilePlan};
use crate::settings::{set_given, size_alone, with_cleared_mode};
use nfs_args::create::{Create, CreateHow};
use nfs_attrs::moment::Moment;
use nfs_content::pages::Pages;
use nfs_handles::number::Number;
use nfs_inodes::new_file::NewContent;
use nfs_inodes::tree::Tree;
use std::alloc::AllocError;

/// The file that is taken, or else a new one. Refused only without memory for a new file, or for what
/// the one that is taken grows by, and then the tree is as before.
pub(crate) fn make_or_take(
    tree: &mut Tree,
    plan: &FilePlan,
    args: &Create<'_>,
    now: Moment,
) -> Result<Number, AllocError>
    requires { MayMakeOrTake tree.old plan.now.dir.attributes.fileid args.now (present_in plan.now) }
    ensures ok { OnOk result (Makes tree.old (after_making_or_taking tree.old plan.now args.now now) tree.new) }
    ensures number { IfOk result (λ n. n.0 ≡ number_of tree.old (present_in plan.now)) }
    ensures err { OnErr result (tree.new ≡ tree.old) }
    ensures full { OnErr result (on_some (present_in plan.now) true (λ f. changers.taking_grows tree.old f.fileid args.now.how) ≡ true) }
{
    match plan.present {
        None => make(tree, plan, args, now),
        Some(file) => {
            take(tree, plan.uid, &file, &args.how, now)?;
            Ok(Number(file.attributes.fileid, file.hint))
        }
    }
}

// A new file, of zeros.
fn make(
    tree: &mut Tree,
    plan: &FilePlan,
    args: &Create<'_>,
    now: Moment,
) -> Result<Number, AllocError>
    requires { MayMake tree.old plan.now.dir.attributes.fileid args.now.place.name (on_some (size_in args.now.how) 0 (λ size. size)) }
    ensures ok { OnOk result (Makes tree.old (after_making tree.old plan.now args.now now) tree.new) }
    ensures number { IfOk result (λ n. n.0 ≡ tree.old.next) }
    ensures err { OnErr result (tree.new ≡ tree.old) }
{
    let content = NewContent {
        pages: Pages::zeros(tree.allocator(), size_of(&args.how) as usize),
        verifier: verifier_in(&args.how),
    };
    tree.make_file(
        Number(plan.dir.attributes.fileid, plan.dir.hint),
        args.place.name.bytes(),
        content,
        &plan.given,
        now,
    )
}

// A file that is there, which gets the size that is given, if one is.
fn take(
    tree: &mut Tree,
    uid: u32,
    file: &FileBefore,
    how: &CreateHow,
    now: Moment,
) -> Result<(), AllocError>
    requires { MayTake tree.old file.now.attributes.fileid how.now }
    ensures ok { OnOk result (tree.new ≡ changers.after_taking tree.old uid file.now.attributes how.now now) }
    ensures err { OnErr result (tree.new ≡ tree.old) }
    ensures full { OnErr result (changers.taking_grows tree.old file.now.attributes.fileid how.now ≡ true) }
{
    match size_taken(how) {
        None => Ok(()),
        Some(size) => {
            let given = with_cleared_mode(uid, &file.attributes, &size_alone(Some(size)));
            set_given(tree, Number(file.attributes.fileid, file.hint), &given, now)
        }
    }
}

fn size_taken(how: &CreateHow) -> Option<u64>
    ensures { result ≡ changers.size_taken how.now }
{
    match how {
        CreateHow::Unchecked(given) => given.size,
        CreateHow::Guarded(_) | CreateHow::Exclusive(_) => None,
    }
}

fn size_of(how: &CreateHow) -> u64
    ensures { result ≡ on_some (size_in how.now) 0 (λ size. size) }
{
    match how {
        CreateHow::Unchecked(given) | CreateHow::Guarded(given) => given.size.unwrap_or(0),
        CreateHow::Exclusive(_) => 0,
    }
}

fn verifier_in(how: &CreateHow) -> Option<[u8; 8]>
    ensures { result ≡ changers.verifier_in how.now }
{
    match how {
        CreateHow::Unchecked(_) | CreateHow::Guarded(_) => None,
        CreateHow::Exclusive(verifier) => Some(*verifier),
    }
}
