//! Parts of answers that several procedures have.
ghost use Rattle.std.specs.Prelude.{◌≡◌, ◌+◌, ◌≤◌, ◌++◌, Some, option_map};
ghost use Rattle.std.specs.Int.{w32, to_be_bytes};
ghost use Rattle.nfs_args.specs.Results.{IsFailed, IsMade, made_text};
ghost use Rattle.nfs_args.specs.Sizes.{change_size, made_size, post_op_attributes_size, status_size};
ghost use Rattle.nfs_attrs.specs.Encoding.{IsPostOpAttr, IsWcc, post_op_attr_text, wcc_text};
ghost use Rattle.nfs_procs.specs.Changers.{new_file_in};
ghost use Rattle.nfs_procs.specs.Doing as doing;
ghost use Rattle.nfs_procs.specs.Readers as readers;
ghost use Rattle.nfs_procs.specs.declared.done.Done.TheVariants as done;
ghost use Rattle.nfs_rules.specs.Rules.{status_of};
ghost use Rattle.nfs_xdr.specs.Written.{Appends};

use crate::denial::Denial;
use crate::done::Done;
use nfs_args::made::{Made, write_made};
use nfs_args::opaque::Opaque;
use nfs_attrs::fattr::{Fattr, write_post_op_attr};
use nfs_attrs::pre_attr::PreAttr;
use nfs_attrs::wcc::{Wcc, write_wcc};
use nfs_handles::number::Number;
use nfs_inodes::tree::Tree;
use nfs_xdr::output::Output;

/// A file before and after a call.
#[inline(always)]
pub(crate) fn change(before: Option<Fattr>, after: Option<Fattr>) -> Wcc
    ensures { result ≡ doing.change before after }
{
    let before = match before {
        Some(file) => Some(PreAttr {
            size: file.size,
            mtime: file.mtime,
            ctime: file.ctime,
        }),
        None => None,
    };
    Wcc { before, after }
}

/// The key of the server, by which a client sees that the server began anew.
pub(crate) fn verifier_of(tree: &Tree) -> u64
    ensures { result ≡ readers.verifier_of tree.now }
{
    u64::from_be_bytes(tree.key())
}

/// The answer of a denied call that shows the file of its handle before and after.
#[cold]
pub(crate) fn write_denied_change(out: &mut Output, denial: &Denial) -> Done
    requires { status_size + change_size ≤ out.old.room }
    ensures text { Appends (to_be_bytes w32 (status_of denial.now.rule) ++ wcc_text (doing.no_change denial.now.shown)) out.old out.new }
    ensures encoded { IsFailed IsWcc (record { status = status_of denial.now.rule; shown = doing.no_change denial.now.shown })
        (to_be_bytes w32 (status_of denial.now.rule) ++ wcc_text (doing.no_change denial.now.shown)) }
    ensures done { result ≡ done.Denied denial.now.rule denial.now.uid }
{
    out.u32(denial.rule.status());
    write_wcc(out, &change(denial.shown, denial.shown));
    Done::Denied(denial.rule, denial.uid)
}

/// The answer of a denied call that shows the attributes of the file of its handle.
#[cold]
pub(crate) fn write_denied_attributes(out: &mut Output, denial: &Denial) -> Done
    requires { status_size + post_op_attributes_size ≤ out.old.room }
    ensures text { Appends (to_be_bytes w32 (status_of denial.now.rule) ++ post_op_attr_text denial.now.shown) out.old out.new }
    ensures encoded { IsFailed IsPostOpAttr (record { status = status_of denial.now.rule; shown = denial.now.shown })
        (to_be_bytes w32 (status_of denial.now.rule) ++ post_op_attr_text denial.now.shown) }
    ensures done { result ≡ done.Denied denial.now.rule denial.now.uid }
{
    out.u32(denial.rule.status());
    write_post_op_attr(out, denial.shown.as_ref());
    Done::Denied(denial.rule, denial.uid)
}

/// The answer of a granted call that shows a file before and after.
#[inline(always)]
pub(crate) fn write_granted_change(out: &mut Output, file: Wcc)
    requires { status_size + change_size ≤ out.old.room }
    ensures text { Appends (to_be_bytes w32 0 ++ wcc_text file) out.old out.new }
    ensures encoded { IsWcc file (wcc_text file) }
{
    out.u32(0);
    write_wcc(out, &file);
}

/// A new file and the directory of its name.
#[inline(always)]
pub(crate) fn write_new_file(out: &mut Output, tree: &Tree, file: Number, dir: Wcc)
    requires { made_size ≤ out.old.room }
    ensures text { Appends (made_text (new_file_in tree.now file.0 dir)) out.old out.new }
    ensures encoded { IsMade (new_file_in tree.now file.0 dir) (made_text (new_file_in tree.now file.0 dir)) }
{
    match tree.view(file) {
        Some(file) => {
            let handle = tree.handle(&file);
            let made = Made {
                file: Some(Opaque::new(handle.as_slice())),
                attributes: Some(file.attributes()),
                dir,
            };
            write_made(out, &made);
        }
        None => {
            let made = Made {
                file: None,
                attributes: None,
                dir,
            };
            write_made(out, &made);
        }
    }
}
