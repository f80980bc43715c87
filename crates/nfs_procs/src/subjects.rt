//! What the handles of a call name.
ghost use Rattle.nfs_procs.specs.Denials.{Names, NamesBoth};

use crate::call_context::CallContext;
use crate::denial::{Denial, PairDenial};
use nfs_args::opaque::Opaque;
use nfs_inodes::tree::Tree;
use nfs_rules::exported_file::ExportedFile;
use nfs_rules::exported_pair::{attributes_of, in_one_volume};
use nfs_rules::subject::Subject;

/// The file that the handle of a call names, or the denial by the first rule of the handle that fails.
#[inline(always)]
pub(crate) fn file_of<'a>(
    tree: &'a Tree,
    call: &CallContext<'a>,
    handle: &Opaque<'_>,
) -> Result<ExportedFile<'a>, Denial>
    ensures { Names tree.entry.now call.now handle.now result }
{
    match ExportedFile::of(tree, call.table, call.caller, handle.bytes()) {
        Ok(file) => {
            file.law();
            Ok(file)
        }
        Err(rule) => Err(Denial::of_handle(rule)),
    }
}

/// The same with the ids by which the caller is judged.
#[inline(always)]
pub(crate) fn subject_of<'a>(
    tree: &'a Tree,
    call: &CallContext<'a>,
    handle: &Opaque<'_>,
) -> Result<Subject<'a>, Denial>
    ensures { Names tree.entry.now call.now handle.now result }
{
    match file_of(tree, call, handle) {
        Ok(file) => Ok(file.subject()),
        Err(denial) => Err(denial),
    }
}

/// The files that the two handles of a call name, in one volume, or the denial by the first rule of
/// the handles that fails.
#[inline(always)]
pub(crate) fn pair_of<'a>(
    tree: &'a Tree,
    call: &CallContext<'a>,
    one: &Opaque<'_>,
    two: &Opaque<'_>,
) -> Result<(Subject<'a>, Subject<'a>), PairDenial>
    ensures { NamesBoth tree.entry.now call.now one.now two.now result }
{
    let one = ExportedFile::of(tree, call.table, call.caller, one.bytes());
    let two = ExportedFile::of(tree, call.table, call.caller, two.bytes());
    let (one_shown, two_shown) = (attributes_of(&one), attributes_of(&two));
    match in_one_volume(one, two) {
        Ok(pair) => {
            pair.0.law();
            pair.1.law();
            Ok(pair)
        }
        Err(rule) => Err(PairDenial {
            rule,
            uid: None,
            one: one_shown,
            two: two_shown,
        }),
    }
}
