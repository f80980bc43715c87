//! A file that was made.
ghost use Rattle.std.specs.Prelude.{◌≡◌, ◌≤◌, length};
ghost use Rattle.nfs_xdr.specs.Written.{Appends};
ghost use Rattle.nfs_attrs.specs.Encoding.{IsWcc, wcc_text};
ghost use Rattle.nfs_args.specs.Results.{IsMade, made_text, MadeFits, ResultFits, IsResult, result_text};

use crate::failed::{Failed, write_failed_change};
use crate::opaque::{Opaque, write_post_op_handle};
use nfs_attrs::fattr::{Fattr, write_post_op_attr};
use nfs_attrs::wcc::{Wcc, write_wcc};
use nfs_xdr::output::Output;

/// A file that was made (RFC 1813, sections 3.3.8 to 3.3.11, CREATE3resok, MKDIR3resok,
/// SYMLINK3resok and MKNOD3resok).
#[derive(Drop)]
pub struct Made<'a> {
    /// The file's handle, of at most 64 bytes.
    pub file: Option<Opaque<'a>>,
    /// The file's attributes.
    pub attributes: Option<Fattr>,
    /// The directory of its name.
    pub dir: Wcc,
}

/// Writes a file that was made.
#[inline(always)]
pub fn write_made(out: &mut Output, answer: &Made<'_>)
    requires fits { MadeFits answer.now }
    requires room { length (made_text answer.now) ≤ out.old.room }
    ensures text { Appends (made_text answer.now) out.old out.new }
    ensures encoded { IsMade answer.now (made_text answer.now) }
{
    write_post_op_handle(out, &answer.file);
    write_post_op_attr(out, answer.attributes.as_ref());
    write_wcc(out, &answer.dir);
}

// The result of CREATE, MKDIR, SYMLINK and MKNOD.
pub(crate) fn write_make_result(out: &mut Output, answer: &Result<Made<'_>, Failed<Wcc>>)
    requires fits { ResultFits MadeFits answer.now }
    requires room { length (result_text made_text wcc_text answer.now) ≤ out.old.room }
    ensures text { Appends (result_text made_text wcc_text answer.now) out.old out.new }
    ensures encoded { IsResult IsMade IsWcc answer.now (result_text made_text wcc_text answer.now) }
{
    match answer {
        Ok(value) => {
            out.u32(0);
            write_made(out, value);
        }
        Err(failed) => write_failed_change(out, failed),
    }
}
