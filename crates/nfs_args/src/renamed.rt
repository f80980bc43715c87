//! A name that was changed.
ghost use Rattle.std.specs.Prelude.{◌≡◌, ◌≤◌, length};
ghost use Rattle.nfs_xdr.specs.Written.{Appends};
ghost use Rattle.nfs_args.specs.Results.{IsRenamed, renamed_text, AlwaysFits, ResultFits, IsResult, result_text};

use crate::failed::{Failed, write_failed_rename};
use nfs_attrs::wcc::{Wcc, write_wcc};
use nfs_xdr::output::Output;

/// Both directories of a name that was changed (RFC 1813, section 3.3.14, RENAME3res).
#[derive(Drop)]
pub struct Renamed {
    /// The directory that it was in.
    pub from: Wcc,
    /// The directory that it is in.
    pub to: Wcc,
}

/// Writes both directories of a name that was changed.
pub fn write_renamed(out: &mut Output, answer: &Renamed)
    requires { length (renamed_text answer.now) ≤ out.old.room }
    ensures text { Appends (renamed_text answer.now) out.old out.new }
    ensures encoded { IsRenamed answer.now (renamed_text answer.now) }
{
    write_wcc(out, &answer.from);
    write_wcc(out, &answer.to);
}

// The result of RENAME.
pub(crate) fn write_rename_result(out: &mut Output, answer: &Result<Renamed, Failed<Renamed>>)
    requires fits { ResultFits AlwaysFits answer.now }
    requires room { length (result_text renamed_text renamed_text answer.now) ≤ out.old.room }
    ensures text { Appends (result_text renamed_text renamed_text answer.now) out.old out.new }
    ensures encoded { IsResult IsRenamed IsRenamed answer.now (result_text renamed_text renamed_text answer.now) }
{
    match answer {
        Ok(value) => {
            out.u32(0);
            write_renamed(out, value);
        }
        Err(failed) => write_failed_rename(out, failed),
    }
}
