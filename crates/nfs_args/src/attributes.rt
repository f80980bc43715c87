//! Results that have attributes alone.
ghost use Rattle.std.specs.Prelude.{◌≡◌, ◌≤◌, length};
ghost use Rattle.nfs_xdr.specs.Written.{Appends};
ghost use Rattle.nfs_attrs.specs.Encoding.{IsFattr, fattr_text, IsWcc, wcc_text};
ghost use Rattle.nfs_args.specs.Results.{IsEmpty, empty_text, AlwaysFits, ResultFits, IsResult, result_text};

use crate::failed::{Failed, write_failed, write_failed_change};
use nfs_attrs::fattr::{Fattr, write_fattr};
use nfs_attrs::wcc::{Wcc, write_wcc};
use nfs_xdr::output::Output;

// The result of GETATTR (RFC 1813, section 3.3.1).
pub(crate) fn write_getattr_result(out: &mut Output, answer: &Result<Fattr, Failed<()>>)
    requires fits { ResultFits AlwaysFits answer.now }
    requires room { length (result_text fattr_text empty_text answer.now) ≤ out.old.room }
    ensures text { Appends (result_text fattr_text empty_text answer.now) out.old out.new }
    ensures encoded { IsResult IsFattr IsEmpty answer.now (result_text fattr_text empty_text answer.now) }
{
    match answer {
        Ok(value) => {
            out.u32(0);
            write_fattr(out, value);
        }
        Err(failed) => write_failed(out, failed),
    }
}

// The result of SETATTR, REMOVE and RMDIR (RFC 1813, sections 3.3.2, 3.3.12 and 3.3.13).
pub(crate) fn write_change_result(out: &mut Output, answer: &Result<Wcc, Failed<Wcc>>)
    requires fits { ResultFits AlwaysFits answer.now }
    requires room { length (result_text wcc_text wcc_text answer.now) ≤ out.old.room }
    ensures text { Appends (result_text wcc_text wcc_text answer.now) out.old out.new }
    ensures encoded { IsResult IsWcc IsWcc answer.now (result_text wcc_text wcc_text answer.now) }
{
    match answer {
        Ok(value) => {
            out.u32(0);
            write_wcc(out, value);
        }
        Err(failed) => write_failed_change(out, failed),
    }
}
