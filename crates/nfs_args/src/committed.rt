//! Bytes that were made safe.
ghost use Rattle.std.specs.Prelude.{◌≡◌, ◌≤◌, length};
ghost use Rattle.nfs_xdr.specs.Written.{Appends};
ghost use Rattle.nfs_attrs.specs.Encoding.{IsWcc, wcc_text};
ghost use Rattle.nfs_args.specs.Results.{IsCommitted, committed_text, AlwaysFits, ResultFits, IsResult, result_text};

use crate::failed::{Failed, write_failed_change};
use nfs_attrs::wcc::{Wcc, write_wcc};
use nfs_xdr::output::Output;

/// Bytes that were made safe (RFC 1813, section 3.3.21, COMMIT3resok).
#[derive(Drop)]
pub struct Committed {
    /// The file.
    pub file: Wcc,
    /// The verifier, as in `Written`.
    pub verifier: u64,
}

/// Writes the bytes that were made safe.
pub fn write_committed(out: &mut Output, answer: &Committed)
    requires { length (committed_text answer.now) ≤ out.old.room }
    ensures text { Appends (committed_text answer.now) out.old out.new }
    ensures encoded { IsCommitted answer.now (committed_text answer.now) }
{
    write_wcc(out, &answer.file);
    out.u64(answer.verifier);
}

// The result of COMMIT.
pub(crate) fn write_commit_result(out: &mut Output, answer: &Result<Committed, Failed<Wcc>>)
    requires fits { ResultFits AlwaysFits answer.now }
    requires room { length (result_text committed_text wcc_text answer.now) ≤ out.old.room }
    ensures text { Appends (result_text committed_text wcc_text answer.now) out.old out.new }
    ensures encoded { IsResult IsCommitted IsWcc answer.now (result_text committed_text wcc_text answer.now) }
{
    match answer {
        Ok(value) => {
            out.u32(0);
            write_committed(out, value);
        }
        Err(failed) => write_failed_change(out, failed),
    }
}
