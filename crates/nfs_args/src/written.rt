//! Bytes that were written.
ghost use Rattle.std.specs.Prelude.{◌≡◌, ◌≤◌, length};
ghost use Rattle.nfs_xdr.specs.Written.{Appends};
ghost use Rattle.nfs_attrs.specs.Encoding.{IsWcc, wcc_text};
ghost use Rattle.nfs_args.specs.Encoding.{stability_number};
ghost use Rattle.nfs_args.specs.Results.{IsWritten, written_text, AlwaysFits, ResultFits, IsResult, result_text};

use crate::failed::{Failed, write_failed_change};
use crate::write::Stability;
use nfs_attrs::wcc::{Wcc, write_wcc};
use nfs_xdr::output::Output;

/// Bytes that were written (RFC 1813, section 3.3.7, WRITE3resok).
#[derive(Drop)]
pub struct Written {
    /// The file.
    pub file: Wcc,
    /// How many bytes were written.
    pub count: u32,
    /// How safe they are.
    pub committed: Stability,
    /// The verifier, by which a client sees that the server lost bytes: 8 bytes, the first as the
    /// most significant.
    pub verifier: u64,
}

/// Writes the bytes that were written.
pub fn write_written(out: &mut Output, answer: &Written)
    requires { length (written_text answer.now) ≤ out.old.room }
    ensures text { Appends (written_text answer.now) out.old out.new }
    ensures encoded { IsWritten answer.now (written_text answer.now) }
{
    write_wcc(out, &answer.file);
    out.u32(answer.count);
    out.u32(number_of(answer.committed));
    out.u64(answer.verifier);
}

fn number_of(stability: Stability) -> u32
    ensures { result ≡ stability_number stability }
{
    match stability {
        Stability::Unstable => 0,
        Stability::DataSync => 1,
        Stability::FileSync => 2,
    }
}

// The result of WRITE.
pub(crate) fn write_write_result(out: &mut Output, answer: &Result<Written, Failed<Wcc>>)
    requires fits { ResultFits AlwaysFits answer.now }
    requires room { length (result_text written_text wcc_text answer.now) ≤ out.old.room }
    ensures text { Appends (result_text written_text wcc_text answer.now) out.old out.new }
    ensures encoded { IsResult IsWritten IsWcc answer.now (result_text written_text wcc_text answer.now) }
{
    match answer {
        Ok(value) => {
            out.u32(0);
            write_written(out, value);
        }
        Err(failed) => write_failed_change(out, failed),
    }
}
