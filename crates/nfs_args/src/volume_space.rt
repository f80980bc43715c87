//! How much room a volume has.
ghost use Rattle.std.specs.Prelude.{◌≡◌, ◌≤◌, length};
ghost use Rattle.nfs_xdr.specs.Written.{Appends};
ghost use Rattle.nfs_attrs.specs.Encoding.{IsPostOpAttr, post_op_attr_text};
ghost use Rattle.nfs_args.specs.Results.{IsSpace, space_text, IsRoom, room_text, AlwaysFits, ResultFits, IsResult, result_text};

use crate::failed::{Failed, write_failed_attributes};
use nfs_attrs::fattr::{Fattr, write_post_op_attr};
use nfs_xdr::output::{Output, halves};

/// How many bytes or how many files.
#[derive(Drop)]
pub struct Space {
    /// In all.
    pub total: u64,
    /// That are not in use.
    pub free: u64,
    /// Those of them that the caller may have.
    pub available: u64,
}

/// How much room a volume has (RFC 1813, section 3.3.18, FSSTAT3resok).
#[derive(Drop)]
pub struct VolumeSpace {
    /// The named file's attributes.
    pub attributes: Option<Fattr>,
    /// Its bytes.
    pub bytes: Space,
    /// Its files.
    pub files: Space,
    /// For how many seconds this is expected to stay so.
    pub invarsec: u32,
}

/// Writes how much room a volume has.
pub fn write_room(out: &mut Output, answer: &VolumeSpace)
    requires { length (room_text answer.now) ≤ out.old.room }
    ensures text { Appends (room_text answer.now) out.old out.new }
    ensures encoded { IsRoom answer.now (room_text answer.now) }
{
    write_post_op_attr(out, answer.attributes.as_ref());
    write_space(out, &answer.bytes);
    write_space(out, &answer.files);
    out.u32(answer.invarsec);
}

fn write_space(out: &mut Output, space: &Space)
    requires { 24 ≤ out.old.room }
    ensures text { Appends (space_text space.now) out.old out.new }
    ensures encoded { IsSpace space.now (space_text space.now) }
{
    let (total_high, total_low) = halves(space.total);
    let (free_high, free_low) = halves(space.free);
    let (available_high, available_low) = halves(space.available);
    out.numbers([
        total_high,
        total_low,
        free_high,
        free_low,
        available_high,
        available_low,
    ]);
}

// The result of FSSTAT.
pub(crate) fn write_fsstat_result(
    out: &mut Output,
    answer: &Result<VolumeSpace, Failed<Option<Fattr>>>,
)
    requires fits { ResultFits AlwaysFits answer.now }
    requires room { length (result_text room_text post_op_attr_text answer.now) ≤ out.old.room }
    ensures text { Appends (result_text room_text post_op_attr_text answer.now) out.old out.new }
    ensures encoded { IsResult IsRoom IsPostOpAttr answer.now (result_text room_text post_op_attr_text answer.now) }
{
    match answer {
        Ok(value) => {
            out.u32(0);
            write_room(out, value);
        }
        Err(failed) => write_failed_attributes(out, failed),
    }
}
