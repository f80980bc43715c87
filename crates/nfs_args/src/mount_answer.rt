//! The results of the procedures of MOUNT (RFC 1813, appendix I, section 5.2).
ghost use Rattle.std.specs.Prelude.{◌≡◌, ◌≤◌, length};
ghost use Rattle.nfs_xdr.specs.Written.{Appends};
ghost use Rattle.nfs_args.specs.Results.{IsResult, result_text, ResultFits, IsEmpty, empty_text};
ghost use Rattle.nfs_args.specs.MountAnswers.{IsVolume, volume_text, VolumeFits, IsMountAnswerOf, mount_answered, mount_text, MountFits};

use crate::exported::{Exported, write_exports};
use crate::failed::{Failed, write_failed};
use crate::items::Items;
use crate::mounted::{Mounted, write_dump};
use crate::opaque::{Opaque, write_handle};
use nfs_xdr::output::Output;

/// The flavor of credentials with Unix ids (RFC 5531, section 8.2, AUTH_SYS).
const AUTH_SYS: u32 = 1;

/// What a procedure of MOUNT answers, in the order of their numbers. Handles, names and paths are
/// lent; where clients or volumes are made one by one, a caller writes each by `write_mounted` or
/// `write_exported`, and `write_chain_end` after them.
#[derive(Drop)]
pub enum MountAnswer<'a> {
    /// Nothing, for NULL.
    Null,
    /// The handle of the volume, of at most 64 bytes, or why not.
    Mount(Result<Opaque<'a>, Failed<()>>),
    /// The clients that asked for a volume.
    Dump(Items<'a, Mounted<'a>>),
    /// Nothing, for UMNT.
    Unmount,
    /// Nothing, for UMNTALL.
    UnmountAll,
    /// The volumes, and who may use them.
    Export(Items<'a, Exported<'a>>),
}

/// Writes a result. That of NULL, UMNT and UMNTALL has no bytes.
pub fn write_mount(out: &mut Output, answer: &MountAnswer<'_>)
    requires fits { MountFits answer.now }
    requires room { length (mount_text answer.now) ≤ out.old.room }
    ensures text { Appends (mount_text answer.now) out.old out.new }
    ensures encoded { IsMountAnswerOf (mount_answered answer.now) answer.now (mount_text answer.now) }
{
    match answer {
        MountAnswer::Null => {}
        MountAnswer::Mount(volume) => write_mount_result(out, volume),
        MountAnswer::Dump(clients) => write_dump(out, clients.all()),
        MountAnswer::Unmount => {}
        MountAnswer::UnmountAll => {}
        MountAnswer::Export(volumes) => write_exports(out, volumes.all()),
    }
}

fn write_mount_result(out: &mut Output, answer: &Result<Opaque<'_>, Failed<()>>)
    requires fits { ResultFits VolumeFits answer.now }
    requires room { length (result_text volume_text empty_text answer.now) ≤ out.old.room }
    ensures text { Appends (result_text volume_text empty_text answer.now) out.old out.new }
    ensures encoded { IsResult IsVolume IsEmpty answer.now (result_text volume_text empty_text answer.now) }
{
    match answer {
        Ok(handle) => {
            out.u32(0);
            write_volume(out, handle);
        }
        Err(failed) => write_failed(out, failed),
    }
}

// The handle of a volume, and that its one flavor is AUTH_SYS (RFC 1813, appendix I, section 5.2.1,
// mountres3_ok).
fn write_volume(out: &mut Output, handle: &Opaque<'_>)
    requires fits { VolumeFits handle.now }
    requires room { length (volume_text handle.now) ≤ out.old.room }
    ensures text { Appends (volume_text handle.now) out.old out.new }
    ensures encoded { IsVolume handle.now (volume_text handle.now) }
{
    write_handle(out, handle);
    out.numbers([1, AUTH_SYS]);
}
