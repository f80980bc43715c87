//! FSSTAT: the room of a volume (RFC 1813, section 3.3.18).
ghost use Rattle.std.specs.Prelude.{◌≡◌, ◌-◌, ◌≤◌, Ok, slice_get, option_map};
ghost use Rattle.nfs_args.specs.Sizes.{largest_of};
ghost use Rattle.nfs_args.specs.declared.procedure.Procedure.TheVariants as proc;
ghost use Rattle.nfs_args.specs.declared.answer.NfsAnswer.TheVariants as answer;
ghost use Rattle.nfs_args.specs.declared.args.NfsArgs.TheVariants as nfs;
ghost use Rattle.nfs_inodes.specs.Reading.{totals_at};
ghost use Rattle.nfs_inodes.specs.Views.{volume_seen};
ghost use Rattle.nfs_procs.specs.Performing.{AppendsAnswer, Performs};
ghost use Rattle.nfs_procs.specs.Readers as procedure;
ghost use Rattle.nfs_procs.specs.Scenes.{scene};

use crate::call_context::CallContext;
use crate::done::Done;
use crate::replies::write_denied_attributes;
use crate::subjects::file_of;
use nfs_args::opaque::Opaque;
use nfs_args::volume_space::{Space, VolumeSpace, write_room};
use nfs_attrs::fattr::Fattr;
use nfs_inodes::tree::Tree;
use nfs_inodes::volumes::{Totals, VolumeView};
use nfs_xdr::output::Output;

pub(crate) fn fsstat(
    tree: &Tree,
    call: &CallContext<'_>,
    handle: &Opaque<'_>,
    out: &mut Output,
) -> Done
    requires { (procedure.fsstat handle.now).largest ≤ out.old.room }
    ensures { Performs (scene tree.now call.now (nfs.Fsstat handle.now))
        (procedure.fsstat handle.now) result tree.now out.old out.new }
{
    match file_of(tree, call, handle) {
        Ok(file) => {
            write_granted(out, tree, &file.attributes());
            Done::Granted
        }
        Err(denial) => write_denied_attributes(out, &denial),
    }
}

fn write_granted(out: &mut Output, tree: &Tree, file: &Fattr)
    requires { largest_of proc.Fsstat ≤ out.old.room }
    ensures { AppendsAnswer (answer.Fsstat (Ok
        (procedure.room_in (slice_get tree.now.volumes (file.now.fsid - 1)) (totals_at tree.now (file.now.fsid - 1)) file.now))) out.old
        out.new }
{
    out.u32(0);
    write_room(out, &room_of(tree, file));
}

fn room_of(tree: &Tree, file: &Fattr) -> VolumeSpace
    ensures { result ≡ procedure.room_in (slice_get tree.now.volumes (file.now.fsid - 1)) (totals_at tree.now (file.now.fsid - 1))
        file.now }
{
    let index = file.fsid.saturating_sub(1) as usize;
    room_in(tree.volume(index), tree.totals(index), file)
}

fn room_in(volume: Option<VolumeView<'_>>, totals: Option<Totals>, file: &Fattr) -> VolumeSpace
    ensures { result ≡ procedure.room_in (option_map volume_seen volume.entry) totals file.now }
{
    let (bytes, files) = match (volume, totals) {
        (Some(volume), Some(totals)) => (
            space_of(volume.max_bytes, totals.bytes),
            space_of(volume.max_files, totals.files),
        ),
        _ => (space_of(0, 0), space_of(0, 0)),
    };
    VolumeSpace {
        attributes: Some(*file),
        bytes,
        files,
        invarsec: 0,
    }
}

// Of so many, so many of which are used.
fn space_of(total: u64, used: u64) -> Space
    ensures { result ≡ procedure.space_of total used }
{
    let free = total.saturating_sub(used);
    Space {
        total,
        free,
        available: free,
    }
}
