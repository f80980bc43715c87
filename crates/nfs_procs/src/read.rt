//! READ: bytes of a file (RFC 1813, section 3.3.6).
ghost use Rattle.std.specs.Prelude.{◌≡◌, ◌+◌, ◌^◌, ◌<◌, ◌≤◌, true, Some, Ok, length, take, drop, min, nat_le};
ghost use Rattle.nfs_args.specs.Sizes.{largest_of};
ghost use Rattle.nfs_args.specs.declared.procedure.Procedure.TheVariants as proc;
ghost use Rattle.nfs_args.specs.declared.answer.NfsAnswer.TheVariants as answer;
ghost use Rattle.nfs_args.specs.declared.args.NfsArgs.TheVariants as nfs;
ghost use Rattle.nfs_procs.specs.Denials.{Decides};
ghost use Rattle.nfs_inodes.specs.Reading.{bytes_at, is_regular_type};
ghost use Rattle.nfs_inodes.specs.Views.{IsSeen, bytes_seen};
ghost use Rattle.nfs_procs.specs.Performing.{AppendsAnswer, Performs};
ghost use Rattle.nfs_procs.specs.Plans.{PlansData};
ghost use Rattle.nfs_procs.specs.Readers as procedure;
ghost use Rattle.nfs_procs.specs.Scenes.{scene};
ghost use Rattle.nfs_xdr.specs.Written.{Appends};

use crate::call_context::CallContext;
use crate::denial::Denial;
use crate::done::Done;
use crate::limits::MAX_TRANSFER;
use crate::replies::write_denied_attributes;
use crate::subjects::subject_of;
use nfs_args::byte_range::ByteRange;
use nfs_args::read_data::write_read_head;
use nfs_inodes::tree::Tree;
use nfs_inodes::view::FileView;
use nfs_rules::subject::Subject;
use nfs_rules::table::read_rules;
use nfs_xdr::output::Output;

pub(crate) fn read(
    tree: &Tree,
    call: &CallContext<'_>,
    args: &ByteRange<'_>,
    out: &mut Output,
) -> Done
    requires { (procedure.read args.now).largest ≤ out.old.room }
    ensures { Performs (scene tree.now call.now (nfs.Read args.now))
        (procedure.read args.now) result tree.now out.old out.new }
{
    match decide(tree, call, args) {
        Ok(file) => {
            write_data(out, tree, file.view(), args.offset, args.count);
            Done::Granted
        }
        Err(denial) => write_denied_attributes(out, &denial),
    }
}

fn decide<'a>(
    tree: &'a Tree,
    call: &CallContext<'a>,
    args: &ByteRange<'_>,
) -> Result<Subject<'a>, Denial>
    ensures { Decides (scene tree.entry.now call.now (nfs.Read args.now)) args.now.file
        (PlansData tree.entry.now) result }
{
    let file = subject_of(tree, call, &args.file)?;
    match read_rules(&file) {
        Ok(()) => Ok(file),
        Err(rule) => Err(Denial::of_rule(&file, rule)),
    }
}

// The bytes from an offset on, as many as are asked for and there, and at most `MAX_TRANSFER`.
fn write_data(out: &mut Output, tree: &Tree, file: &FileView<'_>, offset: u64, count: u32)
    requires seen { IsSeen tree.now file.now }
    requires regular { is_regular_type file.now.attributes.file_type ≡ true }
    requires room { largest_of proc.Read ≤ out.old.room }
    ensures { AppendsAnswer (answer.Read (Ok
        (procedure.data_of file.now.attributes offset (take (min count procedure.max_transfer)
        (drop offset (bytes_at tree.now file.now.attributes.fileid)))))) out.old out.new }
{
    let attributes = file.attributes();
    let left = attributes.size.saturating_sub(offset);
    let len = left.min(u64::from(count.min(MAX_TRANSFER)));
    out.u32(0);
    write_read_head(out, Some(&attributes), len as u32, left <= len);
    write_bytes(out, file, offset as usize, len as usize);
    out.pad(len as usize);
}

// So many bytes of a file, from an offset on, copied once.
fn write_bytes(out: &mut Output, file: &FileView<'_>, offset: usize, len: usize)
    requires fits { offset + len < 2 ^ 64 }
    requires there { len ≤ length (drop offset (bytes_seen file.now)) }
    requires room { len ≤ out.old.room }
    ensures { Appends (take len (drop offset (bytes_seen file.now))) out.old out.new }
{
    let mut done = 0;
    while done < len {
        let run = file.bytes_at(offset + done);
        let some = run.len().min(len - done);
        out.part(&run[..some]);
        done += some;
    }
}
