//! The entries of a journal: what is noted of a call that was answered.
ghost use Rattle.std.specs.Prelude.{◌≡◌, ◌+◌, ◌^◌, ◌<◌, ◌≤◌, true, length};
ghost use Rattle.nfs_rpc.specs.Records.{fragment};
ghost use Rattle.nfs_server.specs.Entries.{content_text, entry_text};
ghost use Rattle.nfs_server.specs.InMemory.{event_of};
ghost use Rattle.nfs_xdr.specs.Written.{Appends};

use crate::event::Event;
use nfs_checksum::checksum::crc32c;
use nfs_rpc::record::{HEADER_BYTES, frame_record};
use nfs_xdr::output::Output;

/// How many bytes an entry has beside its call and its reply, without its record mark.
pub const ENTRY_BYTES: usize = CONTENT_BYTES + CHECKSUM_BYTES;

/// How many bytes the checksum of an entry has, which are its last.
pub const CHECKSUM_BYTES: usize = 4;

// The address, the moment and the length of the reply.
const CONTENT_BYTES: usize = 16;

/// Writes the entry of a call with this reply, as one record with its mark.
pub fn encode_entry(out: &mut Output, event: Event<'_>, reply: &[u8])
    requires room { HEADER_BYTES + ENTRY_BYTES + length reply.now + length event.bytes.now ≤ out.old.room }
    requires below { ENTRY_BYTES + length reply.now + length event.bytes.now < 2 ^ 31 }
    ensures { Appends (fragment true (entry_text (event_of event.entry) reply.now)) out.old out.new }
{
    let len = ENTRY_BYTES + reply.len() + event.bytes.len();
    out.part(&frame_record(len as u32));
    let start = out.bytes().len();
    encode_content(out, event, reply);
    let checksum = crc32c(&out.bytes()[start..]);
    out.u32(checksum);
}

// Writes what an entry has before its checksum.
fn encode_content(out: &mut Output, event: Event<'_>, reply: &[u8])
    requires room { CONTENT_BYTES + length reply.now + length event.bytes.now ≤ out.old.room }
    requires below { length reply.now < 2 ^ 31 }
    ensures text { Appends (content_text (event_of event.entry) reply.now) out.old out.new }
    ensures room { out.new.room + CONTENT_BYTES + length reply.now + length event.entry.bytes.now ≡ out.old.room }
    ensures after { length out.old.bytes ≤ length out.new.bytes }
{
    out.u32(event.addr.0);
    out.u32(event.moment.seconds);
    out.u32(event.moment.nanos);
    out.u32(reply.len() as u32);
    out.part(reply);
    out.part(event.bytes);
}
