//! The entries of a journal, as they are read.
ghost use Rattle.std.specs.Prelude.{◌≡◌, ◌+◌, ◌^◌, ◌<◌, ◌≤◌, ◌↔◌, true, length, IfOk, IfSome, IsNone, IsTrue};
ghost use Rattle.std.specs.Int.{w32, to_be_bytes};
ghost use Rattle.nfs_journal.specs.Entries.{AreWords, Decodes, IsNoEntry, content_at};
ghost use Rattle.nfs_server.specs.Entries.{content_text, entry_text};
ghost use Rattle.nfs_checksum.specs.Checksums.{crc32c as checksum_of};
ghost use Rattle.nfs_server.specs.InMemory.{event_of};

use nfs_attrs::moment::Moment;
use nfs_checksum::checksum::crc32c;
use nfs_exports::addr::Addr;
use nfs_server::entry::CHECKSUM_BYTES;
use nfs_server::event::Event;
use nfs_xdr::fault::XdrFault;
use nfs_xdr::input::Input;

/// A call that was answered, and its reply.
#[derive(Clone, Copy)]
pub struct Entry<'a> {
    /// The call.
    pub event: Event<'a>,
    /// Its reply, without a record mark.
    pub reply: &'a [u8],
}

/// Reads an entry. None exactly where no entry has these bytes.
pub fn decode_entry(bytes: &[u8]) -> Option<Entry<'_>>
    ensures found { IfSome result (λ entry. entry_text (event_of entry.event) entry.reply.now ≡ bytes.entry.now) }
    ensures words { IfSome result (λ entry. AreWords (event_of entry.event) entry.reply.now) }
    ensures none { IsNone result → IsNoEntry bytes.entry.now }
{
    if bytes.len() < CHECKSUM_BYTES {
        return None;
    }
    let (content, checksum) = bytes.split_at(bytes.len() - CHECKSUM_BYTES);
    if !is_checksum(checksum, content) {
        return None;
    }
    match decode_content(content) {
        Ok(entry) => Some(entry),
        Err(_) => None,
    }
}

// Whether this is the checksum of some bytes.
fn is_checksum(checksum: &[u8], bytes: &[u8]) -> bool
    ensures { IsTrue result ↔ (checksum.now ≡ to_be_bytes w32 (checksum_of bytes.now)) }
{
    checksum == &crc32c(bytes).to_be_bytes()[..]
}

// Reads what an entry has before its checksum.
fn decode_content(bytes: &[u8]) -> Result<Entry<'_>, XdrFault>
    ensures exact { Decodes result (content_at bytes.entry.now) }
    ensures text { IfOk result (λ entry. content_text (event_of entry.event) entry.reply.now ≡ bytes.entry.now) }
    ensures words { IfOk result (λ entry. AreWords (event_of entry.event) entry.reply.now) }
{
    let mut input = Input::new(bytes);
    let addr = input.u32()?;
    let seconds = input.u32()?;
    let nanos = input.u32()?;
    let len = input.u32()?;
    let rest = input.rest();
    if rest.len() < len as usize {
        return Err(XdrFault::Short);
    }
    let (reply, bytes) = rest.split_at(len as usize);
    Ok(Entry {
        event: Event {
            addr: Addr(addr),
            moment: Moment { seconds, nanos },
            bytes,
        },
        reply,
    })
}
