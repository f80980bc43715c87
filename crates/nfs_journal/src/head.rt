//! The head of a journal: which server it is of.
ghost use Rattle.std.specs.Prelude.{◌≡◌, ◌+◌, ◌≤◌, ◌↔◌, true, Err, length, IfOk, OnErr, IsTrue};
ghost use Rattle.nfs_checksum.specs.Checksums.{crc32c as checksum_of};
ghost use Rattle.nfs_rpc.specs.Records.{fragment};
ghost use Rattle.nfs_journal.specs.Heads.{DecodesHead, IsBegun, IsHead, IsNoHead, fields_text, head_content, head_text};
ghost use Rattle.nfs_xdr.specs.Written.{Appends};

use crate::fields::{are_same, array_of, long_number_of, number_of};
use nfs_checksum::checksum::crc32c;
use nfs_rpc::record::{HEADER_BYTES, frame_record};
use nfs_server::entry::CHECKSUM_BYTES;
use nfs_xdr::output::Output;

/// Which server a journal is of, and what it began with.
#[derive(Clone, Copy, Debug, PartialEq, Eq)]
pub struct Head {
    /// The key of the server's handles.
    pub key: [u8; 8],
    /// The number of its next file.
    pub next: u64,
    /// How many replies it caches.
    pub cache: u32,
    /// The SHA-256 of its description without the first line and the exports.
    pub digest: [u8; 32],
}

/// Why some bytes are no head.
#[derive(Clone, Copy, Debug, PartialEq, Eq)]
pub enum HeadFault {
    /// They are fewer, and begin as a head does.
    Unfinished,
    /// They are no journal.
    NoJournal,
    /// They are a journal of this version.
    OtherVersion(u32),
    /// They are of this version, but no head and not the beginning of one: the checksum is another one, or
    /// the record mark, or they are more.
    Damaged,
}

/// How many bytes a head has, with its record mark.
pub const HEAD_BYTES: usize = HEADER_BYTES + CONTENT_BYTES + CHECKSUM_BYTES;

// The title, the version and the fields.
const CONTENT_BYTES: usize = 70;

const TITLE: [u8; 14] = *b"nfs3d journal\n";

// Where the title ends.
const TITLE_END: usize = HEADER_BYTES + TITLE.len();

// The record mark, the title and the version.
const FRONT: [u8; 22] = *b"\x80\x00\x00\x4anfs3d journal\n\x00\x00\x00\x01";

const VERSION: u32 = 1;

/// Writes a head, as one record with its mark.
pub fn encode_head(out: &mut Output, head: &Head)
    requires room { HEAD_BYTES ≤ out.old.room }
    ensures { Appends (fragment true (head_text head.now)) out.old out.new }
{
    out.part(&frame_record((CONTENT_BYTES + CHECKSUM_BYTES) as u32));
    let start = out.bytes().len();
    encode_content(out, head);
    let checksum = crc32c(&out.bytes()[start..]);
    out.u32(checksum);
}

// Writes what a head has before its checksum.
fn encode_content(out: &mut Output, head: &Head)
    requires room { CONTENT_BYTES ≤ out.old.room }
    ensures text { Appends (head_content head.now) out.old out.new }
    ensures room { out.new.room + CONTENT_BYTES ≡ out.old.room }
    ensures after { length out.old.bytes ≤ length out.new.bytes }
{
    out.part(&TITLE);
    out.u32(VERSION);
    out.part(&head.key);
    out.u64(head.next);
    out.u32(head.cache);
    out.part(&head.digest);
}

/// Reads a head: of the first `HEAD_BYTES` bytes of a journal, or of all of a shorter one. Each fault comes
/// exactly where the bytes are what it says.
pub fn decode_head(bytes: &[u8]) -> Result<Head, HeadFault>
    ensures found { DecodesHead result bytes.now }
    ensures sizes { IfOk result IsHead }
    ensures none { OnErr result (IsNoHead bytes.now) }
{
    if !is_begun(bytes) {
        return Err(fault_of(bytes));
    }
    if bytes.len() < HEAD_BYTES {
        return Err(HeadFault::Unfinished);
    }
    let (_, text) = bytes.split_at(HEADER_BYTES);
    let (content, checksum) = text.split_at(CONTENT_BYTES);
    if !are_same(checksum, &crc32c(content).to_be_bytes()) {
        return Err(HeadFault::Damaged);
    }
    let (_, fields) = content.split_at(FRONT.len() - HEADER_BYTES);
    Ok(decode_fields(fields))
}

// Whether some bytes begin as a head does, or are the beginning of that.
fn is_begun(bytes: &[u8]) -> bool
    ensures { IsTrue result ↔ IsBegun bytes.now }
{
    let n = bytes.len().min(FRONT.len());
    are_same(&bytes[..n], &FRONT[..n])
}

// What bytes are that don't begin as a head does.
fn fault_of(bytes: &[u8]) -> HeadFault
    requires { IsBegun bytes.now → ⊥ }
    ensures { DecodesHead (Err result) bytes.now }
{
    if bytes.len() < FRONT.len() {
        return HeadFault::NoJournal;
    }
    if !are_same(&bytes[HEADER_BYTES..TITLE_END], &TITLE) {
        return HeadFault::NoJournal;
    }
    let n = number_of(&bytes[TITLE_END..FRONT.len()]);
    if n == VERSION {
        HeadFault::Damaged
    } else {
        HeadFault::OtherVersion(n)
    }
}

// Reads the fields of a head after its title and version.
fn decode_fields(fields: &[u8]) -> Head
    requires { length fields.now ≡ 52 }
    ensures fields { fields_text result ≡ fields.now }
    ensures sizes { IsHead result }
{
    let (key, rest) = fields.split_at(8);
    let (next, rest) = rest.split_at(8);
    let (cache, digest) = rest.split_at(4);
    Head {
        key: array_of(key),
        next: long_number_of(next),
        cache: number_of(cache),
        digest: array_of(digest),
    }
}
