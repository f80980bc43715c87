//! The blocks of a journal: what was appended at once, after a header that tells whether it is whole.
ghost use Rattle.std.specs.Prelude.{◌≡◌, ◌≢◌, ◌+◌, ◌≤◌, ◌++◌, List, ℕ, length, IfSome, IsNone};
ghost use Rattle.std.specs.Int.{w32, w64, to_be_bytes};
ghost use Rattle.nfs_journal.specs.Blocks.{IsHeader, IsNoHeader, fields_text, header_text, is_allowed, kind_number, most_bytes};
ghost use Rattle.nfs_server.specs.Entries.{checked};
ghost use Rattle.nfs_xdr.specs.Written.{Appends};

use crate::fields::{are_same, long_number_of, number_of};
use nfs_checksum::checksum::crc32c;
use nfs_server::entry::CHECKSUM_BYTES;
use nfs_xdr::output::Output;

/// The most bytes of a block, without its header.
pub const MOST_BLOCK_BYTES: usize = 4 << 20;

/// The most bytes of a description that a journal has, without their checksum.
pub const MOST_DESCRIPTION_BYTES: usize = 1 << 20;

/// The number of the block that has the description: it stands after the exports with which a journal begins.
pub const DESCRIPTION_NUMBER: u64 = 2;

/// How many bytes the header of a block has.
pub const BLOCK_HEADER_BYTES: usize = FIELDS_BYTES + CHECKSUM_BYTES;

// What the block has, its number and its length.
const FIELDS_BYTES: usize = 16;

// By which numbers it is known what a block has.
const ENTRIES: u32 = 1;

const EXPORTS: u32 = 2;

const DESCRIPTION: u32 = 3;

/// What a block has.
#[derive(Clone, Copy, Debug, PartialEq, Eq)]
pub enum BlockKind {
    /// Entries.
    Entries,
    /// The first lines of a description, whose exports are in force from there on.
    Exports,
    /// The description that the journal began with, without its exports.
    Description,
}

/// The header of a block.
#[derive(Clone, Copy, Debug, PartialEq, Eq)]
pub struct BlockHeader {
    /// What it has.
    pub kind: BlockKind,
    /// Its number, from 1.
    pub number: u64,
    /// How many bytes it has after its header.
    pub len: u32,
}

/// Writes the header of a block.
pub fn encode_header(out: &mut Output, header: BlockHeader)
    requires { BLOCK_HEADER_BYTES ≤ out.old.room }
    ensures { Appends (header_text header) out.old out.new }
{
    let start = out.bytes().len();
    encode_fields(out, header);
    let checksum = crc32c(&out.bytes()[start..]);
    out.u32(checksum);
}

// Writes what a header has before its checksum.
fn encode_fields(out: &mut Output, header: BlockHeader)
    requires { FIELDS_BYTES ≤ out.old.room }
    ensures text { Appends (fields_text header) out.old out.new }
    ensures room { out.new.room + FIELDS_BYTES ≡ out.old.room }
    ensures after { length out.old.bytes ≤ length out.new.bytes }
{
    out.u32(header.kind.number());
    out.u64(header.number);
    out.u32(header.len);
}

/// Reads the header of a block. None exactly where no header has these bytes.
pub fn decode_header(bytes: &[u8]) -> Option<BlockHeader>
    ensures found { IfSome result (λ h. header_text h ≡ bytes.now) }
    ensures sizes { IfSome result IsHeader }
    ensures none { IsNone result → IsNoHeader bytes.now }
{
    if bytes.len() != BLOCK_HEADER_BYTES {
        return None;
    }
    let (fields, checksum) = bytes.split_at(FIELDS_BYTES);
    if !are_same(checksum, &crc32c(fields).to_be_bytes()) {
        return None;
    }
    let (kind, rest) = fields.split_at(4);
    match BlockKind::of(number_of(kind)) {
        Some(kind) => Some(decode_fields(kind, rest)),
        None => None,
    }
}

// Reads the fields after what the block has.
fn decode_fields(kind: BlockKind, fields: &[u8]) -> BlockHeader
    requires { length fields.now ≡ 12 }
    ensures kind { result.kind ≡ kind }
    ensures fields { to_be_bytes w64 result.number ++ to_be_bytes w32 result.len ≡ fields.now }
    ensures sizes { IsHeader result }
{
    let (number, len) = fields.split_at(8);
    BlockHeader {
        kind,
        number: long_number_of(number),
        len: number_of(len),
    }
}

impl BlockHeader {
    /// Whether such a block may stand where its number says, and be so long: a description stands second.
    pub fn is_allowed(self) -> bool
        ensures { result ≡ is_allowed self }
    {
        let may_stand = self.kind != BlockKind::Description || self.number == DESCRIPTION_NUMBER;
        may_stand && self.len as usize <= self.kind.most_bytes()
    }
}

impl BlockKind {
    // The number by which it is known.
    fn number(self) -> u32
        ensures { result ≡ kind_number self }
    {
        match self {
            BlockKind::Entries => ENTRIES,
            BlockKind::Exports => EXPORTS,
            BlockKind::Description => DESCRIPTION,
        }
    }

    // What is known by a number.
    fn of(number: u32) -> Option<BlockKind>
        ensures some { IfSome result (λ kind. kind_number kind ≡ number) }
        ensures none { IsNone result → (kind : BlockKind) → kind_number kind ≢ number }
    {
        match number {
            ENTRIES => Some(BlockKind::Entries),
            EXPORTS => Some(BlockKind::Exports),
            DESCRIPTION => Some(BlockKind::Description),
            _ => None,
        }
    }

    /// The most bytes of such a block, without its header.
    pub fn most_bytes(self) -> usize
        ensures { result ≡ most_bytes self }
    {
        match self {
            BlockKind::Entries | BlockKind::Exports => MOST_BLOCK_BYTES,
            BlockKind::Description => MOST_DESCRIPTION_BYTES + CHECKSUM_BYTES,
        }
    }
}

/// Writes what a block has that has lines of a description: these, and their checksum.
pub fn encode_lines(out: &mut Output, lines: &[u8])
    requires { length lines.now + CHECKSUM_BYTES ≤ out.old.room }
    ensures { Appends (checked lines.now) out.old out.new }
{
    out.part(lines);
    out.u32(crc32c(lines));
}

/// Reads these lines. None exactly where the checksum is not theirs.
pub fn decode_lines(bytes: &[u8]) -> Option<&[u8]>
    ensures found { IfSome result (λ lines. checked lines.now ≡ bytes.entry.now) }
    ensures none { IsNone result → (lines : List ℕ) → checked lines ≢ bytes.entry.now }
{
    if bytes.len() < CHECKSUM_BYTES {
        return None;
    }
    let (lines, checksum) = bytes.split_at(bytes.len() - CHECKSUM_BYTES);
    if are_same(checksum, &crc32c(lines).to_be_bytes()) {
        Some(lines)
    } else {
        None
    }
}
