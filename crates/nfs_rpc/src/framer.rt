//! Records from the chunks of a stream.
ghost use Rattle.std.specs.Prelude.{◌≡◌, ◌≢◌, ℕ, ◌+◌, ◌<◌, ◌≤◌, ◌↔◌, ◌⊎◌, [], ◌++◌, true, nat_lt, length, take, vec_len, vec_capacity};
ghost use Rattle.std.specs.Prelude.{IfOk, IfErr, IfSome, OnOk, OnErr, IsTrue, IsNone, IsErr, IsErrOf};
ghost use Rattle.nfs_rpc.specs.Progress.{Progress, Unfinished, Moves, BringsTooLong, AsksForRoom};
ghost use Rattle.nfs_rpc.specs.Lent.{BeginsWhole, HasNoneAtFront, IsAtFront, IsBefore, IsLent};
ghost use Rattle.nfs_rpc.specs.Stages.{begun_by, stage_of};

use crate::record::{HEADER_BYTES, read_header};
use nfs_xdr::chunks::append;
use std::alloc::{AllocError, Global};
use std::marker::Model;
use thiserror::Error;

/// Why no more of a stream is read.
#[derive(Clone, Copy, Debug, PartialEq, Eq, Error)]
pub enum FrameFault {
    /// A header brings a record's length above the limit.
    #[error("a record is longer than the limit")]
    TooLong,
    /// There is no memory for a record.
    #[error("out of memory")]
    Memory,
    /// One of the other two was answered before.
    #[error("the stream has failed")]
    Failed,
}

/// How much of a chunk was taken, and whether a record is whole now.
#[derive(Clone, Copy, Debug, PartialEq, Eq)]
pub struct Fed {
    /// The number of bytes taken.
    pub used: usize,
    /// Whether a record is whole.
    pub ready: bool,
}

/// A record of which a fragment has begun.
#[derive(Clone, Copy, Debug, PartialEq, Eq)]
pub struct Begun {
    /// The number of bytes of its content that have come.
    pub come: usize,
    /// The number of bytes that are left of the fragment.
    pub left: usize,
}

/// Where in a record a framer is.
#[derive(Clone, Copy, Debug, PartialEq, Eq)]
pub enum Stage {
    /// In a fragment's header, of which so many bytes have come.
    Header { bytes: [u8; 4], have: usize },
    /// In a fragment's content, of which so many bytes are left.
    Body { last: bool, left: usize },
    /// At the end of a whole record.
    Ready,
    /// At a fault.
    Failed,
}

impl Stage {
    /// Before the header of a fragment.
    pub const START: Stage = Stage::Header {
        bytes: [0; 4],
        have: 0,
    };
}

/// Takes the chunks of a stream, and gives its records (RFC 5531, section 11), each of at most
/// `limit` bytes.
#[derive(Drop)]
pub struct Framer {
    limit: usize,
    stage: Stage,
    content: Vec<u8>,
}

impl Model for Framer {
    ghost use Rattle.nfs_rpc.specs.Progress.{Progress};

    ghost Value = { Progress };

    ghost use Rattle.nfs_rpc.specs.Kept.{Keeps};

    ghost view = { λ a. record { limit = a.limit; stage = a.stage; content = a.content.items } };

    ghost invariant = { Keeps };
}

impl Framer {
    /// At the beginning of a stream whose records have at most `limit` bytes.
    pub fn new(alloc: Global, limit: usize) -> Framer
        ensures limit { result.limit ≡ limit }
        ensures start { result.stage ≡ Stage.START }
        ensures begins { Unfinished [] result }
    {
        Framer {
            limit,
            stage: Stage::START,
            content: Vec::new(alloc),
        }
    }

    /// Takes the next bytes of the stream, up to the end of the record or of the chunk. While a
    /// record is whole it takes none.
    ///
    /// `TooLong` comes as soon as a header is whole that brings the record's length above the
    /// limit, `Memory` where there is no memory for a fragment; after either, and only then,
    /// `Failed`.
    pub fn feed(&mut self, chunk: &[u8]) -> Result<Fed, FrameFault>
        ensures limit { self.new.limit ≡ self.old.limit }
        // What is taken stands at the front of the chunk, and is all of it unless a record is whole.
        ensures used { IfOk result (λ fed. fed.used ≤ length chunk.now) }
        ensures all { IfOk result (λ fed. IsTrue fed.ready ⊎ (fed.used ≡ length chunk.now)) }
        ensures ready { IfOk result (λ fed. IsTrue fed.ready ↔ (self.new.stage ≡ Stage.Ready)) }
        ensures some { self.old.stage ≢ Stage.Ready → IfOk result (λ fed. IsTrue fed.ready → 0 < fed.used) }
        // Whatever stood before, the bytes since the last whole record are now those and what was taken.
        ensures moves { IfOk result (λ fed. Moves self.old (take fed.used chunk.now) self.new) }
        ensures held { self.old.stage ≡ Stage.Ready → (result ≡ Ok (record { used = 0; ready = true })) × (self.new ≡ self.old) }
        // Each fault, and what stays.
        ensures too_long { IsErrOf result FrameFault.TooLong → BringsTooLong self.old chunk.now }
        ensures memory { IsErrOf result FrameFault.Memory → AsksForRoom self.old chunk.now }
        ensures failed { IsErrOf result FrameFault.Failed ↔ (self.old.stage ≡ Stage.Failed) }
        ensures ends { IsErr result ↔ (self.new.stage ≡ Stage.Failed) }
    {
        match self.stage {
            Stage::Failed => return Err(FrameFault::Failed),
            Stage::Ready => {
                return Ok(Fed {
                    used: 0,
                    ready: true,
                });
            }
            Stage::Header { .. } | Stage::Body { .. } => {}
        }
        let mut used = 0;
        while used < chunk.len() {
            match self.stage {
                Stage::Header { bytes, have } => {
                    match self.take_header(bytes, have, &chunk[used..]) {
                        Ok(n) => used += n,
                        Err(fault) => return Err(fault),
                    }
                }
                Stage::Body { last, left } => used += self.take_body(last, left, &chunk[used..]),
                Stage::Ready => return Ok(Fed { used, ready: true }),
                Stage::Failed => unreachable!(),
            }
        }
        Ok(Fed {
            used,
            ready: self.stage == Stage::Ready,
        })
    }

    // As much of a header as is there, of which so many bytes have come. A whole one is judged.
    fn take_header(
        &mut self,
        bytes: [u8; 4],
        have: usize,
        chunk: &[u8],
    ) -> Result<usize, FrameFault>
        requires stage { self.old.stage ≡ Stage.Header bytes have }
        requires have { have < 4 }
        requires some { 0 < length chunk.now }
        ensures limit { self.new.limit ≡ self.old.limit }
        ensures used { IfOk result (λ n. (0 < n) × (n ≤ length chunk.now)) }
        ensures moves { IfOk result (λ n. Moves self.old (take n chunk.now) self.new) }
        ensures alive { IsErr result ↔ (self.new.stage ≡ Stage.Failed) }
        ensures too_long { IsErrOf result FrameFault.TooLong → BringsTooLong self.old chunk.now }
        ensures memory { IsErrOf result FrameFault.Memory → AsksForRoom self.old chunk.now }
        ensures fault { IfErr result (λ e. e ≢ FrameFault.Failed) }
    {
        let (bytes, n) = fill_header(bytes, have, chunk);
        if have + n < 4 {
            self.stage = Stage::Header {
                bytes,
                have: have + n,
            };
            return Ok(n);
        }
        let (last, left) = read_header(bytes);
        if left > self.limit - self.content.len() {
            self.stage = Stage::Failed;
            return Err(FrameFault::TooLong);
        }
        if make_room(&mut self.content, left, self.limit).is_err() {
            self.stage = Stage::Failed;
            return Err(FrameFault::Memory);
        }
        self.stage = stage_before(last, left);
        Ok(n)
    }

    // As much of a fragment's content as is there, of which so many bytes are left.
    fn take_body(&mut self, last: bool, left: usize, chunk: &[u8]) -> usize
        requires stage { self.old.stage ≡ Stage.Body last left }
        requires some { 0 < length chunk.now }
        ensures limit { self.new.limit ≡ self.old.limit }
        ensures used { (0 < result) × (result ≤ length chunk.now) }
        ensures moves { Moves self.old (take result chunk.now) self.new }
        ensures alive { self.new.stage ≢ Stage.Failed }
    {
        let n = left.min(chunk.len());
        append(&mut self.content, &chunk[..n]);
        self.stage = stage_before(last, left - n);
        n
    }

    /// The record that stands at the front of the chunk, lent from it: where it stands there whole, in
    /// one fragment, and nothing of it came before; none elsewhere. Who takes it, with its header,
    /// takes what `feed` would take, and reads what `whole` would lend; the framer stays before the
    /// next record.
    pub fn lend<'a>(&self, chunk: &'a [u8]) -> Option<&'a [u8]>
        ensures lent { IfSome result (λ content. IsLent self.now content.now chunk.entry.now) }
        ensures some { IfSome result (λ content. BeginsWhole self.now content.now chunk.entry.now) }
        ensures none { IsNone result → IsBefore self.now → HasNoneAtFront self.now.limit chunk.entry.now }
    {
        if !self.is_before_record() {
            return None;
        }
        record_at_front(chunk, self.limit)
    }

    /// Another framer at the same place of its stream, with the same bytes. Refused without memory.
    pub fn copied(&self) -> Result<Framer, AllocError>
        ensures { IfOk result (λ framer. framer ≡ self.now) }
    {
        let alloc = *self.content.allocator();
        let mut content = Vec::with_capacity(alloc, self.content.capacity())?;
        append(&mut content, self.content.as_slice());
        Ok(Framer {
            limit: self.limit,
            stage: self.stage,
            content,
        })
    }

    /// The record of which a fragment has begun and is not whole yet.
    pub fn begun(&self) -> Option<Begun>
        ensures { result ≡ begun_by (length self.now.content) self.now.stage }
    {
        match self.stage {
            Stage::Body { last: _, left } => Some(Begun {
                come: self.content.len(),
                left,
            }),
            _ => None,
        }
    }

    // Whether nothing of a record came yet, but for fragments without content.
    fn is_before_record(&self) -> bool
        ensures { IsTrue result ↔ IsBefore self.now }
    {
        match self.stage {
            Stage::Header { bytes: _, have } => have == 0 && self.content.is_empty(),
            _ => false,
        }
    }

    /// The whole record, lent.
    pub fn whole(&self) -> &[u8]
        requires { self.now.stage ≡ Stage.Ready }
        ensures { result.now ≡ self.now.content }
    {
        self.content.as_slice()
    }

    /// Goes on to the next record, and keeps the room that was made.
    pub fn next(&mut self)
        requires { self.old.stage ≡ Stage.Ready }
        ensures limit { self.new.limit ≡ self.old.limit }
        ensures begins { Unfinished [] self.new }
        ensures start { self.new.stage ≡ Stage.START }
    {
        self.content.clear();
        self.stage = Stage::START;
    }
}

// The record that stands whole at the front of some bytes, in one fragment of at most `limit` bytes.
fn record_at_front(bytes: &[u8], limit: usize) -> Option<&[u8]>
    ensures some { IfSome result (λ content. IsAtFront limit content.now bytes.entry.now) }
    ensures none { IsNone result → HasNoneAtFront limit bytes.entry.now }
{
    if bytes.len() < HEADER_BYTES {
        return None;
    }
    let (header, after) = bytes.split_at(HEADER_BYTES);
    let (last, len) = read_header([header[0], header[1], header[2], header[3]]);
    if !last || len > limit || len > after.len() {
        return None;
    }
    Some(&after[..len])
}

// Makes room for so many bytes more: just for these, but at least twice what there was, so that the
// bytes of many small fragments are moved a few times only, and at most for `limit` in all.
fn make_room(content: &mut Vec<u8>, more: usize, limit: usize) -> Result<(), AllocError>
    requires { vec_len content.old + more ≤ limit }
    ensures items { content.new.items ≡ content.old.items }
    ensures len { vec_len content.new ≡ vec_len content.old }
    ensures room { OnOk result (vec_len content.new + more ≤ vec_capacity content.new) }
    ensures bound { vec_capacity content.old ≤ limit → vec_capacity content.new ≤ limit }
    ensures full { OnErr result (vec_capacity content.old < vec_len content.old + more) }
{
    let (len, room) = (content.len(), content.capacity());
    if more <= room - len {
        return Ok(());
    }
    let wanted = (len + more).max(room.saturating_mul(2)).min(limit);
    content.reserve_exact(wanted - len)
}

// What comes next where so many bytes of a fragment are left.
fn stage_before(last: bool, left: usize) -> Stage
    ensures stage { result ≡ stage_of (nat_lt 0 left) last left }
    ensures alive { result ≢ Stage.Failed }
{
    if left > 0 {
        Stage::Body { last, left }
    } else if last {
        Stage::Ready
    } else {
        Stage::START
    }
}

// The header, of which so many bytes had come, with the first bytes of the chunk, and how many
// these are.
fn fill_header(mut bytes: [u8; 4], have: usize, chunk: &[u8]) -> ([u8; 4], usize)
    requires { have < 4 }
    ensures used { result.1 ≤ length chunk.now }
    ensures some { 0 < length chunk.now → 0 < result.1 }
    ensures within { have + result.1 ≤ 4 }
    ensures filled { take (have + result.1) result.0 ≡ take have bytes ++ take result.1 chunk.now }
{
    let n = (4 - have).min(chunk.len());
    bytes[have..have + n].copy_from_slice(&chunk[..n]);
    (bytes, n)
}
