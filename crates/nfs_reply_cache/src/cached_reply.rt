//! A reply that is kept.
ghost use Rattle.std.specs.Prelude.{◌≡◌, ◌≤◌, [], true, length, vec_len, vec_capacity, IfOk, OnOk, OnErr};
ghost use Rattle.nfs_reply_cache.specs.Places.{place_for, same};
ghost use Rattle.nfs_reply_cache.specs.Shown.{IsBucketed, bucket_of, key_of, most_room, place_of};

use arrayvec::ArrayVec;
use nfs_exports::addr::Addr;
use nfs_xdr::chunks::append;
use std::alloc::{AllocError, Global};

/// The most bytes of a cached reply. No procedure that changes files has a longer one.
pub const MAX_KEPT_BYTES: usize = 512;

// The room of a record's list at the least: most calls fit, so that their lists go from one to the next.
const LEAST_ROOM: usize = 256;

/// A reply, with the record that it answered, where that came from, and its bucket.
#[derive(Drop)]
pub struct CachedReply {
    pub(crate) addr: Addr,
    pub(crate) bucket: u16,
    pub(crate) record: Vec<u8>,
    // Apart, so that little is moved where the order changes.
    pub(crate) reply: Box<ArrayVec<u8, 512>>,
}

impl CachedReply {
    /// One with no reply yet. Refused where there is no memory.
    pub(crate) fn new(
        alloc: Global,
        bucket: u16,
        addr: Addr,
        bytes: &[u8],
    ) -> Result<CachedReply, AllocError>
        requires { bucket ≡ bucket_of (addr, bytes.now) }
        ensures place { IfOk result (λ kept. place_of kept ≡ place_for (addr, bytes.now) []) }
        ensures bucket { IfOk result (λ kept. kept.bucket ≡ bucket) }
        ensures bucketed { IfOk result IsBucketed }
    {
        let mut record = list_for(alloc, bytes.len())?;
        append(&mut record, bytes);
        Ok(CachedReply {
            addr,
            bucket,
            record,
            reply: Box::new(alloc, ArrayVec::new())?,
        })
    }

    /// Whether it is kept for this record, whose bucket this is.
    #[inline(always)]
    pub(crate) fn is_for(&self, bucket: u16, addr: Addr, bytes: &[u8]) -> bool
        requires bucket { bucket ≡ bucket_of (addr, bytes.now) }
        requires bucketed { IsBucketed self.now }
        ensures { result ≡ same (addr, bytes.now) (key_of self.now) }
    {
        self.bucket == bucket && self.addr == addr && self.record.as_slice() == bytes
    }

    /// Makes it one for another record, with no reply yet. Refused where there is no memory; it is
    /// then as before.
    pub(crate) fn renew(&mut self, bucket: u16, addr: Addr, bytes: &[u8]) -> Result<(), AllocError>
        requires { bucket ≡ bucket_of (addr, bytes.now) }
        ensures place { OnOk result (place_of self.new ≡ place_for (addr, bytes.now) []) }
        ensures bucket { OnOk result (self.new.bucket ≡ bucket) }
        ensures bucketed { OnOk result (IsBucketed self.new) }
        ensures err { OnErr result (self.new ≡ self.old) }
    {
        make_room(&mut self.record, bytes.len())?;
        self.addr = addr;
        self.bucket = bucket;
        append(&mut self.record, bytes);
        self.reply.clear();
        Ok(())
    }

    /// Makes it the reply.
    #[inline(always)]
    pub(crate) fn answer(&mut self, reply: &[u8])
        requires { length reply.now ≤ MAX_KEPT_BYTES }
        ensures place { place_of self.new ≡ place_for (key_of self.old) reply.now }
        ensures bucket { self.new.bucket ≡ self.old.bucket }
    {
        self.reply.clear();
        self.reply.try_extend_from_slice(reply).unwrap();
    }
}

// An empty list with room for so many bytes, and at most for twice as many, or 256.
fn list_for(alloc: Global, len: usize) -> Result<Vec<u8>, AllocError>
    ensures empty { IfOk result (λ list. list.items ≡ []) }
    ensures len { IfOk result (λ list. vec_len list ≡ 0) }
    ensures room { IfOk result (λ list. len ≤ vec_capacity list) }
    ensures most { IfOk result (λ list. vec_capacity list ≤ most_room len) }
{
    Vec::with_capacity(alloc, len.max(LEAST_ROOM))
}

// Makes a list such a one. Refused where there is no memory; it is then as before.
fn make_room(list: &mut Vec<u8>, len: usize) -> Result<(), AllocError>
    ensures empty { OnOk result (list.new.items ≡ []) }
    ensures len { OnOk result (vec_len list.new ≡ 0) }
    ensures room { OnOk result (len ≤ vec_capacity list.new) }
    ensures most { OnOk result (vec_capacity list.new ≤ most_room len) }
    ensures err { OnErr result (list.new ≡ list.old) }
{
    if suits(list.capacity(), len) {
        list.clear();
    } else {
        *list = list_for(*list.allocator(), len)?;
    }
    Ok(())
}

// Whether a list with so much room is taken for so many bytes: where they fit, and take half of it, or
// it is a small one.
fn suits(room: usize, len: usize) -> bool
    ensures fits { result ≡ true → len ≤ room }
    ensures most { result ≡ true → room ≤ most_room len }
{
    len <= room && (room <= LEAST_ROOM || room / 2 <= len)
}
