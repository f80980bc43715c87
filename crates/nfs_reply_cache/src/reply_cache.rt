//! The cached replies, the most recently used first.
ghost use Rattle.std.specs.Prelude.{◌≡◌, ℕ, List, false, ◌<◌, ◌≤◌, [], None, Some, length, is_some, IfOk, IfSome, IfNone};
ghost use Rattle.std.specs.Prelude.{slice_get, option_map, option_copied, All};
ghost use Rattle.std.specs.List.{remove};
ghost use Rattle.std.specs.VecDeque.{deque_len, deque_capacity};
ghost use Rattle.nfs_reply_cache.specs.Places.{cached_reply, with_reply};
ghost use Rattle.nfs_reply_cache.specs.Shown.{IsBucketed, IsFirstFor, bucket_of, key_of, places_of, moved_first};

use crate::buckets::{Buckets, bucket_of};
pub use crate::cached_reply::{CachedReply, MAX_KEPT_BYTES};
use nfs_exports::addr::Addr;
use std::alloc::{AllocError, Global};
use std::collections::VecDeque;
use std::marker::Model;

/// Replies, each kept for the address and the record that it answered. Contracts see their places,
/// the most recently used first, and how many there may be.
///
/// A place costs the bytes of its record, up to twice as many, or 256, and some 600 more; a server
/// bounds the records of its streams. There is one place more, for the next record.
#[derive(Drop)]
pub struct ReplyCache {
    // The most recently used first, with room for as many as there may be.
    kept: VecDeque<CachedReply>,
    buckets: Buckets,
    most: usize,
    // One that is free, whose memory is for the next record.
    spare: Option<CachedReply>,
}

impl Model for ReplyCache {
    ghost use Rattle.nfs_reply_cache.specs.Places.{Replies};
    ghost use Rattle.nfs_reply_cache.specs.Shown.{places_of};

    ghost Value = { Replies };

    ghost view = { λ k. record { places = places_of k.kept.items; most = k.most } };

    ghost use Rattle.nfs_reply_cache.specs.Keeps.{Keeps};

    ghost invariant = { Keeps };
}

impl ReplyCache {
    /// No reply, with room for so many. Refused where there is no memory.
    pub fn new(alloc: Global, most: usize) -> Result<ReplyCache, AllocError>
        requires some { 0 < most }
        requires few { most < 65536 }
        ensures places { IfOk result (λ kept. kept.places ≡ []) }
        ensures most { IfOk result (λ kept. kept.most ≡ most) }
    {
        Ok(ReplyCache {
            kept: VecDeque::with_capacity(alloc, most)?,
            buckets: Buckets::new(alloc)?,
            most,
            spare: None,
        })
    }

    /// How many replies are cached.
    pub fn len(&self) -> usize
        ensures { result ≡ length self.now.places }
    {
        self.kept.len()
    }

    /// How many may be cached.
    pub fn most(&self) -> usize
        ensures { result ≡ self.now.most }
    {
        self.most
    }

    /// Whether a reply is kept for a record from an address; its place then moves to the front. It
    /// takes no memory.
    pub fn find(&mut self, addr: Addr, bytes: &[u8]) -> bool
        ensures found { result ≡ is_some (cached_reply (addr, bytes.now) self.old.places) }
        ensures none { result ≡ false → self.new.places ≡ self.old.places }
        ensures absent { result ≡ false → cached_reply (addr, bytes.now) self.new.places ≡ None }
        ensures front { (reply : List ℕ) → cached_reply (addr, bytes.now) self.old.places ≡ Some reply
            → self.new.places ≡ with_reply self.old.most (addr, bytes.now) (Some reply) self.old.places }
        ensures most { self.new.most ≡ self.old.most }
    {
        let bucket = bucket_of(addr, bytes);
        if self.buckets.is_empty(bucket) {
            return false;
        }
        match position_of(&self.kept, bucket, addr, bytes) {
            Some(place) => {
                move_first(&mut self.kept, place);
                true
            }
            None => false,
        }
    }

    /// Whether a reply is cached for a record from an address; nothing moves.
    pub fn holds(&self, addr: Addr, bytes: &[u8]) -> bool
        ensures { result ≡ is_some (cached_reply (addr, bytes.now) self.now.places) }
    {
        let bucket = bucket_of(addr, bytes);
        if self.buckets.is_empty(bucket) {
            return false;
        }
        match position_of(&self.kept, bucket, addr, bytes) {
            Some(_) => true,
            None => false,
        }
    }

    /// The reply of the place at the front.
    pub fn first(&self) -> Option<&[u8]>
        ensures value { option_copied result ≡ option_map (λ p. p.reply) (slice_get self.now.places 0) }
        ensures short { IfSome result (λ reply. length reply.now ≤ MAX_KEPT_BYTES) }
    {
        match self.kept.front() {
            Some(kept) => Some(kept.reply.as_slice()),
            None => None,
        }
    }

    /// A place for the reply to a record, which [`ReplyCache::keep`] or [`ReplyCache::release`] takes. The
    /// cached replies stay. Refused where there is no memory.
    pub fn prepare(&mut self, addr: Addr, bytes: &[u8]) -> Result<CachedReply, AllocError>
        ensures key { IfOk result (λ place. key_of place ≡ (addr, bytes.now)) }
        ensures bucketed { IfOk result IsBucketed }
        ensures same { self.new ≡ self.old }
    {
        let bucket = bucket_of(addr, bytes);
        let Some(mut place) = self.spare.take() else {
            return CachedReply::new(*self.kept.allocator(), bucket, addr, bytes);
        };
        match place.renew(bucket, addr, bytes) {
            Ok(()) => Ok(place),
            Err(error) => {
                self.spare = Some(place);
                Err(error)
            }
        }
    }

    /// Caches the reply to the record of a place, which has none: it goes to the front, and the last one goes
    /// where there are too many. It takes no memory.
    pub fn keep(&mut self, mut place: CachedReply, reply: &[u8])
        requires short { length reply.now ≤ MAX_KEPT_BYTES }
        requires bucketed { IsBucketed place }
        requires absent { cached_reply (key_of place) self.old.places ≡ None }
        ensures places { self.new.places ≡ with_reply self.old.most (key_of place) (Some reply.now) self.old.places }
        ensures most { self.new.most ≡ self.old.most }
    {
        place.answer(reply);
        if self.kept.len() < self.most {
            self.buckets.add(place.bucket);
            self.kept.push_front_reserved(place);
            return;
        }
        let Some(last) = self.kept.pop_back() else {
            unreachable!()
        };
        self.buckets.remove(last.bucket);
        self.buckets.add(place.bucket);
        self.kept.push_front_reserved(place);
        self.spare = Some(last);
    }

    /// Takes back a place whose record gets no reply. The cached replies stay.
    pub fn release(&mut self, place: CachedReply)
        ensures { self.new ≡ self.old }
    {
        self.spare = Some(place);
    }
}

// Where the reply for a record is kept.
fn position_of(kept: &VecDeque<CachedReply>, bucket: u16, addr: Addr, bytes: &[u8]) -> Option<usize>
    requires bucket { bucket ≡ bucket_of (addr, bytes.now) }
    requires bucketed { All IsBucketed kept.now.items }
    requires len { deque_len kept.now ≡ length kept.now.items }
    ensures none { IfNone result (cached_reply (addr, bytes.now) (places_of kept.now.items) ≡ None) }
    ensures some { IfSome result (λ place. IsFirstFor (addr, bytes.now) place kept.now.items) }
{
    for place in 0..kept.len() {
        if kept[place].is_for(bucket, addr, bytes) {
            return Some(place);
        }
    }
    None
}

// What is kept at a place goes first.
fn move_first(kept: &mut VecDeque<CachedReply>, place: usize)
    requires within { place < length kept.old.items }
    requires len { deque_len kept.old ≡ length kept.old.items }
    requires room { deque_len kept.old ≤ deque_capacity kept.old }
    ensures items { kept.new.items ≡ moved_first place kept.old.items }
    ensures capacity { deque_capacity kept.new ≡ deque_capacity kept.old }
    ensures len { deque_len kept.new ≡ deque_len kept.old }
{
    if let Some(found) = kept.remove(place) {
        kept.push_front_reserved(found);
    }
}
