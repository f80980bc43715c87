//! How many of the kept records fall into each bucket.
ghost use Rattle.std.specs.Prelude.{◌≡◌, ◌+◌, ◌-◌, ◌<◌, ℕ, length, IfOk, nat_eq, slice_set};
ghost use Rattle.nfs_reply_cache.specs.Shown.{bucket_of, count_at, xid_end};

use nfs_exports::addr::Addr;
use std::alloc::{AllocError, Global};
use std::marker::Model;

// One for each number of 16 bits, so that a client's last calls, which it counts up, have one each.
const BUCKETS: usize = 65_536;

// An odd factor, by which the buckets of neighbouring addresses lie far apart.
const ADDRESS_FACTOR: usize = 40_503;

/// The bucket of a record: by its address and the last two bytes of the call's number.
#[inline(always)]
pub(crate) fn bucket_of(addr: Addr, bytes: &[u8]) -> u16
    ensures { result ≡ bucket_of (addr, bytes.now) }
{
    ((xid_end(bytes) + addr.0 as usize * ADDRESS_FACTOR) % BUCKETS) as u16
}

// The last two bytes of a call's number.
#[inline(always)]
fn xid_end(bytes: &[u8]) -> usize
    ensures value { result ≡ xid_end bytes.now }
    ensures bound { result < 65536 }
{
    if bytes.len() < 4 {
        return 0;
    }
    bytes[2] as usize * 256 + bytes[3] as usize
}

/// How many kept records fall into each bucket, so that most records that aren't kept are recognized by a
/// look at their bucket alone. Contracts see the counts.
#[derive(Drop)]
pub(crate) struct Buckets {
    counts: Vec<u16>,
}

impl Model for Buckets {
    ghost use Rattle.std.specs.Prelude.{◌≡◌, List, ℕ};
    ghost use Rattle.std.specs.Vec.{vec_len};

    ghost Value = { List ℕ };

    ghost view = { λ b. b.counts.items };

    ghost invariant = { λ b. vec_len b.counts ≡ 65536 };
}

impl Buckets {
    /// Nothing is in any.
    pub(crate) fn new(alloc: Global) -> Result<Buckets, AllocError>
        ensures counts { IfOk result (λ buckets. (b : ℕ) → count_at buckets b ≡ 0) }
        ensures all { IfOk result (λ buckets. length buckets ≡ 65536) }
    {
        let mut counts = Vec::new(alloc);
        counts.resize(BUCKETS, 0)?;
        Ok(Buckets { counts })
    }

    /// Whether nothing is in it.
    #[inline(always)]
    pub(crate) fn is_empty(&self, bucket: u16) -> bool
        ensures { result ≡ nat_eq (count_at self.now bucket) 0 }
    {
        self.counts[usize::from(bucket)] == 0
    }

    /// One more is in it.
    #[inline(always)]
    pub(crate) fn add(&mut self, bucket: u16)
        requires { count_at self.old bucket < 65535 }
        ensures { self.new ≡ slice_set self.old bucket (count_at self.old bucket + 1) }
    {
        self.counts[usize::from(bucket)] += 1;
    }

    /// One less is in it.
    #[inline(always)]
    pub(crate) fn remove(&mut self, bucket: u16)
        requires { 0 < count_at self.old bucket }
        ensures { self.new ≡ slice_set self.old bucket (count_at self.old bucket - 1) }
    {
        self.counts[usize::from(bucket)] -= 1;
    }
}
