//! A link for tests, over memory, that passes on little at a time, and fails on demand.
ghost use Rattle.std.specs.Prelude.{◌≡◌, ◌-◌, ◌<◌, ◌≤◌, [], Some, true, false, length, take, IsTrue, IfOk, OnErr};
ghost use Rattle.nfs_xdr.specs.Known.{Grows, Receives};

use nfs_xdr::device::DeviceFault;
use nfs_xdr::link::{Came, Link};
use std::alloc::Global;
use std::marker::Model;

/// A link that gives some bytes and keeps what is sent: at most `step` a call, none at every second
/// call, and the fault at a call of a given number and from then on.
#[derive(Drop)]
pub struct StutterLink<'a> {
    incoming: &'a [u8],
    outgoing: Vec<u8>,
    step: usize,
    left: u64,
    idle: bool,
    ended: bool,
}

impl<'a> Model for StutterLink<'a> {
    ghost use Rattle.std.specs.Prelude.{◌<◌};
    ghost use Rattle.rows.specs.Stutters.{Linked};

    ghost Value = { Linked };

    ghost view = { λ s. record { incoming = s.incoming.now; outgoing = s.outgoing.items; step = s.step; left = s.left; failed = s.ended } };

    ghost invariant = { λ s. 0 < s.step };
}

impl<'a> StutterLink<'a> {
    /// A link on which these bytes come, at most `step` a call, and which fails at its `k`-th call.
    pub fn new(alloc: Global, incoming: &'a [u8], step: usize, k: u64) -> StutterLink<'a>
        requires step { 0 < step }
        requires k { 0 < k }
        ensures { result ≡ record { incoming = incoming.entry.now; outgoing = []; step = step; left = k - 1; failed = false } }
    {
        StutterLink {
            incoming,
            outgoing: Vec::new(alloc),
            step,
            left: k - 1,
            idle: false,
            ended: false,
        }
    }

    /// What was sent.
    pub fn sent(&self) -> &[u8]
        ensures { result.now ≡ self.now.outgoing }
    {
        self.outgoing.as_slice()
    }

    // How many bytes this call passes on at most, or the fault.
    fn most(&mut self) -> Result<usize, DeviceFault>
        ensures same { (self.new.incoming ≡ self.old.incoming) × (self.new.outgoing ≡ self.old.outgoing) × (self.new.step ≡ self.old.step) }
        ensures bound { IfOk result (λ n. n ≤ self.old.step) }
        ensures fault { OnErr result (self.new.failed ≡ true) }
    {
        if self.ended || self.left == 0 {
            self.ended = true;
            return Err(DeviceFault);
        }
        self.left -= 1;
        self.idle = !self.idle;
        Ok(if self.idle { 0 } else { self.step })
    }
}

impl Link for StutterLink<'_> {
    ghost outgoing = { λ s. Some s.outgoing };

    ghost incoming = { λ s. Some s.incoming };

    ghost failed = { λ s. s.failed };

    ghost reports = { λ _ _ _ _. Unit {0} };

    fn send(&mut self, bytes: &[u8]) -> Result<usize, DeviceFault> {
        let n = self.most()?.min(bytes.len());
        match self.outgoing.extend_from_slice(&bytes[..n]) {
            Ok(()) => Ok(n),
            Err(_) => {
                self.ended = true;
                Err(DeviceFault)
            }
        }
    }

    fn receive(&mut self, buffer: &mut [u8]) -> Result<Came, DeviceFault> {
        let most = self.most()?;
        if most > 0 && self.incoming.is_empty() {
            return Ok(Came::End);
        }
        let n = most.min(self.incoming.len()).min(buffer.len());
        if n == 0 {
            return Ok(Came::Nothing);
        }
        let (now, later) = self.incoming.split_at(n);
        buffer[..n].copy_from_slice(now);
        self.incoming = later;
        Ok(Came::Bytes(n))
    }
}
