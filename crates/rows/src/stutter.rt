//! A device for tests that passes on little at a time, and fails on demand.
ghost use Rattle.std.specs.Prelude.{◌≡◌, ◌+◌, ◌-◌, ◌<◌, ◌≤◌, ◌⊎◌, [], length, take, true, false, IsTrue, IfOk, OnOk, OnErr};
ghost use Rattle.nfs_xdr.specs.Known.{Grows, Shrinks, IsAtEnd};

use nfs_xdr::device::{ByteIn, ByteOut, DeviceFault};
use std::marker::Model;

/// A device over another one, which passes on at most `step` bytes a call, and fails at a call
/// of a given number and from then on.
#[derive(Drop)]
pub struct Stutter<D> {
    inner: D,
    step: usize,
    left: u64,
    ended: bool,
}

impl<D> Model for Stutter<D> {
    ghost use Rattle.std.specs.Prelude.{◌<◌};
    ghost use Rattle.rows.specs.Stutters.{Stuttering};

    ghost Value = { Stuttering D };

    ghost view = { λ s. record { inner = s.inner; step = s.step; left = s.left; failed = s.ended } };

    ghost invariant = { λ s. 0 < s.step };
}

impl<D> Stutter<D> {
    /// A device that passes on at most `step` bytes a call, and fails at its `k`-th call.
    pub fn new(inner: D, step: usize, k: u64) -> Stutter<D>
        requires step { 0 < step }
        requires k { 0 < k }
        ensures { result ≡ record { inner = inner; step = step; left = k - 1; failed = false } }
    {
        Stutter {
            inner,
            step,
            left: k - 1,
            ended: false,
        }
    }

    /// The inner device.
    pub fn into_inner(self) -> D
        ensures { result ≡ self.inner }
    {
        let Stutter {
            inner,
            step: _,
            left: _,
            ended: _,
        } = self;
        inner
    }

    // Whether this call is to be passed on.
    fn goes_on(&mut self) -> bool
        ensures same { (self.new.inner ≡ self.old.inner) × (self.new.step ≡ self.old.step) }
        ensures goes { IsTrue result → (self.old.failed ≡ false) × (self.new.failed ≡ false) × (self.old.left ≡ self.new.left + 1) }
        ensures stops { result ≡ false → (self.new.failed ≡ true) × ((self.old.failed ≡ true) ⊎ (self.old.left ≡ 0)) }
    {
        if self.ended || self.left == 0 {
            self.ended = true;
            return false;
        }
        self.left -= 1;
        true
    }
}

impl<D: ByteOut> ByteOut for Stutter<D> {
    ghost contents = { λ s. D.contents s.inner };

    ghost failed = { λ s. s.failed };

    fn write(&mut self, bytes: &[u8]) -> Result<usize, DeviceFault>
        ensures count { IfOk result (λ n. n ≤ length bytes.now) }
        ensures some { 0 < length bytes.now → IfOk result (λ n. 0 < n) }
        ensures taken { IfOk result (λ n. Grows (D.contents self.old.inner) (take n bytes.now) (D.contents self.new.inner)) }
        ensures alive { OnOk result ((self.old.failed ≡ false) × (self.new.failed ≡ false)) }
        ensures fault { OnErr result ((self.new.failed ≡ true) × Grows (D.contents self.old.inner) [] (D.contents self.new.inner)) }
        ensures step { IfOk result (λ n. n ≤ self.old.step) }
        ensures turn { OnOk result (self.old.left ≡ self.new.left + 1) }
        ensures same { self.new.step ≡ self.old.step }
        ensures due { OnErr result ((self.old.failed ≡ true) ⊎ ((self.old.left ≡ 0) ⊎ (D.failed self.new.inner ≡ true))) }
    {
        if !self.goes_on() {
            return Err(DeviceFault);
        }
        match self.inner.write(&bytes[..bytes.len().min(self.step)]) {
            Ok(n) => Ok(n),
            Err(fault) => {
                self.ended = true;
                Err(fault)
            }
        }
    }
}

impl<D: ByteIn> ByteIn for Stutter<D> {
    ghost remaining = { λ s. D.remaining s.inner };

    ghost failed = { λ s. s.failed };

    ghost gives = { λ old bytes new. D.gives old.inner bytes new.inner };

    ghost breaks = { λ old new. D.breaks old.inner new.inner ⊎ (new.inner ≡ old.inner) };

    fn read(&mut self, buffer: &mut [u8]) -> Result<usize, DeviceFault>
        ensures count { IfOk result (λ n. n ≤ length buffer.new) }
        ensures gives { IfOk result (λ n. D.gives self.old.inner (take n buffer.new) self.new.inner) }
        ensures given { IfOk result (λ n. Shrinks (D.remaining self.old.inner) (take n buffer.new) (D.remaining self.new.inner)) }
        ensures end { IfOk result (λ n. n ≡ 0 → 0 < length buffer.new → IsAtEnd (D.remaining self.new.inner)) }
        ensures alive { OnOk result ((self.old.failed ≡ false) × (self.new.failed ≡ false)) }
        ensures fault { OnErr result ((self.new.failed ≡ true) × Shrinks (D.remaining self.old.inner) [] (D.remaining self.new.inner)) }
        ensures breaks { OnErr result (D.breaks self.old.inner self.new.inner ⊎ (self.new.inner ≡ self.old.inner)) }
        ensures step { IfOk result (λ n. n ≤ self.old.step) }
        ensures turn { OnOk result (self.old.left ≡ self.new.left + 1) }
        ensures same { self.new.step ≡ self.old.step }
        ensures due { OnErr result ((self.old.failed ≡ true) ⊎ ((self.old.left ≡ 0) ⊎ (D.failed self.new.inner ≡ true))) }
    {
        if !self.goes_on() {
            return Err(DeviceFault);
        }
        let room = buffer.len().min(self.step);
        match self.inner.read(&mut buffer[..room]) {
            Ok(n) => Ok(n),
            Err(fault) => {
                self.ended = true;
                Err(fault)
            }
        }
    }
}
