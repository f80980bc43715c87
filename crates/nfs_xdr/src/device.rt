//! Devices that take or give bytes, and may fail: sockets, files, memory, and fakes for tests.
ghost use Rattle.std.specs.Prelude.{◌≡◌, ℕ, ◌<◌, ◌≤◌, List, [], Option, Bool, true, false, length, take, IfOk, OnOk, OnErr, IsErr};
ghost use Rattle.nfs_xdr.specs.Known.{Grows, GrowsByPart, Shrinks, StaysFailed, IsAtEnd};

use std::io::{Read, Write};
use std::marker::Model;

/// A device failed, and answers nothing else from then on.
#[derive(Clone, Copy, Debug, PartialEq, Eq)]
pub struct DeviceFault;

/// What gives bytes, as std's `Read`, but that a fault is for good.
pub trait ByteIn {
    /// The bytes that are left, where they are known.
    ghost remaining: { Self → Option (List ℕ) };

    /// Whether a call answered the fault.
    ghost failed: { Self → Bool };

    /// That a call which gave these bytes leads from one state to another.
    ghost gives: { Self → List ℕ → Self → Type 0 };

    /// That a call which answered the fault leads from one state to another.
    ghost breaks: { Self → Self → Type 0 };

    /// Gives some bytes; none, where there is room for some, only at the end. A call that answers the fault
    /// gives none.
    fn read(&mut self, buffer: &mut [u8]) -> Result<usize, DeviceFault>
        ensures count { IfOk result (λ n. n ≤ length buffer.new) }
        ensures gives { IfOk result (λ n. gives self.old (take n buffer.new) self.new) }
        ensures given { IfOk result (λ n. Shrinks (remaining self.old) (take n buffer.new) (remaining self.new)) }
        ensures end { IfOk result (λ n. n ≡ 0 → 0 < length buffer.new → IsAtEnd (remaining self.new)) }
        ensures alive { OnOk result ((failed self.old ≡ false) × (failed self.new ≡ false)) }
        ensures breaks { OnErr result (breaks self.old self.new) }
        ensures fault { OnErr result ((failed self.new ≡ true) × Shrinks (remaining self.old) [] (remaining self.new)) };
}

/// What takes bytes, as std's `Write`, but that a fault is for good and that some of some bytes
/// are taken.
pub trait ByteOut {
    /// The bytes that were taken, where they are known.
    ghost contents: { Self → Option (List ℕ) };

    /// Whether a call answered the fault.
    ghost failed: { Self → Bool };

    /// Takes some first bytes, at least one where there is one.
    fn write(&mut self, bytes: &[u8]) -> Result<usize, DeviceFault>
        ensures count { IfOk result (λ n. n ≤ length bytes.now) }
        ensures some { 0 < length bytes.now → IfOk result (λ n. 0 < n) }
        ensures taken { IfOk result (λ n. Grows (contents self.old) (take n bytes.now) (contents self.new)) }
        ensures alive { OnOk result ((failed self.old ≡ false) × (failed self.new ≡ false)) }
        ensures fault { OnErr result ((failed self.new ≡ true) × Grows (contents self.old) [] (contents self.new)) };
}

/// Writes all of the bytes, in as many calls as the device wants. At a fault some first ones
/// were written; none where the device had failed before.
pub fn write_all<W: ByteOut>(out: &mut W, bytes: &[u8]) -> Result<(), DeviceFault>
    ensures ok { OnOk result (Grows (W.contents out.old) bytes.now (W.contents out.new)) }
    ensures part { OnErr result (GrowsByPart (W.contents out.old) bytes.now (W.contents out.new)) }
    ensures fault { OnErr result (W.failed out.new ≡ true) }
    ensures alive { OnOk result (W.failed out.new ≡ W.failed out.old) }
    ensures stays { StaysFailed (W.failed out.old) (W.contents out.old) (W.failed out.new) (W.contents out.new) }
{
    let mut at = 0;
    while at < bytes.len() {
        match out.write(&bytes[at..]) {
            Ok(n) => at += n,
            Err(fault) => return Err(fault),
        }
    }
    Ok(())
}

/// A device over std's `Read` or `Write`. An error, or a write that takes none of some bytes, is
/// the fault, and each call from then on answers it again without a call of the inner device.
#[derive(Drop)]
pub struct Device<D> {
    inner: D,
    ended: bool,
}

impl<D> Model for Device<D> {
    ghost use Rattle.nfs_xdr.specs.Driven.{Driven};

    ghost Value = { Driven D };

    ghost view = { λ d. record { inner = d.inner; failed = d.ended } };
}

impl<D> Device<D> {
    /// A device that has not failed.
    pub fn new(inner: D) -> Device<D>
        ensures { result ≡ record { inner = inner; failed = false } }
    {
        Device {
            inner,
            ended: false,
        }
    }

    /// The inner device.
    pub fn into_inner(self) -> D
        ensures { result ≡ self.inner }
    {
        let Device { inner, ended: _ } = self;
        inner
    }
}

impl<D: Read> ByteIn for Device<D> {
    ghost remaining = { λ d. D.remaining d.inner };

    ghost failed = { λ d. d.failed };

    ghost gives = { λ old bytes new. Shrinks (D.remaining old.inner) bytes (D.remaining new.inner) };

    ghost breaks = { λ old new. Shrinks (D.remaining old.inner) [] (D.remaining new.inner) };

    fn read(&mut self, buffer: &mut [u8]) -> Result<usize, DeviceFault>
        ensures count { IfOk result (λ n. n ≤ length buffer.new) }
        ensures given { IfOk result (λ n. Shrinks (D.remaining self.old.inner) (take n buffer.new) (D.remaining self.new.inner)) }
        ensures end { IfOk result (λ n. n ≡ 0 → 0 < length buffer.new → IsAtEnd (D.remaining self.new.inner)) }
        ensures alive { OnOk result ((self.old.failed ≡ false) × (self.new.failed ≡ false)) }
        ensures fault { OnErr result ((self.new.failed ≡ true) × Shrinks (D.remaining self.old.inner) [] (D.remaining self.new.inner)) }
        ensures again { self.old.failed ≡ true → IsErr result × (self.new ≡ self.old) }
    {
        if self.ended {
            return Err(DeviceFault);
        }
        match self.inner.read(buffer) {
            Ok(n) => Ok(n),
            Err(_) => {
                self.ended = true;
                Err(DeviceFault)
            }
        }
    }
}

impl<D: Write> ByteOut for Device<D> {
    ghost contents = { λ d. D.contents d.inner };

    ghost failed = { λ d. d.failed };

    fn write(&mut self, bytes: &[u8]) -> Result<usize, DeviceFault>
        ensures count { IfOk result (λ n. n ≤ length bytes.now) }
        ensures some { 0 < length bytes.now → IfOk result (λ n. 0 < n) }
        ensures taken { IfOk result (λ n. Grows (D.contents self.old.inner) (take n bytes.now) (D.contents self.new.inner)) }
        ensures alive { OnOk result ((self.old.failed ≡ false) × (self.new.failed ≡ false)) }
        ensures fault { OnErr result ((self.new.failed ≡ true) × Grows (D.contents self.old.inner) [] (D.contents self.new.inner)) }
        ensures again { self.old.failed ≡ true → IsErr result × (self.new ≡ self.old) }
    {
        if self.ended {
            return Err(DeviceFault);
        }
        match self.inner.write(bytes) {
            Ok(n) if n > 0 || bytes.is_empty() => Ok(n),
            _ => {
                self.ended = true;
                Err(DeviceFault)
            }
        }
    }
}
