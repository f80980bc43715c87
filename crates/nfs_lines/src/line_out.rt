//! Devices that take lines and never wait: a pipe, a terminal, a file, and fakes for tests.
ghost use Rattle.std.specs.Prelude.{◌≡◌, ℕ, ◌≤◌, List, Option, length, take, IfOk, OnErr};
ghost use Rattle.nfs_xdr.specs.Known.{Grows};

use nfs_xdr::device::DeviceFault;

/// What takes bytes and never waits.
pub trait LineOut {
    /// The bytes that were taken, where they are known.
    ghost taken: { Self → Option (List ℕ) };

    /// Takes some first bytes, as many as the device takes now, which may be none. The fault where
    /// the device can't take any more, and then it has taken none of these.
    fn send(&mut self, bytes: &[u8]) -> Result<usize, DeviceFault>
        ensures count { IfOk result (λ n. n ≤ length bytes.now) }
        ensures sent { IfOk result (λ n. Grows (taken self.old) (take n bytes.now) (taken self.new)) }
        ensures fault { OnErr result (taken self.new ≡ taken self.old) };
}
