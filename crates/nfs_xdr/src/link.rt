//! Streams of bytes, both ways, that never wait: sockets, and fakes for tests.
ghost use Rattle.std.specs.Prelude.{◌≡◌, ℕ, ◌≤◌, List, Option, Bool, true, length, take, IfOk, OnErr};
ghost use Rattle.nfs_xdr.specs.Known.{Grows, Receives};

use crate::device::DeviceFault;

/// What has come on a link.
#[derive(Clone, Copy, Debug, PartialEq, Eq)]
pub enum Came {
    /// So many bytes, at least one.
    Bytes(usize),
    /// Nothing yet.
    Nothing,
    /// Nothing, and nothing will: the peer has ended its side.
    End,
}

/// A stream of bytes to a peer and from it, which never waits.
pub trait Link {
    ghost use Rattle.nfs_xdr.specs.declared.link.Came.{Came};

    /// The bytes that were sent, where they are known.
    ghost outgoing: { Self → Option (List ℕ) };

    /// The bytes that are still to come, where they are known.
    ghost incoming: { Self → Option (List ℕ) };

    /// Whether a call answered the fault.
    ghost failed: { Self → Bool };

    /// That a call of `receive` with room for so many bytes, which reported this, leads from one state to
    /// another.
    ghost reports: { Self → ℕ → Came → Self → Type 0 };

    /// Sends some first bytes, as many as are taken now, which may be none.
    fn send(&mut self, bytes: &[u8]) -> Result<usize, DeviceFault>
        ensures count { IfOk result (λ n. n ≤ length bytes.now) }
        ensures sent { IfOk result (λ n. Grows (outgoing self.old) (take n bytes.now) (outgoing self.new)) }
        ensures incoming { incoming self.new ≡ incoming self.old }
        ensures fault { OnErr result ((failed self.new ≡ true) × (outgoing self.new ≡ outgoing self.old)) };

    /// Gives what has come, as much of it as there is room for.
    fn receive(&mut self, buffer: &mut [u8]) -> Result<Came, DeviceFault>
        ensures came { IfOk result (λ came. Receives (incoming self.old) buffer.new came (incoming self.new)) }
        ensures reports { IfOk result (λ came. reports self.old (length buffer.old) came self.new) }
        ensures outgoing { outgoing self.new ≡ outgoing self.old }
        ensures fault { OnErr result ((failed self.new ≡ true) × (incoming self.new ≡ incoming self.old)) };
}
