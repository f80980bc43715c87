//! Where framed replies go.
ghost use Rattle.std.specs.Prelude.{◌≡◌, ℕ, List, Option, Some, Bool, true, length, IfOk, OnOk, OnErr};
ghost use Rattle.nfs_rpc.specs.Records.{fragment};
ghost use Rattle.nfs_server.specs.ReplyRoom.{Buffered, is_full};
ghost use Rattle.nfs_xdr.specs.Known.{Grows, GrowsByPart};

use crate::reply_buf::ReplyBuf;
use nfs_xdr::device::{ByteOut, DeviceFault, write_all};

/// What takes framed replies: a device, or the buffer in which they are written.
pub trait ReplyOut {
    /// The bytes that were taken, where they are known, with those that have gathered in the buffer.
    ghost contents: { Self → List ℕ → Option (List ℕ) };

    /// Whether a call may have answered the fault, with what is in the buffer then.
    ghost failed: { Self → Buffered → Bool };

    /// Takes the reply in the buffer, framed, and answers how many bytes it has. At a fault some
    /// first ones were taken.
    fn take(&mut self, reply: &mut ReplyBuf) -> Result<usize, DeviceFault>
        ensures count { IfOk result (λ n. n ≡ length (fragment true reply.old.reply)) }
        ensures taken { OnOk result (Grows (contents self.old reply.old.earlier) (fragment true reply.old.reply)
            (contents self.new reply.new.earlier)) }
        ensures part { OnErr result (GrowsByPart (contents self.old reply.old.earlier) (fragment true reply.old.reply)
            (contents self.new reply.new.earlier)) }
        ensures fault { OnErr result (failed self.new reply.new ≡ true) }
        ensures most { reply.new.most ≡ reply.old.most };
}

impl<W: ByteOut> ReplyOut for W {
    ghost contents = { λ w earlier. W.contents w };

    ghost failed = { λ w reply. W.failed w };

    fn take(&mut self, reply: &mut ReplyBuf) -> Result<usize, DeviceFault> {
        let framed = reply.framed();
        write_all(self, framed)?;
        Ok(framed.len())
    }
}

/// The buffer itself: replies gather in it, as long as there is room. Without room nothing changes.
#[derive(Drop)]
pub struct Gathering;

impl ReplyOut for Gathering {
    ghost contents = { λ g earlier. Some earlier };

    ghost failed = { λ g reply. is_full reply };

    fn take(&mut self, reply: &mut ReplyBuf) -> Result<usize, DeviceFault> {
        let len = reply.framed().len();
        if !reply.gather() {
            return Err(DeviceFault);
        }
        Ok(len)
    }
}
