//! Reads and writes that don't wait, of streams that answer `WouldBlock` where they would.
ghost use Rattle.std.specs.Prelude.{◌<◌, ◌≤◌, [], length, take, IfOk, OnErr};
ghost use Rattle.nfs_xdr.specs.Known.{Grows, Shrinks};
ghost use Rattle.nfs_tcp.specs.Unwaiting.{CameInto, Gave};

use nfs_xdr::device::DeviceFault;
use nfs_xdr::link::Came;
use std::io::{ErrorKind, Read, Write};

/// Gives what has come, as much of it as there is room for. The kind of error where the stream fails.
#[inline(always)]
pub(crate) fn receive<R: Read>(stream: &mut R, buffer: &mut [u8]) -> Result<Came, ErrorKind>
    ensures fits { IfOk result (CameInto (length buffer.new)) }
    ensures came { 0 < length buffer.old → IfOk result (λ came. Gave (R.remaining stream.old) buffer.new came (R.remaining stream.new)) }
    ensures kept { OnErr result (Shrinks (R.remaining stream.old) [] (R.remaining stream.new)) }
{
    match stream.read(buffer) {
        Ok(0) => Ok(Came::End),
        Ok(n) => Ok(Came::Bytes(n)),
        Err(error) => match error.kind() {
            ErrorKind::WouldBlock => Ok(Came::Nothing),
            kind => Err(kind),
        },
    }
}

/// Sends some first bytes, as many as are taken now, which may be none.
#[inline(always)]
pub(crate) fn send<W: Write>(stream: &mut W, bytes: &[u8]) -> Result<usize, DeviceFault>
    ensures count { IfOk result (λ n. n ≤ length bytes.now) }
    ensures sent { IfOk result (λ n. Grows (W.contents stream.old) (take n bytes.now) (W.contents stream.new)) }
    ensures kept { OnErr result (Grows (W.contents stream.old) (take 0 bytes.now) (W.contents stream.new)) }
{
    match stream.write(bytes) {
        Ok(n) => Ok(n),
        Err(error) if error.kind() == ErrorKind::WouldBlock => Ok(0),
        Err(_) => Err(DeviceFault),
    }
}
