//! The head of a call.
ghost use Rattle.std.specs.Prelude.{◌≡◌, ◌+◌, ◌≤◌, length};
ghost use Rattle.nfs_xdr.specs.Written.{Appends};
ghost use Rattle.nfs_client.specs.Calls.{head_text};

use nfs_args::program::PROGRAM_VERSION;
use nfs_rpc::call::RPC_VERSION;
use nfs_xdr::output::Output;

/// Which procedure is called, and the call's number.
#[derive(Clone, Copy, Debug, PartialEq, Eq)]
pub(crate) struct CallHeader {
    /// The number by which the client knows the reply.
    pub(crate) xid: u32,
    /// The program.
    pub(crate) program: u32,
    /// The program's procedure.
    pub(crate) procedure: u32,
}

// A call, and the flavor of AUTH_SYS.
const CALL: u32 = 0;

const AUTH_SYS: u32 = 1;

/// How many bytes the longest head has.
pub(crate) const MAX_HEAD_BYTES: usize = 124;

/// Writes the head of a call (RFC 5531, section 9) by AUTH_SYS, whose body this is, and without a
/// verifier.
pub(crate) fn write_head(out: &mut Output, call: CallHeader, credential: &[u8])
    requires credential { length credential.now ≤ 84 }
    requires room { 124 ≤ out.old.room }
    ensures text { Appends (head_text call credential.now) out.old out.new }
    ensures bound { out.old.room ≤ out.new.room + 124 }
{
    out.numbers([
        call.xid,
        CALL,
        RPC_VERSION,
        call.program,
        PROGRAM_VERSION,
        call.procedure,
        AUTH_SYS,
    ]);
    out.opaque(credential);
    out.numbers([0, 0]);
}
