//! The head of a reply (RFC 5531, section 9).
ghost use Rattle.std.specs.Prelude.{◌≡◌, ◌*◌, ◌≤◌, length};
ghost use Rattle.nfs_xdr.specs.Encoding.{numbers_text};
ghost use Rattle.nfs_xdr.specs.Written.{Appends};
ghost use Rattle.nfs_rpc.specs.Replies.{accepted_words, refused_words, accepted_text, refused_text};

use nfs_xdr::output::Output;

/// How an accepted call went.
#[derive(Clone, Copy, Debug, PartialEq, Eq)]
pub enum Accept {
    /// The procedure was called; its results follow the head.
    Success,
    /// There is no such program.
    ProgUnavail,
    /// The program has version 3 alone.
    ProgMismatch,
    /// The program has no such procedure.
    ProcUnavail,
    /// The arguments can't be read.
    GarbageArgs,
    /// There is no memory.
    SystemErr,
}

/// Why a call was not accepted.
#[derive(Clone, Copy, Debug, PartialEq, Eq)]
pub enum Refused {
    /// RPC has version 2 alone.
    RpcMismatch,
    /// The credential can't be read.
    BadCred,
    /// The credential is of a flavor that is not taken.
    RejectedCred,
    /// The credential says too little.
    TooWeak,
}

/// Writes the head of the reply to an accepted call.
#[inline(always)]
pub fn write_accepted(out: &mut Output, xid: u32, accept: Accept)
    requires { length (accepted_text xid accept) ≤ out.old.room }
    ensures { Appends (accepted_text xid accept) out.old out.new }
{
    match accept {
        Accept::Success => out.numbers([xid, 1, 0, 0, 0, 0]),
        Accept::ProgUnavail => out.numbers([xid, 1, 0, 0, 0, 1]),
        Accept::ProgMismatch => out.numbers([xid, 1, 0, 0, 0, 2, 3, 3]),
        Accept::ProcUnavail => out.numbers([xid, 1, 0, 0, 0, 3]),
        Accept::GarbageArgs => out.numbers([xid, 1, 0, 0, 0, 4]),
        Accept::SystemErr => out.numbers([xid, 1, 0, 0, 0, 5]),
    }
}

/// Writes the whole reply to a call that was not accepted.
pub fn write_refused(out: &mut Output, xid: u32, refused: Refused)
    requires { length (refused_text xid refused) ≤ out.old.room }
    ensures { Appends (refused_text xid refused) out.old out.new }
{
    match refused {
        Refused::RpcMismatch => out.numbers([xid, 1, 1, 0, 2, 2]),
        Refused::BadCred => out.numbers([xid, 1, 1, 1, 1]),
        Refused::RejectedCred => out.numbers([xid, 1, 1, 1, 2]),
        Refused::TooWeak => out.numbers([xid, 1, 1, 1, 5]),
    }
}
