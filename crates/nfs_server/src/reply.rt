//! Replies that say no more than whether a call is accepted (RFC 5531, section 9).
ghost use Rattle.std.specs.Prelude.{◌≡◌, ◌+◌, ◌≤◌, ◌++◌, length, take};
ghost use Rattle.nfs_rpc.specs.Replies.{accepted_text};
ghost use Rattle.nfs_rpc.specs.declared.reply.Accept.TheVariants.{Success, SystemErr};
ghost use Rattle.nfs_server.specs.ReplyRoom.{Adds, HasReplyRoom, after, room_bytes};
ghost use Rattle.nfs_server.specs.RpcRules.{rpc_reply};

use crate::rpc_rules::RpcRule;
use nfs_reply_cache::reply_cache::MAX_KEPT_BYTES;
use nfs_rpc::reply::{Accept, Refused, write_accepted, write_refused};
use nfs_xdr::output::Output;
use std::alloc::AllocError;

/// The reply to a call that fails a rule of RPC.
#[cold]
pub(crate) fn refuse(out: &mut Output, rule: RpcRule, xid: u32)
    requires { HasReplyRoom out.old }
    ensures adds { Adds out.old out.new }
    ensures reply { after out.old out.new ≡ rpc_reply rule xid }
{
    match rule {
        RpcRule::Version => write_refused(out, xid, Refused::RpcMismatch),
        RpcRule::Program => write_accepted(out, xid, Accept::ProgUnavail),
        RpcRule::ProgramVersion => write_accepted(out, xid, Accept::ProgMismatch),
        RpcRule::Procedure => write_accepted(out, xid, Accept::ProcUnavail),
        RpcRule::Flavor => write_refused(out, xid, Refused::RejectedCred),
        RpcRule::Credential => write_refused(out, xid, Refused::BadCred),
        RpcRule::WeakCredential => write_refused(out, xid, Refused::TooWeak),
        RpcRule::Arguments => write_accepted(out, xid, Accept::GarbageArgs),
    }
}

/// The reply to a call that succeeds without a result.
#[inline(always)]
pub(crate) fn succeed(out: &mut Output, xid: u32)
    requires { HasReplyRoom out.old }
    ensures adds { Adds out.old out.new }
    ensures reply { after out.old out.new ≡ accepted_text xid Success }
{
    write_accepted(out, xid, Accept::Success);
}

/// The reply to a call for which the allocator refused memory, in the place of what stands from `start`
/// on. It takes what the allocator said, so that no other call can get this reply.
#[cold]
pub(crate) fn give_up(out: &mut Output, start: usize, xid: u32, _refused: AllocError)
    requires start { start ≤ length out.old.bytes }
    requires room { room_bytes + start ≤ 4 + length out.old.bytes + out.old.room }
    ensures bytes { out.new.bytes ≡ take start out.old.bytes ++ accepted_text xid SystemErr }
    ensures room { length out.new.bytes + out.new.room ≡ length out.old.bytes + out.old.room }
{
    out.cut(start);
    write_accepted(out, xid, Accept::SystemErr);
}

/// A reply that was given before.
pub(crate) fn retransmission(out: &mut Output, reply: &[u8])
    requires room { HasReplyRoom out.old }
    requires short { length reply.now ≤ MAX_KEPT_BYTES }
    ensures adds { Adds out.old out.new }
    ensures reply { after out.old out.new ≡ reply.now }
{
    out.part(reply);
}
