//! Calls of NFS other than NULL (RFC 1813, section 3.3): what is done, and the reply.
ghost use Rattle.std.specs.Prelude.{◌≡◌, ◌+◌, ◌≤◌, true, length, None};
ghost use Rattle.nfs_args.specs.Encoding.{HasCountedBytes};
ghost use Rattle.nfs_procs.specs.Procedures.{PerformsAs, doing_of};
ghost use Rattle.nfs_procs.specs.Scenes.{scene};
ghost use Rattle.nfs_rpc.specs.Calls.{call_of};
ghost use Rattle.nfs_server.specs.OneEvent.{AnswersCall};
ghost use Rattle.nfs_server.specs.Retransmissions as retransmissions;
ghost use Rattle.nfs_server.specs.ReplyRoom.{Adds, HasReplyRoom, after};
ghost use Rattle.nfs_server.specs.InMemory.{reported};

use crate::audit_line::{AuditLine, DenialReason};
use crate::reply::give_up;
use nfs_args::args::NfsArgs;
use nfs_args::largest::MAX_RESULT_BYTES;
use nfs_inodes::tree::Tree;
use nfs_procs::call_context::CallContext;
use nfs_procs::done::Done;
use nfs_procs::perform::perform;
use nfs_reply_cache::reply_cache::MAX_KEPT_BYTES;
use nfs_rpc::call::CallHead;
use nfs_rpc::reply::{Accept, write_accepted};
use nfs_xdr::output::Output;

/// Whether these are arguments of a procedure that may change the tree.
#[inline(always)]
pub(crate) fn may_change(args: &NfsArgs<'_>) -> bool
    ensures { result ≡ retransmissions.may_change args.now }
{
    args.procedure().row().may_change
}

/// The reply to a call: what it asks for is done where no rule fails, and there is memory. A call that
/// is denied leaves its line.
#[inline(always)]
pub(crate) fn answer_call(
    out: &mut Output,
    head: &CallHead<'_>,
    tree: &mut Tree,
    call: &CallContext<'_>,
    args: &NfsArgs<'_>,
    line: &mut Option<AuditLine>,
)
    requires room { HasReplyRoom out.old }
    requires counted { HasCountedBytes args.now }
    requires line { line.old ≡ None }
    ensures adds { Adds out.old out.new }
    ensures short { retransmissions.may_change args.now ≡ true → length (after out.old out.new) ≤ MAX_KEPT_BYTES }
    ensures answers { AnswersCall (scene tree.old call.now args.now) (call_of head.now)
        (reported (after out.old out.new) line.new) tree.new }
{
    let start = out.bytes().len();
    write_accepted(out, head.xid, Accept::Success);
    match write_result(out, tree, call, args) {
        Some(Done::Denied(rule, uid)) => {
            let reason = DenialReason::Rule(rule, uid);
            *line = Some(AuditLine::of(call.caller.addr, head, reason));
        }
        Some(Done::Memory(refused)) => {
            give_up(out, start, head.xid, refused);
            *line = Some(AuditLine::of(call.caller.addr, head, DenialReason::Memory));
        }
        Some(Done::Granted) => {}
        None => {}
    }
}

// What becomes of a call, and its result, after what stands there.
#[inline(always)]
fn write_result(
    out: &mut Output,
    tree: &mut Tree,
    call: &CallContext<'_>,
    args: &NfsArgs<'_>,
) -> Option<Done>
    requires room { MAX_RESULT_BYTES ≤ out.old.room }
    requires counted { HasCountedBytes args.now }
    ensures performs { PerformsAs (scene tree.old call.now args.now) (doing_of args.now) result tree.new out.old out.new }
    ensures adds { Adds out.old out.new }
    ensures short { retransmissions.may_change args.now ≡ true → length out.new.bytes ≤ length out.old.bytes + 280 }
{
    let done = perform(tree, call, args, out);
    tree.law();
    done
}
