//! A server's call, with what it can change.
ghost use Rattle.std.specs.Prelude.{◌≡◌, [], None, is_err};
ghost use Rattle.nfs_policy.specs.Confining.{Leaves};
ghost use Rattle.nfs_policy.specs.Naming.{NamesOn};
ghost use Rattle.nfs_rpc.specs.Calls.{head_at};
ghost use Rattle.nfs_server.specs.Events.{Choice};
ghost use Rattle.nfs_server.specs.Fits.{Fits, GoesOn, History};
ghost use Rattle.nfs_server.specs.InMemory.{answered, event_of, is_silent};

use nfs_server::event::{Event, Handled};
use nfs_server::reply_buf::ReplyBuf;
use nfs_server::server::Server;

/// Takes one whole record, as `Server::handle` does, with all that its contract says. Whatever history
/// fits, the event leaves the tree, or it is a call of NFS whose change obeys the policy; and what handles
/// named before they name while it lives.
pub fn handle(server: &mut Server, event: Event<'_>, reply: &mut ReplyBuf) -> Handled
    ensures confined { (history : History) → Fits history server.old
        → Leaves server.old.setup server.old.state (event_of event.entry) server.new.state }
    ensures setup { server.new.setup ≡ server.old.setup }
    ensures step { (history : History) → Fits history server.old → (choice : Choice)
        × GoesOn history server.old (event_of event.entry) choice (answered result reply.new.reply server.new.line) server.new }
    ensures silent { result ≡ Handled.NoReply → (reply.new.reply ≡ []) × (server.new.line ≡ None) }
    ensures unreadable { is_silent result ≡ is_err (head_at event.entry.bytes.now) }
    ensures names { (history : History) → Fits history server.old → NamesOn server.old.state.tree server.new.state.tree }
{
    server.handle(event, reply)
}
