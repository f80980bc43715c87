//! A server's call, with what it leaves describable.
ghost use Rattle.std.specs.Prelude.{◌≡◌};
ghost use Rattle.nfs_described_runs.specs.Described.{LeavesDescribable};
ghost use Rattle.nfs_load.specs.Moments.{IsTime};
ghost use Rattle.nfs_server.specs.Fits.{Fits, History};
ghost use Rattle.nfs_xdr.specs.Reading.{AreBytes};

use nfs_attrs::moment::Moment;
use nfs_server::event::{Event, Handled};
use nfs_server::reply_buf::ReplyBuf;
use nfs_server::server::Server;

/// Takes one whole record, as `Server::handle` does. Whatever history fits, a tree that was
/// describable before stays so.
pub fn handle(server: &mut Server, event: Event<'_>, reply: &mut ReplyBuf) -> Handled
    ensures described { (history : History) → Fits history server.old
        → LeavesDescribable server.old.setup server.old.state server.new.state }
{
    lent(event.bytes);
    now(event.moment);
    server.handle(event, reply)
}

// The same bytes. That each is below 256 is known of what is handed over.
fn lent(bytes: &[u8]) -> &[u8]
    ensures all { result.now ≡ bytes.now }
    ensures bytes { AreBytes result.now }
{
    bytes
}

// The same moment. That both its numbers are below 2^32 is known of what is handed over.
fn now(moment: Moment) -> Moment
    ensures all { result ≡ moment }
    ensures time { IsTime result }
{
    moment
}
