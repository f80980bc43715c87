//! Connections on which nothing comes.
ghost use Rattle.std.specs.Prelude.{◌≡◌, [], None};
ghost use Rattle.slab.specs.Slab.{get};
ghost use Rattle.nfs_lines.specs.Written.{written};
ghost use Rattle.nfs_loop.specs.Reports.{Accounts};
ghost use Rattle.nfs_loop.specs.Stages.{Goes, IsSilent, LeavesIfSilent, SilentLeave, WithoutTurns, stage};
ghost use Rattle.nfs_loop.specs.Watching.{AreWatched};
ghost use Rattle.nfs_server.specs.Fits.{Held};

use crate::network::Network;
use crate::service::Service;
use log::Log;
use nfs_lines::line_out::LineOut;
use nfs_lines::lines::Lines;
use nfs_serving::turn::End;
use nfs_xdr::link::Link;

impl<L: Link + Drop> Service<L> {
    /// Ends the connections on which nothing came for too long, all of them, but for those of clients that
    /// wait for a turn or are held. It looks for them once a second.
    pub(crate) fn end_silent<R: Log, N: Network<Stream = L>, A: LineOut, C: LineOut>(
        &mut self,
        rt: &R,
        net: &mut N,
        lines: &mut Lines<'_, A, C>,
    )
        requires watched { AreWatched self.old.clients.0 self.old.housekeeping.watches }
        ensures goes { (server : Held) → Goes L.outgoing L.incoming
            (λ changes. WithoutTurns (N.reported net.old) changes (N.reported net.new))
            (stage server self.old.clients.0 self.old.joined (written A.taken C.taken lines.old))
            (stage server self.new.clients.0 self.new.joined (written A.taken C.taken lines.new)) }
        ensures queue { self.new.clients.1.0 ≡ self.old.clients.1.0 }
        ensures watches { self.new.housekeeping.watches ≡ self.old.housekeeping.watches }
        ensures silent { SilentLeave self.old.housekeeping.watches self.old.clients.1.0 self.old.housekeeping.limits.idle
            self.old.housekeeping.looked (N.reported net.old) (N.reported net.new) self.new.housekeeping.looked
            self.old.clients.0 self.new.clients.0 }
        ensures limits { self.new.housekeeping.limits ≡ self.old.housekeeping.limits }
        ensures watched { AreWatched self.new.clients.0 self.new.housekeeping.watches }
    {
        let millis = net.millis();
        let Some(since) = self.housekeeping.silent_since(millis / 1_000) else {
            return;
        };
        let mut left = self.clients.keys();
        while left > 0 {
            left -= 1;
            self.end_where_silent(rt, net, lines, left, since);
        }
    }

    // Ends the connection of a key's client where nothing was heard of it since then, and it could have
    // been: it doesn't wait for a turn, and is not kept from one.
    #[cold]
    fn end_where_silent<R: Log, N: Network<Stream = L>, A: LineOut, C: LineOut>(
        &mut self,
        rt: &R,
        net: &mut N,
        lines: &mut Lines<'_, A, C>,
        key: usize,
        since: u64,
    )
        requires watched { AreWatched self.old.clients.0 self.old.housekeeping.watches }
        ensures goes { (server : Held) → Goes L.outgoing L.incoming
            (λ changes. WithoutTurns (N.reported net.old) changes (N.reported net.new))
            (stage server self.old.clients.0 self.old.joined (written A.taken C.taken lines.old))
            (stage server self.new.clients.0 self.new.joined (written A.taken C.taken lines.new)) }
        ensures queue { self.new.clients.1.0 ≡ self.old.clients.1.0 }
        ensures silent { LeavesIfSilent self.old.housekeeping.watches self.old.clients.1.0 key since self.old.clients.0 self.new.clients.0 }
        ensures leaves { IsSilent self.old.housekeeping.watches self.old.clients.1.0 since key → get self.new.clients.0 key ≡ None }
        ensures looked { self.new.housekeeping.looked ≡ self.old.housekeeping.looked }
        ensures limits { self.new.housekeeping.limits ≡ self.old.housekeeping.limits }
        ensures reported { Accounts (N.reported net.old) [] (N.reported net.new) }
        ensures watches { self.new.housekeeping.watches ≡ self.old.housekeeping.watches }
        ensures watched { AreWatched self.new.clients.0 self.new.housekeeping.watches }
    {
        if !self.housekeeping.watches.is_silent(key, since)
            || self.housekeeping.watches.hold(key).is_some()
        {
            return;
        }
        if let Some(member) = self.clients.remove(key) {
            let end = member.client.end().unwrap_or(End::Closed);
            let moment = net.now();
            self.housekeeping.leave(rt, net, lines, member, moment, end);
        }
    }
}
