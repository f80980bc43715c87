//! How clients leave.
ghost use Rattle.std.specs.Prelude.{◌≡◌, []};
ghost use Rattle.nfs_lines.specs.Written.{Reported, written};
ghost use Rattle.nfs_loop.specs.Refusing.{IsRefusedBy, is_audit_fault};
ghost use Rattle.nfs_loop.specs.Reports.{Accounts};
ghost use Rattle.nfs_serving.specs.Service.{LeavesBy, end_text};
ghost use Rattle.nfs_serving.specs.declared.turn.End.{End};

use crate::housekeeping::Housekeeping;
use crate::member::Member;
use crate::network::Network;
use crate::report::end_line;
use log::{Log, info};
use nfs_attrs::moment::Moment;
use nfs_exports::addr::Addr;
use nfs_lines::line_out::LineOut;
use nfs_lines::lines::Lines;
use nfs_server::serve_fault::ServeFault;
use nfs_serving::traffic::Traffic;
use nfs_serving::turn::End;
use nfs_xdr::link::Link;

impl Housekeeping {
    /// Reports how the connection of a client ended that has left, and has one that waits accepted.
    #[cold]
    pub(crate) fn leave<L: Link + Drop, R: Log, N: Network<Stream = L>, A: LineOut, C: LineOut>(
        &mut self,
        rt: &R,
        net: &mut N,
        lines: &mut Lines<'_, A, C>,
        member: Member<L>,
        moment: Moment,
        end: End,
    )
        requires ended { LeavesBy member.client.value end }
        ensures reported { Accounts (N.reported net.old) [] (N.reported net.new) }
        ensures watches { self.new.watches ≡ self.old.watches }
        ensures looked { self.new.looked ≡ self.old.looked }
        ensures limits { self.new.limits ≡ self.old.limits }
        ensures refused { IsRefusedBy (is_audit_fault end) member.addr (N.reported net.old) (N.reported net.new) self.old.refused_peers self.new.refused_peers }
        ensures lines { (by : End) × LeavesBy member.client.value by
            × Reported (end_text member.number member.client.value.calls by) (written A.taken C.taken lines.old) (written A.taken C.taken lines.new) }
    {
        self.refuse_where_denied(net, member.addr, end);
        let end = end_of(net, &member, end);
        say(rt, &member, end);
        self.count_end(member.client.traffic());
        let line = end_line(member.number, member.client.calls(), end);
        lines.report(moment, line.as_slice());
    }

    // Counts a connection that has ended, and has one that waits accepted.
    fn count_end(&mut self, traffic: Traffic)
        ensures watches { self.new.watches ≡ self.old.watches }
        ensures looked { self.new.looked ≡ self.old.looked }
        ensures limits { self.new.limits ≡ self.old.limits }
        ensures refused { self.new.refused_peers ≡ self.old.refused_peers }
    {
        self.ended = self.ended.saturating_add(1);
        self.ended_traffic = self.ended_traffic.with(traffic);
        self.retry();
    }

    // Where a denied call was refused since its line could not be written, has the next connections from
    // that address wait. Without memory they don't.
    fn refuse_where_denied<N: Network>(&mut self, net: &mut N, addr: Addr, end: End)
        ensures reported { Accounts (N.reported net.old) [] (N.reported net.new) }
        ensures watches { self.new.watches ≡ self.old.watches }
        ensures looked { self.new.looked ≡ self.old.looked }
        ensures limits { self.new.limits ≡ self.old.limits }
        ensures refused { IsRefusedBy (is_audit_fault end) addr (N.reported net.old) (N.reported net.new) self.old.refused_peers self.new.refused_peers }
    {
        if is_audit_fault(end) {
            let now = net.millis();
            let _ = self.refused_peers.add(addr, now);
        }
    }
}

// Whether a connection ended since a denied call was refused, whose line could not be written.
fn is_audit_fault(end: End) -> bool
    ensures { result ≡ is_audit_fault end }
{
    match end {
        End::Fault(ServeFault::AuditFault) => true,
        End::Fault(_) | End::Closed => false,
    }
}

// Says how a connection ended, where that is asked for.
fn say<R: Log, L>(rt: &R, member: &Member<L>, end: End) {
    match end {
        End::Closed => info!(rt; "{}: connection {} ended", member.peer, member.number),
        End::Fault(fault) => {
            info!(rt; "{}: connection {} ended: {fault}", member.peer, member.number);
        }
    }
}

// How a connection ended. One that its peer has reset with nothing on its way has ended as one that it
// closed.
fn end_of<L: Link, N: Network<Stream = L>>(net: &N, member: &Member<L>, end: End) -> End
    requires { LeavesBy member.now.client.value end }
    ensures { LeavesBy member.now.client.value result }
{
    let is_reset = end == End::Fault(ServeFault::ReadFault) && net.was_reset(member.client.link());
    if is_reset && member.client.is_at_rest() {
        End::Closed
    } else {
        end
    }
}
