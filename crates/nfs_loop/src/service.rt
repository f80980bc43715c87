//! A service that serves many clients at once, in turns.
ghost use Rattle.std.specs.Prelude.{◌≡◌, ◌≢◌, ℕ, List, [], true, nat_lt, Option, None, Some, option_map, IfOk, IsErrOf, OnOk, OnErr};
ghost use Rattle.slab.specs.Slab.{get};
ghost use Rattle.nfs_lines.specs.Queued.{is_full};
ghost use Rattle.nfs_lines.specs.Written.{PassedOn, written};
ghost use Rattle.nfs_loop.specs.Journals.{IsSettled, JournalGoes, LeavesRoom, SettlesBy, journal_of};
ghost use Rattle.nfs_loop.specs.Stages.{Goes, IsRound, Lived, Rounds, schedule, stage};
ghost use Rattle.nfs_loop.specs.Reports.{ComeBy};
ghost use Rattle.nfs_loop.specs.Timeouts.{IsWithin};
ghost use Rattle.nfs_loop.specs.Watching.{AreWatched, held_count};
ghost use Rattle.nfs_server.specs.Fits.{History, Fits};
ghost use Rattle.nfs_serving.specs.Service.{Change};

use crate::attendant::Attendant;
use crate::housekeeping::{Housekeeping, LINES_MILLIS, Waiting};
use crate::limits::Limits;
use crate::member::Member;
use crate::network::Network;
use crate::serving_fault::ServingFault;
use log::Log;
use nfs_lines::line_out::LineOut;
use nfs_lines::lines::Lines;
use nfs_queue::clients::Clients;
use nfs_server::journal_out::{JournalFigures, JournalOut};
use nfs_server::server::Server;
use nfs_server::settle_fault::SettleFault;
use nfs_serving::laws::service_is_one_history;
use nfs_serving::turn_buffers::TurnBuffers;
use nfs_xdr::link::Link;
use std::alloc::{AllocError, Global};
use std::io;
use std::time::Duration;

// How often lines that are left at the end are tried: for five seconds.
const LAST_TRIES: u32 = 500;

/// The clients of a service, and what it keeps beside them.
#[derive(Drop)]
pub struct Service<L> {
    pub(crate) alloc: Global,
    /// The clients.
    pub clients: Clients<Member<L>>,
    /// How many have joined.
    pub joined: u64,
    pub(crate) room: TurnBuffers,
    pub(crate) housekeeping: Housekeeping,
}

impl<L: Link + Drop> Service<L> {
    /// A service with no clients.
    pub fn new(alloc: Global, limits: Limits) -> Result<Service<L>, AllocError>
        ensures members { IfOk result (λ service. (key : ℕ) → get service.clients.0 key ≡ None) }
        ensures joined { IfOk result (λ service. service.joined ≡ 0) }
        ensures watched { IfOk result (λ service. AreWatched service.clients.0 service.housekeeping.watches) }
        ensures idle { IfOk result (λ service. service.housekeeping.limits.idle ≡ limits.idle) }
        ensures looked { IfOk result (λ service. service.housekeeping.looked ≡ 0) }
    {
        Ok(Service {
            alloc,
            clients: Clients::new(alloc),
            joined: 0,
            room: TurnBuffers::new(alloc)?,
            housekeeping: Housekeeping::new(alloc, limits),
        })
    }

    /// Serves clients until as many connections have ended as there may be, or until it is told to end: then it
    /// accepts no more connections, and goes on until no client is busy, for 10 seconds at most, so that replies that
    /// are pending go out. Each connection's end is written as a line, and so is each denied call. Lines that can't
    /// be written end no service.
    ///
    /// Where there is a journal, a reply goes out only once the entries of its round last there; where that fails, the
    /// service ends before, with the fault.
    ///
    /// Whatever the network answers, all that changes is one history and one log, also where the network
    /// or the journal fails, which are the only faults. In each round the network is asked what is ready, and then each client
    /// that waits has one turn, in the order of the queue: the one at place i waits for i turns of others.
    pub fn serve<
        R: Log,
        N: Network<Stream = L>,
        A: LineOut,
        C: LineOut,
        T: Attendant,
        J: JournalOut,
    >(
        &mut self,
        rt: &R,
        server: &mut Server,
        net: &mut N,
        lines: &mut Lines<'_, A, C>,
        attendant: &mut T,
        journal: &mut Option<J>,
    ) -> Result<(), ServingFault>
        requires watched { AreWatched self.old.clients.0 self.old.housekeeping.watches }
        requires settled { IsSettled (journal_of J.lasting J.failed journal.old) server.old }
        ensures lived { ((key : ℕ) → get self.old.clients.0 key ≡ None) → (history : History) → Fits history server.old
            → Lived L.outgoing L.incoming L.reports history (N.reported net.old) (N.reported net.new)
            (schedule self.old.clients.1.0 self.old.housekeeping.watches self.old.housekeeping.limits.idle self.old.housekeeping.looked
            (is_full lines.old.denied.queue) (journal_of J.lasting J.failed journal.old))
            (schedule self.new.clients.1.0 self.new.housekeeping.watches self.new.housekeeping.limits.idle self.new.housekeeping.looked
            (is_full lines.new.denied.queue) (journal_of J.lasting J.failed journal.new))
            (stage server.old self.old.clients.0 self.old.joined (written A.taken C.taken lines.old))
            (stage server.new self.new.clients.0 self.new.joined (written A.taken C.taken lines.new)) }
        ensures watched { AreWatched self.new.clients.0 self.new.housekeeping.watches }
    {
        service_is_one_history::<L>();
        self.run(rt, server, net, lines, attendant, journal)
    }

    // The same, as changes.
    fn run<R: Log, N: Network<Stream = L>, A: LineOut, C: LineOut, T: Attendant, J: JournalOut>(
        &mut self,
        rt: &R,
        server: &mut Server,
        net: &mut N,
        lines: &mut Lines<'_, A, C>,
        attendant: &mut T,
        journal: &mut Option<J>,
    ) -> Result<(), ServingFault>
        requires watched { AreWatched self.old.clients.0 self.old.housekeeping.watches }
        requires settled { IsSettled (journal_of J.lasting J.failed journal.old) server.old }
        ensures goes { Goes L.outgoing L.incoming
            (λ changes. Rounds L.outgoing L.incoming L.reports (N.reported net.old)
            (schedule self.old.clients.1.0 self.old.housekeeping.watches self.old.housekeeping.limits.idle self.old.housekeeping.looked
            (is_full lines.old.denied.queue) (journal_of J.lasting J.failed journal.old))
            (schedule self.new.clients.1.0 self.new.housekeeping.watches self.new.housekeeping.limits.idle self.new.housekeeping.looked
            (is_full lines.new.denied.queue) (journal_of J.lasting J.failed journal.new))
            (stage server.old self.old.clients.0 self.old.joined (written A.taken C.taken lines.old)) changes
            × ComeBy (N.reported net.old) changes (N.reported net.new))
            (stage server.old self.old.clients.0 self.old.joined (written A.taken C.taken lines.old))
            (stage server.new self.new.clients.0 self.new.joined (written A.taken C.taken lines.new)) }
        ensures watched { AreWatched self.new.clients.0 self.new.housekeeping.watches }
    {
        let mut left = u64::MAX;
        while left > 0 && !self.housekeeping.is_done() {
            left -= 1;
            let timeout = self.timeout(lines.pending() > 0);
            if let Err(error) = net.wait(timeout) {
                return Err(ServingFault::Network(error));
            }
            match self.round(rt, server, net, lines, attendant, journal) {
                Ok(()) => {}
                Err(fault) => {
                    let _ = self.finish(net, lines);
                    return Err(ServingFault::Journal(fault));
                }
            }
        }
        match self.finish(net, lines) {
            Ok(()) => Ok(()),
            Err(error) => Err(ServingFault::Network(error)),
        }
    }

    // One round: what is done after each wait.
    fn round<R: Log, N: Network<Stream = L>, A: LineOut, C: LineOut, T: Attendant, J: JournalOut>(
        &mut self,
        rt: &R,
        server: &mut Server,
        net: &mut N,
        lines: &mut Lines<'_, A, C>,
        attendant: &mut T,
        journal: &mut Option<J>,
    ) -> Result<(), SettleFault>
        requires watched { AreWatched self.old.clients.0 self.old.housekeeping.watches }
        requires settled { IsSettled (journal_of J.lasting J.failed journal.old) server.old }
        ensures settled { OnOk result (IsSettled (journal_of J.lasting J.failed journal.new) server.new) }
        ensures round { (changes : List Change) × IsRound L.outgoing L.incoming L.reports changes (N.reported net.old) (N.reported net.new)
            (schedule self.old.clients.1.0 self.old.housekeeping.watches self.old.housekeeping.limits.idle self.old.housekeeping.looked
            (is_full lines.old.denied.queue) (journal_of J.lasting J.failed journal.old))
            (schedule self.new.clients.1.0 self.new.housekeeping.watches self.new.housekeeping.limits.idle self.new.housekeeping.looked
            (is_full lines.new.denied.queue) (journal_of J.lasting J.failed journal.new))
            (stage server.old self.old.clients.0 self.old.joined (written A.taken C.taken lines.old))
            (stage server.new self.new.clients.0 self.new.joined (written A.taken C.taken lines.new)) }
        ensures watched { AreWatched self.new.clients.0 self.new.housekeeping.watches }
    {
        self.note(net);
        self.accept_some(rt, net);
        self.release(net, lines);
        self.turns(rt, server, net, lines, journal);
        self.end_silent(rt, net, lines);
        let figures = figures_of(journal);
        self.housekeeping
            .attend(rt, server, net, lines, attendant, &self.clients, figures);
        settle(server, journal)
    }

    // Passes on the lines that are left, as long as somebody may read them.
    #[cold]
    fn finish<N: Network<Stream = L>, A: LineOut, C: LineOut>(
        &self,
        net: &mut N,
        lines: &mut Lines<'_, A, C>,
    ) -> io::Result<()>
        ensures reported { N.reported net.new ≡ N.reported net.old }
        ensures lines { PassedOn (written A.taken C.taken lines.old) (written A.taken C.taken lines.new) }
    {
        let mut left = LAST_TRIES;
        while left > 0 && lines.pending() > 0 {
            left -= 1;
            if let Err(error) = net.wait(Some(Duration::from_millis(LINES_MILLIS))) {
                return Err(error);
            }
            lines.pass_on();
        }
        Ok(())
    }

    // For how long to wait: not at all where a client waits for a turn.
    fn timeout(&self, has_lines: bool) -> Option<Duration>
        ensures ready { self.now.clients.1.0 ≢ [] → IsWithin 0 result }
        ensures connections { self.now.housekeeping.waiting ≡ Waiting.Some → IsWithin 0 result }
        ensures lines { has_lines ≡ true → IsWithin 10 result }
        ensures held { nat_lt 0 (held_count self.now.housekeeping.watches) ≡ true → IsWithin 10 result }
    {
        if self.clients.is_any_waiting() {
            return Some(Duration::ZERO);
        }
        self.housekeeping.timeout(self.clients.len(), has_lines)
    }
}

/// Has a server keep notes from now on, where there is a journal for them. Refused where there is no memory; the
/// server is then as it was.
pub fn begin_notes<J: JournalOut>(
    alloc: Global,
    server: &mut Server,
    journal: &Option<J>,
) -> Result<(), AllocError>
    ensures settled { OnOk result (IsSettled (journal_of J.lasting J.failed journal.now) server.new) }
    ensures none { journal.now ≡ None → server.new ≡ server.old }
    ensures refused { OnErr result (server.new ≡ server.old) }
{
    match journal {
        Some(_) => server.keep_notes(alloc),
        None => Ok(()),
    }
}

// What a journal says of itself, if there is one.
fn figures_of<J: JournalOut>(journal: &Option<J>) -> Option<JournalFigures> {
    match journal {
        Some(journal) => Some(journal.figures()),
        None => None,
    }
}

/// Makes what the server noted last in the journal, if there is one. The faults of `Server::settle`.
#[inline(always)]
pub(crate) fn settle<J: JournalOut>(
    server: &mut Server,
    journal: &mut Option<J>,
) -> Result<(), SettleFault>
    ensures goes { (noted : Option (List ℕ)) × SettlesBy noted server.old server.new
        × JournalGoes (journal_of J.lasting J.failed journal.old) noted (journal_of J.lasting J.failed journal.new) }
    ensures settled { OnOk result (IsSettled (journal_of J.lasting J.failed journal.new) server.new) }
    ensures room { LeavesRoom (journal_of J.lasting J.failed journal.new) server.new }
    ensures lost { IsErrOf result SettleFault.Lost → server.old.notes ≡ None }
    ensures failed { IsErrOf result SettleFault.JournalFault → option_map J.failed journal.new ≡ Some true }
{
    match journal {
        Some(journal) => server.settle(journal),
        None => Ok(()),
    }
}
