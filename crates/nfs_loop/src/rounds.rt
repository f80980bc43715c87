//! Whose turn it is.
ghost use Rattle.std.specs.Prelude.{◌≡◌, ◌↔◌, ◌||◌, ℕ, List, Option, None, false, true, is_some, length, nat_lt, slice_set, if◌then◌else◌};
ghost use Rattle.slab.specs.Slab.{get};
ghost use Rattle.nfs_lines.specs.Queued.{is_full};
ghost use Rattle.nfs_lines.specs.Written.{written};
ghost use Rattle.nfs_loop.specs.Journals.{JournalGoes, LeavesRoom, SettlesBy, journal_of, noted_by};
ghost use Rattle.nfs_loop.specs.Stages.{AllOthersStay, AreTurnsBeside, AsksAll, Goes, HeardInTurns, Notes, TurnsFirst, WaitAgain, first_of, most_asked, noted, seats, stage, turned};
ghost use Rattle.nfs_loop.specs.Reports.{Accounts};
ghost use Rattle.nfs_server.specs.Notes.{to_note};
ghost use Rattle.nfs_loop.specs.Watching.{AreWatched, FirstMayBeHeld, ReleasesBy, ReleasesOne, SomeMayBeHeld, heard_at, hold_at, watch_at};

use crate::housekeeping::Waiting;
use crate::network::{EVENTS, Network, Ready};
use crate::service::{Service, settle};
use crate::watches::{Hold, is_over};
use log::Log;
use nfs_lines::line_out::LineOut;
use nfs_lines::lines::Lines;
use nfs_server::audit_out::AuditOut;
use nfs_server::journal_out::JournalOut;
use nfs_server::notes::MOST_NOTED;
use nfs_server::server::Server;
use nfs_serving::turn::Turn;
use nfs_xdr::link::Link;

impl<L: Link + Drop> Service<L> {
    /// Has the clients wait for a turn of which the network reports something, after those that wait,
    /// unless they get none for now.
    #[inline(always)]
    pub(crate) fn note<N: Network>(&mut self, net: &mut N)
        requires watched { AreWatched self.old.clients.0 self.old.housekeeping.watches }
        ensures members { self.new.clients.0 ≡ self.old.clients.0 }
        ensures joined { self.new.joined ≡ self.old.joined }
        ensures notes { Notes self.old.clients.0 self.old.housekeeping.watches self.old.clients.1.0 self.new.clients.1.0
            (N.reported net.old) (N.reported net.new) }
        ensures holds { (key : ℕ) → hold_at self.new.housekeeping.watches key ≡ hold_at self.old.housekeeping.watches key }
        ensures heard { (key : ℕ) → heard_at self.new.housekeeping.watches key ≡ heard_at self.old.housekeeping.watches key }
        ensures all { AsksAll most_asked (N.reported net.old) (N.reported net.new) }
        ensures looked { self.new.housekeeping.looked ≡ self.old.housekeeping.looked }
        ensures limits { self.new.housekeeping.limits ≡ self.old.housekeeping.limits }
        ensures watched { AreWatched self.new.clients.0 self.new.housekeeping.watches }
    {
        self.housekeeping.retry();
        let mut left = EVENTS;
        while left > 0 {
            left -= 1;
            match net.ready() {
                Some(Ready::Listener) => {
                    self.housekeeping.waiting = Waiting::Some;
                    self.housekeeping.is_woken = true;
                }
                Some(Ready::Client { key, is_closing }) => self.note_client(key, is_closing),
                None => return,
            }
        }
    }

    // Has a client wait for a turn, unless it gets none for now.
    fn note_client(&mut self, key: usize, is_closing: bool)
        requires watched { AreWatched self.old.clients.0 self.old.housekeeping.watches }
        ensures members { self.new.clients.0 ≡ self.old.clients.0 }
        ensures joined { self.new.joined ≡ self.old.joined }
        ensures holds { (k : ℕ) → hold_at self.new.housekeeping.watches k ≡ hold_at self.old.housekeeping.watches k }
        ensures heard { (k : ℕ) → heard_at self.new.housekeeping.watches k ≡ heard_at self.old.housekeeping.watches k }
        ensures queue { self.new.clients.1.0 ≡ noted (get self.old.clients.0 key)
            (hold_at self.old.housekeeping.watches key) key self.old.clients.1.0 }
        ensures closing { self.new.housekeeping.watches ≡ (if is_closing
            then slice_set self.old.housekeeping.watches key (record (watch_at self.old.housekeeping.watches key) { is_closing = true })
            else self.old.housekeeping.watches) }
        ensures looked { self.new.housekeeping.looked ≡ self.old.housekeeping.looked }
        ensures limits { self.new.housekeeping.limits ≡ self.old.housekeeping.limits }
        ensures watched { AreWatched self.new.clients.0 self.new.housekeeping.watches }
    {
        let hold = self.housekeeping.watches.hold(key);
        if is_closing {
            self.housekeeping.watches.set_closing(key);
        }
        if hold.is_none() {
            self.clients.make_ready(key);
        }
    }

    /// Has clients that got no turn wait for one again, where lines of theirs have room now, or their
    /// time has come.
    pub(crate) fn release<N: Network, A: LineOut, C: LineOut>(
        &mut self,
        net: &mut N,
        lines: &Lines<'_, A, C>,
    )
        requires watched { AreWatched self.old.clients.0 self.old.housekeeping.watches }
        ensures members { self.new.clients.0 ≡ self.old.clients.0 }
        ensures joined { self.new.joined ≡ self.old.joined }
        ensures releases { ReleasesBy self.old.clients.0 (is_full lines.now.denied.queue) (N.reported net.old) (N.reported net.new)
            self.old.housekeeping.watches self.new.housekeeping.watches self.old.clients.1.0 self.new.clients.1.0 }
        ensures looked { self.new.housekeeping.looked ≡ self.old.housekeeping.looked }
        ensures limits { self.new.housekeeping.limits ≡ self.old.housekeeping.limits }
        ensures watched { AreWatched self.new.clients.0 self.new.housekeeping.watches }
    {
        if !self.housekeeping.watches.has_held() {
            return;
        }
        let is_full = lines.denied.is_full();
        let now = net.millis();
        let mut left = self.housekeeping.watches.keys();
        while left > 0 {
            left -= 1;
            self.release_one(left, is_full, now);
        }
    }

    // The same of the client of a key.
    #[cold]
    fn release_one(&mut self, key: usize, is_full: bool, now: u64)
        requires watched { AreWatched self.old.clients.0 self.old.housekeeping.watches }
        ensures members { self.new.clients.0 ≡ self.old.clients.0 }
        ensures joined { self.new.joined ≡ self.old.joined }
        ensures releases { ReleasesOne self.old.clients.0 is_full now key
            self.old.housekeeping.watches self.new.housekeeping.watches self.old.clients.1.0 self.new.clients.1.0 }
        ensures looked { self.new.housekeeping.looked ≡ self.old.housekeeping.looked }
        ensures limits { self.new.housekeeping.limits ≡ self.old.housekeeping.limits }
        ensures watched { AreWatched self.new.clients.0 self.new.housekeeping.watches }
    {
        if is_over(self.housekeeping.watches.hold(key), is_full, now) {
            self.housekeeping.watches.set_hold(key, None);
            self.clients.make_ready(key);
        }
    }

    /// Gives each client that waits a turn, in the order in which they wait. Each waits again then, sleeps or
    /// is gone. Where much was noted, it comes to last in the journal before the next turn, so that none is lost for want
    /// of room; where that fails, it does so again at the end of the round.
    pub(crate) fn turns<R: Log, N: Network<Stream = L>, A: LineOut, C: LineOut, J: JournalOut>(
        &mut self,
        rt: &R,
        server: &mut Server,
        net: &mut N,
        lines: &mut Lines<'_, A, C>,
        journal: &mut Option<J>,
    )
        requires watched { AreWatched self.old.clients.0 self.old.housekeeping.watches }
        ensures goes { Goes L.outgoing L.incoming
            (λ changes. (turned changes ≡ self.old.clients.1.0) × Accounts (N.reported net.old) changes (N.reported net.new)
            × JournalGoes (journal_of J.lasting J.failed journal.old) (noted_by changes) (journal_of J.lasting J.failed journal.new)
            × AreTurnsBeside L.outgoing L.incoming (journal_of J.lasting J.failed journal.new) changes
            (stage server.old self.old.clients.0 self.old.joined (written A.taken C.taken lines.old))
            (stage server.new self.new.clients.0 self.new.joined (written A.taken C.taken lines.new)))
            (stage server.old self.old.clients.0 self.old.joined (written A.taken C.taken lines.old))
            (stage server.new self.new.clients.0 self.new.joined (written A.taken C.taken lines.new)) }
        ensures holds { SomeMayBeHeld self.old.clients.1.0 self.old.housekeeping.watches self.new.housekeeping.watches }
        ensures others { AllOthersStay self.old.clients.1.0 (seats self.old.clients.0) (seats self.new.clients.0) }
        ensures heard { HeardInTurns L.incoming L.reports (N.reported net.old) (N.reported net.new) self.old.clients.1.0 self.new.clients.1.0
            self.old.housekeeping.watches self.new.housekeeping.watches (seats self.new.clients.0) }
        ensures again { WaitAgain L.incoming L.reports (is_some (journal_of J.lasting J.failed journal.old)) self.new.housekeeping.watches
            (seats self.old.clients.0) (seats self.new.clients.0) self.old.clients.1.0 self.new.clients.1.0 }
        ensures looked { self.new.housekeeping.looked ≡ self.old.housekeeping.looked }
        ensures limits { self.new.housekeeping.limits ≡ self.old.housekeeping.limits }
        ensures watched { AreWatched self.new.clients.0 self.new.housekeeping.watches }
    {
        let mut left = self.clients.waiting();
        while left > 0 {
            left -= 1;
            settle_where_much(server, journal);
            self.turn(rt, server, net, lines, journal);
        }
    }

    // Gives the one that has waited longest its turn. It waits for another one where more may have come, or its replies were
    // held, which they are where there is a journal.
    fn turn<R: Log, N: Network<Stream = L>, A: LineOut, C: LineOut, J: JournalOut>(
        &mut self,
        rt: &R,
        server: &mut Server,
        net: &mut N,
        lines: &mut Lines<'_, A, C>,
        journal: &Option<J>,
    )
        requires watched { AreWatched self.old.clients.0 self.old.housekeeping.watches }
        ensures goes { Goes L.outgoing L.incoming
            (λ changes. TurnsFirst L.incoming L.reports (is_some server.old.notes || is_some (journal_of J.lasting J.failed journal.now))
            self.new.housekeeping.watches (seats self.old.clients.0) (seats self.new.clients.0)
            self.old.clients.1.0 changes self.new.clients.1.0 × Accounts (N.reported net.old) changes (N.reported net.new) × (noted_by changes ≡ None)
            × (LeavesRoom (journal_of J.lasting J.failed journal.now) server.old → AreTurnsBeside L.outgoing L.incoming (journal_of J.lasting J.failed journal.now) changes
            (stage server.old self.old.clients.0 self.old.joined (written A.taken C.taken lines.old))
            (stage server.new self.new.clients.0 self.new.joined (written A.taken C.taken lines.new))))
            (stage server.old self.old.clients.0 self.old.joined (written A.taken C.taken lines.old))
            (stage server.new self.new.clients.0 self.new.joined (written A.taken C.taken lines.new)) }
        ensures holds { FirstMayBeHeld self.old.clients.1.0 self.old.housekeeping.watches self.new.housekeeping.watches }
        ensures heard { HeardInTurns L.incoming L.reports (N.reported net.old) (N.reported net.new) (first_of self.old.clients.1.0) self.new.clients.1.0
            self.old.housekeeping.watches self.new.housekeeping.watches (seats self.new.clients.0) }
        ensures looked { self.new.housekeeping.looked ≡ self.old.housekeeping.looked }
        ensures limits { self.new.housekeeping.limits ≡ self.old.housekeeping.limits }
        ensures watched { AreWatched self.new.clients.0 self.new.housekeeping.watches }
    {
        let Some((key, mut member)) = self.clients.next() else {
            return;
        };
        let millis = net.millis();
        let moment = net.now();
        let holds = holds_replies(server, journal);
        let turn = member
            .client
            .turn(server, &mut self.room, moment, &mut lines.denied, holds);
        self.housekeeping.turn_times.add(net.read_clock());
        let is_heard = is_heard(turn);
        self.housekeeping.is_touched |= is_heard;
        self.housekeeping
            .watches
            .hear(key, millis / 1_000, is_heard);
        match turn {
            Turn::Ended(end) => self.housekeeping.leave(rt, net, lines, member, moment, end),
            Turn::Fed => self.clients.put_back(key, member, true),
            Turn::Drained => {
                let is_closing = self.housekeeping.watches.is_closing(key);
                self.clients.put_back(key, member, is_closing);
            }
            Turn::Idle => self.clients.put_back(key, member, false),
            Turn::Held => {
                self.housekeeping.watches.set_hold(key, Some(Hold::Lines));
                self.clients.put_back(key, member, false);
            }
            Turn::Owing => self.clients.put_back(key, member, false),
            Turn::Answered => self.clients.put_back(key, member, true),
        }
    }
}

// Whether replies are held until what was noted lasts: where there is a journal, or the server keeps notes.
fn holds_replies<J>(server: &Server, journal: &Option<J>) -> bool
    ensures { result ≡ (is_some server.now.notes || is_some journal.now) }
{
    server.notes().is_some() || journal.is_some()
}

// Makes what the server noted last where it is so much that one more turn might leave it no room.
fn settle_where_much<J: JournalOut>(server: &mut Server, journal: &mut Option<J>)
    ensures goes { (noted : Option (List ℕ)) × SettlesBy noted server.old server.new
        × JournalGoes (journal_of J.lasting J.failed journal.old) noted (journal_of J.lasting J.failed journal.new) }
    ensures room { LeavesRoom (journal_of J.lasting J.failed journal.new) server.new }
{
    if !has_much(server) {
        return;
    }
    let _ = settle(server, journal);
}

// Whether the server noted more than half of what it has room for; a turn brings less than that.
fn has_much(server: &Server) -> bool
    ensures { result ≡ nat_lt 2097152 (length (to_note server.now.notes)) }
{
    match server.notes() {
        Some(notes) => notes.len() > MOST_NOTED / 2,
        None => false,
    }
}

// Whether something was heard of a client that had this turn.
fn is_heard(turn: Turn) -> bool
    ensures { result ≡ false ↔ (turn ≡ Turn.Idle) }
{
    turn != Turn::Idle
}
