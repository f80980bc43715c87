//! What a service keeps beside its clients.
ghost use Rattle.std.specs.Prelude.{◌≡◌, ◌⊎◌, ◌+◌, ◌/◌, ◌<◌, ◌≤◌, ◌&&◌, ◌||◌, ℕ, [], false, true, not, nat_eq, nat_lt, None, Some, is_some, IfNone, IfSome, slice_set};
ghost use Rattle.slab.specs.Slab.{slab_len};
ghost use Rattle.nfs_lines.specs.Written.{PassedOn, written};
ghost use Rattle.nfs_loop.specs.Attending.{MayReload};
ghost use Rattle.nfs_loop.specs.Refusing.{hold_for};
ghost use Rattle.nfs_loop.specs.Reports.{Accounts};
ghost use Rattle.nfs_loop.specs.Ending.{EndsAfter, EndsIfSaved, all_ended, is_at_end, until_told};
ghost use Rattle.nfs_loop.specs.Stages.{looked_after};
ghost use Rattle.nfs_loop.specs.Timeouts.{IsWithin, looks_at_the_clock};
ghost use Rattle.nfs_loop.specs.Watching.{heard_at, held_count};
ghost use Rattle.nfs_serving.specs.Turns.{IsAtRest};

use crate::attendant::{Attendant, Standing};
use crate::call_rate::CallRate;
use crate::limits::Limits;
use crate::lines_reported::LinesReported;
use crate::member::Member;
use crate::network::Network;
use crate::refused_peers::RefusedPeers;
use crate::turn_times::TurnTimes;
use crate::view::ServiceView;
use crate::watches::Watches;
use log::{Log, warn};
use nfs_exports::addr::Addr;
use nfs_lines::line_out::LineOut;
use nfs_lines::lines::Lines;
use nfs_queue::clients::Clients;
use nfs_server::journal_out::JournalFigures;
use nfs_server::server::Server;
use nfs_serving::traffic::Traffic;
use nfs_xdr::link::Link;
use std::alloc::Global;
use std::time::Duration;

// How long a connection that can't be accepted waits for another try, in milliseconds.
const RETRY_MILLIS: u64 = 100;

/// How long lines and clients wait for another try where the system reports nothing, in milliseconds.
pub(crate) const LINES_MILLIS: u64 = 10;

// For how many seconds a service goes on that was told to end.
const LAST_SECONDS: u64 = 10;

// For how many seconds nothing may be heard of a client that is no longer busy.
const QUIET_SECONDS: u64 = 2;

/// Whether connections wait to be accepted.
#[derive(Clone, Copy, PartialEq, Eq)]
pub(crate) enum Waiting {
    /// None is known of.
    None,
    /// Some may.
    Some,
    /// Some do, for which there are too many open files.
    Refused,
}

/// What a service keeps beside its clients: its limits, whom it watches and holds, and when it last
/// looked, reported and saved. Times are in seconds since the service began.
#[derive(Drop)]
pub(crate) struct Housekeeping {
    /// How much the service takes on.
    pub(crate) limits: Limits,
    /// What is known of the clients by their keys.
    pub(crate) watches: Watches,
    /// Whether connections wait to be accepted.
    pub(crate) waiting: Waiting,
    /// How many connections have ended.
    pub(crate) ended: u64,
    /// When silent clients were last looked for.
    pub(crate) looked: u64,
    /// The addresses whose next connections have to wait.
    pub(crate) refused_peers: RefusedPeers,
    /// Whether the tree may have changed since it was saved.
    pub(crate) is_touched: bool,
    /// Whether something was reported in this round that is no client's, and may be for the attendant.
    pub(crate) is_woken: bool,
    lines_reported: LinesReported,
    /// How many bytes came and went on connections that have ended.
    pub(crate) ended_traffic: Traffic,
    // How many calls came in the last minute.
    call_rate: CallRate,
    /// How long turns took.
    pub(crate) turn_times: TurnTimes,
    // When the attendant was last asked.
    asked: u64,
    // When the tree was last saved.
    saved: u64,
    // Until when the service goes on, once it was told to end.
    until: Option<u64>,
    // Whether it goes on no more.
    is_over: bool,
    // Whether it accepts no connections since it was told to end.
    is_closed: bool,
    // When it last tried to accept them again, and was refused that.
    tried: Option<u64>,
}

impl Housekeeping {
    /// That of a service that begins.
    pub(crate) fn new(alloc: Global, limits: Limits) -> Housekeeping
        ensures limits { result.limits ≡ limits }
        ensures looked { result.looked ≡ 0 }
    {
        Housekeeping {
            limits,
            watches: Watches::new(alloc),
            waiting: Waiting::None,
            ended: 0,
            looked: 0,
            refused_peers: RefusedPeers::new(alloc),
            is_touched: false,
            is_woken: false,
            lines_reported: LinesReported::nothing(),
            ended_traffic: Traffic::none(),
            call_rate: CallRate::new(),
            turn_times: TurnTimes::none(),
            asked: 0,
            saved: 0,
            until: None,
            is_over: false,
            is_closed: false,
            tried: None,
        }
    }

    /// Whether all connections that there may be have ended, or the service was told to end and goes on no
    /// more.
    pub(crate) fn is_done(&self) -> bool
        ensures { result ≡ (self.now.is_over || all_ended self.now.limits.connections self.now.ended) }
    {
        if self.is_over {
            return true;
        }
        match self.limits.connections {
            Some(connections) => self.ended >= connections,
            None => false,
        }
    }

    /// For how long a service with so many clients waits, of which none waits for a turn: until something
    /// is ready; not for long where lines wait.
    pub(crate) fn timeout(&self, clients: usize, has_lines: bool) -> Option<Duration>
        ensures connections { self.now.waiting ≡ Waiting.Some → IsWithin 0 result }
        ensures lines { has_lines ≡ true → IsWithin 10 result }
        ensures held { nat_lt 0 (held_count self.now.watches) ≡ true → IsWithin 10 result }
        ensures refused { self.now.waiting ≡ Waiting.Refused → IsWithin 100 result }
        ensures idle { is_some self.now.limits.idle ≡ true → 0 < clients → IsWithin 1000 result }
        ensures closed { self.now.is_closed ≡ true → IsWithin 1000 result }
        ensures watched { self.now.limits.is_watched ≡ true → IsWithin 1000 result }
        ensures none { self.now.waiting ≡ Waiting.None → has_lines ≡ false → nat_lt 0 (held_count self.now.watches) ≡ false
            → looks_at_the_clock self.now.limits self.now.is_touched self.now.is_closed clients ≡ false → result ≡ None }
    {
        if self.waiting == Waiting::Some {
            Some(Duration::ZERO)
        } else if has_lines || self.watches.has_held() {
            Some(Duration::from_millis(LINES_MILLIS))
        } else if self.waiting == Waiting::Refused {
            Some(Duration::from_millis(RETRY_MILLIS))
        } else if self.looks_at_the_clock(clients) {
            Some(Duration::from_secs(1))
        } else {
            None
        }
    }

    // Whether there is something to do once a second.
    fn looks_at_the_clock(&self, clients: usize) -> bool
        ensures { result ≡ looks_at_the_clock self.now.limits self.now.is_touched self.now.is_closed clients }
    {
        let may_be_silent = self.limits.idle.is_some() && clients > 0;
        let may_be_saved = self.limits.save_every.is_some() && self.is_touched;
        may_be_silent || may_be_saved || self.is_closed || self.limits.is_watched
    }

    /// Has a connection accepted that could not be accepted before.
    pub(crate) fn retry(&mut self)
        ensures watches { self.new.watches ≡ self.old.watches }
        ensures looked { self.new.looked ≡ self.old.looked }
        ensures limits { self.new.limits ≡ self.old.limits }
        ensures refused { self.new.refused_peers ≡ self.old.refused_peers }
        ensures ended { self.new.ended ≡ self.old.ended }
        ensures touched { self.new.is_touched ≡ self.old.is_touched }
        ensures waiting { self.old.waiting ≡ Waiting.Refused → self.new.waiting ≡ Waiting.Some }
    {
        if self.waiting == Waiting::Refused {
            self.waiting = Waiting::Some;
        }
    }

    /// Since when a client has to have been silent for its connection to be ended, where it is time to look
    /// for such ones, so many seconds after the service began: once a second.
    pub(crate) fn silent_since(&mut self, seconds: u64) -> Option<u64>
        ensures since { IfSome result (λ since. (idle : ℕ) × (self.old.limits.idle ≡ Some idle) × (since + idle ≡ seconds)) }
        ensures none { IfNone result ((idle : ℕ) → self.old.limits.idle ≡ Some idle → (seconds ≡ self.old.looked) ⊎ (seconds < idle)) }
        ensures looked { self.new.looked ≡ looked_after self.old.limits.idle seconds self.old.looked }
        ensures limits { self.new.limits ≡ self.old.limits }
        ensures watches { self.new.watches ≡ self.old.watches }
        ensures ended { self.new.ended ≡ self.old.ended }
        ensures touched { self.new.is_touched ≡ self.old.is_touched }
    {
        let idle = self.limits.idle?;
        if seconds == self.looked {
            return None;
        }
        self.looked = seconds;
        seconds.checked_sub(idle)
    }

    /// Begins to watch a new client from this address, which was heard of at this time, in milliseconds
    /// since the service began. It is held where connections from there have to wait, and only there.
    pub(crate) fn watch(&mut self, key: usize, addr: Addr, millis: u64)
        ensures watches { self.new.watches ≡ slice_set self.old.watches key
            (record { heard = millis / 1000; hold = hold_for addr millis self.old.refused_peers; is_closing = false }) }
        ensures looked { self.new.looked ≡ self.old.looked }
        ensures limits { self.new.limits ≡ self.old.limits }
        ensures ended { self.new.ended ≡ self.old.ended }
        ensures touched { self.new.is_touched ≡ self.old.is_touched }
    {
        let hold = self.refused_peers.hold(addr, millis);
        self.watches.begin(key, millis / 1_000, hold);
    }

    /// Passes on lines that wait, says what can't be written, has the tree saved where it is time, and has whoever
    /// controls the service answered.
    pub(crate) fn attend<L: Link + Drop, R: Log, N: Network, A: LineOut, C: LineOut, T: Attendant>(
        &mut self,
        rt: &R,
        server: &mut Server,
        net: &mut N,
        lines: &mut Lines<'_, A, C>,
        attendant: &mut T,
        clients: &Clients<Member<L>>,
        journal: Option<JournalFigures>,
    )
        ensures reloads { MayReload server.old server.new }
        ensures reported { Accounts (N.reported net.old) [] (N.reported net.new) }
        ensures watches { self.new.watches ≡ self.old.watches }
        ensures looked { self.new.looked ≡ self.old.looked }
        ensures limits { self.new.limits ≡ self.old.limits }
        ensures lines { PassedOn (written A.taken C.taken lines.old) (written A.taken C.taken lines.new) }
    {
        lines.pass_on();
        let seconds = net.millis() / 1_000;
        self.lines_reported.report(rt, lines, seconds);
        if self.is_quiet(seconds) {
            return;
        }
        self.note_calls(server, seconds);
        self.save(server, net, attendant, seconds);
        let standing = Standing {
            clients: clients.len(),
            busy: self.count_busy(clients, seconds),
            joined: self.ended.saturating_add(clients.len() as u64),
            seconds,
        };
        let is_told = self.is_to_ask(seconds)
            && self.ask(server, lines, attendant, clients, standing, journal);
        self.is_woken = false;
        self.asked = seconds;
        self.look_at_end(rt, server, net, attendant, is_told, standing);
    }

    // Whether nothing else is to be done in this round: the second is that of the last one, nobody asks for anything, and
    // the service is not told to end.
    fn is_quiet(&self, seconds: u64) -> bool
        ensures { result ≡ (nat_eq seconds self.now.asked && not self.now.is_woken && not self.now.is_closed) }
    {
        seconds == self.asked && !self.is_woken && !self.is_closed
    }

    // Notes how many calls had come when this second began.
    fn note_calls(&mut self, server: &Server, seconds: u64)
        ensures watches { self.new.watches ≡ self.old.watches }
        ensures looked { self.new.looked ≡ self.old.looked }
        ensures limits { self.new.limits ≡ self.old.limits }
        ensures ended { self.new.ended ≡ self.old.ended }
        ensures touched { self.new.is_touched ≡ self.old.is_touched }
    {
        if self.call_rate.is_behind(seconds) {
            self.call_rate.note(seconds, server.counts().total());
        }
    }

    // Whether the attendant is asked in this round.
    fn is_to_ask(&self, seconds: u64) -> bool
        ensures { result ≡ (self.now.is_woken || self.now.limits.is_watched && not (nat_eq seconds self.now.asked)) }
    {
        self.is_woken || (self.limits.is_watched && seconds != self.asked)
    }

    // Has whoever controls the service answered. Whether the service is to end.
    #[cold]
    fn ask<L: Link + Drop, A: LineOut, C: LineOut, T: Attendant>(
        &self,
        server: &mut Server,
        lines: &Lines<'_, A, C>,
        attendant: &mut T,
        clients: &Clients<Member<L>>,
        standing: Standing,
        journal: Option<JournalFigures>,
    ) -> bool
        ensures { MayReload server.old server.new }
    {
        let view = ServiceView {
            standing,
            calls_in_minute: self.call_rate.in_minute(server.counts().total()),
            minute: self.call_rate.minute(),
            ended_traffic: self.ended_traffic,
            turn_times: self.turn_times,
            denials: lines.denied.denials(),
            dropped: lines.dropped(),
            journal,
            clients,
            watches: &self.watches,
        };
        attendant.attend(server, &view)
    }

    // How many clients are busy, once the service is told to end.
    #[cold]
    fn count_busy<L: Link + Drop>(&self, clients: &Clients<Member<L>>, seconds: u64) -> usize
        ensures { self.now.until ≡ None → result ≡ slab_len clients.now.0 }
    {
        if self.until.is_none() {
            return clients.len();
        }
        let mut busy = 0usize;
        for key in 0..clients.keys() {
            if let Some(member) = clients.get(key)
                && self.is_busy(member, key, seconds)
            {
                busy = busy.saturating_add(1);
            }
        }
        busy
    }

    // Whether the client of a key has something on its way, or was heard of lately.
    fn is_busy<L: Link + Drop>(&self, member: &Member<L>, key: usize, seconds: u64) -> bool
        ensures rest { result ≡ false → IsAtRest member.now.client.value }
        ensures quiet { result ≡ false → heard_at self.now.watches key + QUIET_SECONDS ≤ seconds }
        ensures busy { result ≡ true → IsAtRest member.now.client.value → seconds < heard_at self.now.watches key + QUIET_SECONDS }
    {
        !member.client.is_at_rest()
            || seconds.saturating_sub(self.watches.heard(key)) < QUIET_SECONDS
    }

    // Has a service end that was told to, once no client is busy, or after 10 seconds, if its tree is saved then. Where it
    // can't be, the service goes on as if it had not been told.
    #[cold]
    fn look_at_end<R: Log, N: Network, T: Attendant>(
        &mut self,
        rt: &R,
        server: &Server,
        net: &mut N,
        attendant: &mut T,
        is_told: bool,
        standing: Standing,
    )
        ensures ends { EndsAfter standing (until_told is_told standing.seconds self.old.until) (T.may_end attendant.new)
            self.old.is_over self.new.until self.new.is_over }
        ensures reported { N.reported net.new ≡ N.reported net.old }
        ensures watches { self.new.watches ≡ self.old.watches }
        ensures looked { self.new.looked ≡ self.old.looked }
        ensures limits { self.new.limits ≡ self.old.limits }
        ensures ended { self.new.ended ≡ self.old.ended }
        ensures touched { self.new.is_touched ≡ self.old.is_touched }
    {
        self.note_told(net, is_told, standing.seconds);
        if self.is_at_end(standing) {
            self.end(server, attendant);
        }
        self.listen_again(rt, net, standing.seconds);
    }

    // Accepts no more connections once the service is told to end.
    fn note_told<N: Network>(&mut self, net: &mut N, is_told: bool, seconds: u64)
        ensures until { self.new.until ≡ until_told is_told seconds self.old.until }
        ensures over { self.new.is_over ≡ self.old.is_over }
        ensures reported { N.reported net.new ≡ N.reported net.old }
        ensures watches { self.new.watches ≡ self.old.watches }
        ensures looked { self.new.looked ≡ self.old.looked }
        ensures limits { self.new.limits ≡ self.old.limits }
        ensures ended { self.new.ended ≡ self.old.ended }
        ensures touched { self.new.is_touched ≡ self.old.is_touched }
    {
        if is_told && self.until.is_none() {
            net.close_listener();
            self.is_closed = true;
            self.until = Some(seconds.saturating_add(LAST_SECONDS));
        }
    }

    // Whether no client is busy any more, or its 10 seconds are over.
    fn is_at_end(&self, standing: Standing) -> bool
        ensures { result ≡ is_at_end standing self.now.until }
    {
        match self.until {
            Some(until) => standing.busy == 0 || standing.seconds >= until,
            None => false,
        }
    }

    // Ends the service, if its tree is saved.
    fn end<T: Attendant>(&mut self, server: &Server, attendant: &mut T)
        ensures ends { EndsIfSaved (T.may_end attendant.new) self.old.until self.old.is_over self.new.until self.new.is_over }
        ensures watches { self.new.watches ≡ self.old.watches }
        ensures looked { self.new.looked ≡ self.old.looked }
        ensures limits { self.new.limits ≡ self.old.limits }
        ensures ended { self.new.ended ≡ self.old.ended }
        ensures touched { self.new.is_touched ≡ self.old.is_touched }
    {
        if attendant.finish(server) {
            self.is_over = true;
        } else {
            self.until = None;
        }
    }

    // Accepts connections again where the service goes on that had been told to end. Where the system refuses that,
    // it is tried again a second later.
    fn listen_again<R: Log, N: Network>(&mut self, rt: &R, net: &mut N, seconds: u64)
        ensures until { self.new.until ≡ self.old.until }
        ensures over { self.new.is_over ≡ self.old.is_over }
        ensures reported { N.reported net.new ≡ N.reported net.old }
        ensures watches { self.new.watches ≡ self.old.watches }
        ensures looked { self.new.looked ≡ self.old.looked }
        ensures limits { self.new.limits ≡ self.old.limits }
        ensures ended { self.new.ended ≡ self.old.ended }
        ensures touched { self.new.is_touched ≡ self.old.is_touched }
    {
        if !self.is_closed || self.until.is_some() || self.tried == Some(seconds) {
            return;
        }
        match net.open_listener() {
            Ok(()) => {
                self.tried = None;
                self.is_closed = false;
                self.waiting = Waiting::Some;
            }
            Err(error) => {
                self.tried = Some(seconds);
                warn!(rt; "no connection can be accepted: {error}");
            }
        }
    }

    // Has the tree saved where it is time, so many seconds after the service began.
    #[cold]
    fn save<N: Network, T: Attendant>(
        &mut self,
        server: &Server,
        net: &mut N,
        attendant: &mut T,
        seconds: u64,
    )
        ensures reported { Accounts (N.reported net.old) [] (N.reported net.new) }
        ensures watches { self.new.watches ≡ self.old.watches }
        ensures looked { self.new.looked ≡ self.old.looked }
        ensures limits { self.new.limits ≡ self.old.limits }
    {
        if let Some(every) = self.limits.save_every
            && self.is_touched
            && seconds.saturating_sub(self.saved) >= every
        {
            attendant.save(server);
            self.is_touched = false;
            net.read_clock();
            self.saved = net.millis() / 1_000;
        }
    }
}
