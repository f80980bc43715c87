//! What a service says of itself in numbers.

use nfs_loop::attendant::Standing;
use nfs_loop::turn_times::TurnTimes;
use nfs_loop::view::ServiceView;
use nfs_server::journal_out::JournalFigures;
use nfs_server::server::Server;
use nfs_serving::traffic::Traffic;
use nfs_xdr::link::Link;

/// What a service says of itself in numbers.
#[derive(Clone, Copy, Debug, PartialEq, Eq)]
pub struct Figures {
    /// How it stands.
    pub standing: Standing,
    /// How many calls came of procedures that there are.
    pub calls: u64,
    /// How many of them came in a second of the last minute, or since the service began, rounded down.
    pub calls_per_second: u64,
    /// How many calls were denied.
    pub denied: u64,
    /// How many mounts there are.
    pub mounts: usize,
    /// How many replies are cached.
    pub cached: usize,
    /// How many replies may be cached.
    pub places: usize,
    /// How many bytes came from clients and went to them.
    pub traffic: Traffic,
    /// How many bytes of replies are pending.
    pub pending: u64,
    /// How long turns took.
    pub turn_times: TurnTimes,
    /// How many lines were dropped, or counted in place of being written.
    pub dropped: u64,
    /// How many bytes of memory the process takes, where the system says it.
    pub resident: Option<u64>,
    /// What the journal says of itself, if there is one.
    pub journal: Option<JournalFigures>,
}

impl Figures {
    /// Those of a service that is seen so, of this server.
    pub(crate) fn of<L: Link + Drop>(
        server: &Server,
        view: &ServiceView<'_, L>,
        resident: Option<u64>,
    ) -> Figures {
        Figures {
            standing: view.standing,
            calls: server.counts().total(),
            calls_per_second: view.calls_in_minute / view.minute.max(1),
            denied: view.denials.calls(),
            mounts: server.mounts().len(),
            cached: server.cached(),
            places: server.places(),
            traffic: view.traffic(),
            pending: view.pending(),
            turn_times: view.turn_times,
            dropped: view.dropped,
            resident,
            journal: view.journal,
        }
    }
}
