//! The metrics of a service, in the text format of Prometheus, version 0.0.4.

use crate::figures::Figures;
use crate::resident::resident_bytes;
use nfs_args::procedure::{MountProcedure, Procedure};
use nfs_inodes::tree::Tree;
use nfs_lines::denials::RuleCount;
use nfs_lines::rule_names::name_of;
use nfs_loop::turn_times::{TURN_BOUNDS, TurnTimes};
use nfs_loop::view::ServiceView;
use nfs_server::call_counts::CallCounts;
use nfs_server::journal_out::JournalFigures;
use nfs_server::server::Server;
use nfs_words::text::Text;
use nfs_xdr::link::Link;
use std::alloc::{AllocError, Global};
use std::rt::Files;

// How many procedures NFS and MOUNT have (RFC 1813, sections 3.3 and 5.2).
const NFS_PROCEDURES: u32 = 22;

const MOUNT_PROCEDURES: u32 = 6;

/// What a metric is.
#[derive(Clone, Copy)]
enum Kind {
    /// A number that only grows while the service runs.
    Counter,
    /// A number that may also fall.
    Gauge,
    /// How many values there were within each of some bounds.
    Histogram,
}

/// The metrics of a service that is seen so, of this server. `AllocError` where there is no memory for them.
pub(crate) fn metrics_of<L: Link + Drop, R: Files>(
    rt: &R,
    alloc: Global,
    server: &Server,
    view: &ServiceView<'_, L>,
) -> Result<Vec<u8>, AllocError> {
    let figures = Figures::of(server, view, resident_bytes(rt));
    let denied = view.denials.counts();
    metrics_text(alloc, &figures, server.counts(), denied, server.tree())
}

// `# HELP`, `# TYPE` and the value or values of each.
fn metrics_text(
    alloc: Global,
    figures: &Figures,
    calls: &CallCounts,
    denied: &[RuleCount],
    tree: &Tree,
) -> Result<Vec<u8>, AllocError> {
    let mut out = Text::new(alloc);
    put_clients(&mut out, figures);
    put_cache(&mut out, figures);
    put_traffic(&mut out, figures);
    put_resident(&mut out, figures.resident);
    put_journal(&mut out, figures.journal);
    put_turns(&mut out, &figures.turn_times);
    put_calls(&mut out, calls);
    put_denied(&mut out, denied);
    put_volumes(&mut out, tree);
    out.into_bytes()
}

// Who was served, and for how long.
fn put_clients(out: &mut Text, figures: &Figures) {
    let standing = figures.standing;
    put_gauge(
        out,
        b"nfs3d_uptime_seconds",
        b"For how many seconds the service has run.",
        standing.seconds,
    );
    put_gauge(
        out,
        b"nfs3d_clients",
        b"How many clients are connected.",
        standing.clients as u64,
    );
    put_counter(
        out,
        b"nfs3d_connections_total",
        b"How many connections there were.",
        standing.joined,
    );
    put_gauge(
        out,
        b"nfs3d_mounts",
        b"How many pairs of a client and a volume are mounted.",
        figures.mounts as u64,
    );
}

// How full the reply cache is.
fn put_cache(out: &mut Text, figures: &Figures) {
    put_gauge(
        out,
        b"nfs3d_cached_replies",
        b"How many replies are cached for retransmissions.",
        figures.cached as u64,
    );
    put_gauge(
        out,
        b"nfs3d_cached_replies_limit",
        b"How many replies may be cached.",
        figures.places as u64,
    );
}

// What came and went.
fn put_traffic(out: &mut Text, figures: &Figures) {
    put_counter(
        out,
        b"nfs3d_received_bytes_total",
        b"How many bytes came from clients.",
        figures.traffic.received,
    );
    put_counter(
        out,
        b"nfs3d_sent_bytes_total",
        b"How many bytes went to clients.",
        figures.traffic.sent,
    );
    put_gauge(
        out,
        b"nfs3d_pending_bytes",
        b"How many bytes of replies are pending.",
        figures.pending,
    );
    put_counter(
        out,
        b"nfs3d_dropped_lines_total",
        b"How many lines could not be written.",
        figures.dropped,
    );
}

// How much memory the process takes, where the system says it.
fn put_resident(out: &mut Text, resident: Option<u64>) {
    if let Some(resident) = resident {
        put_gauge(
            out,
            b"nfs3d_resident_bytes",
            b"How many bytes of memory the process takes.",
            resident,
        );
    }
}

// What a journal says of itself, if there is one.
fn put_journal(out: &mut Text, journal: Option<JournalFigures>) {
    let Some(figures) = journal else {
        return;
    };
    put_gauge(
        out,
        b"nfs3d_journal_bytes",
        b"How many bytes the journal has.",
        figures.bytes,
    );
    put_counter(
        out,
        b"nfs3d_journal_syncs_total",
        b"How often the journal was synced.",
        figures.syncs,
    );
    put_head(
        out,
        b"nfs3d_journal_sync_seconds_total",
        b"How long the journal was being synced.",
        Kind::Counter,
    );
    out.put(b"nfs3d_journal_sync_seconds_total ");
    put_seconds(out, figures.sync_micros);
    out.put(b"\n");
}

// How long turns took: for each bound how many took no longer.
fn put_turns(out: &mut Text, times: &TurnTimes) {
    put_head(
        out,
        b"nfs3d_turn_seconds",
        b"How long turns of clients took.",
        Kind::Histogram,
    );
    for (place, bound) in TURN_BOUNDS.iter().enumerate() {
        out.put(b"nfs3d_turn_seconds_bucket{le=\"");
        put_seconds(out, *bound);
        out.put_field(b"\"} ", times.within(place));
        out.put(b"\n");
    }
    let all = times.within(TURN_BOUNDS.len());
    out.put_field(b"nfs3d_turn_seconds_bucket{le=\"+Inf\"} ", all);
    out.put(b"\nnfs3d_turn_seconds_sum ");
    put_seconds(out, times.micros());
    out.put_field(b"\nnfs3d_turn_seconds_count ", all);
    out.put(b"\n");
}

// Microseconds as seconds with six digits after the point.
fn put_seconds(out: &mut Text, micros: u64) {
    out.put_number(micros / 1_000_000);
    out.put(b".");
    for place in [100_000u64, 10_000, 1_000, 100, 10, 1] {
        out.put_number(micros / place % 10);
    }
}

// How many calls came of each procedure.
fn put_calls(out: &mut Text, calls: &CallCounts) {
    put_head(
        out,
        b"nfs3d_calls_total",
        b"How many calls came, by their procedure.",
        Kind::Counter,
    );
    put_call(out, b"null", b"NULL", calls.nulls());
    for number in 1..NFS_PROCEDURES {
        if let Some(procedure) = Procedure::of(number) {
            put_call(out, b"nfs", procedure.name(), calls.of_nfs(procedure));
        }
    }
    put_mount_calls(out, calls);
}

fn put_mount_calls(out: &mut Text, calls: &CallCounts) {
    for number in 1..MOUNT_PROCEDURES {
        if let Some(procedure) = MountProcedure::of(number) {
            put_call(out, b"mount", procedure.name(), calls.of_mount(procedure));
        }
    }
}

fn put_call(out: &mut Text, program: &[u8], procedure: &[u8], calls: u64) {
    out.put(b"nfs3d_calls_total{program=\"");
    out.put(program);
    out.put(b"\",procedure=\"");
    out.put(procedure);
    out.put_field(b"\"} ", calls);
    out.put(b"\n");
}

// How many calls were denied by each rule.
fn put_denied(out: &mut Text, denied: &[RuleCount]) {
    put_head(
        out,
        b"nfs3d_denied_total",
        b"How many calls were denied, by the first rule that failed.",
        Kind::Counter,
    );
    for counted in denied {
        out.put(b"nfs3d_denied_total{rule=\"");
        out.put(name_of(counted.reason).as_bytes());
        out.put_field(b"\"} ", counted.calls);
        out.put(b"\n");
    }
}

// What a volume has, or may have.
#[derive(Clone, Copy)]
enum OfVolume {
    Bytes,
    MostBytes,
    Files,
    MostFiles,
}

fn put_volumes(out: &mut Text, tree: &Tree) {
    put_of_volumes(
        out,
        tree,
        b"nfs3d_volume_bytes",
        b"How many bytes the files of a volume have.",
        OfVolume::Bytes,
    );
    put_of_volumes(
        out,
        tree,
        b"nfs3d_volume_bytes_limit",
        b"How many bytes the files of a volume may have.",
        OfVolume::MostBytes,
    );
    put_of_volumes(
        out,
        tree,
        b"nfs3d_volume_files",
        b"How many files a volume has.",
        OfVolume::Files,
    );
    put_of_volumes(
        out,
        tree,
        b"nfs3d_volume_files_limit",
        b"How many files a volume may have.",
        OfVolume::MostFiles,
    );
}

// A metric of each volume.
fn put_of_volumes(out: &mut Text, tree: &Tree, name: &[u8], help: &[u8], what: OfVolume) {
    put_head(out, name, help, Kind::Gauge);
    for place in 0..tree.volumes() {
        if let (Some(volume), Some(totals)) = (tree.volume(place), tree.totals(place)) {
            let value = match what {
                OfVolume::Bytes => totals.bytes,
                OfVolume::MostBytes => volume.max_bytes,
                OfVolume::Files => totals.files,
                OfVolume::MostFiles => volume.max_files,
            };
            out.put(name);
            out.put(b"{volume=\"");
            put_label(out, volume.path);
            out.put_field(b"\"} ", value);
            out.put(b"\n");
        }
    }
}

fn put_gauge(out: &mut Text, name: &[u8], help: &[u8], value: u64) {
    put_head(out, name, help, Kind::Gauge);
    put_value(out, name, value);
}

fn put_counter(out: &mut Text, name: &[u8], help: &[u8], value: u64) {
    put_head(out, name, help, Kind::Counter);
    put_value(out, name, value);
}

fn put_value(out: &mut Text, name: &[u8], value: u64) {
    out.put(name);
    out.put_field(b" ", value);
    out.put(b"\n");
}

// What stands before the values of a metric.
fn put_head(out: &mut Text, name: &[u8], help: &[u8], kind: Kind) {
    out.put(b"# HELP ");
    out.put(name);
    out.put(b" ");
    out.put(help);
    out.put(b"\n# TYPE ");
    out.put(name);
    out.put(match kind {
        Kind::Counter => b" counter\n",
        Kind::Gauge => b" gauge\n",
        Kind::Histogram => b" histogram\n",
    });
}

// The value of a label: a backslash stands before each backslash and each quotation mark.
fn put_label(out: &mut Text, label: &[u8]) {
    for byte in label {
        if *byte == b'\\' || *byte == b'"' {
            out.put(b"\\");
        }
        out.put(&[*byte]);
    }
}
