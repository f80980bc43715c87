//! How a service stands, and what its volumes have.
ghost use Rattle.std.specs.Prelude.{◌≡◌, ◌++◌, codes, decimal, IfOk, length};
ghost use Rattle.nfs_control.specs.Status as spec;
ghost use Rattle.nfs_control.specs.Status.{activity_lines, journal_line, line_at, lines_of_first, resident_line, service_lines, volume_line};
ghost use Rattle.nfs_inodes.specs.Views.{volume_seen};
ghost use Rattle.nfs_words.specs.Texts.{Puts};

use crate::figures::Figures;
use nfs_inodes::tree::Tree;
use nfs_inodes::volumes::{Totals, VolumeView};
use nfs_server::journal_out::JournalFigures;
use nfs_words::text::Text;
use std::alloc::{AllocError, Global};

/// The answer to `status`: these first lines; the lines `uptime SECONDS`, `clients N`, `connections N`, `calls N`,
/// `calls-per-second N`, `denied N`, `mounts N`, `cached-replies N of=MOST`, `received BYTES`, `sent BYTES`,
/// `pending BYTES`, `dropped-lines N`; where the system says it, `memory BYTES`; where there is a journal
/// `journal BYTES syncs=N sync-micros=N`; and for each volume
/// `volume PATH bytes=USED of=MOST files=USED of=MOST`.
pub(crate) fn status_text(
    alloc: Global,
    first: &[u8],
    figures: &Figures,
    tree: &Tree,
) -> Result<Vec<u8>, AllocError>
    ensures { IfOk result (λ text. text.items ≡ spec.status_text first.now figures.now tree.now) }
{
    let mut out = Text::new(alloc);
    out.put(first);
    put_service(&mut out, figures);
    put_activity(&mut out, figures);
    put_resident(&mut out, figures.resident);
    put_journal(&mut out, figures.journal);
    put_volumes(&mut out, tree);
    out.into_bytes()
}

// How long the service runs, who it serves, and what it has answered.
fn put_service(out: &mut Text, figures: &Figures)
    ensures { Puts (service_lines figures.now) out.old out.new }
{
    put_line(out, b"uptime ", figures.standing.seconds);
    put_line(out, b"clients ", figures.standing.clients as u64);
    put_line(out, b"connections ", figures.standing.joined);
    put_line(out, b"calls ", figures.calls);
    put_line(out, b"calls-per-second ", figures.calls_per_second);
    put_line(out, b"denied ", figures.denied);
}

// What it keeps, and what went through it.
fn put_activity(out: &mut Text, figures: &Figures)
    ensures { Puts (activity_lines figures.now) out.old out.new }
{
    put_line(out, b"mounts ", figures.mounts as u64);
    out.put_field(b"cached-replies ", figures.cached as u64);
    put_line(out, b" of=", figures.places as u64);
    put_line(out, b"received ", figures.traffic.received);
    put_line(out, b"sent ", figures.traffic.sent);
    put_line(out, b"pending ", figures.pending);
    put_line(out, b"dropped-lines ", figures.dropped);
}

fn put_resident(out: &mut Text, resident: Option<u64>)
    ensures { Puts (resident_line resident) out.old out.new }
{
    match resident {
        Some(bytes) => put_line(out, b"memory ", bytes),
        None => out.put(b""),
    }
}

fn put_journal(out: &mut Text, journal: Option<JournalFigures>)
    ensures { Puts (journal_line journal) out.old out.new }
{
    match journal {
        Some(figures) => {
            out.put_field(b"journal ", figures.bytes);
            out.put_field(b" syncs=", figures.syncs);
            put_line(out, b" sync-micros=", figures.sync_micros);
        }
        None => out.put(b""),
    }
}

// A line with a name and a number.
fn put_line(out: &mut Text, name: &[u8], number: u64)
    ensures { Puts (name.now ++ decimal number ++ codes "\n") out.old out.new }
{
    out.put_field(name, number);
    out.put(b"\n");
}

// The lines of all volumes.
fn put_volumes(out: &mut Text, tree: &Tree)
    ensures { Puts (lines_of_first tree.now (length tree.now.volumes)) out.old out.new }
{
    for place in 0..tree.volumes() {
        put_volume_at(out, tree, place);
    }
}

// The line of the volume at a place.
fn put_volume_at(out: &mut Text, tree: &Tree, place: usize)
    ensures { Puts (line_at tree.now place) out.old out.new }
{
    if let (Some(volume), Some(totals)) = (tree.volume(place), tree.totals(place)) {
        put_volume(out, volume, totals);
    }
}

fn put_volume(out: &mut Text, volume: VolumeView<'_>, totals: Totals)
    ensures { Puts (volume_line (volume_seen volume.entry) totals) out.old out.new }
{
    out.put(b"volume ");
    out.put(volume.path);
    out.put_field(b" bytes=", totals.bytes);
    out.put_field(b" of=", volume.max_bytes);
    out.put_field(b" files=", totals.files);
    out.put_field(b" of=", volume.max_files);
    out.put(b"\n");
}
