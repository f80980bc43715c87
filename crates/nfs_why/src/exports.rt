//! Who may reach which volume, as exportfs(8) prints it.
ghost use Rattle.std.specs.Prelude.{◌≡◌};
ghost use Rattle.std.specs.List.{flat_map};
ghost use Rattle.nfs_why.specs.Exports as spec;
ghost use Rattle.nfs_why.specs.Exports.{access_text, export_line, exports_text, host_text, options_text, volume_lines};
ghost use Rattle.nfs_words.specs.Texts.{Puts};

use crate::grant::{put_anonymous, put_network};
use nfs_exports::export_table::Export;
use nfs_exports::options::{Options, Squash};
use nfs_exports::pattern::Pattern;
use nfs_load::loaded::Loaded;
use nfs_words::text::Text;

// What follows the empty path: as many blanks as a path is wide, at least, and the end of the column.
const BLANKS: &[u8] = b"              \t";

// What follows a path that is wider.
const LINE_END: &[u8] = b"\n\t\t";

/// Puts a line for each pattern of each volume, in the order of the description, as `exportfs -v` prints
/// it: the volume's path, the pattern, and all options that hold.
pub fn put_exports(out: &mut Text, loaded: &Loaded)
    ensures { Puts (exports_text loaded.now.tree loaded.now.table) out.old out.new }
{
    for place in 0..loaded.tree.volumes() {
        put_volume(out, loaded, place);
    }
}

// The lines of the volume at a place.
fn put_volume(out: &mut Text, loaded: &Loaded, place: usize)
    ensures { Puts (volume_lines loaded.now.tree loaded.now.table place) out.old out.new }
{
    if let Some(volume) = loaded.tree.volume(place) {
        put_patterns(out, volume.path, loaded.table.patterns(place));
    }
}

fn put_patterns(out: &mut Text, path: &[u8], exports: &[Export])
    ensures { Puts (flat_map (export_line path.now) exports.now) out.old out.new }
{
    for export in exports {
        put_export(out, path, export);
    }
}

fn put_export(out: &mut Text, path: &[u8], export: &Export)
    ensures { Puts (export_line path.now export.now) out.old out.new }
{
    out.put(path);
    out.put(gap(path));
    put_host(out, export.pattern);
    put_all_options(out, export.options);
    out.put(b"\n");
}

// What follows a path, so that the pattern stands in the next column.
fn gap(path: &[u8]) -> &'static [u8]
    ensures { result.now ≡ spec.gap path.now }
{
    if path.len() < BLANKS.len() {
        &BLANKS[path.len()..]
    } else {
        LINE_END
    }
}

// A pattern, or that it covers all addresses.
fn put_host(out: &mut Text, pattern: Pattern)
    ensures { Puts (host_text pattern) out.old out.new }
{
    if pattern.bits == 0 {
        out.put(b"<world>");
    } else {
        put_network(out, pattern);
    }
}

// All options that hold, also those without effect.
fn put_all_options(out: &mut Text, options: Options)
    ensures { Puts (options_text options) out.old out.new }
{
    out.put(b"(sync,wdelay,hide,no_subtree_check");
    put_anonymous(out, options);
    out.put(b",sec=sys");
    out.put(access(options.read_only));
    out.put(b",insecure");
    out.put(squash(options.squash));
    out.put(b")");
}

fn access(read_only: bool) -> &'static [u8]
    ensures { result.now ≡ access_text read_only }
{
    if read_only { b",ro" } else { b",rw" }
}

fn squash(squash: Squash) -> &'static [u8]
    ensures { result.now ≡ spec.squash_text squash }
{
    match squash {
        Squash::No => b",no_root_squash,no_all_squash",
        Squash::Root => b",root_squash,no_all_squash",
        Squash::All => b",root_squash,all_squash",
    }
}
