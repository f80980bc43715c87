//! The grant that an address has, and the line of the description that gives it.
ghost use Rattle.nfs_exports.specs.Patterns.{pattern_text};
ghost use Rattle.nfs_why.specs.Exports.{anonymous_text, id_text};
ghost use Rattle.nfs_words.specs.Texts.{Puts};

use nfs_advice::earlier::export_line;
use nfs_exports::addr::{Addr, put_addr};
use nfs_exports::options::{NOBODY, Options, Squash};
use nfs_exports::pattern::{Pattern, put_pattern};
use nfs_load::loaded::Loaded;
use nfs_text::line::Line;
use nfs_words::text::Text;

/// Puts which options an address has at a volume, by which pattern and in which line of the description.
pub(crate) fn put_grant(out: &mut Text, text: &[u8], loaded: &Loaded, volume: usize, addr: Addr) {
    out.put(b"grant: ");
    put_address(out, addr);
    let exports = loaded.table.patterns(volume);
    for place in 0..exports.len() {
        let export = &exports[place];
        if export.pattern.covers(addr) {
            out.put(b" has ");
            put_options(out, &export.options);
            put_volume(out, loaded, volume);
            out.put(b", by ");
            put_network(out, export.pattern);
            out.put(b" in line ");
            out.put_number(export_line(text, volume, place));
            out.put(b"\n");
            return;
        }
    }
    out.put(b" has none");
    put_volume(out, loaded, volume);
    out.put(b", since no pattern covers it\n");
}

// Puts at which volume.
fn put_volume(out: &mut Text, loaded: &Loaded, volume: usize) {
    if let Some(volume) = loaded.tree.volume(volume) {
        out.put(b" at ");
        out.put(volume.path);
    }
}

// Puts options as they hold, those that have an effect.
fn put_options(out: &mut Text, options: &Options) {
    out.put(if options.read_only { b"ro" } else { b"rw" });
    out.put(match options.squash {
        Squash::No => b",no_root_squash".as_slice(),
        Squash::Root => b",root_squash".as_slice(),
        Squash::All => b",all_squash".as_slice(),
    });
    put_anonymous(out, *options);
}

/// Puts the anonymous ids that aren't nobody's.
pub(crate) fn put_anonymous(out: &mut Text, options: Options)
    ensures { Puts (anonymous_text options) out.old out.new }
{
    put_id(out, b",anonuid=", options.anonuid);
    put_id(out, b",anongid=", options.anongid);
}

// Puts an id, unless it is nobody's.
fn put_id(out: &mut Text, name: &[u8], id: u32)
    ensures { Puts (id_text name.now id) out.old out.new }
{
    if id != NOBODY {
        out.put_field(name, u64::from(id));
    }
}

// Puts an address.
fn put_address(out: &mut Text, addr: Addr) {
    let mut line = Line::new();
    put_addr(&mut line, addr);
    out.put(line.as_slice());
}

/// Puts a pattern.
pub(crate) fn put_network(out: &mut Text, pattern: Pattern)
    ensures { Puts (pattern_text pattern) out.old out.new }
{
    let mut line = Line::new();
    put_pattern(&mut line, pattern);
    out.put(line.as_slice());
}
