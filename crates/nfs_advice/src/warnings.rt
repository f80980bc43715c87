//! What a description in order says that its writer may not have meant.
ghost use Rattle.std.specs.Prelude.{◌≡◌, length, take};
ghost use Rattle.std.specs.List.{list_any};
ghost use Rattle.nfs_advice.specs.Open.{is_open_export};

use crate::advice::{Advice, AdviceReason, Remedy};
use crate::earlier::{export_line, first_word};
use crate::line_kind::{LineKind, kind_of};
use crate::span::Span;
use nfs_exports::addr::Addr;
use nfs_exports::export_table::Export;
use nfs_exports::options::Squash;
use nfs_exports::pattern::{Pattern, put_pattern};
use nfs_load::fields::Fields;
use nfs_load::loaded::Loaded;
use nfs_text::line::Line;
use nfs_text::lines::Lines;
use nfs_text::number::decimal;
use nfs_text::words::Words;
use std::alloc::{AllocError, Global};
use std::fmt;

/// What may not be meant.
#[derive(Clone, Copy)]
pub enum WarningReason {
    /// A volume is exported to nobody.
    Unexported,
    /// An earlier pattern covers all that this one does.
    Covered,
    /// A network has bits after those that decide; this is the network.
    HostBits(Pattern),
    /// A mode looks like a decimal number for this one.
    DecimalMode(u32),
    /// A file with a set-id bit stands in a volume in which everybody may be root.
    SetId,
}

/// A warning of a line.
#[derive(Clone, Copy)]
pub struct Warning<'a> {
    /// The line's number, from 1.
    pub line: u64,
    /// What is said of it.
    pub advice: Advice<'a>,
}

impl fmt::Display for WarningReason {
    fn fmt<W: fmt::Write>(&self, f: &mut fmt::Formatter<W>) -> fmt::Result {
        match self {
            WarningReason::Unexported => {
                f.write_str("is exported to nobody; write export PATTERN OPTIONS below it")
            }
            WarningReason::Covered => {
                f.write_str("is never used, since an earlier pattern covers all of it")
            }
            WarningReason::HostBits(network) => {
                let mut line = Line::new();
                put_pattern(&mut line, *network);
                f.write_str("has bits after its mask; the network is ")?;
                f.write_str(str::from_utf8(line.as_slice()).unwrap_or(""))
            }
            WarningReason::DecimalMode(meant) => write!(
                f,
                "is read as octal digits; as a decimal number it would be {meant:04o}"
            ),
            WarningReason::SetId => f.write_str(
                "has a set-id bit, and the volume is exported to * with no_root_squash, where anyone can be root",
            ),
        }
    }
}

/// The warnings of a description, line by line: `loaded` is what its text describes. Refused without
/// memory.
pub fn warnings<'a>(
    alloc: Global,
    text: &'a [u8],
    loaded: &Loaded,
) -> Result<Vec<Warning<'a>>, AllocError> {
    let mut found = Vec::new(alloc);
    let mut place = Location {
        text,
        line: 0,
        volumes: 0,
        exports: 0,
    };
    for line in Lines::new(text) {
        place.line = place.line.saturating_add(1);
        place.look_at(Span::whole(line), loaded, &mut found)?;
    }
    Ok(found)
}

// Where in a description a line stands: after so many volumes, and so many exports of the last.
#[derive(Clone, Copy)]
struct Location<'a> {
    text: &'a [u8],
    line: u64,
    volumes: usize,
    exports: usize,
}

impl<'a> Location<'a> {
    // Adds what is said of a line, which is counted then.
    fn look_at(
        &mut self,
        line: Span<'a>,
        loaded: &Loaded,
        found: &mut Vec<Warning<'a>>,
    ) -> Result<(), AllocError> {
        match kind_of(first_word(line.bytes())) {
            LineKind::Volume => {
                let exports = loaded.table.patterns(self.volumes);
                self.volumes = self.volumes.saturating_add(1);
                self.exports = 0;
                self.add(unexported(line, exports), found)?;
                self.add(decimal_mode(line.word(4)), found)
            }
            LineKind::Export => {
                let exports = loaded.table.patterns(self.volumes.saturating_sub(1));
                let place = self.exports;
                self.exports = place.saturating_add(1);
                self.add(covered(*self, line, exports, place), found)?;
                self.add(host_bits(line, exports, place), found)
            }
            LineKind::Dir => self.add(decimal_mode(line.word(2)), found),
            LineKind::File => {
                let exports = loaded.table.patterns(self.volumes.saturating_sub(1));
                let mode = line.word(2);
                self.add(decimal_mode(mode), found)?;
                self.add(set_id(mode, exports), found)
            }
            _ => Ok(()),
        }
    }

    // Adds what is said of this line, where something is.
    fn add(
        &self,
        advice: Option<Advice<'a>>,
        found: &mut Vec<Warning<'a>>,
    ) -> Result<(), AllocError> {
        match advice {
            Some(advice) => found.push(Warning {
                line: self.line,
                advice,
            })?,
            None => {}
        }
        Ok(())
    }
}

fn unexported<'a>(line: Span<'a>, exports: &[Export]) -> Option<Advice<'a>> {
    if !exports.is_empty() {
        return None;
    }
    let path = line.word(1)?;
    Some(Advice::new(path, AdviceReason::Warning(WarningReason::Unexported)))
}

// A pattern that an earlier one covers whole.
fn covered<'a>(
    above: Location<'a>,
    line: Span<'a>,
    exports: &[Export],
    place: usize,
) -> Option<Advice<'a>> {
    let pattern = exports.get(place)?.pattern;
    let word = line.word(1)?;
    for earlier in 0..place.min(exports.len()) {
        if covers_whole(exports[earlier].pattern, pattern) {
            return Some(Advice::new(word, AdviceReason::Warning(WarningReason::Covered)).with(
                Remedy::Line(export_line(above.text, above.volumes.saturating_sub(1), earlier)),
            ));
        }
    }
    None
}

fn covers_whole(one: Pattern, other: Pattern) -> bool {
    one.bits <= other.bits && one.covers(other.address)
}

// A network of an address with bits after those that decide.
fn host_bits<'a>(line: Span<'a>, exports: &[Export], place: usize) -> Option<Advice<'a>> {
    let pattern = exports.get(place)?.pattern;
    let word = line.word(1)?;
    if pattern.bits >= 32 || !has_bits_after(pattern.address, pattern.bits) {
        return None;
    }
    Some(Advice::new(
        word,
        AdviceReason::Warning(WarningReason::HostBits(pattern)),
    ))
}

fn has_bits_after(address: Addr, bits: u32) -> bool {
    u64::from(address.0) % (1u64 << (32 - bits.min(32))) != 0
}

// The modes that are often meant where their decimal numbers are written, those of octal digits alone.
const MODES: [u32; 8] = [0o777, 0o770, 0o664, 0o660, 0o644, 0o640, 0o555, 0o400];

// A mode that looks like a decimal number.
fn decimal_mode(mode: Option<Span<'_>>) -> Option<Advice<'_>> {
    let word = mode?;
    if word.bytes().len() != 3 {
        return None;
    }
    let number = decimal(word.bytes(), 999)?;
    for mode in &MODES {
        if u64::from(*mode) == number {
            let reason = WarningReason::DecimalMode(*mode);
            return Some(Advice::new(word, AdviceReason::Warning(reason)));
        }
    }
    None
}

// A set-id file in a volume in which everybody may be root.
fn set_id<'a>(mode: Option<Span<'a>>, exports: &[Export]) -> Option<Advice<'a>> {
    let word = mode?;
    if !has_set_id(word) || !is_open(exports) {
        return None;
    }
    Some(Advice::new(word, AdviceReason::Warning(WarningReason::SetId)))
}

// Whether a word is a mode with a set-id bit.
fn has_set_id(word: Span<'_>) -> bool {
    match Fields::new(Words::new(word.bytes())).mode() {
        Ok(mode) => mode & 0o6000 != 0,
        Err(_) => false,
    }
}

/// What `warnings` and `export_line` look at of a line that is in order: all of it where it is that of a volume or an
/// export; what stands up to the mode where that of a directory or a file may be warned of; else no bytes.
pub fn looked_at(line: &[u8]) -> &[u8]
    ensures { result.now ≡ take (length result.now) line.entry.now }
{
    let kind = kind_of(first_word(line));
    if matches!(kind, LineKind::Volume | LineKind::Export) {
        return line;
    }
    match Span::whole(line).word(2) {
        Some(mode) if may_be_warned_of(kind, mode) => {
            let end = (mode.column() - 1).saturating_add(mode.len());
            &line[..end.min(line.len())]
        }
        _ => &[],
    }
}

// Whether a mode in a line of this kind may be warned of.
fn may_be_warned_of(kind: LineKind, mode: Span<'_>) -> bool {
    match kind {
        LineKind::Dir => decimal_mode(Some(mode)).is_some(),
        LineKind::File => decimal_mode(Some(mode)).is_some() || has_set_id(mode),
        _ => false,
    }
}

/// Whether a volume is exported to every address with `no_root_squash`.
pub fn is_open(exports: &[Export]) -> bool
    ensures { result ≡ list_any is_open_export exports.now }
{
    for export in exports {
        if is_open_export(export) {
            return true;
        }
    }
    false
}

// Whether an export is to every address with `no_root_squash`.
fn is_open_export(export: &Export) -> bool
    ensures { result ≡ is_open_export export.now }
{
    match export.options.squash {
        Squash::No => export.pattern.bits == 0,
        Squash::Root | Squash::All => false,
    }
}
